//! What receivers keep of numbers of 64 bits that fit, and the bytes in which they hold them.

ghost use Rattle.std.specs.Prelude.{◌≡◌, ◌+◌, ◌-◌, ◌<◌, ◌≤◌, ◌^◌, length, nat_le, pos, unsigned_abs, IfSome, Ok, Some, if◌then◌else◌};
ghost use Rattle.decimal18.specs.Fraction.{is_negative};
ghost use Rattle.items.specs.Display.{display_bytes};
ghost use Rattle.decimal18.specs.Receiver.{fitted_decimal};
ghost use Rattle.items.specs.declared.usage.Usage.TheVariants as usage;
ghost use Rattle.items.specs.declared.usage.OperationalSign.TheVariants as sign;
ghost use Rattle.items.specs.Items.{IsItem};
ghost use Rattle.items.specs.Numbers.{IsNumeric, length_of};
ghost use Rattle.items.specs.Values.{value_of, bytes_of};
ghost use Rattle.source_tree.specs.Arithmetic.{held_by, rounding_of};
ghost use Rattle.source_tree.specs.Computed as computed;
ghost use Rattle.data_machine.specs.KeptAtScale.{at_scale, FitsDigits, bytes_at_scale, KeepsAs};
ghost use Rattle.data_machine.specs.Writing.{with_part};

use crate::fitting::rounding;
use crate::rescaling::{rescaled, signed};
use crate::short::Short;
use crate::short_arithmetic::short_result;
use data_instructions::DataItem;
use decimal18::{Dec, number_after, put_digits, short_power};
use items::{Kind, Numeric, OperationalSign, Usage, number, store};
use source_tree::Operator;

/// What a minus adds to the byte of the digit that carries it.
const MINUS_MARK: u8 = 0x40;

/// The byte of the digit 0 that carries a minus.
const MARKED_ZERO: u8 = b'0' + MINUS_MARK;

/// The number in the bytes of a numeric item, if they hold one. Items in DISPLAY usage that have no sign, or have it in the
/// last digit, take a shorter way.
#[inline(always)]
pub(crate) fn short_number(item: Numeric, bytes: &[u8]) -> Option<Short>
    requires item { IsNumeric item }
    requires length { length bytes.now ≡ length_of item }
    ensures { result ≡ value_of item bytes.now }
{
    match item.usage {
        Usage::Display(OperationalSign::Unsigned) => unsigned_number(item, bytes),
        Usage::Display(OperationalSign::Trailing) => trailing_number(item, bytes),
        _ => any_number(item, bytes),
    }
}

/// The number in the bytes of an unsigned item in DISPLAY usage, if they are digits.
#[inline(always)]
fn unsigned_number(item: Numeric, bytes: &[u8]) -> Option<Short>
    requires item { IsNumeric item }
    requires unsigned { item.usage ≡ usage.Display sign.Unsigned }
    requires length { length bytes.now ≡ length_of item }
    ensures { result ≡ value_of item bytes.now }
{
    match number_after(0, bytes) {
        Some(digits) => Some(whole_number(digits, item.scale)),
        None => None,
    }
}

/// The number in the bytes of an item in DISPLAY usage whose sign is with its last digit, if they hold one.
#[inline(always)]
fn trailing_number(item: Numeric, bytes: &[u8]) -> Option<Short>
    requires item { IsNumeric item }
    requires trailing { item.usage ≡ usage.Display sign.Trailing }
    requires length { length bytes.now ≡ length_of item }
    ensures { result ≡ value_of item bytes.now }
{
    let [front @ .., last] = bytes else {
        return None;
    };
    let digit = unmarked(*last);
    if !digit.is_ascii_digit() {
        return None;
    }
    match number_after(0, front) {
        Some(front) => {
            let digits = 10 * front + u64::from(digit - b'0');
            Some(Short::new(signed(*last >= MARKED_ZERO, digits), item.scale))
        }
        None => None,
    }
}

/// The byte of a digit without the minus that it may carry.
#[inline(always)]
fn unmarked(byte: u8) -> u8
    ensures { result ≡ (if nat_le 112 byte then byte - 64 else byte) }
{
    if byte >= MARKED_ZERO {
        byte - MINUS_MARK
    } else {
        byte
    }
}

/// The number in the bytes of a numeric item, if they hold one.
#[inline(always)]
fn any_number(item: Numeric, bytes: &[u8]) -> Option<Short>
    requires item { IsNumeric item }
    requires length { length bytes.now ≡ length_of item }
    ensures { result ≡ value_of item bytes.now }
{
    match number(item, bytes) {
        Some(x) => Some(Short::held(item, x)),
        None => None,
    }
}

/// The number with these digits, so many of them decimals.
#[inline(always)]
fn whole_number(digits: u64, scale: u8) -> Short
    requires digits { digits < 10 ^ 18 }
    requires scale { scale ≤ 18 }
    ensures { result ≡ record { coefficient = pos digits; scale = scale } }
{
    Short::new(signed(false, digits), scale)
}

/// The coefficient that a receiver of so many digits, `scale` of them decimals, keeps of a number that fits.
#[inline(always)]
#[tactic(auto, using(crate::proofs::ShortNumbers::fitted_same))]
pub(crate) fn short_fitted(x: Short, digits: u8, scale: u8, rounded: bool) -> Option<i64>
    requires digits { digits ≤ 18 }
    requires decimals { scale ≤ digits }
    ensures fits { IfSome result (λ n. fitted_decimal x digits scale (rounding_of rounded)
        ≡ Ok (record { coefficient = n; scale = scale })) }
    ensures digits { IfSome result (λ n. unsigned_abs n < 10 ^ digits) }
{
    let coefficient = x.coefficient();
    if x.scale() != scale {
        return rescaled(coefficient, x.scale(), digits, scale, rounding(rounded));
    }
    if coefficient.unsigned_abs() < short_power(digits) {
        Some(coefficient)
    } else {
        None
    }
}

/// The coefficient that a numeric item keeps of a number that fits.
#[inline(always)]
fn fitted_as(one: &DataItem, x: Short, rounded: bool) -> Option<i64>
    requires form { IsItem one.now.item }
    ensures { IfSome result (λ n. KeepsAs one.now.item.kind rounded (Some x) n) }
{
    let Kind::Numeric(item) = one.item.kind else {
        return None;
    };
    short_fitted(x, item.digits, item.scale, rounded)
}

/// The same of what an operator makes of two numbers.
#[inline(always)]
pub(crate) fn result_fitted_as(
    one: &DataItem,
    operator: Operator,
    left: Short,
    right: Short,
    rounded: bool,
) -> Option<i64>
    requires form { IsItem one.now.item }
    ensures { IfSome result (λ n.
        KeepsAs one.now.item.kind rounded (computed.operate operator (Some left) (Some right)) n) }
{
    match short_result(operator, left, right) {
        Some(x) => fitted_as(one, x, rounded),
        None => None,
    }
}

/// The same of what was computed.
#[inline(always)]
pub(crate) fn computed_fitted_as(one: &DataItem, number: &Option<Dec>, rounded: bool) -> Option<i64>
    requires form { IsItem one.now.item }
    ensures { IfSome result (λ n. KeepsAs one.now.item.kind rounded number.now n) }
{
    let Some(number) = *number else {
        return None;
    };
    match Short::of(number) {
        Some(x) => fitted_as(one, x, rounded),
        None => None,
    }
}

/// The coefficient that an item holds of one; without S the absolute value.
#[inline(always)]
fn held_coefficient(item: Numeric, coefficient: i64) -> i64
    requires item { IsNumeric item }
    requires digits { unsigned_abs coefficient < 10 ^ item.digits }
    ensures { at_scale item result ≡ held_by item (at_scale item coefficient) }
{
    if item.is_signed() {
        coefficient
    } else {
        coefficient.unsigned_abs() as i64
    }
}

/// Writes a coefficient at the item's scale; without S the absolute value.
#[inline(always)]
pub(crate) fn put_short(item: Numeric, coefficient: i64, bytes: &mut [u8])
    requires item { IsNumeric item }
    requires length { length bytes.old ≡ length_of item }
    requires digits { unsigned_abs coefficient < 10 ^ item.digits }
    ensures { bytes.new ≡ bytes_of item (held_by item (at_scale item coefficient)) }
{
    if let Usage::Display(sign) = item.usage {
        if let OperationalSign::Unsigned = sign {
            return put_digits(coefficient.unsigned_abs(), bytes);
        }
        if let OperationalSign::Trailing = sign {
            return put_trailing(coefficient, bytes);
        }
    }
    let held = held_coefficient(item, coefficient);
    store(item, Dec::short(held, item.scale), bytes);
}

/// Writes digits, the last of which carries the minus, if there is one. It is kept out of its caller, which needs few registers
/// then.
#[inline(never)]
fn put_trailing(coefficient: i64, bytes: &mut [u8])
    requires { 1 ≤ length bytes.old }
    ensures { bytes.new ≡ display_bytes sign.Trailing (length bytes.old) (is_negative coefficient)
        (unsigned_abs coefficient) }
{
    let last = bytes.len() - 1;
    put_digits(coefficient.unsigned_abs(), bytes);
    if coefficient < 0 {
        bytes[last] += MINUS_MARK;
    }
}

/// The same in an item at an offset in its area: the other bytes stay.
#[inline(always)]
pub(crate) fn put_short_part(one: &DataItem, area: &mut [u8], offset: usize, coefficient: i64)
    requires form { IsItem one.now.item }
    requires digits { FitsDigits one.now.item.kind coefficient }
    requires within { offset + one.now.item.length ≤ length area.old }
    ensures { area.new ≡ with_part area.old offset one.now.item.length
        (bytes_at_scale one.now.item.kind coefficient) }
{
    if let Kind::Numeric(item) = one.item.kind {
        let end = offset + one.item.length as usize;
        put_short(item, coefficient, &mut area[offset..end]);
    }
}
