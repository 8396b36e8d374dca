//! Comparison of operands.

ghost use Rattle.std.specs.Prelude.{◌≡◌, ◌&&◌, length, false, option_map};
ghost use Rattle.std.specs.Option.{ok_or};
ghost use Rattle.std.specs.Ordering.{ordering_reverse};
ghost use Rattle.decimal18.specs.Order.{order};
ghost use Rattle.items.specs.Faults.{data_fault};
ghost use Rattle.items.specs.Items.{HasLengthOf, IsTaken};
ghost use Rattle.items.specs.Texts.{characters, characters_in, plain_bytes};
ghost use Rattle.text_ops.specs.Compare as spec;

use crate::digits::{MOST_DIGITS, put_all_digits};
use crate::text_order::{order_beside_character, order_beside_repeated, order_of_texts};
use decimal18::Dec;
use items::{DataFault, Figurative, Item, Kind, Numeric, Taken, number, numbers_are_held};
use std::cmp::Ordering;

/// The order of two operands (COBOL-85, Nucleus, relation conditions): of two numbers by their values, of others by their
/// characters. Bytes of a numeric item that are no number are a fault.
#[tactic(auto, unfolding(crate::specs::Compare::comparison_of))]
pub fn compare(one: Taken, ones: &[u8], other: Taken, others: &[u8]) -> Result<Ordering, DataFault>
    requires one { IsTaken one ones.now }
    requires other { IsTaken other others.now }
    ensures { result ≡ ok_or (spec.comparison_of one ones.now other others.now) data_fault }
{
    let order = if is_number(one) && is_number(other) {
        order_of_numbers(one, ones, other, others)
    } else {
        order_of_characters(one, ones, other, others)
    };
    order.ok_or(DataFault)
}

fn is_numeric_item(taken: Taken) -> bool
    ensures { result ≡ spec.is_numeric_item taken }
{
    match taken {
        Taken::Item(item) => matches!(item.kind, Kind::Numeric(_)),
        _ => false,
    }
}

/// The operand is a number. ZERO is one beside a number.
fn is_number(taken: Taken) -> bool
    ensures { result ≡ spec.is_number_operand taken }
{
    match taken {
        Taken::Item(item) => matches!(item.kind, Kind::Numeric(_)),
        Taken::Figurative(constant) => matches!(constant, Figurative::Zero),
        Taken::All => false,
    }
}

/// The number of an operand; of a constant zero.
fn number_of(taken: Taken, bytes: &[u8]) -> Option<Dec>
    requires { IsTaken taken bytes.now }
    ensures { result ≡ spec.operand_number taken bytes.now }
{
    match taken {
        Taken::Item(item) => match item.kind {
            Kind::Numeric(numeric) => number(numeric, bytes),
            _ => None,
        },
        _ => Some(Dec::new(0, 0)),
    }
}

/// The order of two numbers by their values.
fn order_of_numbers(one: Taken, ones: &[u8], other: Taken, others: &[u8]) -> Option<Ordering>
    requires one { IsTaken one ones.now }
    requires other { IsTaken other others.now }
    ensures { result ≡ spec.both order (spec.operand_number one ones.now)
        (spec.operand_number other others.now) }
{
    let left = number_of(one, ones)?;
    let right = number_of(other, others)?;
    Some(left.cmp(&right))
}

/// The order of a text beside an operand by its bytes; a constant and ALL are repeated to the text's size.
fn order_beside(text: &[u8], beside: Taken, bytes: &[u8]) -> Ordering
    requires { IsTaken beside bytes.now }
    ensures { result
        ≡ spec.order_of_texts text.now (plain_bytes beside bytes.now (length text.now)) }
{
    match beside {
        Taken::Item(_) => order_of_texts(text, bytes),
        Taken::Figurative(constant) => order_beside_character(text, constant.character()),
        Taken::All => order_beside_repeated(text, bytes),
    }
}

/// The order of an item's characters, a number's digits, beside an operand by its bytes.
fn order_of_item(item: Item, ones: &[u8], beside: Taken, others: &[u8]) -> Option<Ordering>
    requires item { HasLengthOf item ones.now }
    requires beside { IsTaken beside others.now }
    ensures { result ≡ option_map
        (λ text. spec.order_of_texts text
        (plain_bytes beside others.now (spec.size_in item.kind item.length)))
        (characters_in item.kind ones.now) }
{
    let Kind::Numeric(numeric) = item.kind else {
        return Some(order_beside(ones, beside, others));
    };
    let x = number(numeric, ones)?;
    numbers_are_held();
    let mut room = [0; MOST_DIGITS];
    let (digits, _) = room.split_at_mut(numeric.digits as usize);
    put_all_digits(x, digits);
    Some(order_beside(digits, beside, others))
}

/// The order of an operand by its bytes before an item's characters.
fn order_behind(one: Taken, ones: &[u8], item: Item, others: &[u8]) -> Option<Ordering>
    requires one { IsTaken one ones.now }
    requires item { HasLengthOf item others.now }
    ensures { result ≡ option_map ordering_reverse (option_map
        (λ text. spec.order_of_texts text
        (plain_bytes one ones.now (spec.size_in item.kind item.length)))
        (characters_in item.kind others.now)) }
{
    let order = order_of_item(item, others, one, ones)?;
    Some(order.reverse())
}

/// The order of an operand that is no numeric item and another one, by their characters.
fn order_of_plain(plain: Taken, bytes: &[u8], other: Taken, others: &[u8]) -> Option<Ordering>
    requires plain { IsTaken plain bytes.now }
    requires other { IsTaken other others.now }
    requires kind { spec.is_numeric_item plain ≡ false }
    ensures { result ≡ spec.both spec.order_of_texts
        (characters plain bytes.now (spec.size_of other others.now))
        (characters other others.now (spec.size_of plain bytes.now)) }
{
    match other {
        Taken::Item(item) => order_behind(plain, bytes, item, others),
        _ => match plain {
            Taken::Item(item) => order_of_item(item, bytes, other, others),
            _ => Some(Ordering::Equal),
        },
    }
}

/// The order of two operands, not both numbers, by their characters.
fn order_of_characters(one: Taken, ones: &[u8], other: Taken, others: &[u8]) -> Option<Ordering>
    requires one { IsTaken one ones.now }
    requires other { IsTaken other others.now }
    requires kinds { (spec.is_number_operand one && spec.is_number_operand other) ≡ false }
    ensures { result ≡ spec.both spec.order_of_texts
        (characters one ones.now (spec.size_of other others.now))
        (characters other others.now (spec.size_of one ones.now)) }
{
    if is_numeric_item(other) {
        return order_of_plain(one, ones, other, others);
    }
    let order = order_of_plain(other, others, one, ones)?;
    Some(order.reverse())
}
