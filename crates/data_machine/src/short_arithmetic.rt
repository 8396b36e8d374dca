//! What operators make of numbers of 64 bits, and their order, where 64 bits are enough.

ghost use Rattle.std.specs.Prelude.{◌≡◌, ◌≤◌, pos, IfSome, Ok, Some};
ghost use Rattle.decimal18.specs.Fraction.{aligned_coefficient};
ghost use Rattle.decimal18.specs.Arithmetic.{sum, difference, product};
ghost use Rattle.decimal18.specs.Order.{order};
ghost use Rattle.source_tree.specs.Computed as computed;

use crate::short::Short;
use decimal18::{Dec, signed_power};
use source_tree::Operator;
use std::cmp::Ordering;

/// The greatest scale of a number.
const MOST_SCALE: u8 = 18;

/// What an operator makes of two numbers. No quotient is found here.
#[inline(always)]
pub(crate) fn short_result(operator: Operator, left: Short, right: Short) -> Option<Short>
    ensures { IfSome result (λ x. computed.operate operator (Some left) (Some right) ≡ Some x) }
{
    match operator {
        Operator::Add => short_sum(left, right),
        Operator::Subtract => short_difference(left, right),
        Operator::Multiply => short_product(left, right),
        Operator::Divide => None,
    }
}

/// The order of a number and an integer.
#[inline(always)]
pub(crate) fn integer_order(x: Short, integer: u32) -> Ordering
    ensures { result ≡ order x (record { coefficient = pos integer; scale = 0 }) }
{
    match aligned(Short::new(i64::from(integer), 0), x.scale()) {
        Some(other) => x.coefficient().cmp(&other),
        None => long_order(x.coefficient(), x.scale(), integer),
    }
}

/// The order of two numbers.
#[inline(always)]
pub(crate) fn short_order(left: Short, right: Short) -> Ordering
    ensures { result ≡ order left right }
{
    if left.scale() == right.scale() {
        return order_at_scale(left, right);
    }
    decimal_order(left, right)
}

/// The order of two numbers with as many decimals.
#[inline(always)]
fn order_at_scale(left: Short, right: Short) -> Ordering
    requires { left.scale ≡ right.scale }
    ensures { result ≡ order left right }
{
    left.coefficient().cmp(&right.coefficient())
}

/// The order of two numbers, by decimals.
#[inline(never)]
fn decimal_order(left: Short, right: Short) -> Ordering
    ensures { result ≡ order left right }
{
    left.decimal().cmp(&right.decimal())
}

/// The coefficient of a number at a scale that is not less.
#[inline(always)]
#[tactic(auto, using(decimal18::proofs::ShortArithmetic::aligned_same, decimal18::proofs::ShortArithmetic::aligned_by))]
fn aligned(x: Short, scale: u8) -> Option<i64>
    requires above { x.scale ≤ scale }
    requires most { scale ≤ 18 }
    ensures { IfSome result (λ coefficient. coefficient ≡ aligned_coefficient x scale) }
{
    let coefficient = x.coefficient();
    let zeros = scale - x.scale();
    if zeros == 0 {
        return Some(coefficient);
    }
    coefficient.checked_mul(signed_power(zeros))
}

/// The exact sum.
#[inline(always)]
fn short_sum(left: Short, right: Short) -> Option<Short>
    ensures { IfSome result (λ total. Ok total ≡ sum left right) }
{
    let scale = left.scale().max(right.scale());
    let Some(one) = aligned(left, scale) else {
        return None;
    };
    let Some(other) = aligned(right, scale) else {
        return None;
    };
    match one.checked_add(other) {
        Some(total) => Some(Short::new(total, scale)),
        None => None,
    }
}

/// The exact difference.
#[inline(always)]
fn short_difference(left: Short, right: Short) -> Option<Short>
    ensures { IfSome result (λ rest. Ok rest ≡ difference left right) }
{
    let scale = left.scale().max(right.scale());
    let Some(one) = aligned(left, scale) else {
        return None;
    };
    let Some(other) = aligned(right, scale) else {
        return None;
    };
    match one.checked_sub(other) {
        Some(rest) => Some(Short::new(rest, scale)),
        None => None,
    }
}

/// The exact product, where it has at most 18 decimals.
#[inline(always)]
fn short_product(left: Short, right: Short) -> Option<Short>
    ensures { IfSome result (λ times. Ok times ≡ product left right) }
{
    let scale = left.scale() + right.scale();
    if scale > MOST_SCALE {
        return None;
    }
    match left.coefficient().checked_mul(right.coefficient()) {
        Some(times) => Some(Short::new(times, scale)),
        None => None,
    }
}

/// The order of a number and an integer, by decimals.
#[cold]
#[inline(never)]
fn long_order(coefficient: i64, scale: u8, integer: u32) -> Ordering
    requires { scale ≤ 18 }
    ensures { result ≡ order (record { coefficient = coefficient; scale = scale })
        (record { coefficient = pos integer; scale = 0 }) }
{
    Dec::short(coefficient, scale).cmp(&Dec::short(i64::from(integer), 0))
}
