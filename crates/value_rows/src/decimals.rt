//! What the calls of `decimal18` give on numbers.

ghost use Rattle.std.specs.Prelude.{◌≤◌};

use crate::answer::{Answer, NONE, whether};
use crate::operands::{MOST_SCALE, Operands};
use decimal18::{Dec, Rounding, Size, put_digits};
use std::alloc::{AllocError, Global};
use std::cmp::Ordering;

/// The most digits of a receiver.
const MOST_DIGITS: u8 = 38;

/// The longest text that is written.
const MOST_LENGTH: u8 = 100;

/// A call on two numbers.
#[derive(Clone, Copy)]
pub enum OfTwo {
    Sum,
    Difference,
    Product,
    Quotient,
    Order,
    Equal,
}

/// A call on a number.
#[derive(Clone, Copy)]
pub enum OfOne {
    Negated,
    Absolute,
    Integral,
    Parts,
}

/// What a call answered.
fn answered(answer: Result<Dec, Size>) -> Answer {
    match answer {
        Ok(number) => Answer::Number(number),
        Err(_) => Answer::Word("size error"),
    }
}

fn order_word(order: Ordering) -> &'static str {
    match order {
        Ordering::Less => "Less",
        Ordering::Equal => "Equal",
        Ordering::Greater => "Greater",
    }
}

/// `sum ONE OTHER`, and `difference`, `product`, `quotient`, `order`, `equal`.
pub fn of_two(call: OfTwo, operands: &mut Operands<'_>) -> Answer {
    let one = operands.decimal();
    let other = operands.decimal();
    match call {
        OfTwo::Sum => answered(one.add(other)),
        OfTwo::Difference => answered(one.sub(other)),
        OfTwo::Product => answered(one.mul(other)),
        OfTwo::Quotient => answered(one.div(other)),
        OfTwo::Order => Answer::Word(order_word(one.cmp(&other))),
        OfTwo::Equal => whether(one == other),
    }
}

/// `negated NUMBER`, and `absolute`, `integral`, `parts`.
pub fn of_one(call: OfOne, operands: &mut Operands<'_>) -> Answer {
    let number = operands.decimal();
    match call {
        OfOne::Negated => Answer::Number(-number),
        OfOne::Absolute => Answer::Number(number.abs()),
        OfOne::Integral => integral(number),
        OfOne::Parts => Answer::Parts(number),
    }
}

/// The integer that a number is, or none.
fn integral(number: Dec) -> Answer {
    match number.to_integer() {
        Some(integer) => Answer::Integer(integer),
        None => NONE,
    }
}

/// `truncated NUMBER DECIMALS`
pub fn truncated(operands: &mut Operands<'_>) -> Answer {
    let number = operands.decimal();
    Answer::Number(number.truncated(operands.count(u8::MAX)))
}

/// `digit NUMBER PLACE`: the digit with so many to its right.
pub fn digit(operands: &mut Operands<'_>) -> Answer {
    let number = operands.decimal();
    let digit = number.digit(operands.count(MOST_DIGITS));
    Answer::Integer(i128::from(digit))
}

/// `fit NUMBER DIGITS DECIMALS rounded`, or `truncated`, and `cut`.
pub fn received(is_cut: bool, operands: &mut Operands<'_>) -> Answer {
    let number = operands.decimal();
    let digits = operands.count(MOST_DIGITS);
    let most = if digits < MOST_SCALE {
        digits
    } else {
        MOST_SCALE
    };
    let scale = operands.count(most);
    let rounding = rounding_of(operands.words.takes(b"rounded"));
    if is_cut {
        Answer::Number(number.cut(digits, scale, rounding))
    } else {
        answered(number.fit(digits, scale, rounding))
    }
}

fn rounding_of(is_rounded: bool) -> Rounding {
    if is_rounded {
        Rounding::Rounded
    } else {
        Rounding::Truncated
    }
}

/// `integer NUMBER`
pub fn integer(operands: &mut Operands<'_>) -> Answer {
    answered(Dec::integer(operands.integer()))
}

/// Whether the next word, the sign of a number that is built, is a minus.
fn is_minus(operands: &mut Operands<'_>) -> bool {
    matches!(operands.word(), [b'-'])
}

/// `with_parts SIGN MAGNITUDE DECIMALS`
pub fn with_parts(operands: &mut Operands<'_>) -> Answer {
    let is_negative = is_minus(operands);
    let number = operands.decimal();
    let scale = operands.count(MOST_SCALE);
    if number.scale() > 0 {
        return Answer::NoRow;
    }
    Answer::Number(Dec::from_parts(is_negative, number.magnitude(), scale))
}

/// `with_digits SIGN "DIGITS" DECIMALS`
pub fn with_digits(operands: &mut Operands<'_>) -> Answer {
    let is_negative = is_minus(operands);
    let text = operands.word();
    let scale = operands.count(MOST_SCALE);
    match text {
        [b'"', digits @ .., b'"'] => of_digits(is_negative, digits, scale),
        _ => Answer::NoRow,
    }
}

fn of_digits(is_negative: bool, digits: &[u8], scale: u8) -> Answer
    requires { scale ≤ 18 }
{
    if digits.iter().all(|byte| byte.is_ascii_digit()) {
        return answered(Dec::from_digits(is_negative, digits, scale));
    }
    Answer::NoRow
}

/// `last_digits NUMBER LENGTH`
pub fn last_digits(alloc: Global, operands: &mut Operands<'_>) -> Result<Answer, AllocError> {
    let number = operands.decimal();
    let mut text = points(alloc, operands)?;
    number.digits_into(&mut text);
    Ok(Answer::Bytes(text))
}

/// The same of an integer of 64 bits.
pub fn last_digits_of_64_bits(
    alloc: Global,
    operands: &mut Operands<'_>,
) -> Result<Answer, AllocError> {
    let number = operands.magnitude();
    let mut text = points(alloc, operands)?;
    put_digits(number, &mut text);
    Ok(Answer::Bytes(text))
}

/// As many points as the next word says.
fn points(alloc: Global, operands: &mut Operands<'_>) -> Result<Vec<u8>, AllocError> {
    vec![in alloc; b'.'; usize::from(operands.count(MOST_LENGTH))]
}
