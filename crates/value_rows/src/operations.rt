//! Which operation a row is about.

use crate::answer::Answer;
use crate::decimals::{OfOne, OfTwo};
use crate::operands::Operands;
use crate::pictures::Asked;
use crate::{decimals, moves, numbers, pictures};
use row_scripts::look_up;
use std::alloc::{AllocError, Global};

/// What a row gives.
pub fn given(alloc: Global, row: &[u8]) -> Result<Answer, AllocError> {
    let mut operands = Operands::of(row);
    let answer = computed(alloc, &mut operands);
    if operands.is_wrong() {
        drop(answer);
        return Ok(Answer::NoRow);
    }
    answer
}

fn computed(alloc: Global, operands: &mut Operands<'_>) -> Result<Answer, AllocError> {
    match look_up(&OPERATIONS, operands.word()) {
        Some(Operation::OnNumbers(operation)) => Ok(on_numbers(operation, operands)),
        Some(Operation::OnBytes(operation)) => on_bytes(alloc, operation, operands),
        Some(Operation::Picture(asked)) => pictures::told_of(alloc, asked, operands),
        Some(Operation::Runs) => pictures::of_runs(alloc, operands),
        None => Ok(Answer::NoRow),
    }
}

fn on_numbers(operation: OnNumbers, operands: &mut Operands<'_>) -> Answer {
    match operation {
        OnNumbers::OfTwo(call) => decimals::of_two(call, operands),
        OnNumbers::OfOne(call) => decimals::of_one(call, operands),
        OnNumbers::Truncated => decimals::truncated(operands),
        OnNumbers::Digit => decimals::digit(operands),
        OnNumbers::Fit => decimals::received(false, operands),
        OnNumbers::Cut => decimals::received(true, operands),
        OnNumbers::Integer => decimals::integer(operands),
        OnNumbers::WithParts => decimals::with_parts(operands),
        OnNumbers::WithDigits => decimals::with_digits(operands),
    }
}

fn on_bytes(
    alloc: Global,
    operation: OnBytes,
    operands: &mut Operands<'_>,
) -> Result<Answer, AllocError> {
    match operation {
        OnBytes::LastDigits => decimals::last_digits(alloc, operands),
        OnBytes::LastDigitsOf64Bits => decimals::last_digits_of_64_bits(alloc, operands),
        OnBytes::Bytes => numbers::bytes_of(alloc, operands),
        OnBytes::BytesAtEachScale => numbers::bytes_at_each_scale(alloc, operands),
        OnBytes::Number => numbers::number_in(alloc, operands),
        OnBytes::BytesAt => numbers::bytes_at(alloc, operands),
        OnBytes::Permitted => moves::permitted(alloc, operands),
        OnBytes::Moved => moves::moved(alloc, operands),
        OnBytes::Initial => moves::initial(alloc, operands),
    }
}

/// An operation.
#[derive(Clone, Copy)]
enum Operation {
    OnNumbers(OnNumbers),
    OnBytes(OnBytes),
    Picture(Asked),
    Runs,
}

/// An operation on numbers that gives one.
#[derive(Clone, Copy)]
enum OnNumbers {
    OfTwo(OfTwo),
    OfOne(OfOne),
    Truncated,
    Digit,
    Fit,
    Cut,
    Integer,
    WithParts,
    WithDigits,
}

/// An operation that gives bytes or reads them, or reads an entry.
#[derive(Clone, Copy)]
enum OnBytes {
    LastDigits,
    LastDigitsOf64Bits,
    Bytes,
    BytesAtEachScale,
    Number,
    BytesAt,
    Permitted,
    Moved,
    Initial,
}

const OPERATIONS: [(&[u8], Operation); 31] = [
    (b"sum", Operation::OnNumbers(OnNumbers::OfTwo(OfTwo::Sum))),
    (
        b"difference",
        Operation::OnNumbers(OnNumbers::OfTwo(OfTwo::Difference)),
    ),
    (
        b"product",
        Operation::OnNumbers(OnNumbers::OfTwo(OfTwo::Product)),
    ),
    (
        b"quotient",
        Operation::OnNumbers(OnNumbers::OfTwo(OfTwo::Quotient)),
    ),
    (
        b"order",
        Operation::OnNumbers(OnNumbers::OfTwo(OfTwo::Order)),
    ),
    (
        b"equal",
        Operation::OnNumbers(OnNumbers::OfTwo(OfTwo::Equal)),
    ),
    (
        b"negated",
        Operation::OnNumbers(OnNumbers::OfOne(OfOne::Negated)),
    ),
    (
        b"absolute",
        Operation::OnNumbers(OnNumbers::OfOne(OfOne::Absolute)),
    ),
    (
        b"parts",
        Operation::OnNumbers(OnNumbers::OfOne(OfOne::Parts)),
    ),
    (
        b"integral",
        Operation::OnNumbers(OnNumbers::OfOne(OfOne::Integral)),
    ),
    (b"truncated", Operation::OnNumbers(OnNumbers::Truncated)),
    (b"digit", Operation::OnNumbers(OnNumbers::Digit)),
    (b"fit", Operation::OnNumbers(OnNumbers::Fit)),
    (b"cut", Operation::OnNumbers(OnNumbers::Cut)),
    (b"integer", Operation::OnNumbers(OnNumbers::Integer)),
    (b"with_parts", Operation::OnNumbers(OnNumbers::WithParts)),
    (b"with_digits", Operation::OnNumbers(OnNumbers::WithDigits)),
    (b"last_digits", Operation::OnBytes(OnBytes::LastDigits)),
    (
        b"last_digits_of_64_bits",
        Operation::OnBytes(OnBytes::LastDigitsOf64Bits),
    ),
    (b"bytes", Operation::OnBytes(OnBytes::Bytes)),
    (
        b"bytes_at_each_scale",
        Operation::OnBytes(OnBytes::BytesAtEachScale),
    ),
    (b"number", Operation::OnBytes(OnBytes::Number)),
    (b"bytes_at", Operation::OnBytes(OnBytes::BytesAt)),
    (b"permitted", Operation::OnBytes(OnBytes::Permitted)),
    (b"moved", Operation::OnBytes(OnBytes::Moved)),
    (b"initial", Operation::OnBytes(OnBytes::Initial)),
    (b"picture", Operation::Picture(Asked::Summary)),
    (b"places", Operation::Picture(Asked::Places)),
    (b"region", Operation::Picture(Asked::Region)),
    (b"spelling", Operation::Picture(Asked::Spelling)),
    (b"runs", Operation::Runs),
];
