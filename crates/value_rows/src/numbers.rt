//! The bytes of numbers, and the numbers of bytes.

ghost use Rattle.std.specs.Prelude.{◌≤◌, IfSome};
ghost use Rattle.items.specs.Numbers.{IsNumeric, CanHold};

use crate::answer::{Answer, NONE};
use crate::entry::numeric;
use crate::operands::Operands;
use decimal18::{Dec, Rounding};
use items::{Numeric, number, store};
use std::alloc::{AllocError, Global};

/// `bytes NUMBER ENTRY`
pub fn bytes_of(alloc: Global, operands: &mut Operands<'_>) -> Result<Answer, AllocError> {
    let number = operands.decimal();
    let item = numeric(alloc, operands)?;
    Ok(match stored(alloc, item, number)? {
        Some(bytes) => Answer::Bytes(bytes),
        None => Answer::NoRow,
    })
}

/// `number BYTES ENTRY`
pub fn number_in(alloc: Global, operands: &mut Operands<'_>) -> Result<Answer, AllocError> {
    let text = operands.word();
    let item = numeric(alloc, operands)?;
    let bytes = operands.bytes(alloc, text)?;
    let answer = number_answer(item, &bytes);
    drop(bytes);
    Ok(answer)
}

fn number_answer(item: Numeric, bytes: &[u8]) -> Answer
    requires { IsNumeric item }
{
    if bytes.len() != item.length() {
        return Answer::NoRow;
    }
    match number(item, bytes) {
        Some(number) => Answer::Number(number),
        None => NONE,
    }
}

/// `bytes_at_each_scale INTEGER ENTRY`: the bytes of the integer, where the entry's digits hold it with any number of decimals in
/// the same bytes, and these are read as it again.
pub fn bytes_at_each_scale(
    alloc: Global,
    operands: &mut Operands<'_>,
) -> Result<Answer, AllocError> {
    let Ok(integer) = i64::try_from(operands.integer()) else {
        return Ok(Answer::NoRow);
    };
    let item = numeric(alloc, operands)?;
    let Some(first) = there_and_back(alloc, item, 0, integer)? else {
        return Ok(Answer::Word("no way back"));
    };
    match is_same_at_each_scale(alloc, item, integer, &first) {
        Ok(true) => Ok(Answer::Bytes(first)),
        Ok(false) => Ok(Answer::Word("other bytes with other decimals")),
        Err(error) => Err(error),
    }
}

/// Whether the bytes of an integer are these with any number of decimals.
fn is_same_at_each_scale(
    alloc: Global,
    item: Numeric,
    integer: i64,
    first: &[u8],
) -> Result<bool, AllocError>
    requires { IsNumeric item }
{
    for decimals in 0..item.digits {
        if !is_same_at(alloc, item, decimals + 1, integer, first)? {
            return Ok(false);
        }
    }
    Ok(true)
}

fn is_same_at(
    alloc: Global,
    item: Numeric,
    scale: u8,
    integer: i64,
    first: &[u8],
) -> Result<bool, AllocError>
    requires item { IsNumeric item }
    requires scale { scale ≤ item.digits }
{
    match there_and_back(alloc, item, scale, integer)? {
        Some(bytes) => Ok(bytes.as_slice() == first),
        None => Ok(false),
    }
}

/// `bytes_at BYTES PLACE ENTRY`: the bytes at that place, counted from 0, with which all are a number.
pub fn bytes_at(alloc: Global, operands: &mut Operands<'_>) -> Result<Answer, AllocError> {
    let text = operands.word();
    let place = operands.count(u8::MAX);
    let item = numeric(alloc, operands)?;
    let mut text = operands.bytes(alloc, text)?;
    if text.len() != item.length() {
        operands.refuse();
    }
    let found = bytes_with(alloc, item, usize::from(place), &mut text);
    drop(text);
    Ok(Answer::Bytes(found?))
}

/// The bytes at a place of a text with which it is a number.
fn bytes_with(
    alloc: Global,
    item: Numeric,
    place: usize,
    text: &mut [u8],
) -> Result<Vec<u8>, AllocError>
    requires { IsNumeric item }
{
    let mut found = Vec::new(alloc);
    for byte in 0..=u8::MAX {
        put_at(text, place, byte);
        if number_of(item, text).is_some() {
            found.push(byte)?;
        }
    }
    Ok(found)
}

/// The number as the item holds it.
fn held(item: Numeric, x: Dec) -> Option<Dec>
    requires { IsNumeric item }
    ensures { IfSome result (CanHold item) }
{
    match x.fit(item.digits, item.scale, Rounding::Truncated) {
        Ok(number) if item.is_signed() || !number.is_negative() => Some(number),
        _ => None,
    }
}

/// The bytes in which the item holds a number.
fn stored(alloc: Global, item: Numeric, x: Dec) -> Result<Option<Vec<u8>>, AllocError>
    requires { IsNumeric item }
{
    let Some(held) = held(item, x) else {
        return Ok(None);
    };
    let mut bytes = vec![in alloc; 0u8; item.length()]?;
    store(item, held, &mut bytes);
    Ok(Some(bytes))
}

/// The number in the bytes, if they are as many as the item has.
fn number_of(item: Numeric, bytes: &[u8]) -> Option<Dec>
    requires { IsNumeric item }
{
    if bytes.len() == item.length() {
        number(item, bytes)
    } else {
        None
    }
}

/// The bytes of an integer that has so many decimals, if they are read as it again.
fn there_and_back(
    alloc: Global,
    item: Numeric,
    scale: u8,
    integer: i64,
) -> Result<Option<Vec<u8>>, AllocError>
    requires item { IsNumeric item }
    requires scale { scale ≤ item.digits }
{
    let item = Numeric { scale, ..item };
    let there = Dec::short(integer, scale);
    match stored(alloc, item, there)? {
        Some(bytes) if is_read_as(item, &bytes, there) => Ok(Some(bytes)),
        _ => Ok(None),
    }
}

fn is_read_as(item: Numeric, bytes: &[u8], there: Dec) -> bool
    requires { IsNumeric item }
{
    match number_of(item, bytes) {
        Some(back) => back.coefficient() == there.coefficient() && back.scale() == there.scale(),
        None => false,
    }
}

/// Puts a byte at a place, if it is there.
fn put_at(text: &mut [u8], place: usize, byte: u8) {
    if let Some(there) = text.get_mut(place) {
        *there = byte;
    }
}
