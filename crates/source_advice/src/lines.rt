//! The lines of a source text as they are shown.

ghost use Rattle.std.specs.Prelude.{◌≡◌, [], drop, get_or, take, IfOk, OnOk};
ghost use Rattle.source_lines.specs.Cut.{lines};
ghost use Rattle.source_advice.specs.Lines as spec;

use memchr::memchr;
use std::alloc::{AllocError, Global};

/// How many columns of a line are shown.
const MOST_COLUMNS: usize = 100;

/// A tab leads to the next column that follows a multiple of eight.
const SPACES: [u8; 8] = *b"        ";

/// The bytes of a line, counted from 1, without its end: none if there is no such line.
pub fn line_of(source: &[u8], number: u32) -> &[u8]
    ensures { result.now ≡ spec.line_of source.now number }
{
    let mut rest = source;
    for _ in 1..number {
        rest = after_line(rest);
    }
    line_at(rest)
}

/// What is after the first line.
fn after_line(rest: &[u8]) -> &[u8]
    ensures { lines result.now ≡ drop 1 (lines rest.now) }
{
    match memchr(b'\n', rest) {
        Some(end) => &rest[end + 1..],
        None => &[],
    }
}

/// The first line, without its end.
fn line_at(rest: &[u8]) -> &[u8]
    ensures { result.now ≡ get_or (lines rest.now) 0 [] }
{
    match memchr(b'\n', rest) {
        Some(end) => without_return(&rest[..end]),
        None => rest,
    }
}

/// A line without the carriage return at its end.
fn without_return(line: &[u8]) -> &[u8]
    ensures { result.now ≡ spec.without_return line.now }
{
    match line {
        [front @ .., b'\r'] => front,
        _ => line,
    }
}

/// The first 100 columns of a line, with spaces for tabs, and `?` for bytes that aren't printable ASCII.
pub fn shown_line(alloc: Global, source: &[u8], number: u32) -> Result<Vec<u8>, AllocError>
    ensures { IfOk result (λ text. text.items ≡ spec.shown_line source.now number) }
{
    let mut text = Vec::new(alloc);
    for byte in first_bytes(line_of(source, number), MOST_COLUMNS) {
        push_columns(&mut text, *byte)?;
    }
    text.truncate(MOST_COLUMNS);
    Ok(text)
}

/// At most so many bytes of a text, from its beginning.
pub(crate) fn first_bytes(text: &[u8], most: usize) -> &[u8]
    ensures { result.now ≡ take most text.now }
{
    if text.len() > most {
        return &text[..most];
    }
    text
}

/// Adds the columns of a byte.
fn push_columns(text: &mut Vec<u8>, byte: u8) -> Result<(), AllocError>
    ensures { OnOk result (text.new.items ≡ spec.with_columns text.old.items byte) }
{
    if byte == b'\t' {
        return text.extend_from_slice(&SPACES[text.len() % SPACES.len()..]);
    }
    Ok(text.push(shown_byte(byte))?)
}

/// A byte as it is shown.
pub fn shown_byte(byte: u8) -> u8
    ensures { result ≡ spec.shown_byte byte }
{
    if b' ' <= byte && byte <= b'~' {
        byte
    } else {
        b'?'
    }
}
