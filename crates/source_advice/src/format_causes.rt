//! Causes of a line that breaks the reference format, and of characters that make no token.

use crate::advice::{Advice, Found};
use crate::cause::Cause;
use crate::cut_lines::cut_cause;
use crate::lines::{line_of, shown_line};
use explanations::Book;
use lexical::Place;
use std::alloc::{AllocError, Global};

const CHARACTER: u8 = 10;

const INDICATOR: u8 = 11;

const TOO_LARGE: u8 = 13;

const UNCLOSED: u8 = 14;

const STRAY: u8 = 15;

/// The advice about a line or a character, before there are tokens.
pub fn format_cause(
    alloc: Global,
    source: &[u8],
    number: u8,
    place: Place,
) -> Result<Advice, AllocError> {
    if let Some(advice) = known_cause(alloc, source, number, place)? {
        return Ok(advice);
    }
    let line = shown_line(alloc, source, place.line)?;
    let word: &[u8] = if number == CHARACTER || number == TOO_LARGE {
        b""
    } else {
        word_at(line.as_slice(), place)
    };
    Advice::for_number(alloc, number, word)
}

/// The advice about a cause that the line shows.
fn known_cause(alloc: Global, source: &[u8], number: u8, place: Place) -> Found {
    let line = shown_line(alloc, source, place.line)?;
    match number {
        CHARACTER => mark_cause(alloc, line_of(source, place.line)),
        INDICATOR => free_cause(alloc, line.as_slice()),
        UNCLOSED => literal_cause(alloc, source, line.as_slice(), place),
        STRAY => Advice::under(alloc, Book::Signs, sign_at(line.as_slice(), place), b""),
        _ if number > STRAY => cut_cause(alloc, source, place.line, Cause::CutLine),
        _ => Ok(None),
    }
}

/// Whether a typographic quotation mark is in the line.
fn mark_cause(alloc: Global, line: &[u8]) -> Found {
    for bytes in line.windows(3) {
        if is_typographic(bytes) {
            return Cause::TypographicMark.about(alloc, b"");
        }
    }
    Ok(None)
}

/// Whether three bytes are one of the marks from U+2018 to U+201F in UTF-8.
fn is_typographic(bytes: &[u8]) -> bool {
    match bytes {
        [0xe2, 0x80, last] => 0x98 <= *last && *last <= 0x9f,
        _ => false,
    }
}

/// The advice about a text in free format: columns 6 and 7 have text.
fn free_cause(alloc: Global, line: &[u8]) -> Found {
    match (line.get(5), line.get(6)) {
        (Some(before), Some(_)) if *before != b' ' && !before.is_ascii_digit() => {
            Cause::FreeFormat.about(alloc, b"")
        }
        _ => Ok(None),
    }
}

/// The advice about a literal that is open at the end of its line: it goes past column 72, or ends with the other mark.
fn literal_cause(alloc: Global, source: &[u8], line: &[u8], place: Place) -> Found {
    if let Some(advice) = cut_cause(alloc, source, place.line, Cause::CutLiteral)? {
        return Ok(Some(advice));
    }
    let rest = from_column(line, place);
    let other = match rest.first() {
        Some(b'"') => b'\'',
        _ => b'"',
    };
    if rest.contains(&other) {
        return Cause::OtherMark.about(alloc, b"");
    }
    Ok(None)
}

/// The text of a line from a column on.
fn from_column(line: &[u8], place: Place) -> &[u8] {
    let before = usize::from(place.column).saturating_sub(1);
    if before <= line.len() {
        return &line[before..];
    }
    &[]
}

/// The character in a column.
fn sign_at(line: &[u8], place: Place) -> &[u8] {
    let rest = from_column(line, place);
    if rest.is_empty() {
        return rest;
    }
    &rest[..1]
}

/// The characters from a column up to the next space.
fn word_at(line: &[u8], place: Place) -> &[u8] {
    let rest = from_column(line, place);
    for (size, byte) in rest.iter().enumerate() {
        if *byte == b' ' {
            return &rest[..size];
        }
    }
    rest
}
