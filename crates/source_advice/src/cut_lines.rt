//! Lines that go past column 72.

use crate::advice::Found;
use crate::cause::Cause;
use crate::lines::shown_line;
use std::alloc::{AllocError, Global};

/// How many columns count.
const COLUMNS: usize = 72;
/// The columns up to which old sources have an identification.
const IDENTIFICATION: usize = 80;

/// The advice that a line is cut, if it has text after column 72 that belongs to the program.
pub fn cut_cause(alloc: Global, source: &[u8], line: u32, cause: Cause) -> Found {
    let text = shown_line(alloc, source, line)?;
    let rest = after_columns(text.as_slice());
    if !is_cut(text.as_slice(), rest) {
        return Ok(None);
    }
    let Some(mut advice) = cause.about(alloc, b"")? else {
        return Ok(None);
    };
    advice.add_line(&[b"After column 72: `", rest, b"`"])?;
    Ok(Some(advice))
}

/// What is after column 72, without spaces at its ends.
fn after_columns(line: &[u8]) -> &[u8] {
    if line.len() > COLUMNS {
        return line[COLUMNS..].trim_ascii();
    }
    &[]
}

/// Whether a line has text after column 72 that belongs to the program: it goes on through columns 72 and 73, or past the
/// identification in columns 73 to 80, or ends with a period.
fn is_cut(line: &[u8], rest: &[u8]) -> bool {
    if rest.is_empty() || line.get(6) == Some(&b'*') || line.get(6) == Some(&b'/') {
        return false;
    }
    is_text(line, COLUMNS - 1) && is_text(line, COLUMNS)
        || line.len() > IDENTIFICATION
        || rest.last() == Some(&b'.')
}

/// Whether a place of a line, counted from 0, isn't blank.
fn is_text(line: &[u8], place: usize) -> bool {
    match line.get(place) {
        Some(byte) => *byte != b' ',
        None => false,
    }
}
