//! Text between quotation marks.
use crate::fault::Fault;
use std::alloc::{AllocError, Global};

/// The bytes that a text stands for: `\xNN` is a byte by its two hexadecimal digits, and each other byte is itself.
pub fn unescape(alloc: Global, text: &[u8]) -> Result<Vec<u8>, AllocError> {
    let mut bytes = Vec::new(alloc);
    let mut skipped = 0usize;
    for (i, byte) in text.iter().enumerate() {
        if skipped > 0 {
            skipped -= 1;
        } else if let Some(byte) = byte_of_escape(text, i) {
            bytes.push(byte)?;
            skipped = 3;
        } else {
            bytes.push(*byte)?;
        }
    }
    Ok(bytes)
}

/// Writes bytes as such a text.
pub fn escape(bytes: &[u8], text: &mut Vec<u8>) -> Result<(), AllocError> {
    for byte in bytes.iter() {
        if is_plain(*byte) {
            text.push(*byte)?;
        } else {
            text.extend_from_slice(&escape_of(*byte))?;
        }
    }
    Ok(())
}

/// What is between the quotation marks of a word.
pub fn unquote(alloc: Global, word: &[u8]) -> Result<Vec<u8>, Fault> {
    match word {
        [b'"', text @ .., b'"'] => Ok(unescape(alloc, text)?),
        _ => Err(Fault::Spelling("a text between quotation marks belongs here")),
    }
}

/// Puts a text into bytes, from this place on.
pub fn put_text(bytes: &mut [u8], place: usize, text: &[u8]) -> Result<(), Fault> {
    match bytes.get_mut(place..place.saturating_add(text.len())) {
        Some(there) => {
            there.copy_from_slice(text);
            Ok(())
        }
        None => Err(Fault::Spelling("the text is past the end")),
    }
}

fn digit(byte: u8) -> Option<u8> {
    match byte {
        b'0'..=b'9' => Some(byte.wrapping_sub(b'0')),
        b'a'..=b'f' => Some(byte.wrapping_sub(b'a').wrapping_add(10)),
        _ => None,
    }
}

/// The byte of `\xNN` at a place.
fn byte_of_escape(text: &[u8], at: usize) -> Option<u8> {
    match text.get(at..) {
        Some([b'\\', b'x', high, low, ..]) => byte_of_digits(*high, *low),
        _ => None,
    }
}

fn byte_of_digits(high: u8, low: u8) -> Option<u8> {
    match (digit(high), digit(low)) {
        (Some(high), Some(low)) => Some(high.wrapping_mul(16).wrapping_add(low)),
        _ => None,
    }
}

/// `\xNN` for a byte.
fn escape_of(byte: u8) -> [u8; 4] {
    [b'\\', b'x', digit_of(byte / 16), digit_of(byte % 16)]
}

fn digit_of(value: u8) -> u8 {
    if value < 10 {
        b'0'.wrapping_add(value)
    } else {
        b'a'.wrapping_add(value.wrapping_sub(10))
    }
}

fn is_plain(byte: u8) -> bool {
    0x20 <= byte && byte <= 0x7E && byte != b'\\' && byte != b'"'
}
