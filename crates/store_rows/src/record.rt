//! Records in pieces: `"text"` from the first byte on, `OFFSET:"text"` from another one on, and dashes elsewhere.
use row_scripts::{Fault, Words, number_of, put_text, unquote};
use std::alloc::{AllocError, Global};

/// A record of so many of a byte.
pub fn record_of(alloc: Global, length: usize, byte: u8) -> Result<Vec<u8>, AllocError> {
    vec![in alloc; byte; length]
}

/// The offset and the text of a piece.
fn piece(word: &[u8]) -> Option<(usize, &[u8])> {
    let colon = match word.iter().position(|byte| *byte == b'"') {
        None => return None,
        Some(0) => return Some((0, word)),
        Some(quote) => quote.saturating_sub(1),
    };
    let offset = number_of(word.get(..colon)?)?;
    let text = word.get(colon..)?;
    match text.split_first() {
        Some((b':', text)) => Some((usize::try_from(offset).ok()?, text)),
        _ => None,
    }
}

/// The record of the next pieces, if the next word is a piece.
pub fn read_record(
    alloc: Global,
    words: &mut Words<'_>,
    length: usize,
) -> Result<Option<Vec<u8>>, Fault> {
    if words.ahead().and_then(piece).is_none() {
        return Ok(None);
    }
    let mut record = record_of(alloc, length, b'-')?;
    put_pieces(alloc, words, &mut record)?;
    Ok(Some(record))
}

/// Puts the next pieces into a record.
fn put_pieces(alloc: Global, words: &mut Words<'_>, record: &mut [u8]) -> Result<(), Fault> {
    for _ in 0..=record.len() {
        let Some((offset, text)) = words.ahead().and_then(piece) else {
            break;
        };
        words.word();
        put_piece(alloc, record, offset, text)?;
    }
    Ok(())
}

fn put_piece(alloc: Global, record: &mut [u8], offset: usize, text: &[u8]) -> Result<(), Fault> {
    let text = unquote(alloc, text)?;
    put_text(record, offset, &text)
}
