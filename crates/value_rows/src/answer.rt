//! What a row gives, and its words.

use decimal18::Dec;
use picture::PictureFault;
use std::alloc::{AllocError, Global};

/// What a row gives.
#[derive(Drop)]
pub enum Answer {
    Number(Dec),
    /// The parts of a number: its sign, whether it is zero, its coefficient, its decimals.
    Parts(Dec),
    Integer(i128),
    Word(&'static str),
    Text(String),
    Bytes(Vec<u8>),
    /// The text is no picture.
    NoPicture,
    /// There is no such operation, or its operands are others.
    NoRow,
}

/// `none`.
pub const NONE: Answer = Answer::Word("none");

/// `true`, or `false`.
pub fn whether(fact: bool) -> Answer {
    Answer::Word(if fact { "true" } else { "false" })
}

/// An answer in words.
pub fn in_words(alloc: Global, answer: Answer) -> Result<String, AllocError> {
    match answer {
        Answer::Number(number) => spelled(alloc, number),
        Answer::Parts(number) => parts(alloc, number),
        Answer::Integer(integer) => format!(in alloc; "{integer}"),
        Answer::Word(word) => word.to_string(alloc),
        Answer::Text(text) => Ok(text),
        Answer::Bytes(bytes) => told(alloc, bytes.as_slice()),
        Answer::NoPicture => {
            let number = PictureFault::NoForm.number();
            format!(in alloc; "fault {number}")
        }
        Answer::NoRow => "no row".to_string(alloc),
    }
}

fn parts(alloc: Global, number: Dec) -> Result<String, AllocError> {
    let (is_negative, is_zero) = (number.is_negative(), number.is_zero());
    let (magnitude, scale) = (number.magnitude(), number.scale());
    format!(in alloc; "{is_negative} {is_zero} {magnitude} {scale}")
}

/// The word of a number, with all its decimals.
fn spelled(alloc: Global, number: Dec) -> Result<String, AllocError> {
    let digits = format!(in alloc; "{:019}", number.magnitude())?;
    let point = digits.len().saturating_sub(usize::from(number.scale()));
    let (front, decimals) = digits.as_str().split_at_checked(point).unwrap_or(("", ""));
    let sign = if number.is_negative() { "-" } else { "" };
    let point = if decimals.is_empty() { "" } else { "." };
    let whole = whole_of(front);
    format!(in alloc; "{sign}{whole}{point}{decimals}")
}

/// Digits without zeros in front.
fn whole_of(digits: &str) -> &str {
    let whole = digits.trim_start_matches('0');
    if whole.is_empty() { "0" } else { whole }
}

/// The word of bytes: the text if each byte is a character that can be printed, else hexadecimal digits.
fn told(alloc: Global, bytes: &[u8]) -> Result<String, AllocError> {
    match text_of(bytes) {
        Some(text) => format!(in alloc; "\"{text}\""),
        None => {
            let digits = hex::encode(alloc, bytes)?;
            format!(in alloc; "x\"{digits}\"")
        }
    }
}

/// Bytes as a text that can be printed between quotation marks.
fn text_of(bytes: &[u8]) -> Option<&str> {
    for byte in bytes {
        if !is_plain(*byte) {
            return None;
        }
    }
    std::str::from_utf8(bytes).ok()
}

fn is_plain(byte: u8) -> bool {
    matches!(byte, b' '..=b'~') && byte != b'"'
}
