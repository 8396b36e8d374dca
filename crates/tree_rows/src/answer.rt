//! What a row gives, and its words.
use std::alloc::{AllocError, Global};

/// What a row gives.
#[derive(Clone, Copy)]
pub enum Answer {
    Word(&'static str),
    /// A number between words.
    Number(&'static str, u64, &'static str),
    /// A call was refused, with this number.
    Refused(u8),
    /// The drawing that the row made.
    Drawing,
    /// The row is none, or its call is impossible there.
    NoRow(&'static str),
    NoMemory,
}

/// Nothing: the row has no answer.
pub const NOTHING: Answer = Answer::Word("");

/// `done`.
pub const DONE: Answer = Answer::Word("done");

/// One of two words for a fact.
pub fn word_of(fact: bool, yes: &'static str, no: &'static str) -> Answer {
    Answer::Word(if fact { yes } else { no })
}

/// `so`, or `otherwise`.
pub fn whether(fact: bool) -> Answer {
    word_of(fact, "so", "otherwise")
}

/// A number alone.
pub fn number_answer(number: u64) -> Answer {
    Answer::Number("", number, "")
}

/// An answer in words, next to the drawing that was made last. If the row is none, there are no words.
pub fn in_words(alloc: Global, answer: Answer, drawing: &[u8]) -> Result<String, AllocError> {
    match answer {
        Answer::Word(word) => word.to_string(alloc),
        Answer::Number(front, number, end) => numbered(alloc, front, number, end),
        Answer::Refused(number) => numbered(alloc, "refused ", number as u64, ""),
        Answer::Drawing => String::from_utf8_lossy(alloc, drawing),
        Answer::NoRow(_) | Answer::NoMemory => Ok(String::new(alloc)),
    }
}

fn numbered(alloc: Global, front: &str, number: u64, end: &str) -> Result<String, AllocError> {
    format!(in alloc; "{front}{number}{end}")
}
