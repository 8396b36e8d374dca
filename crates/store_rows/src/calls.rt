//! The calls of rows that are no statements, by their words.
use row_scripts::{Words, look_up};

/// A call.
#[derive(Clone, Copy)]
pub enum Call {
    Files,
    Reopen,
    Migrate,
    Crash,
    Format,
    Stop,
    Fail,
    Written,
    Free,
    Put,
    Keep,
    Back,
    Turn,
    Fill,
    Accepts,
    Filled,
}

const CALLS: [(&[u8], Call); 17] = [
    (b"files", Call::Files),
    (b"reopen", Call::Reopen),
    (b"migrate", Call::Migrate),
    (b"crash", Call::Crash),
    (b"format", Call::Format),
    (b"stop", Call::Stop),
    (b"fail", Call::Fail),
    (b"written", Call::Written),
    (b"free", Call::Free),
    (b"put", Call::Put),
    (b"keep", Call::Keep),
    (b"disturbed", Call::Keep),
    (b"back", Call::Back),
    (b"turn", Call::Turn),
    (b"fill", Call::Fill),
    (b"accepts", Call::Accepts),
    (b"filled", Call::Filled),
];

/// The call of the next word.
pub fn read_call(words: &mut Words<'_>) -> Option<Call> {
    look_up(&CALLS, words.word()?)
}
