//! What is said of a fault.

ghost use Rattle.std.specs.Prelude.{◌≡◌, false, true, IfOk, OnOk};
ghost use Rattle.source_advice.specs.Advice as spec;

use crate::lines::first_bytes;
use explanations::{Book, between, explanation, first_line, other_lines, part_under};
use std::alloc::{AllocError, Global};

/// How much of a word is shown.
const MOST_SHOWN: usize = 40;

/// A message where no other is known.
const UNKNOWN_MESSAGE: &[u8] = b"the source has a fault";

/// What is wrong, in one line without a line feed, and what to do, in lines that each end with one.
#[derive(Drop)]
pub struct Advice {
    pub message: Vec<u8>,
    pub cure: Vec<u8>,
}

/// An advice, if there is a reason for it.
pub type Found = Result<Option<Advice>, AllocError>;

impl Advice {
    /// The advice about a word or a sign; nothing is named if it is empty.
    pub fn about(
        alloc: Global,
        word: &[u8],
        message: &[u8],
        cure: &[u8],
    ) -> Result<Advice, AllocError>
        ensures message { IfOk result
            (λ advice. advice.message.items ≡ spec.about word.now message.now) }
        ensures cure { IfOk result (λ advice. advice.cure.items ≡ cure.now) }
    {
        let mut text = Vec::new(alloc);
        if !word.is_empty() {
            text.push(b'`')?;
            text.extend_from_slice(first_bytes(word, MOST_SHOWN))?;
            text.extend_from_slice(b"`: ")?;
        }
        text.extend_from_slice(message)?;
        let cure = Vec::from_slice(alloc, cure)?;
        Ok(Advice {
            message: text,
            cure,
        })
    }

    /// The advice that a book has under a head, about a word: the first line says what is wrong, the others what to do.
    pub fn under(alloc: Global, book: Book, head: &[u8], word: &[u8]) -> Found {
        match part_under(alloc, book, head)? {
            Some(part) => Ok(Some(Advice::about(
                alloc,
                word,
                first_line(part),
                other_lines(part),
            )?)),
            None => Ok(None),
        }
    }

    /// What is said of each fault of a number.
    pub fn for_number(alloc: Global, number: u8, word: &[u8]) -> Result<Advice, AllocError>
        ensures about { IfOk result (λ advice. spec.IsAboutNumber number word.now
            advice.message.items advice.cure.items) }
        ensures number { IfOk result (λ advice. spec.IsAdviceOf number advice.message.items
            advice.cure.items) }
    {
        match explanation(alloc, u64::from(number))? {
            Some(text) => Advice::explained(alloc, text, word),
            None => Advice::about(alloc, word, UNKNOWN_MESSAGE, b""),
        }
    }

    /// What the explanation of a number says, about a word.
    fn explained(alloc: Global, text: &[u8], word: &[u8]) -> Result<Advice, AllocError>
        ensures { IfOk result (λ advice. spec.IsExplained (Some text.now) word.now
            advice.message.items advice.cure.items) }
    {
        let message = between(text, b"): ", b"\n").unwrap_or(UNKNOWN_MESSAGE);
        let cure = between(text, b"What to do:\n", b"\n\n").unwrap_or(b"");
        let mut advice = Advice::about(alloc, word, message, cure)?;
        advice.end_line()?;
        Ok(advice)
    }

    /// Adds a line to what to do.
    pub fn add_line(&mut self, parts: &[&[u8]]) -> Result<(), AllocError> {
        for part in parts {
            self.cure.extend_from_slice(part)?;
        }
        Ok(self.cure.push(b'\n')?)
    }

    /// Adds a line that proposes a word.
    pub fn propose(&mut self, word: &[u8]) -> Result<(), AllocError> {
        self.add_line(&[b"Perhaps ", word, b" is meant."])
    }

    /// Ends the last line of what to do if it isn't ended.
    pub(crate) fn end_line(&mut self) -> Result<(), AllocError>
        ensures message { self.new.message ≡ self.old.message }
        ensures cure { OnOk result (spec.IsEnded self.old.cure.items self.new.cure.items) }
        ensures lines { OnOk result (spec.HasLines self.new) }
    {
        if are_lines(self.cure.as_slice()) {
            return Ok(());
        }
        Ok(self.cure.push(b'\n')?)
    }
}

/// Whether a text is empty or ends with a line feed.
fn are_lines(text: &[u8]) -> bool
    ensures yes { result ≡ true → spec.AreLines text.now }
    ensures no { result ≡ false → spec.AreLines text.now → ⊥ }
{
    match text {
        [] | [.., b'\n'] => true,
        _ => false,
    }
}
