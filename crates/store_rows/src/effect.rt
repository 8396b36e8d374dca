//! The effect of a statement.
use crate::answer::Answer;
use row_scripts::{Fault, escape};
use std::alloc::{AllocError, Global};

/// The answer of a statement, and the record and the number that it leaves.
#[derive(Drop)]
pub struct Effect {
    pub answer: Answer,
    pub record: Vec<u8>,
    pub number: u64,
}

impl Effect {
    /// Whether this effect is the expected one.
    pub fn is_same_as(&self, expected: &Effect) -> bool {
        self.answer == expected.answer && self.leaves(&expected.record, expected.number)
    }

    /// Whether it left this area.
    pub fn leaves(&self, record: &[u8], number: u64) -> bool {
        self.record.as_slice() == record && self.number == number
    }

    /// Compares it with the effect that its row expects.
    pub fn compare(&self, alloc: Global, expected: &Effect) -> Result<(), Fault> {
        if self.is_same_as(expected) {
            return Ok(());
        }
        Err(self.difference(alloc))
    }

    /// The effect, as a difference from its row.
    pub fn difference(&self, alloc: Global) -> Fault {
        Fault::found(self.in_words(alloc))
    }

    fn in_words(&self, alloc: Global) -> Result<String, AllocError> {
        let record = escaped(alloc, &self.record)?;
        let answer = self.answer;
        let number = self.number;
        format!(in alloc; "{answer} {number} \"{record}\"")
    }
}

fn escaped(alloc: Global, bytes: &[u8]) -> Result<String, AllocError> {
    let mut text = Vec::new(alloc);
    escape(bytes, &mut text)?;
    String::from_utf8_lossy(alloc, &text)
}
