//! The counters of a repetition.
use crate::fault::Fault;
use crate::words::{Words, number_of};
use std::alloc::{AllocError, Global};

/// A counter, by the letter that names it.
#[derive(Clone, Copy)]
pub struct Counter {
    letter: u8,
    start: u64,
    step: u64,
    bound: u64,
}

impl Counter {
    /// Its value in a turn, of which the first is 0.
    fn value(self, turn: u64) -> u64 {
        if turn == 0 {
            return self.start;
        }
        let grown = self.start.wrapping_add(self.step.wrapping_mul(turn));
        grown.checked_rem(self.bound).unwrap_or(0)
    }
}

/// The counters that a row names.
pub fn read_counters(alloc: Global, mut words: Words<'_>) -> Result<Vec<Counter>, Fault> {
    let mut counters = Vec::new(alloc);
    for _ in 0..16 {
        let Some(word) = words.word() else { break };
        match read_counter(word) {
            Some(counter) => counters.push(counter)?,
            None => return Err(Fault::Spelling("this is no counter")),
        }
    }
    Ok(counters)
}

/// `NAME=START+STEP%BOUND`
fn read_counter(word: &[u8]) -> Option<Counter> {
    let mut parts = Words::of(word);
    let letter = *parts.up_to(b'=').first()?;
    let start = number_of(parts.up_to(b'+'))?;
    let step = number_of(parts.up_to(b'%'))?;
    let bound = number_of(parts.rest())?;
    Some(Counter {
        letter,
        start,
        step,
        bound,
    })
}

/// Puts a text after another, with the values of a turn in place of the counters.
pub fn put_replaced(
    alloc: Global,
    turn: u64,
    counters: &[Counter],
    text: &[u8],
    replaced: &mut Vec<u8>,
) -> Result<(), AllocError> {
    let mut skipped = 0usize;
    for (i, byte) in text.iter().enumerate() {
        if skipped > 0 {
            skipped -= 1;
        } else if let Some(counter) = counter_at(text, i, counters) {
            put_value(alloc, counter.value(turn), replaced)?;
            skipped = 2;
        } else {
            replaced.push(*byte)?;
        }
    }
    Ok(())
}

fn put_value(alloc: Global, value: u64, replaced: &mut Vec<u8>) -> Result<(), AllocError> {
    let digits = format!(in alloc; "{value:04}")?;
    replaced.extend_from_slice(digits.as_bytes())
}

/// The counter that `{x}` names at a place of a text.
fn counter_at(text: &[u8], at: usize, counters: &[Counter]) -> Option<Counter> {
    match text.get(at..) {
        Some([b'{', letter, b'}', ..]) => counter_of(*letter, counters),
        _ => None,
    }
}

fn counter_of(letter: u8, counters: &[Counter]) -> Option<Counter> {
    for counter in counters {
        if counter.letter == letter {
            return Some(*counter);
        }
    }
    None
}
