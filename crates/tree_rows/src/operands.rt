//! The operands of a row.
use crate::answer::Answer;
use row_scripts::{Fault, Words, unquote};
use std::alloc::Global;

/// Why a row without a number that belongs there is none.
const NO_NUMBER: Answer = Answer::NoRow("a number belongs here");

/// The operands that are left of a row. An operand that is missing or wrong is taken as zero or as nothing, and the row is wrong.
#[derive(Drop)]
pub struct Operands<'a> {
    pub words: Words<'a>,
    /// Why the row is wrong.
    wrong: Option<Answer>,
}

impl<'a> Operands<'a> {
    /// All words of a row.
    pub fn of(row: &'a [u8]) -> Operands<'a> {
        Operands {
            words: Words::of(row),
            wrong: None,
        }
    }

    /// The row is wrong. The first reason is given.
    pub fn refuse(&mut self, why: Answer) {
        if self.wrong.is_none() {
            self.wrong = Some(why);
        }
    }

    /// What the row gives: this, if it isn't wrong.
    pub fn or_wrong(&self, answer: Answer) -> Answer {
        match self.wrong {
            Some(why) => why,
            None => answer,
        }
    }

    /// The next word, or an empty one.
    pub fn word(&mut self) -> &'a [u8] {
        self.words.word().unwrap_or(b"")
    }

    /// The next word as a number.
    pub fn number(&mut self) -> u32 {
        match self.words.small_number() {
            Some(number) => number,
            None => {
                self.refuse(NO_NUMBER);
                0
            }
        }
    }

    /// The next word as a number, if there is one before the arrow.
    pub fn number_or(&mut self, otherwise: usize) -> usize {
        match self.words.ahead() {
            Some(b"->") | None => otherwise,
            Some(_) => self.number() as usize,
        }
    }

    /// The number that the row expects after its arrow, or 0.
    pub fn expected_number(&self) -> u32 {
        let mut words = self.words;
        words.word();
        words.small_number().unwrap_or(0)
    }

    /// The words that the row expects after its arrow.
    pub fn expected(&mut self) -> &'a [u8] {
        if !self.words.takes(b"->") {
            return self.words.rest();
        }
        match self.words.rest() {
            [b' ', rest @ ..] => rest,
            rest => rest,
        }
    }

    /// The next word as a text between quotation marks.
    pub fn text(&mut self, alloc: Global) -> Vec<u8> {
        match unquote(alloc, self.word()) {
            Ok(text) => text,
            Err(Fault::Spelling(why)) => {
                self.refuse(Answer::NoRow(why));
                Vec::new(alloc)
            }
            Err(_) => {
                self.refuse(Answer::NoMemory);
                Vec::new(alloc)
            }
        }
    }
}
