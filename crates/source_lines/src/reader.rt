//! Reading a source text line by line.

ghost use Rattle.std.specs.Prelude.{◌≡◌, ◌≤◌, ◌<◌, OnOk};
ghost use Rattle.answers.specs.Answer.{Gives};
ghost use Rattle.source_lines.specs.Faults.{fault_of};
ghost use Rattle.source_lines.specs.Reading as spec;

use crate::fault::{FaultKind, SourceError, SourceFault};
use crate::indicator::{Indicator, indicator_of};
use crate::line::{
    AREA_A, AREA_B, INDICATOR_COLUMN, Line, PAST_LAST_COLUMN, SPACE, is_in_character_set,
};
use crate::lines::Character;
use crate::literal::{OpenLiteral, is_mark, open_at_end};
use crate::paragraph::begins_dropped;
use lexical::Place;
use sqlite_items::Items;
use std::alloc::{AllocError, Global};

/// What stands before a line.
#[derive(Clone, Copy)]
pub enum Before {
    /// No line that gave characters.
    Nothing,
    /// A line that ends here, with no literal open.
    LineEnd(Place),
    /// A line at whose end a literal is open.
    Open(OpenLiteral),
    /// A line of a dropped paragraph.
    Dropped,
}

/// The characters of the lines that were read. The space of the last line's end comes with the line after it.
#[derive(Drop)]
pub struct Reader {
    pub characters: Items<Character>,
    pub before: Before,
}

impl Reader {
    pub fn new(alloc: Global) -> Reader
        ensures { result ≡ spec.at_start }
    {
        Reader {
            characters: Items::new(alloc),
            before: Before::Nothing,
        }
    }

    /// Reads the next line.
    #[tactic(auto, unfolding(crate::specs::Reading::after_line))]
    pub fn read(&mut self, line: &Line) -> Result<(), SourceError>
        ensures { Gives (λ _. self.new) fault_of result (spec.after_line line.now self.old) }
    {
        match indicator_of(line.byte(INDICATOR_COLUMN)) {
            Ok(Indicator::Plain) => self.read_plain(line),
            Ok(Indicator::Comment) => Ok(()),
            Ok(Indicator::Continuation) => self.read_continuation(line),
            Err(kind) => Err(line.refuse(kind, INDICATOR_COLUMN)),
        }
    }

    #[tactic(auto, unfolding(crate::specs::Reading::after_plain))]
    fn read_plain(&mut self, line: &Line) -> Result<(), SourceError>
        ensures { Gives (λ _. self.new) fault_of result (spec.after_plain line.now self.old) }
    {
        let Some(first) = line.first_nonblank() else {
            return Ok(());
        };
        match self.before {
            Before::Nothing => self.begin(line, first),
            Before::LineEnd(_) => {
                self.end_line()?;
                self.begin(line, first)
            }
            Before::Open(literal) => Err(unclosed(literal)),
            Before::Dropped if first < AREA_B => self.begin(line, first),
            Before::Dropped => Ok(()),
        }
    }

    #[tactic(auto, unfolding(crate::specs::Reading::after_continuation))]
    fn read_continuation(&mut self, line: &Line) -> Result<(), SourceError>
        ensures { Gives (λ _. self.new) fault_of result
            (spec.after_continuation line.now self.old) }
    {
        match self.before {
            Before::Nothing => Err(line.refuse(FaultKind::WrongContinuation, INDICATOR_COLUMN)),
            Before::LineEnd(_) => self.continue_line(line),
            Before::Open(literal) => self.continue_literal(line, literal),
            Before::Dropped => Ok(()),
        }
    }

    /// Reads a plain line that stands at no end of an open literal, in no dropped paragraph.
    #[tactic(auto, unfolding(crate::specs::Reading::plain_line_step))]
    fn begin(&mut self, line: &Line, first: u8) -> Result<(), SourceError>
        requires low { 8 ≤ first }
        requires high { first ≤ 72 }
        ensures { Gives (λ _. self.new) fault_of result
            (spec.plain_line_step line.now first self.old) }
    {
        if begins_dropped(line, first) {
            self.before = Before::Dropped;
            return Ok(());
        }
        self.take(line, AREA_A, None)
    }

    /// Joins a continuation to the line before, in which no literal is open.
    #[tactic(auto, unfolding(crate::specs::Reading::line_continued))]
    fn continue_line(&mut self, line: &Line) -> Result<(), SourceError>
        ensures { Gives (λ _. self.new) fault_of result (spec.line_continued line.now self.old) }
    {
        let Some(first) = line.first_nonblank() else {
            return Err(line.refuse(FaultKind::WrongContinuation, INDICATOR_COLUMN));
        };
        if first < AREA_B && is_mark(line.byte(first)) {
            return Err(line.refuse(FaultKind::WrongContinuation, first));
        }
        self.take(line, first, None)
    }

    /// Joins a continuation to the line before, in which this literal is open.
    #[tactic(auto, unfolding(crate::specs::Reading::literal_continued))]
    fn continue_literal(&mut self, line: &Line, literal: OpenLiteral) -> Result<(), SourceError>
        ensures { Gives (λ _. self.new) fault_of result
            (spec.literal_continued line.now literal self.old) }
    {
        let Some(first) = line.first_nonblank() else {
            return Err(line.refuse(FaultKind::WrongContinuation, INDICATOR_COLUMN));
        };
        let byte = line.byte(first);
        if !is_in_character_set(byte) {
            return Err(line.refuse(FaultKind::ByteOutsideCharacterSet, first));
        }
        if first < AREA_B || byte != literal.mark {
            return Err(line.refuse(FaultKind::WrongContinuation, first));
        }
        self.take(line, first + 1, Some(literal))
    }

    /// Takes the characters of a line from a column on, where this literal is open before it.
    #[tactic(auto, unfolding(crate::specs::Reading::line_step))]
    fn take(
        &mut self,
        line: &Line,
        from: u8,
        literal: Option<OpenLiteral>,
    ) -> Result<(), SourceError>
        requires low { 8 ≤ from }
        requires high { from ≤ 73 }
        ensures { Gives (λ _. self.new) fault_of result
            (spec.line_step line.now from literal self.old) }
    {
        if let Some(column) = line.first_outside() {
            return Err(line.refuse(FaultKind::ByteOutsideCharacterSet, column));
        }
        let (end, before) = match open_at_end(literal, line, from) {
            Some(literal) => (PAST_LAST_COLUMN, Before::Open(literal)),
            None => {
                let end = line.last_nonblank() + 1;
                (end, Before::LineEnd(line.place(end)))
            }
        };
        self.push_columns(line, from, end)?;
        self.before = before;
        Ok(())
    }

    fn push_columns(&mut self, line: &Line, from: u8, end: u8) -> Result<(), AllocError>
        requires low { 1 ≤ from }
        requires high { end ≤ 73 }
        ensures { OnOk result (self.new ≡ spec.with_columns line.now from end self.old) }
    {
        for column in from..end {
            self.characters.push(line.character(column))?;
        }
        Ok(())
    }

    /// The space of a line's end.
    fn end_line(&mut self) -> Result<(), AllocError>
        ensures { OnOk result (self.new ≡ spec.with_line_end self.old) }
    {
        if let Before::LineEnd(place) = self.before {
            self.characters.push(Character { byte: SPACE, place })?;
        }
        Ok(())
    }

    /// The characters of the whole text, once each line was read.
    pub fn finish(self) -> Result<Items<Character>, SourceError>
        ensures { Gives (λ characters. characters) fault_of result (spec.at_end self) }
    {
        let mut reader = self;
        if let Before::Open(literal) = reader.before {
            return Err(unclosed(literal));
        }
        reader.end_line()?;
        let Reader { characters, .. } = reader;
        Ok(characters)
    }
}

/// The fault of a literal that isn't closed and isn't continued.
fn unclosed(literal: OpenLiteral) -> SourceError
    ensures { result ≡ SourceError.Refused (spec.unclosed_fault literal) }
{
    SourceError::Refused(SourceFault {
        kind: FaultKind::UnclosedLiteral,
        place: literal.opening,
    })
}
