//! A row: a program, and what is to be seen of it.

use crate::calls::calls_over;
use crate::moments::count_lines;
use crate::volume::Layout;
use std::alloc::{AllocError, Global};
use std::rt::Files;
use std::{fs, io, str};

/// The budget of a row that names none, and of each program before one.
pub const BUDGET: u64 = 1_000_000_000;

/// The day that each row is run on, YYMMDD.
pub const DAY: [u8; 6] = *b"000000";

/// The bytes of each file of a row, or none where there is no such file.
#[derive(Drop)]
pub struct Row {
    files: Vec<Option<Vec<u8>>>,
}

/// What is to be seen of a run: its bytes, its end, and its statuses and its files if they are known.
#[derive(Clone, Copy)]
pub struct Expected<'a> {
    pub shown: &'a [u8],
    pub end: &'a [u8],
    pub notes: Option<&'a [u8]>,
    pub files: Option<&'a [u8]>,
}

/// The endings of the names of a row's files, in the order of `Part`.
const ENDINGS: [&str; 11] = [
    "cob", "out", "end", "budget", "in", "notes", "files", "before", "cleared", "moments", "calls",
];

/// A file of a row.
#[derive(Clone, Copy)]
pub enum Part {
    Source,
    /// What it shows.
    Shown,
    /// How it ends, in words.
    End,
    Budget,
    /// The lines of the console.
    Lines,
    /// The statuses that it receives, one a line.
    Notes,
    /// The files that it leaves, in the words of `told::LINES`.
    Files,
    /// The source of the program that is run before.
    Before,
    /// The numbers of the sectors that are zeroed before the run, one a line.
    Cleared,
    /// The files that the volume holds at first and after each file statement, in the words of `told::ONE_LINE`, a line each.
    Moments,
    /// The calls on the station over each layout, in the words of `calls`, a line each.
    Calls,
}

impl Row {
    pub fn part(&self, part: Part) -> Option<&[u8]> {
        match self.files.get(part as usize) {
            Some(Some(bytes)) => Some(bytes.as_slice()),
            _ => None,
        }
    }

    /// The bytes of a part, of which there are none if it has no file.
    pub fn bytes(&self, part: Part) -> &[u8] {
        self.part(part).unwrap_or(b"")
    }

    /// What is wrong with its files, if something is.
    pub fn fault(&self) -> Option<&'static str> {
        if !self.is_whole() {
            return Some("it lacks its source, its output or its end");
        }
        if self.budget().is_none() {
            return Some("its budget is no number");
        }
        if !self.has_both_calls() {
            return Some("its calls lack a layout");
        }
        if !self.has_all_moments() {
            return Some("its moments aren't one at first and one for each note");
        }
        None
    }

    /// Whether it has the files that each row has: the program, what it shows, and how it ends.
    fn is_whole(&self) -> bool {
        self.part(Part::Source).is_some()
            && self.part(Part::Shown).is_some()
            && self.part(Part::End).is_some()
    }

    /// Whether its calls, if it has some, are those over each layout.
    fn has_both_calls(&self) -> bool {
        match self.part(Part::Calls) {
            Some(calls) => {
                calls_over(calls, Layout::Halves).is_some()
                    && calls_over(calls, Layout::Trees).is_some()
            }
            None => true,
        }
    }

    /// Whether it has moments exactly if it has calls, and then one more than notes.
    fn has_all_moments(&self) -> bool {
        if self.part(Part::Calls).is_none() {
            return self.part(Part::Moments).is_none();
        }
        match self.part(Part::Notes) {
            Some(notes) => {
                count_lines(self.bytes(Part::Moments)) == count_lines(notes).saturating_add(1)
            }
            None => false,
        }
    }

    /// The steps that it may take, or none if they are no number.
    fn budget(&self) -> Option<u64> {
        match self.part(Part::Budget) {
            Some(digits) => number(digits),
            None => Some(BUDGET),
        }
    }

    /// The steps that it may take.
    pub fn steps(&self) -> u64 {
        self.budget().unwrap_or(0)
    }

    /// The lines of the console, each without its line feed.
    pub fn lines(&self, alloc: Global) -> Result<Vec<Vec<u8>>, AllocError> {
        let mut lines = Vec::new(alloc);
        for line in self.bytes(Part::Lines).split(|byte| *byte == b'\n') {
            lines.push(Vec::from_slice(alloc, line)?)?;
        }
        // Nothing follows the last line feed.
        lines.pop();
        Ok(lines)
    }

    pub fn expected(&self) -> Expected<'_> {
        Expected {
            shown: self.bytes(Part::Shown),
            end: self.bytes(Part::End).trim_ascii_end(),
            notes: self.part(Part::Notes),
            files: self.part(Part::Files),
        }
    }

    /// Whether it runs over a new volume: it does if it has notes or files.
    pub fn has_volume(&self) -> bool {
        self.part(Part::Notes).is_some() || self.part(Part::Files).is_some()
    }
}

/// The number that these digits spell, with white space after them, if they are one.
pub fn number(digits: &[u8]) -> Option<u64> {
    match str::from_utf8(digits.trim_ascii_end()) {
        Ok(text) => text.parse().ok(),
        Err(_) => None,
    }
}

/// Reads the files of a row: `NAME.cob`, `NAME.out`, `NAME.end`, and those of its other parts that there are.
pub fn read_row<R: Files + AllocGlobal>(rt: &R, name: &str) -> io::Result<Row> {
    let mut files = Vec::new(rt.alloc());
    for ending in &ENDINGS {
        files.push(read_part(rt, name, ending)?)?;
    }
    Ok(Row { files })
}

/// The bytes of the row's file with this ending, if it is there.
fn read_part<R: Files + AllocGlobal>(
    rt: &R,
    name: &str,
    ending: &str,
) -> io::Result<Option<Vec<u8>>> {
    let path = format!(in rt.alloc(); "{name}.{ending}")?;
    match fs::read(rt, path.as_str()) {
        Ok(bytes) => Ok(Some(bytes)),
        Err(error) if error.kind() == io::ErrorKind::NotFound => Ok(None),
        Err(error) => Err(error),
    }
}
