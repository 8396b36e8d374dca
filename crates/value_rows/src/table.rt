//! Tables: a row a line, and comments.

use crate::answer::in_words;
use crate::operations::given;
use std::alloc::{AllocError, Global};
use std::io;

/// What stands between the words of a row and what it gives.
const EQUALS: &str = " = ";

/// How many rows gave what they say, and how many did not.
#[derive(Clone, Copy, Default)]
pub struct Counts {
    pub passed: u32,
    pub failed: u32,
}

impl Counts {
    /// One more row gave what it says, or did not.
    fn add(&mut self, is_right: bool) {
        if is_right {
            self.passed = self.passed.saturating_add(1);
        } else {
            self.failed = self.failed.saturating_add(1);
        }
    }
}

/// Reads a table, and prints each row that differs. A line that is empty or begins with `*` is none. A row without an equals
/// sign is printed with what it gives.
pub fn check_table(
    rt: &(impl Print + AllocGlobal),
    name: &str,
    table: &str,
    counts: &mut Counts,
) -> io::Result<()> {
    for (front, line) in table.lines().enumerate() {
        if !matches!(line.as_bytes(), [] | [b'*', ..]) {
            let number = front.saturating_add(1);
            counts.add(is_as_expected(rt, (name, number), line)?);
        }
    }
    Ok(())
}

/// Computes a row, and prints it where it differs or where nothing is expected. Its place is the table and the line.
fn is_as_expected(
    rt: &(impl Print + AllocGlobal),
    place: (&str, usize),
    line: &str,
) -> io::Result<bool> {
    let (row, expected) = line.rsplit_once(EQUALS).unwrap_or((line, ""));
    let given = what_is_given(rt.alloc(), row)?;
    let is_right = compare(rt, place, row, expected, given.as_str());
    drop(given);
    is_right
}

/// Whether a row gives what is expected. If not, or if nothing is expected, the row is printed.
fn compare(
    rt: &impl Print,
    place: (&str, usize),
    row: &str,
    expected: &str,
    given: &str,
) -> io::Result<bool> {
    if expected == given {
        return Ok(true);
    }
    if expected.is_empty() {
        println!(rt; "{row} = {given}")?;
        return Ok(true);
    }
    let (table, number) = place;
    println!(rt; "{table}:{number}: {row} gives {given}, not {expected}")?;
    Ok(false)
}

/// What a row gives, in words.
fn what_is_given(alloc: Global, row: &str) -> Result<String, AllocError> {
    in_words(alloc, given(alloc, row.as_bytes())?)
}
