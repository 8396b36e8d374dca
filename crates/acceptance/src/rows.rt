//! All rows, one after the other.

use crate::row::read_row;
use crate::run::check_row;
use std::io;
use std::rt::Files;

/// How many rows passed, and how many failed.
#[derive(Clone, Copy, Default)]
pub struct Counts {
    passed: u32,
    pub failed: u32,
}

impl Counts {
    /// Prints the last line.
    pub fn print<R: Print>(&self, rt: &R) -> io::Result<()> {
        let passed = self.passed;
        let failed = self.failed;
        println!(rt; "{passed} rows passed, {failed} rows failed")
    }

    fn count(&mut self, has_passed: bool) {
        if has_passed {
            self.passed = self.passed.saturating_add(1);
        } else {
            self.failed = self.failed.saturating_add(1);
        }
    }
}

/// Runs the rows of these names, a name a line, and prints a line for each.
pub fn check_rows<R: Files + Print + AllocGlobal>(rt: &R, names: &str) -> io::Result<Counts> {
    let mut counts = Counts::default();
    for name in names.lines() {
        counts.count(check_named(rt, name)?);
    }
    Ok(counts)
}

/// Runs the row of this name, prints whether it passed or how it differs, and answers whether it passed.
fn check_named<R: Files + Print + AllocGlobal>(rt: &R, name: &str) -> io::Result<bool> {
    let difference = difference_of(rt, name)?;
    let found = match &difference {
        Some(words) => words.as_str(),
        None => "passed",
    };
    println!(rt; "{name}: {found}")?;
    Ok(difference.is_none())
}

fn difference_of<R: Files + AllocGlobal>(rt: &R, name: &str) -> io::Result<Option<String>> {
    let row = read_row(rt, name)?;
    Ok(check_row(rt.alloc(), &row)?)
}
