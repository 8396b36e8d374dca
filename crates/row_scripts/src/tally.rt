//! How many rows were as their scripts say.
use crate::fault::Fault;
use std::alloc::{AllocError, Global};
use std::io;

/// How many rows were as their scripts say.
#[derive(Clone, Copy, Default)]
pub struct Tally {
    pub passed: u64,
    pub failed: u64,
}

/// A row that differs: its line, and the answer that was found.
#[derive(Drop)]
pub struct Difference {
    line: u32,
    found: String,
}

impl Difference {
    /// At a line, for this reason.
    pub fn at(alloc: Global, line: u32, fault: Fault) -> Result<Difference, AllocError> {
        let found = fault.into_words(alloc)?;
        Ok(Difference { line, found })
    }
}

impl Tally {
    /// One more row passed.
    pub fn pass(&mut self) {
        self.passed = self.passed.saturating_add(1);
    }

    /// One more row of a script differs, over something. It is printed.
    pub fn fail<R: Print>(
        &mut self,
        rt: &R,
        script: &str,
        over: &str,
        difference: &Difference,
    ) -> io::Result<()> {
        self.failed = self.failed.saturating_add(1);
        let line = difference.line;
        let found = difference.found.as_str();
        println!(rt; "{script}:{line}: over {over}: {found}")
    }

    /// One more row of a script differs for this reason, over something. It is printed.
    pub fn fail_at<R: Print + AllocGlobal>(
        &mut self,
        rt: &R,
        script: &str,
        over: &str,
        line: u32,
        fault: Fault,
    ) -> io::Result<()> {
        let difference = Difference::at(rt.alloc(), line, fault)?;
        self.fail(rt, script, over, &difference)
    }

    /// The last line of a program.
    pub fn print<R: Print>(&self, rt: &R) -> io::Result<()> {
        let passed = self.passed;
        let failed = self.failed;
        println!(rt; "{passed} passed, {failed} failed")
    }
}
