//! How a run ends, in the words of a row.

use compiler::{CompileError, CompileFault};
use run_unit::Ended;
use std::alloc::{AllocError, Global};

/// What came of a source text.
#[derive(Clone, Copy)]
pub enum Ending {
    Run(Ended),
    Compile(CompileError),
}

impl Ending {
    /// In the words of a row.
    pub fn in_words(self, alloc: Global) -> Result<String, AllocError> {
        match self {
            Ending::Run(ended) => end_in_words(alloc, ended),
            Ending::Compile(CompileError::Memory) => "out of memory".to_string(alloc),
            Ending::Compile(CompileError::Refused(fault)) => fault_in_words(alloc, fault),
        }
    }
}

fn end_in_words(alloc: Global, ended: Ended) -> Result<String, AllocError> {
    match ended {
        Ended::Stopped => "Stopped".to_string(alloc),
        Ended::Budget => "Budget".to_string(alloc),
        Ended::Faulted { fault, line } => {
            let number = fault.number();
            format!(in alloc; "fault {number} at line {line}")
        }
        Ended::Refused(refusal) => {
            let number = refusal.number();
            format!(in alloc; "refused {number}")
        }
    }
}

fn fault_in_words(alloc: Global, fault: CompileFault) -> Result<String, AllocError> {
    let line = fault.place().line;
    let column = fault.place().column;
    let number = fault.number();
    format!(in alloc; "{line}:{column}: fault {number}")
}
