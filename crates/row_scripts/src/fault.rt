//! Why a row doesn't pass.
use std::alloc::{AllocError, AllocFailed, Global};

/// Why a row doesn't pass.
#[derive(Drop)]
pub enum Fault {
    Memory,
    /// The row is not spelled as a row, or its call is impossible there.
    Spelling(&'static str),
    /// A call was refused, with this number.
    Refused(u64),
    /// The answer that was found, in words.
    Differs(String),
}

impl Fault {
    /// The answer that was found, if there is memory for its words.
    pub fn found(words: Result<String, AllocError>) -> Fault {
        match words {
            Ok(found) => Fault::Differs(found),
            Err(_) => Fault::Memory,
        }
    }

    /// The reason in words.
    pub fn into_words(self, alloc: Global) -> Result<String, AllocError> {
        match self {
            Fault::Memory => Err(AllocError),
            Fault::Spelling(what) => what.to_string(alloc),
            Fault::Refused(number) => format!(in alloc; "refused {number}"),
            Fault::Differs(found) => Ok(found),
        }
    }
}

/// A value, if what was done with it worked.
///
/// A caller that returns at the error drops the value itself, on a path for each form of the value. Here dropping is one call.
pub fn if_done<T: Drop>(value: T, done: Result<(), Fault>) -> Result<T, Fault> {
    match done {
        Ok(()) => Ok(value),
        Err(fault) => Err(fault),
    }
}

impl From<AllocError> for Fault {
    fn from(_: AllocError) -> Fault {
        Fault::Memory
    }
}

impl<T: Drop> From<AllocFailed<T>> for Fault {
    fn from(_: AllocFailed<T>) -> Fault {
        Fault::Memory
    }
}
