//! File statements (COBOL-85, Sequential, Relative and Indexed I-O).

use crate::condition::RelationalOperator;
use crate::name::Name;
use crate::phrases::FilePhrases;
use crate::reference::Reference;
use records::OpenMode;
use sqlite_items::Items;

/// A file of OPEN.
#[derive(Drop)]
pub struct Opening {
    pub mode: OpenMode,
    pub file: Name,
}

/// The KEY phrase of START.
#[derive(Drop)]
pub struct StartKey {
    pub operator: RelationalOperator,
    pub key: Reference,
}

#[derive(Drop)]
pub enum FileStatement<S> {
    Open {
        /// One or more.
        files: Items<Opening>,
    },
    Close {
        /// One or more.
        files: Items<Name>,
    },
    Read {
        file: Name,
        next: bool,
        into: Option<Reference>,
        key: Option<Reference>,
        phrases: FilePhrases<S>,
    },
    Write {
        record: Reference,
        from: Option<Reference>,
        phrases: FilePhrases<S>,
    },
    Rewrite {
        record: Reference,
        from: Option<Reference>,
        phrases: FilePhrases<S>,
    },
    Delete {
        file: Name,
        phrases: FilePhrases<S>,
    },
    Start {
        file: Name,
        key: Option<StartKey>,
        phrases: FilePhrases<S>,
    },
}
