//! Clauses of a SELECT (COBOL-85, Sequential, Relative and Indexed I-O, "File control entry").

use source_tree::{Access, AlternateKeyClause, OrganizationClause, Reference};

/// Which clause it is.
#[derive(Clone, Copy)]
pub enum ClauseKind {
    Organization,
    Access,
    RelativeKey,
    RecordKey,
    AlternateKey,
    Status,
}

/// A clause as it was written.
#[derive(Drop)]
pub enum Clause {
    Organization(OrganizationClause),
    Access(Access),
    RelativeKey(Reference),
    RecordKey(Reference),
    AlternateKey(AlternateKeyClause),
    Status(Reference),
}
