//! Clauses of an entry (COBOL-85, Nucleus, "Data description entry").

use source_tree::{Integer, Literal, Name, PictureText, SignClause, UsageClause};

/// Which clause it is.
#[derive(Clone, Copy)]
pub enum ClauseKind {
    Redefines,
    Picture,
    Usage,
    Sign,
    Occurs,
    Synchronized,
    Justified,
    BlankWhenZero,
    Value,
}

/// A clause as it was written.
#[derive(Drop)]
pub enum Clause {
    Redefines(Name),
    Picture(PictureText),
    Usage(UsageClause),
    Sign(SignClause),
    Occurs(Integer),
    /// It has no effect.
    Synchronized,
    Justified,
    BlankWhenZero,
    Value(Literal),
}
