//! PERFORM.

use crate::literal::Integer;
use crate::name::Name;
use crate::reference::Reference;
use crate::until::Until;
use sqlite_items::Items;

/// What is performed (COBOL-85, Nucleus, "The PERFORM statement").
#[derive(Drop)]
pub enum Performed<S> {
    /// A paragraph or section, or all from one to the end of another, by their names.
    Procedures { first: Name, last: Option<Name> },
    /// The statements up to END-PERFORM, one or more.
    Statements(Items<S>),
}

/// How often it is performed.
#[derive(Drop)]
pub enum Repetition {
    Once,
    /// An integer and TIMES.
    Times(Integer),
    /// An item and TIMES: as often as it says when the PERFORM begins.
    CountedBy(Reference),
    /// UNTIL, with VARYING or without.
    Until(Until),
}

#[derive(Drop)]
pub struct PerformStatement<S> {
    pub performed: Performed<S>,
    pub turns: Repetition,
}
