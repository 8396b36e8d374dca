//! Phrases with statements that stand beside their opposites.

use sqlite_items::Items;

/// What is done where something arose, as by ON SIZE ERROR, and where it did not, as by NOT ON SIZE ERROR. A phrase that is
/// absent is `None`; one that stands has one or more statements.
#[derive(Drop)]
pub struct Phrases<S> {
    pub arose: Option<Items<S>>,
    pub did_not: Option<Items<S>>,
}

/// The phrases of a file statement: AT END and NOT AT END, or INVALID KEY and NOT INVALID KEY. Of a pair one phrase stands, or
/// both do; where neither is written, phrases are `Absent`.
#[derive(Drop)]
pub enum FilePhrases<S> {
    Absent,
    AtEnd(Phrases<S>),
    InvalidKey(Phrases<S>),
}
