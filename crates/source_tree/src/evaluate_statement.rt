//! EVALUATE (COBOL-85, Nucleus, "The EVALUATE statement").

use crate::condition::{Condition, Side};
use lexical::Place;
use sqlite_items::Items;

/// A selection subject.
#[derive(Drop)]
pub enum Subject {
    /// A value; or a reference alone, which may be a condition name.
    Value(Side),
    /// A condition other than a condition name alone.
    Condition(Condition),
    /// TRUE or FALSE.
    Truth(bool),
}

/// What a selection object asks of its subject.
#[derive(Drop)]
pub enum Choice {
    Any,
    /// With NOT or without: a value, or those from one to the last; or a reference alone, which may be a condition name.
    Value {
        negated: bool,
        first: Side,
        last: Option<Side>,
    },
    /// A condition other than a condition name alone, with NOT or without.
    Condition(Condition),
    /// TRUE or FALSE.
    Truth(bool),
}

/// A selection object.
#[derive(Drop)]
pub struct Object {
    /// Where it begins.
    pub place: Place,
    pub choice: Choice,
}

/// WHEN, with the objects of the subjects in their order.
#[derive(Drop)]
pub struct When {
    /// Where the word stands.
    pub place: Place,
    /// One or more.
    pub objects: Items<Object>,
}

/// WHENs, and the statements after them.
#[derive(Drop)]
pub struct Selected<S> {
    /// One or more.
    pub whens: Items<When>,
    /// One or more.
    pub statements: Items<S>,
}

#[derive(Drop)]
pub struct Evaluate<S> {
    /// One or more.
    pub subjects: Items<Subject>,
    /// One or more.
    pub selected: Items<Selected<S>>,
    /// The statements of WHEN OTHER, one or more; `None` where it is absent.
    pub other: Option<Items<S>>,
}
