//! STRING.

use crate::expression::Operand;
use crate::phrases::Phrases;
use crate::reference::Reference;
use sqlite_items::Items;

/// Senders of a STRING and what they are DELIMITED BY.
#[derive(Drop)]
pub struct Sending {
    /// One or more.
    pub senders: Items<Operand>,
    /// None is SIZE: all of each sender.
    pub delimiter: Option<Operand>,
}

/// A STRING with its OVERFLOW phrases (COBOL-85, Nucleus, "The STRING statement").
#[derive(Drop)]
pub struct StringStatement<S> {
    /// One or more.
    pub sendings: Items<Sending>,
    pub receiver: Reference,
    pub pointer: Option<Reference>,
    pub phrases: Phrases<S>,
}
