//! Instructions that set the truth.

use crate::index::SenderIndex;
use source_tree::{Class, Relation};

/// What is asked. Fault 90 where a number is wanted of bytes that hold none, or after a size error.
#[derive(Clone, Copy)]
pub enum Test {
    /// Takes a place, and compares the sender with what stands there.
    Compare {
        relation: Relation,
    },
    /// Compares the sender with a literal.
    CompareLiteral {
        relation: Relation,
        literal: SenderIndex,
    },
    /// Takes two numbers, and compares the one below with the newest.
    CompareNumbers {
        relation: Relation,
    },
    /// Takes a place: its bytes are of the class.
    Class {
        class: Class,
    },
    /// The truth stays true, or the sender equals a literal.
    OrEqual {
        literal: SenderIndex,
    },
    /// The truth stays true, or the sender lies from a literal to the next one of the table.
    OrWithin {
        first: SenderIndex,
    },
    /// The opposite of the truth.
    Invert,
}
