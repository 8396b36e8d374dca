//! Arithmetic statements: ADD, SUBTRACT, MULTIPLY, DIVIDE, COMPUTE.

use crate::expression::{Expression, Operand};
use crate::phrases::Phrases;
use crate::reference::Reference;
use sqlite_items::Items;

/// A receiver, with ROUNDED or without.
#[derive(Drop)]
pub struct Receiver {
    pub item: Reference,
    pub rounded: bool,
}

/// Which of the two operands of a DIVIDE with GIVING is written first.
#[derive(Clone, Copy, PartialEq, Eq)]
pub enum DivisionOrder {
    /// The divisor: INTO.
    Into,
    /// The dividend: BY.
    By,
}

/// What an arithmetic statement computes, one form a line of the grammar (COBOL-85, Nucleus, "Arithmetic statements"). Operands
/// stand in the order of writing, and there are one or more of each list.
#[derive(Drop)]
pub enum Operation {
    Add {
        operands: Items<Operand>,
        receivers: Items<Receiver>,
    },
    /// The operand after TO is the last.
    AddGiving {
        operands: Items<Operand>,
        receivers: Items<Receiver>,
    },
    Subtract {
        operands: Items<Operand>,
        receivers: Items<Receiver>,
    },
    SubtractGiving {
        operands: Items<Operand>,
        minuend: Operand,
        receivers: Items<Receiver>,
    },
    Multiply {
        factor: Operand,
        receivers: Items<Receiver>,
    },
    MultiplyGiving {
        factor: Operand,
        by: Operand,
        receivers: Items<Receiver>,
    },
    Divide {
        divisor: Operand,
        receivers: Items<Receiver>,
    },
    DivideGiving {
        first: Operand,
        order: DivisionOrder,
        second: Operand,
        receivers: Items<Receiver>,
    },
    DivideRemainder {
        first: Operand,
        order: DivisionOrder,
        second: Operand,
        quotient: Receiver,
        remainder: Reference,
    },
    Compute {
        receivers: Items<Receiver>,
        value: Expression,
    },
}

/// An arithmetic statement with its SIZE ERROR phrases.
#[derive(Drop)]
pub struct Arithmetic<S> {
    pub operation: Operation,
    pub phrases: Phrases<S>,
}
