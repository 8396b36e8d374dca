//! Instructions on numbers alone.

/// What is computed on the stack of numbers. After a size error there is no number, and what is computed with none is none.
#[derive(Clone, Copy)]
pub enum Calculation {
    /// Takes two numbers, and puts their sum on the stack: the one below and the newest.
    Add,
    /// The same with their difference: the one below without the newest.
    Subtract,
    /// The same with their product.
    Multiply,
    /// The same with their quotient: the one below by the newest.
    Divide,
    /// The newest number gets the other sign.
    Negate,
    /// The newest number is cut towards zero at a scale, with all its whole digits.
    Truncate { scale: u8 },
    /// Puts a number on the stack that stands there already, so many below the newest one.
    Duplicate { depth: u32 },
    /// Takes the newest number away.
    Discard,
}
