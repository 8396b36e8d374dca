//! Numbers as they were written.

use sqlite_items::Items;
use std::alloc::{AllocError, Global};

/// The sign that stands directly before a numeric literal.
#[derive(Clone, Copy, PartialEq, Eq)]
pub enum Sign {
    Unsigned,
    Plus,
    Minus,
}

/// A numeric literal as it was written: ASCII digits before and after the point. Without a point there are no decimals
/// (COBOL-85, Nucleus, "Literals").
#[derive(Drop)]
pub struct NumericLiteral {
    pub sign: Sign,
    pub whole: Items<u8>,
    pub decimals: Items<u8>,
}

impl NumericLiteral {
    ghost use Rattle.std.specs.Prelude.{◌≡◌, IfOk};

    /// The same number again. `AllocError` where memory runs out, and nothing else.
    pub fn copy(&self, alloc: Global) -> Result<NumericLiteral, AllocError>
        ensures { IfOk result (λ copy. copy ≡ self.now) }
    {
        Ok(NumericLiteral {
            sign: self.sign,
            whole: Items::from_slice(alloc, self.whole.as_slice())?,
            decimals: Items::from_slice(alloc, self.decimals.as_slice())?,
        })
    }
}
