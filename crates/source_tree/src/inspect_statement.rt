//! INSPECT.

use crate::expression::Operand;
use crate::reference::Reference;
use sqlite_items::Items;

/// BEFORE and AFTER of an entry: each at most once, in either order.
#[derive(Drop)]
pub struct Limits {
    pub before: Option<Operand>,
    pub after: Option<Operand>,
    /// Both stand, AFTER in front.
    pub after_first: bool,
}

/// The words before the texts of entries. FIRST stands under REPLACING alone.
#[derive(Clone, Copy, PartialEq, Eq)]
pub enum Occurrences {
    All,
    Leading,
    First,
}

/// A text that is counted.
#[derive(Drop)]
pub struct TalliedText {
    pub text: Operand,
    pub limits: Limits,
}

#[derive(Drop)]
pub enum Tallied {
    Characters {
        limits: Limits,
    },
    Texts {
        occurrences: Occurrences,
        /// One or more.
        texts: Items<TalliedText>,
    },
}

/// A counter and what it counts.
#[derive(Drop)]
pub struct Tallying {
    pub counter: Reference,
    /// One or more.
    pub tallied: Items<Tallied>,
}

/// A text that is replaced, or under CONVERTING each of its characters.
#[derive(Drop)]
pub struct ReplacedText {
    pub text: Operand,
    pub by: Operand,
    pub limits: Limits,
}

#[derive(Drop)]
pub enum Replacing {
    Characters {
        by: Operand,
        limits: Limits,
    },
    Texts {
        occurrences: Occurrences,
        /// One or more.
        texts: Items<ReplacedText>,
    },
}

/// An INSPECT (COBOL-85, Nucleus, "The INSPECT statement"). One of its phrases stands, or both do.
#[derive(Drop)]
pub struct InspectStatement {
    pub subject: Reference,
    /// None without TALLYING.
    pub tallying: Items<Tallying>,
    /// None without REPLACING.
    pub replacing: Items<Replacing>,
}

/// An INSPECT CONVERTING: each character of a text is replaced by the one at its place in the other text.
#[derive(Drop)]
pub struct Converting {
    pub subject: Reference,
    pub texts: ReplacedText,
}
