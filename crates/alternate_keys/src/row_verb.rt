//! What is done to a row.

/// A change of a row of a file.
#[derive(Clone, Copy, PartialEq, Eq)]
pub enum RowVerb {
    /// A new row.
    Insert,
    /// Another record for a row.
    Replace,
    /// A row leaves.
    Remove,
}
