//! How a tree is looked into.

/// Which entry of a tree is looked for, by a key.
#[derive(Clone, Copy, PartialEq, Eq)]
pub enum SearchStart {
    /// None.
    Nothing,
    /// The first from the key on.
    From,
    /// The first after the key.
    After,
}
