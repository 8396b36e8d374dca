//! Entries of the tables, by their places, which count from 0.

/// An item of the table of items.
#[derive(Clone, Copy, PartialEq, Eq)]
pub struct ItemIndex {
    pub number: u32,
}

/// A number of the table of numeric literals.
#[derive(Clone, Copy)]
pub struct NumberIndex {
    pub number: u32,
}

/// A literal of the table of those that are sent.
#[derive(Clone, Copy)]
pub struct SenderIndex {
    pub number: u32,
}

/// An inspection of their table.
#[derive(Clone, Copy)]
pub struct InspectionIndex {
    pub number: u32,
}

/// A text of the table of those that are shown.
#[derive(Clone, Copy)]
pub struct TextIndex {
    pub number: u32,
}
