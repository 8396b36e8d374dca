//! Places of a run.

use crate::index::ItemIndex;

/// An item of the table, at so many bytes after the start of its area, and how many of its bytes there are.
#[derive(Clone, Copy)]
pub struct Place {
    pub item: ItemIndex,
    pub offset: usize,
    pub length: u32,
}
