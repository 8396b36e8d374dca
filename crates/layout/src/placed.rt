//! Items where they stand.

use items::Item;
use picture::Picture;
use source_tree::Dimension;
use sqlite_items::Items;

/// An item where it stands: its first occurrence begins `offset` bytes after the start of its area.
#[derive(Drop)]
pub struct PlacedItem {
    pub item: Item,
    /// The picture by which it is edited, if it is.
    pub editing: Option<Picture>,
    /// Areas count from 0.
    pub area: u32,
    pub offset: u32,
    /// The dimensions of its table, the outermost first.
    pub dimensions: Items<Dimension>,
}
