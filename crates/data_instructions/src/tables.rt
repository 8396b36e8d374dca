//! The tables of data that code names.

use decimal18::Dec;
use items::{Item, Taken};
use picture::Picture;
use sqlite_items::Items;
use text_ops::Entry;

/// An item that code names. Its first occurrence begins `offset` bytes after the start of its area.
#[derive(Drop)]
pub struct DataItem {
    pub item: Item,
    /// The picture by which it is edited, if it is.
    pub editing: Option<Picture>,
    /// Areas count from 0.
    pub area: u32,
    pub offset: u32,
}

/// A literal as a sender: what it counts as, and its bytes.
#[derive(Drop)]
pub struct LiteralSender {
    pub taken: Taken,
    pub bytes: Items<u8>,
}

/// What an INSPECT does with the texts that are joined in the line. Its entries have spans of these.
#[derive(Drop)]
pub struct Inspection {
    /// The size of the texts, in bytes.
    pub size: u32,
    /// How many entries of TALLYING each counter has: the first one has the first entries.
    pub counters: Items<u32>,
    /// The entries of TALLYING.
    pub tallying: Items<Entry>,
    /// The entries of REPLACING.
    pub replacing: Items<Entry>,
}

/// The tables of data that code names.
#[derive(Drop)]
pub struct DataTables {
    /// The bytes of each area at the start of a run. An area keeps its length.
    pub areas: Items<Items<u8>>,
    pub items: Items<DataItem>,
    /// Literals that are numbers.
    pub numbers: Items<Dec>,
    /// Literals that are sent.
    pub senders: Items<LiteralSender>,
    /// Texts that are shown.
    pub texts: Items<Items<u8>>,
    pub inspections: Items<Inspection>,
}
