//! Where the items of a program stand: areas, offsets, lengths and the strides of tables.
#![tactic(auto)]

mod file_records;
mod placed;
mod places;
mod program;
mod rooms;
mod storage;

pub use file_records::{record_length, sent_item};
pub use placed::PlacedItem;
pub use program::Layout;
pub use storage::storage_areas;
