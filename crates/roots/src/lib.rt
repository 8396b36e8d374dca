//! The two root sectors of a volume: which of them is the newest, and where they are damaged.
//!
//! Promise: once the next root stands in its sector, it is the newest, and the root before it is the older one.
#![tactic(auto)]

mod error;
mod laws;
mod pair;
mod reading;
mod root;

pub use error::RootsError;
pub use laws::{next_is_newest, roots_stand};
pub use pair::{Roots, RootsFault, newest_of};
pub use reading::read_roots;
pub use root::{
    GENERATIONS, LEAST_SECTORS, MARK_BYTES, MOST_SECTORS, Mark, PAYLOAD_AT, PAYLOAD_BYTES, Root,
    RootSector, SECTOR_BYTES, put_head, read_root, root_sector,
};
