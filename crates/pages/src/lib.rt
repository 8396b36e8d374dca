//! A finite map of pages of 4,096 bytes on a device, kept by commits.
//!
//! Promise: at each moment a crash leaves the map of the last commit, or of the one in progress, whole.
#![tactic(auto)]

mod cache;
mod change;
mod commit;
mod draft;
mod empty;
mod error;
mod laws;
mod marks;
mod numbers;
mod open;
mod page_bytes;
mod page_map;
mod payload;
mod plan;
mod reading;
mod root;
mod sector_use;
mod spares;
mod stage;
mod table;
mod volume;
mod volume_mark;

pub use empty::format;
pub use error::PagesError;
pub use laws::{few_free, few_needed, map_bounds, map_is_own, needed_by, one_map};
pub use page_map::PageMap;
pub use volume_mark::{HALF_MARKS, PAGE_MARKS, VolumeMark};
