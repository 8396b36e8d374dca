//! Reads the files of a volume, whatever the volume holds.
//!
//! Promise: what is answered is exactly what the volume holds, and `Damaged` means that it holds nothing of the kind.
#![tactic(auto)]

mod alternates;
mod catalog;
mod chained;
mod checked_file;
mod coverage;
mod laws;
mod listing;
mod pairs;
mod reading;
mod recovering;
mod row_bytes;
mod row_search;
mod rows;
mod sparse_index;

pub use file_bytes::{StoredFile, StoredRow};
pub use laws::one_list_of_files;
pub use recovering::recover;
