//! A store that keeps all files in one of two halves of a volume, and writes the other at each change.
//!
//! Promise: at each moment of a change a crash leaves the files before, or those after.
#![tactic(auto)]

mod blocks;
mod changing;
mod checking;
mod commit;
mod creating;
mod empty;
mod finding;
mod halves;
mod inserting;
mod laws;
mod opening;
mod reading;
mod removing;
mod replacing;
mod root;
mod rows;
mod seeking;
mod spelling;
mod store;
mod store_calls;

pub use empty::format;
pub use file_bytes::{StoredFile, StoredRow};
pub use laws::one_list_of_files;
pub use opening::recover;
pub use store::HalfStore;
