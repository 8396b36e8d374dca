//! The store of files with alternate keys, over trees of pages.
//!
//! Promise: at each moment of a change a crash leaves the files before, or those after.
#![tactic(auto)]

mod changing;
mod clearing;
mod commit;
mod counting;
mod creating;
mod enter;
mod file_tree;
mod finding;
mod finding_row;
mod found_rows;
mod leave;
mod listing;
mod look;
mod move_pairs;
mod move_row;
mod new_row;
mod notes;
mod old_row;
mod opening;
mod repeats;
mod row_bytes;
mod row_calls;
mod row_changes;
mod row_move;
mod row_turn;
mod row_verb;
mod search_key;
mod search_keys;
mod search_start;
mod second_mark;
mod seek;
mod seeking;
mod store;
mod store_calls;
mod stored;
mod taken_row;
mod values;

pub use opening::format;
pub use search_start::SearchStart;
pub use second_mark::migrate;
pub use store::PagedStore;
