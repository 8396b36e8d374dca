//! Chains of pages that hold the bytes of long records.
//!
//! Promise: a chain holds the record that was put there, and pages outside the chain stay as they are.
#![tactic(auto)]

mod buffer;
mod laws;
mod laying;
mod link;
mod part;
mod reading;
mod releasing;
mod rewriting;

pub use buffer::RecordBuffer;
pub use laws::{
    chain_once, chain_stays, chain_there, one_length, rows_insert, rows_release, rows_remove,
    rows_rewrite, rows_stay, tree_moves, values_dont_steer,
};
pub use laying::lay;
pub use link::next_page;
pub use part::page_count;
pub use reading::read_record;
pub use releasing::release;
pub use rewriting::rewrite;
