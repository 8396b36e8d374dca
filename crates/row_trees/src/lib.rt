//! Trees of rows whose records are in the trees themselves, or in chains of pages.
//!
//! Promise: a tree of rows is its list of entries with their whole records, whatever a record's length is.
#![tactic(auto)]

mod clearing;
mod finding;
mod inserting;
mod reading;
mod removing;
mod replacing;
mod row;
mod row_tree;
mod stored_value;

pub use row::Row;
pub use row_tree::RowTree;
