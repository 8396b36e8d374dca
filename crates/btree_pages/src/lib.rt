//! One page of a tree: rows of one length, in order of their keys.
//!
//! Promise: a page is what its bytes spell, and each change of it is the change of its list of rows.
#![tactic(auto)]

mod edits;
mod header;
mod key_order;
mod laws;
mod node_view;
mod row_bytes;
mod row_layout;
mod search;
mod spelled;
mod tree_page;

pub use laws::{
    beginnings_in_order, numbers_in_order, parts_in_order, row_reads_back, spells_node,
};
pub use node_view::NodeView;
pub use row_layout::{Kind, MOST_ROW_BYTES, ROW_BYTES, RowLayout};
pub use tree_page::TreePage;
