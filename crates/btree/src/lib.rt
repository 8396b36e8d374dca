//! A tree of entries over pages: an ascending list.
//!
//! Promise: each call is the operation on the ascending list of entries, and pages outside the tree stay as they are.
#![tactic(auto)]

mod build;
mod child;
mod clear;
mod count;
mod descend;
mod enter_leaf;
mod entry;
mod find;
mod insert;
mod insert_into_leaf;
mod key;
mod laws;
mod node;
mod path_step;
mod place;
mod propagate_split;
mod put_new;
mod put_row;
mod rebalance;
mod removal_outcome;
mod remove;
mod replace;
mod set_value;
mod shrink;
mod shrink_page;
mod sought;
mod split_node;
mod split_result;
mod step;
mod tree;
mod update_parent;

pub use descend::LEVELS;
pub use entry::Entry;
pub use key::Key;
pub use laws::{
    entries_ascend, entry_of_key, entry_there, few_leaves, few_levels, levels_ascend, one_tree,
    pages_once, tree_stays,
};
pub use node::read_node;
pub use place::LeafPlace;
pub use tree::Tree;
