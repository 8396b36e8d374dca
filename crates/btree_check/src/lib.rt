//! Tells whether the pages under a root are a tree.
//!
//! Promise: `Ok` only where there is a tree, whose pages are marked then, and `Damaged` only where there is none that can be marked.
#![tactic(auto)]

mod check;
mod separator;

pub use check::{check_tree, mark};
