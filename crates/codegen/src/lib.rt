//! From a tree to code: for each budget the code's run is the tree's meaning, and a machine can run it.
#![tactic(auto)]

mod emit;
mod evaluate_statement;
mod file_statement;
mod file_table;
mod open_statement;
mod phrases;
mod program;
mod storage;
mod string_statement;
mod times;
mod until;

pub use program::generate;
