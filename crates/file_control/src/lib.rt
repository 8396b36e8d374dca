//! SELECTs of FILE-CONTROL: the rule of each clause, SELECTs with their clauses in any order, and a reader that answers the one
//! list of SELECTs whose rules spell the tokens.
#![tactic(auto)]

mod clause;
mod clause_readers;
mod laws;
mod selects;
mod stated;
mod words;

pub use laws::{input_output_law, select_law};
pub use selects::input_output;
