//! The data division: the rule of each clause, entries with their clauses in any order, condition names, files with the
//! entries of their records, and the entries of the working-storage section, with readers that answer the one list of each whose
//! rules spell the tokens.
#![tactic(auto)]

mod clause;
mod clause_readers;
mod condition_entries;
mod division;
mod entry_lists;
mod file_clauses;
mod files;
mod forms;
mod item_entries;
mod laws;
mod optional;
mod stated;
mod words;

pub use division::{DataDivision, data_division};
pub use forms::first_formless;
pub use laws::{clauses_law, data_division_law, entry_law};
