//! The rules of entries of the data division, of working storage and of the records of files: whether entries keep them, or the first one
//! that they break.
#![tactic(auto)]

mod clauses;
mod conditions;
mod described;
mod descriptions;
mod entry;
mod levels;
mod literal;
mod position;
mod record_areas;
mod redefinition;
mod rule;
mod storage;
mod value;
mod walk;

pub use descriptions::check_descriptions;
pub use literal::{has_form, is_integer};
pub use rule::{BrokenRule, CheckError, Rule};
pub use storage::check_entries;
