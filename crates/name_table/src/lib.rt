//! Names of items, condition names, files and procedures, and what they name.
#![tactic(auto)]

mod conditions;
mod declaration;
mod files;
mod laws;
mod look_up;
mod procedures;
mod qualification;
mod table;

pub use conditions::{ConditionNames, DeclaredCondition, condition_names};
pub use declaration::item_names;
pub use files::{FileNames, file_names};
pub use laws::{conditions_named, files_named_once, items_named};
pub use look_up::LookUp;
pub use procedures::{ParagraphRange, ProcedureNames, ProcedureNamesError, procedure_names};
pub use qualification::is_within;
pub use table::{Declared, NameTable};
