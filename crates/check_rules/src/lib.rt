//! The rules of programs: whether entries, files, references and statements keep them, or the first that they break.
#![tactic(auto)]

mod arithmetic;
mod asked;
mod checker;
mod conditions;
mod evaluate_statement;
mod expression;
mod file_keys;
mod file_phrases;
mod file_statement;
mod forms;
mod initialize_statement;
mod inner_statements;
mod inspect_statement;
mod move_statement;
mod performs;
mod procedure;
mod program;
mod ranges;
mod recursion;
mod references;
mod sent;
mod set_statement;
mod side_kind;
mod sides;
mod statement_count;
mod statements;
mod string_statement;
mod text;
mod text_size;
mod until;

pub use checker::Checker;
pub use declarations::Checked;
pub use entry_rules::{BrokenRule, CheckError, Rule};
pub use program::check;
