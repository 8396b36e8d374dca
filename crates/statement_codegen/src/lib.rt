//! The code of statements that hold no statements, added to the code that stands before it.
#![tactic(auto)]

mod accept_statement;
mod arithmetic;
mod display_statement;
mod file_parts;
mod file_verbs;
mod initialize_statement;
mod inspect_statement;
mod move_statement;
mod string_statement;
mod subjects;

pub use accept_statement::{emit_accept, emit_date};
pub use arithmetic::{discard, emit_arithmetic, emit_update};
pub use display_statement::emit_display;
pub use file_parts::{
    emit_file, emit_from, emit_into, emit_test, emit_unheard, file_named, file_of_record,
};
pub use file_verbs::{read_verb, start_verb};
pub use initialize_statement::{emit_initializes, emit_sets};
pub use inspect_statement::{emit_convert, emit_inspect};
pub use move_statement::emit_move;
pub use string_statement::emit_string;
pub use subjects::emit_subjects;
