//! Statements and sentences: the rule of each verb, and a reader of sentences that answers the one tree whose rules spell
//! the tokens.
#![tactic(auto)]

mod accept_statement;
mod add_statement;
mod arithmetic;
mod compute_statement;
mod conditional_statement;
mod continue_statement;
mod display_statement;
mod divide_statement;
mod evaluate_statement;
mod exit_statement;
mod file_phrases;
mod file_statement;
mod followed;
mod initialize_statement;
mod inspect_statement;
mod limit_phrases;
mod move_statement;
mod multiply_statement;
mod nesting;
mod open_statement;
mod perform_statement;
mod receivers;
mod repetition;
mod sentences;
mod set_statement;
mod stop_statement;
mod string_statement;
mod subtract_statement;
mod verb;

pub use sentences::sentence;
pub use verb::{ArithmeticVerb, FileVerb, VerbWord, begins_statement, verb_at, verb_of};
