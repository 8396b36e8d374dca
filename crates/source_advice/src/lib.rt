//! What helps the reader of a refused source text: what is wrong in words, and what to do.
//!
//! Promise: any source text, number and place is answered.
#![tactic(auto)]

mod advice;
mod cause;
mod cut_lines;
mod format_causes;
mod grammar_causes;
mod lines;
mod name_causes;
mod paragraph_warnings;
mod period_causes;
mod scope_causes;
mod spelling;
mod statement_forms;
mod token_causes;
mod view;
mod word_causes;

pub use advice::Advice;
pub use lines::{line_of, shown_byte, shown_line};
pub use paragraph_warnings::{Warning, warnings};
pub use token_causes::advise;
