//! The words of a command of the program `cobol`: what they ask for.
#![tactic(auto)]

mod command_line;
mod numbers;
mod subcommands;
mod words;

pub use numbers::read_day;
pub use words::{Request, RunRequest, read_words};
