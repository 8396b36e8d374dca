//! The texts that explain numbers, words and statements.
//!
//! Promise: the part that is found is the one under its head, and it is found wherever the head is.
#![tactic(auto)]

mod book;
mod causes;
mod forms;
mod numbers;
mod part;
mod words;

pub use book::{Book, explanation, part_under, reserved_words};
pub use part::{between, first_line, other_lines};
