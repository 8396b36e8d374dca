//! Scripts of rows: their words, texts, repetitions and cases, and the words for rows that differ.
#![tactic(auto)]

mod cases;
mod counters;
mod fault;
mod repeats;
mod rows;
mod scripts;
mod tally;
mod texts;
mod words;

pub use cases::Case;
pub use fault::{Fault, if_done};
pub use rows::Row;
pub use scripts::{CheckCase, run_scripts};
pub use tally::{Difference, Tally};
pub use texts::{escape, put_text, unquote};
pub use words::{Words, look_up, number_of};
