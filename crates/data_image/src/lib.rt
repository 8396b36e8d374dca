//! The parts of an image's bytes: numbers, texts, tables, and what stands in the tables of data. Each has one spelling: what
//! is read from bytes is what they spell, and what was put there is read again.
#![tactic(auto)]

mod byte;
mod editing;
mod fault;
mod fraction;
mod gather;
mod inspection;
mod instruction;
mod item;
mod laws;
mod number;
mod part;
mod sender;
mod table;
mod tables;
mod test;
mod text;
mod usage;

pub use byte::{flag_byte, found, put_byte, read_byte, read_flag};
pub use fault::{ImageError, ImageFault};
pub use laws::{instruction_law, tables_law};
pub use number::{put_count, put_short, put_small, read_count, read_short, read_small};
pub use table::{TableEntry, put_table, read_table};
pub use tables::{put_tables, read_tables};
