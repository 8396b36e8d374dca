//! The files of a volume in memory, and their names, descriptions and rows as bytes.
//!
//! Promise: each name, description and row has one spelling, and is read back from it.
#![tactic(auto)]

mod description_bytes;
mod description_reader;
mod key_value;
mod laws;
mod name;
mod row_bytes;
mod row_check;
mod row_number;
mod row_reader;
mod stored;

pub use description_bytes::{DESCRIPTION_BYTES, push_description, push_zeros, spell_description};
pub use description_reader::read_description;
pub use key_value::part_of;
pub use laws::one_description;
pub use name::{NAME_BYTES, pad_name};
pub use row_bytes::{push_row_key, push_row_value, row_key};
pub use row_check::is_row;
pub use row_number::number_of_new;
pub use row_reader::{key_length, read_row};
pub use stored::{StoredFile, StoredRow, are_short};
