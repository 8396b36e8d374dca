//! The files that code names: their table, its bytes in an image, and what a machine demands of it.
#![tactic(auto)]

mod class;
mod file;
mod key;
mod laws;
mod order;
mod selecting;
mod spelled;
mod verb;

pub use class::{StatusClass, class_is, put_class, read_class};
pub use file::{CodeFile, FileIndex};
pub use laws::{file_law, places_law, verb_law};
pub use order::{is_code_file, names_places, suits};
pub use selecting::select_of;
pub use verb::{put_verb, read_verb};
