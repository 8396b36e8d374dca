//! From the bytes of a source text to its characters, each with its line and column: the reference format of COBOL-85.
//! The characters are the one list that the reference format gives, and a source is refused only where it gives none.
#![tactic(auto)]

mod fault;
mod format;
mod indicator;
mod line;
mod lines;
mod literal;
mod paragraph;
mod reader;
mod source;

pub use fault::{FaultKind, SourceError, SourceFault};
pub use format::reference_format;
pub use lexical::Place;
pub use lines::{Character, Lines};
pub use source::{MOST_BYTES, logical};
