//! The commands on a source text: `check` and `layout`, as functions over bytes.
//!
//! Promise: a source text is refused for the fault that `compile` refuses it for, and the report shows that fault's place.
#![tactic(auto)]

mod check;
mod file_line;
mod item_line;
mod layout_text;
mod report;
mod source_layout;

pub use check::{CheckReport, check_source};
pub use source_layout::layout_of_source;
