//! What a program declares: its data, files and procedures, what names name among them, and the rules that declarations keep.
#![tactic(auto)]

mod alone;
mod checked;
mod declarations;
mod declared_items;
mod file_names;
mod found_conditions;
mod found_files;
mod item_parts;
mod keys;
mod listed;
mod procedures;
mod program_tables;
mod record_area;
mod record_entries;
mod resolved;
mod selects;

pub use alone::operand_alone;
pub use checked::Checked;
pub use declarations::Declarations;
pub use item_parts::{has_part, item_seen, kind_seen, known_length, may_have_parts};
pub use keys::{is_plain, no_part_rules};
pub use listed::Procedure;
pub use resolved::{AskedCondition, ObjectRange, Question, ResolvedObject, ResolvedSubject};
