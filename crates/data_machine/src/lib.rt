//! What a machine's instructions on data work on, with all room made once: one function an instruction, each of which does
//! what the table says.
#![tactic(auto)]

mod areas;
mod buffer;
mod calculating;
mod converting;
mod data;
mod fitting;
mod gathering;
mod inspect_room;
mod inspect_statement;
mod integers;
mod item_part;
mod laws;
mod measuring;
mod move_items;
mod numbers;
mod occurrence;
mod occurring;
mod overlaying;
mod parting;
mod parts;
mod place_instructions;
mod receiving;
mod relative_keys;
mod rescaling;
mod seen;
mod sender;
mod short;
mod short_arithmetic;
mod short_fitting;
mod short_storing;
mod showing;
mod stack;
mod storing;
mod string_statement;
mod superinstruction;
mod superinstruction_work;
mod testing;
mod whole;

pub use areas::Areas;
pub use buffer::Buffer;
pub use data::{Data, Room, longest_item};
pub use item_part::{ItemPart, PartTaking};
pub use laws::{cutting_law, finding_law, staying_law};
pub use occurrence::{ItemSubscript, Occurrence};
pub use sender::Sender;
pub use stack::Stack;
pub use superinstruction::Superinstruction;
