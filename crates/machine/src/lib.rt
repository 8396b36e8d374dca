//! The machine that runs verified code: on an honest station a run tells what the machine's table says, a beginning of
//! it at each moment, and only a failed device keeps it from its end.
#![tactic(auto)]

mod accept_statement;
mod acting;
mod counting;
mod ended;
mod file_statement;
mod leading;
mod loaded;
mod machine;
mod outside;
mod part_plan;
mod plan;
mod planned;
mod registers;
mod returns;
mod room;
mod show;
mod working;

pub use ended::{Ended, Refusal};
pub use machine::Machine;
