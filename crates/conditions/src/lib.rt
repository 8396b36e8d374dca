//! Conditions: their rules, and a reader that answers the one tree whose rule spells the tokens.
#![tactic(auto)]

mod asked;
mod compound;
mod evaluate;
mod laws;
mod nested;
mod plain;
mod relations;
mod sides;

pub use asked::{Asked, Test, begins_test, read_asked};
pub use compound::condition;
pub use evaluate::{object, subject};
pub use laws::{condition_law, object_law, subject_law};
pub use plain::goes_on;
pub use relations::relation;
pub use sides::side;
