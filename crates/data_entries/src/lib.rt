//! Entries of the data division one by one: their integers, which entries stand in a group, the item that clauses describe, and what
//! the literals of VALUE clauses and of MOVE send.
#![tactic(auto)]

mod clauses;
mod integers;
mod laws;
mod levels;
mod literal_number;
mod pictures;
mod sender;

pub use clauses::{inside, kind, usage};
pub use integers::{MOST, number, number_within, occurrences};
pub use laws::{levels_are_told, record_levels_are_told, senders_have_their_form};
pub use levels::{Sibling, level, next_item, split_group};
pub use pictures::{editing, elementary, elementary_length, picture_of};
pub use sender::Sender;
