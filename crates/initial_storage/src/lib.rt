//! What the areas of a program hold at the start of a run, with VALUE; and what INITIALIZE puts into an item.
#![tactic(auto)]

mod initialize_statement;
mod laws;
mod occurrences;
mod outlines;
mod patterns;
mod repeat;
mod set_statement;
mod storage;
mod value;

pub use initialize_statement::{NewBytes, initialized_item};
pub use laws::{
    areas_are_small, condition_values_suit, items_have_their_form, items_lie_within_areas,
};
pub use set_statement::set_value;
pub use storage::InitialStorage;
