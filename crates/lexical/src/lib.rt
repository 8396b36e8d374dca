//! What the tokens of a source text and its tree both say: places, and numbers as they were written.
#![tactic(auto)]

mod number;
mod place;

pub use number::{NumericLiteral, Sign};
pub use place::Place;
