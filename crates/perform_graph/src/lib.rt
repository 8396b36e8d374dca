//! An order of paragraphs in which each stands above those that it performs, or paragraphs that perform one another.
#![tactic(auto)]

mod cycle;
mod laws;
mod order;
mod performed;
mod performs;
mod progress;
mod visit;
mod walk;

pub use laws::one_answer;
pub use order::{Order, order_of};
pub use performed::PerformedRange;
