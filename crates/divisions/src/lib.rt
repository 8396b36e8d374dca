//! From the tokens of a source text to its one tree, or to the fault that says where reading stopped.
#![tactic(auto)]

mod body;
mod environment;
mod fault;
mod identification;
mod listed;
mod paragraphs;
mod program;
mod sections;

pub use fault::{FaultKind, ParseError, ParseFault};
pub use program::{one_tree, parse};
