//! Exact decimal numbers: what COBOL arithmetic computes with, and what its receivers keep.
//! Each call is exactly its definition, for all numbers, and refuses exactly where that has a size error.
#![tactic(auto)]

mod arithmetic;
mod decimal;
mod digit_count;
mod digit_run;
mod digit_text;
mod digits;
mod eight_digits;
pub mod laws;
mod order;
mod power;
mod quotient;
mod receiver;
mod short_arithmetic;
mod short_receiver;
mod size_error;

pub use decimal::Dec;
pub use digit_run::number_after;
pub use digit_text::put_digits;
pub use power::{short_power, signed_power};
pub use receiver::Rounding;
pub use size_error::Size;
