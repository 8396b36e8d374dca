//! Code, its bytes in an image, and the test that a machine can run it: each code has one spelling, and code that
//! passed the test never leaves the machine without an instruction or an operand.
#![tactic(auto)]

mod code;
mod counter;
mod instruction;
mod known;
mod laws;
mod paragraph;
mod reading;
mod verified;
mod writing;

pub use code::Code;
pub use counter::CounterIndex;
pub use data_image::{ImageError, ImageFault};
pub use instruction::Instruction;
pub use laws::{run_law, spelling_law};
pub use paragraph::ParagraphIndex;
pub use reading::from_bytes;
pub use verified::{Verified, verify};
pub use writing::to_bytes;
