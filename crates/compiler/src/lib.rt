//! The compiler: a source text is compiled to the bytes of an image.
//!
//! Promise: whatever the image is given, its run is what the text means, and a text without an image is refused by its first fault.
#![tactic(auto)]

mod compiling;
mod fault;
mod laws;

pub use compiling::compile;
pub use fault::{CompileError, CompileFault};
pub use laws::one_meaning;
