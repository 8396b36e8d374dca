//! The run unit: an image is run, and a source text is compiled and run.
//!
//! Promise: what is shown at any moment of a run is a beginning of what the text means, and all of it at the end.
#![tactic(auto)]

mod compiled_image;
mod ended;
mod image;
mod laws;
mod no_volume;
mod over;
mod source;
mod volume;

pub use compiled_image::run_volume;
pub use compiler::{CompileError, CompileFault, compile, one_meaning};
pub use data_instructions::ProgramFault;
pub use ended::{Ended, Refusal};
pub use image::run_image;
pub use laws::compiled_bytes;
pub use over::run_over;
pub use source::run_source;
