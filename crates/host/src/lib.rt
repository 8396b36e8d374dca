//! What the program takes from its host: a console, host files, the clock, and the numbers of standard input, output and error.
//!
//! No contract can say what a host answers. Each call is safe for every answer, and the station counts its failures.
#![tactic(auto)]

mod console;
mod day;
mod descriptors;
mod file_trace;
mod host_file;
mod host_station;
mod progress;

pub use day::today;
pub use descriptors::hold_descriptors;
pub use host_file::{read_image, read_source, write_image};
pub use host_station::HostStation;
pub use progress::{Progress, Reasons};
