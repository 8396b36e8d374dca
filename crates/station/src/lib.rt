//! Sectors, a console, and the moments at which a run may be stopped.
//! The traits say what a crash may leave; what `two_phase_write` writes is there as a whole after it, or the old root is.
#![tactic(auto)]

mod blocks;
mod call;
mod console;
mod device;
mod follow;
mod heard;
mod image;
mod journal;
mod laws;
mod memory;
mod note;
mod plan;
mod sector_bytes;
mod traced;
mod two_phase;

pub use blocks::{Block, write_blocks};
pub use device::{Device, DeviceError, Station};
pub use laws::{crash_laws, moment_laws, show_law};
pub use memory::MemoryStation;
pub use note::Note;
pub use sector_bytes::SectorBytes;
pub use traced::TracedStatement;
pub use two_phase::{two_phase_write, write_blocks_through, write_through};
