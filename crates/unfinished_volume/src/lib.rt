//! A device on which a volume is made. Until the volume is whole, no reader finds a root there.
//!
//! Promise: at each moment a crash leaves what was possible before, or sectors without a root.
#![tactic(auto)]

mod beginning;
mod inverting;
mod laws;
mod root_sector;
mod unfinished;

pub use beginning::Beginning;
pub use laws::hidden_root_is_damage;
pub use root_sector::{hide_root, show_root};
pub use unfinished::UnfinishedVolume;
