//! A volume in a file of the host: opened and locked, or made of zeros; and a device over it.
//!
//! No contract can say what a host file holds. Each call is safe for every file, and the device counts its failures.
#![tactic(auto)]

mod device;
mod gathering;
mod host_file;
mod new_volume;
mod replacement;
mod roots;
mod volume;
mod withheld;

pub use device::HostDevice;
pub use new_volume::NewVolume;
pub use replacement::Replacement;
pub use roots::rewrite_roots;
pub use volume::{Access, HostVolume};
