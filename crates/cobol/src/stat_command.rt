//! `stat VOLUME`.

use crate::verdict::Verdict;
use host_volume::{Access, HostDevice, HostVolume};
use std::fs::File;
use std::io::Write;
use std::rt::Files;
use volume_commands::stat_volume;

/// Prints what a volume is and how many rows its files have.
pub fn stat<R, O>(rt: &R, path: &str, out: &mut O) -> Verdict
where
    R: Files<File = File> + AllocGlobal,
    O: Write,
{
    let mut device = match HostVolume::open(rt, path, Access::Read) {
        Ok(volume) => HostDevice::new(rt.alloc(), volume),
        Err(error) => return Verdict::refusing_host_file(error),
    };
    match stat_volume(rt.alloc(), &mut device, out) {
        Ok(()) => Verdict::Done,
        Err(error) => Verdict::refusing_volume(error),
    }
}
