//! `migrate VOLUME`.

use crate::verdict::Verdict;
use host_volume::{Access, HostDevice, HostVolume};
use std::fs::File;
use std::rt::Files;
use volume_commands::migrate_volume;

/// Gives a volume of trees the newest mark. A volume that has it stays as it is, and so does a damaged one.
pub fn migrate<R>(rt: &R, path: &str) -> Verdict
where
    R: Files<File = File> + AllocGlobal,
{
    let mut device = match HostVolume::open(rt, path, Access::ReadWrite) {
        Ok(volume) => HostDevice::new(rt.alloc(), volume),
        Err(error) => return Verdict::refusing_host_file(error),
    };
    match migrate_volume(rt.alloc(), &mut device) {
        Ok(()) => Verdict::Done,
        Err(fault) => Verdict::Refused(fault.number()),
    }
}
