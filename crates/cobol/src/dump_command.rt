//! `dump VOLUME NAME`.

use crate::unknown_name::refuse_name;
use crate::verdict::Verdict;
use host_volume::{Access, HostDevice, HostVolume};
use std::fs::File;
use std::io::{BufWriter, Write};
use std::rt::Files;
use volume_commands::{FileDump, dump_volume};

/// Prints the rows of the file of this name.
pub fn dump<R, O, E>(rt: &R, path: &str, name: &str, out: O, err: &mut E) -> Verdict
where
    R: Files<File = File> + AllocGlobal,
    O: Write + Drop,
    E: Write,
{
    let mut device = match HostVolume::open(rt, path, Access::Read) {
        Ok(volume) => HostDevice::new(rt.alloc(), volume),
        Err(error) => return Verdict::refusing_host_file(error),
    };
    let Ok(mut out) = BufWriter::new(rt.alloc(), out) else {
        return Verdict::memory();
    };
    match dump_volume(rt.alloc(), &mut device, name.as_bytes(), &mut out) {
        Ok(FileDump::Written) => Verdict::Done,
        Ok(FileDump::UnknownName) => refuse_name(rt.alloc(), name, err),
        Err(error) => Verdict::refusing_volume(error),
    }
}
