//! Volumes and files of the folder that the tests run in.

use crate::asserted::{holds, same, value_of};
use host_volume::{Access, HostVolume, NewVolume};
use std::fs;
use std::fs::{File, OpenOptions};
use std::process::Abort;
use std::rt::Files;

/// Opens a volume, which has to work.
pub fn opened<R: Files<File = File> + AllocGlobal + Abort>(
    rt: &R,
    path: &str,
    access: Access,
) -> HostVolume {
    value_of(rt, HostVolume::open(rt, path, access))
}

/// A new volume of so many sectors.
pub fn new_volume<R: Files<File = File> + AllocGlobal + Abort>(
    rt: &R,
    path: &str,
    sectors: u32,
) -> HostVolume {
    let file = value_of(rt, NewVolume::open(rt, path));
    value_of(rt, file.fill(rt.alloc(), sectors, |_| {}))
}

/// The bytes of a file, as another reader of the file sees them.
pub fn content<R: Files<File = File> + AllocGlobal + Abort>(rt: &R, path: &str) -> Vec<u8> {
    value_of(rt, fs::read(rt, path))
}

/// Makes a file of so many bytes, which are sevens.
pub fn make_file<R: Files<File = File> + AllocGlobal + Abort>(rt: &R, path: &str, bytes: usize) {
    let sevens = value_of(rt, vec![in rt.alloc(); 7u8; bytes]);
    value_of(rt, fs::write(rt, path, sevens));
}

pub fn remove<R: Files<File = File> + AllocGlobal + Abort>(rt: &R, path: &str) {
    value_of(rt, fs::remove_file(rt, path));
}

/// Cuts a file, or makes it longer.
pub fn set_length<R: Files<File = File> + AllocGlobal + Abort>(rt: &R, path: &str, bytes: u64) {
    let file = value_of(rt, OpenOptions::new().write(true).open(rt, path));
    value_of(rt, file.set_len(bytes));
}

/// Asserts that the sectors of a file begin with these bytes, and that there are no more.
pub fn has_first_bytes<R: Files<File = File> + AllocGlobal + Abort>(
    rt: &R,
    path: &str,
    expected: &[u8],
) {
    let bytes = content(rt, path);
    same(rt, bytes.len() / 4096, expected.len());
    let firsts = bytes.iter().step_by(4096);
    holds(
        rt,
        firsts
            .zip(expected.iter())
            .all(|(first, byte)| *first == *byte),
    );
}
