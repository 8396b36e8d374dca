//! Openings, locks, lengths and new volumes.

use crate::asserted::{fails_as, holds, same, value_of};
use crate::host_files::{content, make_file, new_volume, opened, remove, set_length};
use host_volume::{Access, HostVolume, NewVolume};
use std::fs;
use std::fs::{File, OpenOptions};
use std::io::ErrorKind;
use std::os::unix::fs::MetadataExt;
use std::process::Abort;
use std::rt::Files;
use std::time::SystemTime;

/// An opening to read and one to write are refused.
fn refuses_both<R: Files<File = File> + AllocGlobal + Abort>(rt: &R, path: &str, kind: ErrorKind) {
    fails_as(rt, HostVolume::open(rt, path, Access::Read), kind);
    fails_as(rt, HostVolume::open(rt, path, Access::ReadWrite), kind);
}

#[test]
fn openings_that_are_refused(rt: HostRuntime) {
    value_of(&rt, fs::create_dir(&rt, "refused"));
    refuses_both(&rt, "refused/V", ErrorKind::NotFound);
    refuses_both(&rt, "refused", ErrorKind::InvalidInput);
    refuses_both(&rt, "/dev/zero", ErrorKind::InvalidInput);
    holds(&rt, !value_of(&rt, fs::exists(&rt, "refused/V")));
    fails_as(
        &rt,
        NewVolume::open(&rt, "refused"),
        ErrorKind::InvalidInput,
    );
    fails_as(
        &rt,
        NewVolume::open(&rt, "refused/N/V"),
        ErrorKind::NotFound,
    );
    value_of(&rt, fs::remove_dir_all(&rt, "refused"));
}

/// While a volume is open to write, it is opened by nobody else.
fn has_one_writer<R: Files<File = File> + AllocGlobal + Abort>(rt: &R, path: &str) {
    let writer = opened(rt, path, Access::ReadWrite);
    refuses_both(rt, path, ErrorKind::WouldBlock);
    fails_as(rt, NewVolume::open(rt, path), ErrorKind::WouldBlock);
    drop(writer);
}

/// While a volume is open to read, others read it, and nobody writes it.
fn has_some_readers<R: Files<File = File> + AllocGlobal + Abort>(rt: &R, path: &str) {
    let reader = opened(rt, path, Access::Read);
    drop(opened(rt, path, Access::Read));
    fails_as(
        rt,
        HostVolume::open(rt, path, Access::ReadWrite),
        ErrorKind::WouldBlock,
    );
    holds(rt, reader.write(0, &[8; 4096]).is_err());
    drop(reader);
}

#[test]
fn one_writer_or_some_readers(rt: HostRuntime) {
    make_file(&rt, "locks.V", 4096);
    has_one_writer(&rt, "locks.V");
    has_some_readers(&rt, "locks.V");
    let volume = opened(&rt, "locks.V", Access::ReadWrite);
    let mut bytes = [0; 4096];
    value_of(&rt, volume.read(0, &mut bytes));
    drop(volume);
    holds(&rt, bytes == [7; 4096]);
    remove(&rt, "locks.V");
}

/// Whether an opening writes to a file. A file that is written gets a new time.
fn writes_at_opening<R: Files<File = File> + AllocGlobal + Abort>(
    rt: &R,
    path: &str,
    access: Access,
) -> bool {
    let file = value_of(rt, OpenOptions::new().write(true).open(rt, path));
    value_of(rt, file.set_modified(SystemTime::UNIX_EPOCH));
    drop(opened(rt, path, access));
    value_of(rt, fs::metadata(rt, path)).mtime() != 0
}

/// An opening to write writes the roots again. One to read writes nothing.
#[test]
fn openings_that_write(rt: HostRuntime) {
    drop(new_volume(&rt, "time.V", 2));
    holds(&rt, !writes_at_opening(&rt, "time.V", Access::Read));
    holds(&rt, writes_at_opening(&rt, "time.V", Access::ReadWrite));
    remove(&rt, "time.V");
}

/// A file of so many bytes has so many sectors. What is after them is neither read nor written.
fn has_sectors<R: Files<File = File> + AllocGlobal + Abort>(
    rt: &R,
    path: &str,
    bytes: u64,
    sectors: u32,
) {
    set_length(rt, path, bytes);
    let volume = opened(rt, path, Access::ReadWrite);
    same(rt, volume.count(), sectors);
    holds(rt, volume.read(sectors, &mut [0; 4096]).is_err());
    holds(rt, volume.write(sectors, &[1; 4096]).is_err());
    drop(volume);
    same(rt, value_of(rt, fs::metadata(rt, path)).len(), bytes);
}

#[test]
fn sectors_of_a_file(rt: HostRuntime) {
    drop(value_of(&rt, File::create(&rt, "length.V")));
    for (bytes, sectors) in [
        (0, 0),
        (1, 0),
        (4095, 0),
        (4096, 1),
        (4099, 1),
        (8191, 1),
        (8192, 2),
    ] {
        has_sectors(&rt, "length.V", bytes, sectors);
    }
    remove(&rt, "length.V");
}

/// What a new volume held is gone, and progress is reported after each MiB.
#[test]
fn bytes_of_a_new_volume(rt: HostRuntime) {
    make_file(&rt, "new.V", 5_000_000);
    let mut reported = [0; 3];
    let mut calls = 0usize;
    let file = value_of(&rt, NewVolume::open(&rt, "new.V"));
    let filled = file.fill(rt.alloc(), 513, |written| {
        if let Some(place) = reported.get_mut(calls) {
            *place = written;
        }
        calls = calls.wrapping_add(1);
    });
    same(&rt, value_of(&rt, filled).count(), 513);
    same(&rt, calls, 3);
    holds(&rt, reported == [256, 512, 513]);
    has_zeros(&rt, "new.V", 513 * 4096);
    remove(&rt, "new.V");
}

/// Asserts that a file has so many bytes, which are zeros.
fn has_zeros<R: Files<File = File> + AllocGlobal + Abort>(rt: &R, path: &str, count: usize) {
    let bytes = content(rt, path);
    same(rt, bytes.len(), count);
    holds(rt, bytes.iter().all(|byte| *byte == 0));
}
