//! A volume that replaces a file.

use crate::asserted::{holds, same, value_of};
use crate::host_files::{content, remove};
use host_volume::{Access, HostVolume, Replacement};
use std::fs;
use std::fs::File;
use std::process::Abort;
use std::rt::Files;

/// Begins to replace a file by a volume. The file is as it was, and locked.
fn begin_to_replace<R: Files<File = File> + AllocGlobal + Abort>(
    rt: &R,
    path: &str,
) -> (Replacement, HostVolume) {
    value_of(rt, fs::write(rt, path, "OLD"));
    let replacement = value_of(rt, Replacement::open(rt, path));
    holds(rt, HostVolume::open(rt, path, Access::Read).is_err());
    let file = value_of(rt, replacement.begin(rt));
    let volume = value_of(rt, file.fill(rt.alloc(), 3, |_| {}));
    holds(rt, content(rt, path).as_slice() == b"OLD".as_slice());
    (replacement, volume)
}

/// What is at a path after a volume replaced it.
#[test]
fn volume_that_replaces_a_file(rt: HostRuntime) {
    let (replacement, volume) = begin_to_replace(&rt, "replaced");
    value_of(&rt, replacement.end(&rt, volume));
    same(&rt, content(&rt, "replaced").len(), 3 * 4096);
    holds(&rt, !value_of(&rt, fs::exists(&rt, "replaced.cobol-copy")));
    remove(&rt, "replaced");
}

/// What is at a path after its replacement was given up.
#[test]
fn replacement_that_is_given_up(rt: HostRuntime) {
    let (replacement, _volume) = begin_to_replace(&rt, "kept");
    replacement.give_up(&rt);
    holds(&rt, content(&rt, "kept").as_slice() == b"OLD".as_slice());
    holds(&rt, !value_of(&rt, fs::exists(&rt, "kept.cobol-copy")));
    remove(&rt, "kept");
}
