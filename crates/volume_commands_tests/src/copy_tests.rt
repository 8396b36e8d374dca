//! What `copy` leaves of two volumes.
use crate::asserted::{holds, same, same_in};
use crate::narrow_writer::NarrowWriter;
use crate::printing::{PRINTED, Printing, prints};
use crate::unseen::Unseen;
use crate::volume::{FileRows, INDEXED, blank_station, volume_of};
use records::{Organization, StoreFault};
use station::{Device, MemoryStation};
use std::alloc::Global;
use std::process::Abort;
use volume_commands::VolumeError;
use volume_copies::{Copied, CopyError, VolumeCopy, copy_volume};

const FILES: &[FileRows] = &[
    FileRows {
        name: b"KEYS",
        organization: INDEXED,
        length: 2,
        records: &[b"C3", b"A1", b"B2"],
    },
    FileRows {
        name: b"BOXES",
        organization: Organization::Relative,
        length: 1,
        records: &[b"1", b"2"],
    },
    FileRows {
        name: b"LOG",
        organization: Organization::Sequential,
        length: 1,
        records: &[b"Z", b"A", b"M"],
    },
    FileRows {
        name: b"EMPTY",
        organization: Organization::Sequential,
        length: 9,
        records: &[],
    },
];

const LISTING: &[u8] =
    b"BOXES relative 1 2\nEMPTY sequential 9 0\nKEYS indexed 2 3\nLOG sequential 1 3\n";

const TWO_ROWS: &[FileRows] = &[FileRows {
    name: b"KEYS",
    organization: INDEXED,
    length: 2,
    records: &[b"C3", b"A1"],
}];

const KEYS: Printing = Printing::Dump(b"KEYS");

/// What commands print of a copy.
const PRINTS: [(Printing, &[u8]); 4] = [
    (Printing::List, LISTING),
    (KEYS, b"A1\nB2\nC3\n"),
    (Printing::Dump(b"BOXES"), b"1\n2\n"),
    (Printing::Dump(b"LOG"), b"Z\nA\nM\n"),
];

fn copy(
    rt: &impl Abort,
    alloc: Global,
    old: &mut MemoryStation,
    new: MemoryStation,
) -> Copied<MemoryStation, CopyError> {
    assert!(rt; 1024 <= new.count());
    assert!(rt; new.count() <= 921_600);
    copy_volume(alloc, old, new, &mut Unseen)
}

/// The new device of a copy that is done. The old one isn't written.
fn done(rt: &impl Abort, alloc: Global, old: &mut MemoryStation) -> MemoryStation {
    let writes = old.writes();
    let Copied { device, copy } = copy(rt, alloc, old, blank_station(rt, alloc));
    holds(rt, copy == Ok(VolumeCopy::Done));
    same(rt, old.writes(), writes);
    device
}

/// A station is no volume, or it holds the copied file.
fn is_none_or_copy(rt: &impl Abort, alloc: Global, station: &mut MemoryStation) {
    let mut out = NarrowWriter::new(alloc, usize::MAX);
    let answer = KEYS.print(alloc, station, &mut out);
    if answer == PRINTED {
        same(rt, out.taken.as_slice(), b"A1\nC3\n");
    } else {
        holds(rt, answer == Err(VolumeError::Damaged));
    }
}

fn copy_lasts(rt: &impl Abort, alloc: Global, choices: &[u32]) {
    let mut old = volume_of(rt, alloc, FILES);
    let mut new = done(rt, alloc, &mut old);
    new.crash(choices);
    for (printing, text) in &PRINTS {
        prints(rt, alloc, &mut new, *printing, PRINTED, text);
    }
}

// The new volume holds the same files, whatever a crash leaves, and the old one isn't written.
#[test]
fn copies_that_are_done(rt: HostRuntime) {
    copy_lasts(&rt, rt.alloc(), &[]);
    copy_lasts(&rt, rt.alloc(), &[9, 9, 9, 9]);
}

// A volume without files, and a device that holds none.
#[test]
fn volumes_without_files(rt: HostRuntime) {
    let alloc = rt.alloc();
    let mut new = done(&rt, alloc, &mut volume_of(&rt, alloc, &[]));
    prints(&rt, alloc, &mut new, Printing::List, PRINTED, b"");
    let error = CopyError::Old(StoreFault::Damaged);
    let copied = copy(&rt, alloc, &mut blank_station(&rt, alloc), new);
    holds(&rt, copied.copy == Err(error));
}

/// Fails each call of the new device in turn, or stops it there, until a copy is done. None of them is passed over, and a crash by these
/// choices leaves no volume or the whole copy.
fn is_disturbed(rt: &impl Abort, alloc: Global, is_stop: bool, choices: &[u32]) {
    let mut old = volume_of(rt, alloc, TWO_ROWS);
    let mut new = blank_station(rt, alloc);
    let mut disturbed = 0u64;
    for call in 1..200 {
        if is_stop {
            new.stop_at(call);
        } else {
            new.fail_at(call);
        }
        let Copied { device, copy } = copy(rt, alloc, &mut old, new);
        new = device;
        if copy == Ok(VolumeCopy::Done) {
            break;
        }
        let error = CopyError::New(StoreFault::Device);
        same_in(rt, &call, copy == Err(error), true);
        new.crash(choices); // It works again from now on.
        is_none_or_copy(rt, alloc, &mut new);
        disturbed = call;
    }
    new.crash(&[]);
    holds(rt, 20 < disturbed && disturbed < 199);
    prints(rt, alloc, &mut new, KEYS, PRINTED, b"A1\nC3\n");
}

// No failure and no stop of the new device is passed over: each of its calls is needed. None leaves some of the rows.
#[test]
fn new_devices_that_fail_or_stop(rt: HostRuntime) {
    is_disturbed(&rt, rt.alloc(), false, &[1, 0, 1, 0, 1, 0]);
    is_disturbed(&rt, rt.alloc(), true, &[0, 1, 0, 1, 1, 1]);
}

fn old_device_fails(rt: &impl Abort, alloc: Global, call: u64) {
    let mut old = volume_of(rt, alloc, FILES);
    old.fail_at(call);
    let copied = copy(rt, alloc, &mut old, blank_station(rt, alloc));
    let error = CopyError::Old(StoreFault::Device);
    same_in(rt, &call, copied.copy == Err(error), true);
}

// The sync and the reads of the roots are the first three calls on the old device.
#[test]
fn old_devices_that_fail(rt: HostRuntime) {
    for call in 1..=3 {
        old_device_fails(&rt, rt.alloc(), call);
    }
}
