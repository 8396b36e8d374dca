//! What `load` leaves of a volume.
use crate::asserted::{holds, same, same_in};
use crate::narrow_writer::NarrowWriter;
use crate::printing::{PRINTED, Printing, prints};
use crate::unseen::Unseen;
use crate::volume::{FileRows, INDEXED, blank_station, volume_of};
use records::{Organization, Status, StoreFault};
use station::MemoryStation;
use std::alloc::Global;
use std::process::Abort;
use volume_copies::{LineFault, Load, LoadEnd, load_volume};

const KEYS: &[FileRows] = &[FileRows {
    name: b"KEYS",
    organization: INDEXED,
    length: 2,
    records: &[],
}];

const BOXES: &[FileRows] = &[FileRows {
    name: b"BOXES",
    organization: Organization::Relative,
    length: 1,
    records: &[b"1", b"2"],
}];

const LOG: &[FileRows] = &[FileRows {
    name: b"LOG",
    organization: Organization::Sequential,
    length: 1,
    records: &[b"1"],
}];

const LINES: &[u8] = b"B2\nA1\n\\x00\n";

fn load(alloc: Global, station: &mut MemoryStation, name: &[u8], text: &[u8]) -> Load {
    load_volume(alloc, station, name, text, &mut Unseen)
}

// Lines are rows up to the first that is refused, and the rows before it stay: the lines, how many became rows, why no more did, and
// the dump of the file.
const LOADS: [(&[u8], u64, LoadEnd, &[u8]); 7] = [
    (b"", 0, LoadEnd::Done, b""),
    (LINES, 3, LoadEnd::Done, b"\\x00 \nA1\nB2\n"),
    (
        b"B2\nB3\nA1\n",
        1,
        LoadEnd::Rejected(Status::DuplicateKey),
        b"B2\n",
    ),
    (b"\n", 1, LoadEnd::Done, b"  \n"),
    (b"B\nABC", 1, LoadEnd::Malformed(LineFault::Long), b"B \n"),
    (
        b"B\nA\x1f",
        1,
        LoadEnd::Malformed(LineFault::Control),
        b"B \n",
    ),
    (b"B\nA\\", 1, LoadEnd::Malformed(LineFault::Escape), b"B \n"),
];

fn load_ends(rt: &impl Abort, alloc: Global, lines: &[u8], rows: u64, end: LoadEnd, dump: &[u8]) {
    let mut station = volume_of(rt, alloc, KEYS);
    let answer = load(alloc, &mut station, b"KEYS", lines);
    same_in(rt, &lines, answer.rows, rows);
    holds(rt, answer.end == end);
    let keys = Printing::Dump(b"KEYS");
    prints(rt, alloc, &mut station, keys, PRINTED, dump);
}

#[test]
fn lines_that_are_refused(rt: HostRuntime) {
    for (lines, rows, end, dump) in &LOADS {
        load_ends(&rt, rt.alloc(), lines, *rows, *end, dump);
    }
}

// Without the file, and without files.
#[test]
fn names_and_volumes_that_are_refused(rt: HostRuntime) {
    let alloc = rt.alloc();
    let mut station = volume_of(&rt, alloc, KEYS);
    let writes = station.writes();
    let end = load(alloc, &mut station, b"keys", LINES).end;
    holds(&rt, end == LoadEnd::UnknownName);
    same(&rt, station.writes(), writes);
    let end = load(alloc, &mut blank_station(&rt, alloc), b"KEYS", LINES).end;
    holds(&rt, end == LoadEnd::Refused(StoreFault::Damaged));
}

// Rows of a relative file get the numbers after the greatest one, and there is none after 999,999,999.
#[test]
fn numbers_after_the_greatest(rt: HostRuntime) {
    let alloc = rt.alloc();
    let mut station = volume_of(&rt, alloc, BOXES);
    let end = load(alloc, &mut station, b"BOXES", b"3\n4").end;
    holds(&rt, end == LoadEnd::Done);
    let boxes = Printing::Dump(b"BOXES");
    prints(&rt, alloc, &mut station, boxes, PRINTED, b"1\n2\n3\n4\n");
}

/// How many bytes the dump of the log has.
fn dumped(rt: &impl Abort, alloc: Global, station: &mut MemoryStation) -> usize {
    let mut out = NarrowWriter::new(alloc, usize::MAX);
    let log = Printing::Dump(b"LOG");
    holds(rt, log.print(alloc, station, &mut out) == PRINTED);
    out.taken.len()
}

/// Stops a load of a line at a call of the device, and says whether it had ended before. The crash leaves what was synced last, or what
/// was written since. The file has its rows, and the line if it was reported, and perhaps if not.
fn stop_at(
    rt: &impl Abort,
    alloc: Global,
    station: &mut MemoryStation,
    call: u64,
    choices: &[u32],
) -> bool {
    let before = dumped(rt, alloc, station);
    station.stop_at(call);
    let answer = load(alloc, station, b"LOG", b"X\n");
    station.crash(choices);
    let after = dumped(rt, alloc, station);
    let is_there = after == before.saturating_add(2);
    let is_lost = after == before && answer.rows == 0;
    same_in(rt, &call, is_there || is_lost, true);
    answer.end == LoadEnd::Done
}

fn stops(rt: &impl Abort, alloc: Global, choices: &[u32]) {
    let mut station = volume_of(rt, alloc, LOG);
    let mut stopped = 0u64;
    for call in 1..200 {
        if stop_at(rt, alloc, &mut station, call, choices) {
            break;
        }
        stopped = call;
    }
    holds(rt, 10 < stopped && stopped < 199);
}

// A stop at any call of a load loses no row, and no line that was reported.
#[test]
fn stops_at_each_call(rt: HostRuntime) {
    stops(&rt, rt.alloc(), &[]);
    stops(&rt, rt.alloc(), &[9, 9, 9, 9, 9, 9, 9, 9]);
}
