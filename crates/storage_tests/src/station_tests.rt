//! Rows of a station in memory: its calls, which succeed while memory lasts, and the order of those of a two-phase write.
use crate::asserted::{same, same_in};
use crate::image::{filled, put_sector, sector_bytes};
use station::{
    Block, Device, DeviceError, MemoryStation, Note, SectorBytes, Station, two_phase_write,
};
use std::alloc::{AllocError, Global};
use std::process::Abort;

const NOTE: Note = Note {
    file: 1,
    status: *b"00",
};

// Eight sectors of zeros, and the line `AB`, if there is memory for it.
fn possible_station(alloc: Global) -> Result<MemoryStation, AllocError> {
    let sectors = vec![in alloc; filled(0); 8]?;
    let mut lines = Vec::new(alloc);
    lines.push(b"AB".to_vec(alloc)?)?;
    MemoryStation::new(alloc, sectors, lines)
}

fn fresh_station(rt: &impl Abort, alloc: Global) -> MemoryStation {
    possible_station(alloc).expect(rt, "no memory")
}

// A sector that is written, read and synced.
fn sectors_work(rt: &impl Abort, station: &mut MemoryStation) {
    put_sector(rt, station, 3, &filled(1));
    same(rt, sector_bytes(rt, station, 3)[0], 1);
    same(rt, station.sync(), Ok(()));
}

// The one line of the console.
fn lines_work(rt: &impl Abort, station: &mut MemoryStation) {
    let mut line = *b"....";
    same(rt, station.line(&mut line), Ok(Some(2)));
    same(rt, line.as_slice(), b"AB..".as_slice());
    same(rt, station.line(&mut line), Ok(None));
}

// A text and a note.
fn events_work(rt: &impl Abort, station: &mut MemoryStation) {
    same(rt, station.show(b"one"), Ok(()));
    same(rt, station.note(NOTE), Ok(()));
    let shown = station.shown().expect(rt, "no memory");
    same(rt, shown.as_slice(), b"one".as_slice());
    drop(shown);
    let notes = station.notes().expect(rt, "no memory");
    same(rt, notes.as_slice(), [NOTE].as_slice());
}

#[test]
fn each_call_works(rt: HostRuntime) {
    let mut station = fresh_station(&rt, rt.alloc());
    sectors_work(&rt, &mut station);
    lines_work(&rt, &mut station);
    events_work(&rt, &mut station);
    let calls = (station.reads(), station.writes(), station.syncs());
    let refused = station.refused();
    drop(station);
    same(&rt, calls, (1, 1, 1));
    same(&rt, refused, 0);
}

#[test]
fn the_second_call_fails(rt: HostRuntime) {
    let mut station = fresh_station(&rt, rt.alloc());
    station.fail_at(2);
    for answer in &[Ok(()), Err(DeviceError::Failed), Ok(())] {
        same(&rt, station.sync(), *answer);
    }
    drop(station);
    same(&rt, DeviceError::Failed.number(), 1);
}

// Puts 2 and 3 in sectors 2 and 3, and then the root 9 in sector 1.
fn put_all(rt: &impl Abort, alloc: Global, station: &mut MemoryStation) -> bool {
    assert!(rt; 8 <= station.count());
    let second = filled(2);
    let third = SectorBytes::owned(alloc, filled(3)).expect(rt, "no memory");
    let blocks = [
        Block {
            sector: 2,
            bytes: SectorBytes::borrowed(&second),
        },
        Block {
            sector: 3,
            bytes: third,
        },
    ];
    two_phase_write(station, &blocks, 1, &filled(9)).is_ok()
}

// The call that a put is stopped at, whether it worked, and the bytes of the sectors 1, 2 and 3 after a crash that leaves nothing that
// waits for a sync, and after one that leaves all of it. A put has five calls.
const STOPPED_PUTS: [(u64, bool, [u8; 3], [u8; 3]); 6] = [
    (1, false, [0, 0, 0], [0, 2, 0]),
    (2, false, [0, 0, 0], [0, 2, 3]),
    (3, false, [0, 0, 0], [0, 2, 3]),
    (4, false, [0, 2, 3], [9, 2, 3]),
    (5, false, [0, 2, 3], [9, 2, 3]),
    (6, true, [9, 2, 3], [9, 2, 3]),
];

// Stopped at a call, a put leaves these bytes after a crash by these choices.
fn leaves(rt: &impl Abort, alloc: Global, call: u64, works: bool, choose: &[u32], left: &[u8]) {
    let mut station = fresh_station(rt, alloc);
    station.stop_at(call);
    same_in(rt, &call, put_all(rt, alloc, &mut station), works);
    station.crash(choose);
    let now = [
        sector_bytes(rt, &mut station, 1)[0],
        sector_bytes(rt, &mut station, 2)[0],
        sector_bytes(rt, &mut station, 3)[0],
    ];
    drop(station);
    same_in(rt, &call, now.as_slice(), left);
}

// A crash leaves the old root, or the new one with all blocks.
#[test]
fn a_stopped_put_leaves_the_old_root_or_all(rt: HostRuntime) {
    for (call, works, none, all) in &STOPPED_PUTS {
        leaves(&rt, rt.alloc(), *call, *works, &[], none);
        leaves(&rt, rt.alloc(), *call, *works, &[1, 1, 1], all);
    }
}
