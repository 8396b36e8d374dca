//! Rows of the two root sectors of a volume: their bytes, and how often a reader calls the device.
use crate::asserted::{holds, same, same_in};
use crate::image::{blank_station, filled, put_sector};
use roots::{
    Mark, Root, RootSector, RootsError, RootsFault, newest_of, put_head, read_root, read_roots,
    root_sector,
};
use std::alloc::Global;
use std::process::Abort;

const MARKS: [[u8; 8]; 2] = [*b"COBVOL01", *b"COBVOL02"];

const FIRST_MARK: Mark = Mark {
    family: 0,
    version: 0,
};

// The bytes of a root of this generation, with 1,024 sectors and a payload of nines.
fn root_bytes(generation: u64) -> [u8; 4096] {
    let root = Root {
        mark: FIRST_MARK,
        generation,
        sectors: 1024,
        payload: [9; 4076],
    };
    root_sector(b"COBVOL01", &root)
}

fn read(number: u32, generation: u64) -> RootSector {
    read_root(&[&MARKS], 1024, number, &root_bytes(generation))
}

// The mark, the generation and the number of sectors are in front, and the bytes after them stay.
#[test]
fn a_head_in_front_of_a_payload(rt: HostRuntime) {
    let mut bytes = filled(9);
    put_head(&mut bytes, b"COBVOL01", 0x0102_0304_0506_0708, 2048);
    holds(
        &rt,
        bytes.starts_with(b"COBVOL01\x01\x02\x03\x04\x05\x06\x07\x08\0\0\x08\0"),
    );
    same(&rt, &bytes[20..], [9; 4076].as_slice());
}

#[test]
fn bytes_of_a_root(rt: HostRuntime) {
    let bytes = root_bytes(258);
    let front = *b"COBVOL01\0\0\0\0\0\0\x01\x02\0\0\x04\0\x09\x09";
    same(&rt, &bytes[..22], front.as_slice());
    same(&rt, bytes[4095], 9);
    match read(0, 258) {
        RootSector::Valid(root) => {
            let head = (root.mark, root.generation, root.sectors);
            same(&rt, head, (FIRST_MARK, 258, 1024));
            same(&rt, root.payload.as_slice(), [9; 4076].as_slice());
        }
        _ => panic!(rt; "no root"),
    }
}

#[test]
fn the_newest_of_two_roots(rt: HostRuntime) {
    match newest_of(read(0, 6), read(1, 7)) {
        Ok(roots) => {
            same(&rt, roots.newest.generation, 7);
            same(&rt, roots.older.is_some(), true);
        }
        Err(_) => panic!(rt; "no roots"),
    }
}

// A device without roots, and how often it is read.
fn has_no_roots(rt: &impl Abort, alloc: Global, sectors: u32, reads: u64) {
    let mut station = blank_station(rt, alloc, sectors);
    let damaged = Err(RootsError::Roots(RootsFault::Damaged));
    same_in(rt, &sectors, read_roots(&mut station, &[&MARKS]), damaged);
    same_in(rt, &sectors, station.reads(), reads);
    drop(station);
}

#[test]
fn devices_without_roots(rt: HostRuntime) {
    for (sectors, reads) in &[(0, 0), (1, 0), (2, 2), (1024, 2)] {
        has_no_roots(&rt, rt.alloc(), *sectors, *reads);
    }
}

// A device with two roots, each of which is read once.
#[test]
fn roots_of_a_device(rt: HostRuntime) {
    let mut station = blank_station(&rt, rt.alloc(), 1024);
    put_sector(&rt, &mut station, 0, &root_bytes(6));
    put_sector(&rt, &mut station, 1, &root_bytes(7));
    match read_roots(&mut station, &[&MARKS]) {
        Ok(roots) => same(&rt, roots.newest.generation, 7),
        Err(_) => panic!(rt; "no roots"),
    }
    same(&rt, station.reads(), 2);
    drop(station);
}
