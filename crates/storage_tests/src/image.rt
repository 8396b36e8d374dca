//! The sectors of a volume on the device. Numbers have four bytes, the first byte the highest.
use station::{Device, MemoryStation};
use std::alloc::{AllocError, Global};
use std::process::Abort;

/// How many sectors the volume of `station_of_format` has.
pub const SECTORS: u32 = 1500;

/// A sector or a page whose bytes are all alike.
pub fn filled(byte: u8) -> [u8; 4096] {
    [byte; 4096]
}

/// The byte that a page is filled with, 255 if its bytes aren't alike.
pub fn alike(bytes: &[u8; 4096]) -> u8 {
    let first = bytes[0];
    for byte in bytes {
        if *byte != first {
            return 255;
        }
    }
    first
}

/// The number at a place of a sector, 0 if it doesn't fit there.
pub fn word_at(bytes: &[u8; 4096], place: usize) -> u32 {
    if place > 4092 {
        return 0;
    }
    u32::from_be_bytes([
        bytes[place],
        bytes[place + 1],
        bytes[place + 2],
        bytes[place + 3],
    ])
}

/// The bytes of a sector of a station.
pub fn sector_bytes(rt: &impl Abort, station: &mut MemoryStation, sector: u32) -> [u8; 4096] {
    let mut bytes = filled(255);
    assert!(rt; sector < station.count());
    station.read(sector, &mut bytes).expect(rt, "read");
    bytes
}

/// All sectors of a station.
pub fn image_of(rt: &impl Abort, alloc: Global, station: &mut MemoryStation) -> Vec<[u8; 4096]> {
    let mut image = Vec::new(alloc);
    for sector in 0..station.count() {
        let bytes = sector_bytes(rt, station, sector);
        image.push(bytes).expect(rt, "no memory");
    }
    image
}

/// The sectors that are not as they were, in ascending order.
pub fn changed(
    rt: &impl Abort,
    alloc: Global,
    station: &mut MemoryStation,
    before: &[[u8; 4096]],
) -> Vec<u32> {
    let mut sectors = Vec::new(alloc);
    let mut sector = 0u32;
    for old in before.iter() {
        if sector_bytes(rt, station, sector) != *old {
            sectors.push(sector).expect(rt, "no memory");
        }
        sector = sector.wrapping_add(1);
    }
    sectors
}

/// A root sector of a volume: its mark, its generation, its sectors, the page of the catalog's root, and its map sectors.
pub fn root(
    mark: &[u8; 8],
    generation: u64,
    sectors: u32,
    catalog: u32,
    maps: &[u32],
) -> [u8; 4096] {
    let mut bytes = filled(0);
    bytes[..8].copy_from_slice(mark);
    bytes[8..16].copy_from_slice(&generation.to_be_bytes());
    put_word(&mut bytes, 16, sectors);
    put_word(&mut bytes, 20, catalog);
    let mut count = 0u32;
    let mut place = 28usize;
    for map in maps {
        put_word(&mut bytes, place, *map);
        place = place.wrapping_add(4);
        count = count.wrapping_add(1);
    }
    put_word(&mut bytes, 24, count);
    bytes
}

/// A map sector in which one entry names a sector.
pub fn map_of(entry: usize, sector: u32) -> [u8; 4096] {
    let mut bytes = filled(0);
    put_word(&mut bytes, entry.wrapping_mul(4), sector);
    bytes
}

/// Writes a sector of a station, which has to work.
pub fn put_sector(rt: &impl Abort, station: &mut MemoryStation, sector: u32, bytes: &[u8; 4096]) {
    assert!(rt; sector < station.count());
    station.write(sector, bytes).expect(rt, "write");
}

/// A station of so many sectors of zeros.
pub fn blank_station(rt: &impl Abort, alloc: Global, sectors: u32) -> MemoryStation {
    station_of_zeros(alloc, sectors).expect(rt, "no memory")
}

/// A station with a volume of generation 1, by the description of the format: page 1 in sector 2, page 1,024 in sector 3, their maps
/// in the sectors 4 and 5, with the first mark. The volume was empty in the generation before.
pub fn station_of_format(rt: &impl Abort, alloc: Global) -> MemoryStation {
    let sectors = [
        root(b"COBVOL01", 0, SECTORS, 0, &[0, 0]),
        root(b"COBVOL01", 1, SECTORS, 1, &[4, 5]),
        filled(1),
        filled(24),
        map_of(1, 2),
        map_of(0, 3),
    ];
    let mut station = blank_station(rt, alloc, SECTORS);
    put_sectors(rt, &mut station, &sectors);
    station
}

/// Writes the first sectors of a station.
fn put_sectors(rt: &impl Abort, station: &mut MemoryStation, sectors: &[[u8; 4096]]) {
    let mut sector = 0u32;
    for bytes in sectors {
        put_sector(rt, station, sector, bytes);
        sector = sector.wrapping_add(1);
    }
}

/// Puts a number at a place of a sector, if it fits there.
fn put_word(bytes: &mut [u8; 4096], place: usize, word: u32) {
    if place <= 4092 {
        bytes[place..place + 4].copy_from_slice(&word.to_be_bytes());
    }
}

fn station_of_zeros(alloc: Global, sectors: u32) -> Result<MemoryStation, AllocError> {
    let image = vec![in alloc; filled(0); sectors as usize]?;
    MemoryStation::new(alloc, image, Vec::new(alloc))
}
