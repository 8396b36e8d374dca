//! Volumes of files on a station in memory. A call with a condition asserts it first, and what is expected to work is asserted too.
use alternate_keys::PagedStore;
use records::{FileSpec, KeyPlace, Organization, Outcome, Store};
use station::{Device, MemoryStation};
use std::alloc::{AllocError, Global};
use std::process::Abort;
use volume_commands::format_volume;

/// So many pages are kept in memory.
const CACHED: usize = 4;

/// The prime key is the first byte of a record.
pub const INDEXED: Organization = Organization::Indexed(KeyPlace {
    offset: 0,
    length: 1,
});

/// A file without alternate keys, and the records that are put into it, the first under the number 1.
pub struct FileRows {
    pub name: &'static [u8],
    pub organization: Organization,
    pub length: u16,
    pub records: &'static [&'static [u8]],
}

/// A station with a volume of these files.
pub fn volume_of(rt: &impl Abort, alloc: Global, files: &[FileRows]) -> MemoryStation {
    let mut station = blank_station(rt, alloc);
    assert!(rt; 1024 <= station.count());
    assert!(rt; station.count() <= 921_600);
    format_volume(&mut station).expect(rt, "format");
    for file in files {
        add_file(rt, alloc, &mut station, file);
    }
    station
}

/// A station of 1,024 sectors of zeros.
pub fn blank_station(rt: &impl Abort, alloc: Global) -> MemoryStation {
    station_of_zeros(alloc).expect(rt, "no memory")
}

/// Makes a file with its rows.
fn add_file(rt: &impl Abort, alloc: Global, station: &mut MemoryStation, file: &FileRows) {
    let spec = spec_of(rt, alloc, file);
    let mut store = PagedStore::open(alloc, station, CACHED).expect(rt, "open");
    assert!(rt; store.sectors() <= station.count());
    store.create(station, &spec).expect(rt, "create");
    for (number, record) in (1..).zip(file.records) {
        add_row(rt, &mut store, station, &spec, number, record);
    }
}

fn spec_of(rt: &impl Abort, alloc: Global, file: &FileRows) -> FileSpec {
    let name = Vec::from_slice(alloc, file.name).expect(rt, "no memory");
    let spec = FileSpec::new(name, file.organization, file.length, Vec::new(alloc));
    spec.expect(rt, "no file")
}

fn add_row(
    rt: &impl Abort,
    store: &mut PagedStore,
    station: &mut MemoryStation,
    file: &FileSpec,
    number: u64,
    record: &[u8],
) {
    assert!(rt; store.sectors() <= station.count());
    assert!(rt; 1 <= number && number <= 999_999_999);
    assert!(rt; record.len() == file.record_length as usize);
    let outcome = store.insert(station, file, number, record);
    assert!(rt; outcome == Ok(Outcome::Done));
}

fn station_of_zeros(alloc: Global) -> Result<MemoryStation, AllocError> {
    let sectors = vec![in alloc; [0; 4096]; 1024]?;
    MemoryStation::new(alloc, sectors, Vec::new(alloc))
}
