//! An opened volume and the station that it is on, with the calls that the rows make.
//!
//! A call with a condition asserts it first. No test has a `?`: what a row expects to work is asserted, since each `?` in a test is one more
//! path on which everything has to be dropped, and proved so.
use crate::image::{alike, blank_station, filled};
use pages::{PageMap, VolumeMark, format};
use station::{Device, MemoryStation};
use std::alloc::Global;
use std::process::Abort;

/// How often a station was to read, to write and to sync.
#[derive(Clone, Copy)]
pub struct Counts {
    reads: u64,
    writes: u64,
    syncs: u64,
}

/// An opened volume on its station.
#[derive(Drop)]
pub struct Volume {
    pub pages: PageMap,
    pub station: MemoryStation,
}

/// What becomes of a page. Its new bytes are all alike.
#[derive(Clone, Copy)]
pub enum Change {
    Edit(u8),
    /// The page is read past the cache.
    EditPast(u8),
    Release,
}

impl Volume {
    /// Opens the volume of a station, with a cache that is smaller than what most rows read.
    pub fn open(rt: &impl Abort, alloc: Global, mut station: MemoryStation) -> Volume {
        let pages = PageMap::open(alloc, &mut station, 2).expect(rt, "open");
        Volume { pages, station }
    }

    /// An empty volume of so many sectors, opened.
    pub fn empty(rt: &impl Abort, alloc: Global, sectors: u32) -> Volume {
        Volume::open(rt, alloc, new_volume(rt, alloc, sectors))
    }

    /// Closes the volume. At the end of a test each of its parts would be a step of its own.
    pub fn close(self) {
        drop(self);
    }

    /// Opens the volume again with a cache of so many pages, from 1 to 4,096.
    pub fn reopen(&mut self, rt: &impl Abort, alloc: Global, capacity: usize) {
        assert!(rt; 1 <= capacity);
        assert!(rt; capacity <= 4096);
        let pages = PageMap::open(alloc, &mut self.station, capacity).expect(rt, "open");
        put(&mut self.pages, pages);
    }

    /// Changes a page, which has to work.
    pub fn change(&mut self, rt: &impl Abort, page: u32, change: Change) {
        assert!(rt; 0 < page);
        assert!(rt; (page as usize) < self.pages.page_count());
        let answer = match change {
            Change::Edit(byte) => self.pages.edit(page, &filled(byte)),
            Change::EditPast(byte) => self.pages.edit_past(page, &filled(byte)),
            Change::Release => self.pages.release(page),
        };
        answer.expect(rt, "change");
    }

    /// Gives the pages from the first on, up to but without the end, bytes that are all alike.
    pub fn edit_all(&mut self, rt: &impl Abort, first: u32, end: u32, byte: u8) {
        for page in first..end {
            self.change(rt, page, Change::Edit(byte));
        }
    }

    /// Allocates so many pages. The answer is the sum of their numbers.
    pub fn allocate_all(&mut self, rt: &impl Abort, count: u32) -> u64 {
        let mut sum = 0u64;
        for _ in 0..count {
            let page = self.pages.allocate().expect(rt, "allocate");
            sum = sum.wrapping_add(page as u64);
        }
        sum
    }

    /// Sets the mark to the second one.
    pub fn set_second_mark(&mut self) {
        match self.pages.mark() {
            VolumeMark::First => self.pages.set_mark(VolumeMark::Second),
            VolumeMark::Second => {}
        }
    }

    /// Commits what was changed.
    pub fn commit(&mut self, rt: &impl Abort) -> Result<(), pages::PagesError> {
        assert!(rt; self.pages.sectors() <= self.station.count());
        self.pages.commit(&mut self.station)
    }

    /// The byte that a page is filled with, 255 if its bytes aren't alike, or none.
    pub fn has(&mut self, rt: &impl Abort, page: u32) -> Option<u8> {
        assert!(rt; self.pages.sectors() <= self.station.count());
        let bytes = self.pages.read(&mut self.station, page).expect(rt, "read");
        match &bytes {
            Some(bytes) => Some(alike(bytes)),
            None => None,
        }
    }

    /// The same of a page that is brought into memory, and seen there.
    pub fn load(&mut self, rt: &impl Abort, page: u32) -> Option<u8> {
        assert!(rt; self.pages.sectors() <= self.station.count());
        self.pages.load(&mut self.station, page).expect(rt, "load");
        self.seen(page)
    }

    /// The byte that a page is filled with, if its bytes are in memory.
    pub fn seen(&self, page: u32) -> Option<u8> {
        self.pages.view(page).map(alike)
    }

    /// The reads, writes and syncs up to now.
    pub fn counts(&self) -> Counts {
        counts_of(&self.station)
    }

    /// The reads, writes and syncs since these counts.
    pub fn since(&self, before: Counts) -> (u64, u64, u64) {
        let now = self.counts();
        (
            now.reads.wrapping_sub(before.reads),
            now.writes.wrapping_sub(before.writes),
            now.syncs.wrapping_sub(before.syncs),
        )
    }
}

/// A station with an empty volume of so many sectors, from 1,024 to 921,600.
pub fn new_volume(rt: &impl Abort, alloc: Global, sectors: u32) -> MemoryStation {
    let mut station = blank_station(rt, alloc, sectors);
    assert!(rt; 1024 <= station.count());
    assert!(rt; station.count() <= 921_600);
    format(&mut station).expect(rt, "format");
    station
}

/// The counts up to now.
pub fn counts_of(station: &MemoryStation) -> Counts {
    Counts {
        reads: station.reads(),
        writes: station.writes(),
        syncs: station.syncs(),
    }
}

/// Puts a value in the place of another, which is dropped.
fn put<T: Drop>(place: &mut T, value: T) {
    *place = value;
}
