//! Rows of pages: the bytes of a new volume and of a commit, and how often and in which order the device is called.
use crate::asserted::{holds, same, same_in};
use crate::image::{
    SECTORS, changed, filled, image_of, map_of, root, sector_bytes, station_of_format, word_at,
};
use crate::opened::{Change, Volume, counts_of, new_volume};
use crate::steps::{Step, StepRow, take_rows, take_steps};
use pages::{PagesError, VolumeMark};
use std::alloc::Global;
use std::process::Abort;

// The numbers of a volume: its sectors, how many are free, its page numbers, and the page of the catalog.
fn has_figures(rt: &impl Abort, volume: &Volume, expected: (u32, u32, usize, u32)) {
    let pages = &volume.pages;
    let figures = (
        pages.sectors(),
        pages.free_sectors(),
        pages.page_count(),
        pages.catalog(),
    );
    same(rt, figures, expected);
}

// A volume of generation 0 without pages.
fn is_untouched(rt: &impl Abort, volume: &Volume) {
    let pages = &volume.pages;
    same(rt, (pages.changed_pages(), pages.generation()), (0, 0));
    assert!(rt; !pages.is_spent());
    holds(rt, !pages.has_page(1));
}

// The bytes of both root sectors: 1,025 sectors and two map sectors that aren't written yet. Two sectors are the roots. An opening
// syncs once and reads the roots.
#[test]
fn a_new_volume(rt: HostRuntime) {
    let mut station = new_volume(&rt, rt.alloc(), 1025);
    let first = sector_bytes(&rt, &mut station, 0);
    holds(&rt, first == root(b"COBVOL02", 0, 1025, 0, &[0, 0]));
    holds(&rt, sector_bytes(&rt, &mut station, 1) == filled(0));
    let before = counts_of(&station);
    let volume = Volume::open(&rt, rt.alloc(), station);
    same(&rt, volume.since(before), (2, 0, 1));
    has_figures(&rt, &volume, (1025, 1023, 2048, 0));
    is_untouched(&rt, &volume);
    volume.close();
}

// The two sectors that a first commit of page 5 takes, the lower first: the page's and its map's.
fn placed(rt: &impl Abort, alloc: Global) -> (u32, u32) {
    let mut volume = Volume::empty(rt, alloc, 1024);
    let steps = [Step::Edit(5, 7), Step::Commit(3, 2)];
    take_steps(rt, alloc, &mut volume, "placed", &steps);
    let map = number_in(rt, &mut volume, 1, 28);
    let page = number_in(rt, &mut volume, map, 20);
    let found = (map.min(page), map.max(page));
    volume.close();
    found
}

// A first commit of page 5, stopped at a call: its answer, its writes and syncs, and the sectors that it changed.
fn stopped_commit(
    rt: &impl Abort,
    alloc: Global,
    call: u64,
    answer: Result<(), PagesError>,
    calls: (u64, u64, u64),
    sectors: &[u32],
) {
    let mut volume = Volume::empty(rt, alloc, 1024);
    volume.change(rt, 5, Change::Edit(7));
    let image = image_of(rt, alloc, &mut volume.station);
    let before = volume.counts();
    volume.station.stop_at(call);
    same_in(rt, &call, volume.commit(rt), answer);
    same_in(rt, &call, volume.since(before), calls);
    volume.station.fail_at(1_000_000);
    let now = changed(rt, alloc, &mut volume.station, &image);
    volume.close();
    same_in(rt, &call, now.as_slice(), sectors);
}

// One page: its sector, its map's, a sync, the root in sector 1, a sync. Of the two sectors the lower is written first.
#[test]
fn a_commit_of_one_page(rt: HostRuntime) {
    let alloc = rt.alloc();
    let (low, high) = placed(&rt, alloc);
    holds(&rt, 2 <= low);
    holds(&rt, low < high);
    let refused = Err(PagesError::Device);
    stopped_commit(&rt, alloc, 1, refused, (0, 1, 0), &[]);
    stopped_commit(&rt, alloc, 2, refused, (0, 2, 0), &[low]);
    stopped_commit(&rt, alloc, 3, refused, (0, 2, 1), &[low, high]);
    stopped_commit(&rt, alloc, 4, refused, (0, 3, 1), &[low, high]);
    stopped_commit(&rt, alloc, 5, refused, (0, 3, 2), &[1, low, high]);
    stopped_commit(&rt, alloc, 6, Ok(()), (0, 3, 2), &[1, low, high]);
}

// Asserts that a sector has these bytes.
fn has_bytes(rt: &impl Abort, volume: &mut Volume, sector: u32, expected: &[u8; 4096]) {
    holds(
        rt,
        sector_bytes(rt, &mut volume.station, sector) == *expected,
    );
}

// The number at a place of a sector.
fn number_in(rt: &impl Abort, volume: &mut Volume, sector: u32, place: usize) -> u32 {
    word_at(&sector_bytes(rt, &mut volume.station, sector), place)
}

// The bytes that it writes: the page, the map whose entry 5 is the page's sector, the root of generation 1.
#[test]
fn bytes_of_a_commit(rt: HostRuntime) {
    let mut volume = Volume::empty(&rt, rt.alloc(), 1024);
    let steps = [Step::Edit(5, 7), Step::Catalog(5), Step::Commit(3, 2)];
    take_steps(&rt, rt.alloc(), &mut volume, "bytes", &steps);
    let map = number_in(&rt, &mut volume, 1, 28);
    let page = number_in(&rt, &mut volume, map, 20);
    has_bytes(&rt, &mut volume, 1, &root(b"COBVOL02", 1, 1024, 5, &[map]));
    has_bytes(&rt, &mut volume, map, &map_of(5, page));
    has_bytes(&rt, &mut volume, page, &filled(7));
    has_bytes(&rt, &mut volume, 0, &root(b"COBVOL02", 0, 1024, 0, &[0]));
    volume.close();
}

// A volume that was written by the description of the format. An opening syncs, and reads the two roots and the two maps. Two roots,
// two pages and two maps are used.
#[test]
fn a_volume_of_the_format(rt: HostRuntime) {
    let station = station_of_format(&rt, rt.alloc());
    let before = counts_of(&station);
    let mut volume = Volume::open(&rt, rt.alloc(), station);
    same(&rt, volume.since(before), (4, 0, 1));
    has_figures(&rt, &volume, (1500, 1494, 2048, 1));
    let steps = [
        Step::Has(1, Some(1)),
        Step::Has(1024, Some(24)),
        Step::Has(2, None),
        Step::Has(2047, None),
    ];
    take_steps(&rt, rt.alloc(), &mut volume, "format", &steps);
    volume.close();
}

// If the mark alone became the second, the root alone is written, and the root before it keeps the first mark.
#[test]
fn a_commit_of_the_mark(rt: HostRuntime) {
    let station = station_of_format(&rt, rt.alloc());
    let mut volume = Volume::open(&rt, rt.alloc(), station);
    holds(&rt, volume.pages.mark() == VolumeMark::First);
    volume.set_second_mark();
    take_steps(&rt, rt.alloc(), &mut volume, "mark", &[Step::Commit(1, 2)]);
    let older = root(b"COBVOL01", 1, SECTORS, 1, &[4, 5]);
    has_bytes(&rt, &mut volume, 1, &older);
    let newest = root(b"COBVOL02", 2, SECTORS, 1, &[4, 5]);
    has_bytes(&rt, &mut volume, 0, &newest);
    volume.close();
}

const ROWS: &[StepRow] = &[
    // If the catalog's page alone changed, the root alone is written. With nothing changed the device isn't called.
    StepRow {
        name: "a_commit_of_the_catalog",
        sectors: 1024,
        first: &[],
        steps: &[
            Step::Catalog(9),
            Step::Commit(1, 2),
            Step::Free(1022),
            Step::Catalog(2),
            Step::Catalog(9),
            Step::Commit(0, 0),
        ],
    },
    // A page that is released frees its sector by a commit; a map of zeros takes none.
    StepRow {
        name: "a_page_is_released",
        sectors: 1024,
        first: &[],
        steps: &[
            Step::EditAll(1, 3, 1),
            Step::Commit(4, 2),
            Step::Free(1019),
            Step::Release(1),
            Step::Commit(2, 2),
            Step::Free(1020),
            Step::Release(2),
            Step::Commit(1, 2),
            Step::Free(1022),
        ],
    },
    // A page of each of two maps, and the sectors of both.
    StepRow {
        name: "pages_of_two_maps",
        sectors: 2048,
        first: &[],
        steps: &[
            Step::EditAll(1023, 1025, 3),
            Step::Commit(5, 2),
            Step::Edit(2047, 5),
            Step::Commit(3, 2),
            Step::Free(2041),
        ],
    },
];

#[test]
fn rows_of_commits(rt: HostRuntime) {
    take_rows(&rt, rt.alloc(), ROWS);
}
