//! Rows of volumes that are full: how many pages they take, and that a refusal doesn't call the device.
use crate::asserted::same;
use crate::image::filled;
use crate::opened::Volume;
use crate::steps::{Step, StepRow, take_rows};
use pages::PagesError;

const ROWS: &[StepRow] = &[
    // 1,022 sectors are free: 1,021 pages and their map are the most that they take.
    StepRow {
        name: "the_largest_first_commit",
        sectors: 1024,
        first: &[],
        steps: &[
            Step::EditAll(1, 1023, 3),
            Step::Changed(1022),
            Step::Full,
            Step::Reopen(2),
            Step::EditAll(1, 1022, 4),
            Step::Commit(1023, 2),
            Step::Free(0),
        ],
    },
    // With no sector free neither an edited page nor a released one can be committed; the page of the catalog's root can.
    StepRow {
        name: "no_sector_is_free",
        sectors: 1024,
        first: &[Step::EditAll(1, 1022, 3), Step::Commit(1023, 2)],
        steps: &[
            Step::Edit(1, 1),
            Step::Full,
            Step::Reopen(2),
            Step::Release(1),
            Step::Full,
            Step::Reopen(2),
            Step::Catalog(5),
            Step::Commit(1, 2),
            Step::Free(0),
        ],
    },
    // With one sector free an edited page can't be committed, because its map needs one too; a released page can.
    StepRow {
        name: "one_sector_is_free",
        sectors: 1024,
        first: &[Step::EditAll(1, 1021, 3), Step::Commit(1022, 2)],
        steps: &[
            Step::Edit(1, 1),
            Step::Full,
            Step::Reopen(2),
            Step::Release(1),
            Step::Commit(2, 2),
            Step::Free(2),
            Step::Edit(2, 2),
            Step::Commit(3, 2),
            Step::Free(2),
        ],
    },
];

#[test]
fn rows_of_full_volumes(rt: HostRuntime) {
    take_rows(&rt, rt.alloc(), ROWS);
}

// 1,024 sectors give the page numbers 1 to 1,023, each of which is allocated once.
#[test]
fn no_page_number_is_left(rt: HostRuntime) {
    let mut volume = Volume::empty(&rt, rt.alloc(), 1024);
    same(&rt, volume.allocate_all(&rt, 1023), 523_776);
    same(&rt, volume.pages.allocate(), Err(PagesError::Full));
    same(
        &rt,
        volume.pages.allocate_past(&filled(1)),
        Err(PagesError::Full),
    );
    same(&rt, PagesError::Full.number(), 81);
    volume.close();
}
