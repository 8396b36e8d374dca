//! Rows of the cache of pages: how often the device is read.
use crate::steps::{Step, StepRow, take_rows};

/// The pages 1, 2 and 3, filled with their number.
const THREE_PAGES: &[Step] = &[
    Step::Edit(1, 1),
    Step::Edit(2, 2),
    Step::Edit(3, 3),
    Step::Commit(5, 2),
];

const ROWS: &[StepRow] = &[
    // The page that was used least lately gives its place away.
    StepRow {
        name: "reads_of_the_device",
        sectors: 1024,
        first: THREE_PAGES,
        steps: &[
            Step::Reopen(1),
            Step::Reads([1, 1, 2, 3, 1], 4),
            Step::Reopen(2),
            Step::Reads([1, 1, 2, 3, 1], 4),
            Step::Reopen(3),
            Step::Reads([1, 1, 2, 3, 1], 3),
            Step::Reopen(4096),
            Step::Reads([1, 1, 2, 3, 1], 3),
            Step::Reopen(1),
            Step::Reads([1, 2, 1, 3, 1], 5),
            Step::Reopen(2),
            Step::Reads([1, 2, 1, 3, 1], 3),
            Step::Reopen(2),
            Step::Reads([1, 2, 1, 3, 2], 4),
            Step::Reopen(3),
            Step::Reads([3, 3, 3, 3, 3], 1),
        ],
    },
    // A page that is brought into memory is seen there. If it is there already, its use isn't noted.
    StepRow {
        name: "pages_are_brought_into_memory",
        sectors: 1024,
        first: THREE_PAGES,
        steps: &[
            Step::Reopen(1),
            Step::Loads([1, 1, 2, 3, 1], 4),
            Step::Reopen(2),
            Step::Loads([1, 1, 2, 3, 1], 4),
            Step::Reopen(3),
            Step::Loads([1, 1, 2, 3, 1], 3),
            Step::Reopen(4096),
            Step::Loads([1, 1, 2, 3, 1], 3),
            Step::Reopen(2),
            Step::Loads([1, 2, 1, 3, 1], 4),
            Step::Reopen(2),
            Step::Loads([1, 2, 1, 3, 2], 3),
            Step::Reopen(3),
            Step::Loads([3, 3, 3, 3, 3], 1),
        ],
    },
    // Of two pages in the cache the one whose use was noted stays. The pages of a commit come into the cache too.
    StepRow {
        name: "a_noted_page_stays",
        sectors: 1024,
        first: THREE_PAGES,
        steps: &[
            Step::Reopen(2),
            Step::Cached(0),
            Step::Reads([1, 2, 2, 2, 2], 2),
            Step::NoteUse(1),
            Step::Has(3, Some(3)),
            Step::Seen(1, Some(1)),
            Step::Seen(2, None),
            Step::Edit(2, 22),
            Step::Commit(3, 2),
            Step::Cached(2),
            Step::Seen(2, Some(22)),
        ],
    },
    // Of two pages in the cache the one that was visited stays. A changed page is visited too, and one that isn't in memory is not seen.
    StepRow {
        name: "a_visited_page_stays",
        sectors: 1024,
        first: THREE_PAGES,
        steps: &[
            Step::Reopen(2),
            Step::Reads([1, 2, 2, 2, 2], 2),
            Step::Visit(1, Some(1)),
            Step::Visit(3, None),
            Step::Has(3, Some(3)),
            Step::Seen(1, Some(1)),
            Step::Visit(2, None),
            Step::Edit(2, 22),
            Step::Visit(2, Some(22)),
            Step::Cached(2),
        ],
    },
    // Pages that are allocated or edited past the cache stay out of it after a commit. Allocated and edited pages enter it.
    StepRow {
        name: "pages_past_the_cache_stay_out",
        sectors: 1024,
        first: &[],
        steps: &[
            Step::AllocatePast(1, 11),
            Step::EditPast(2, 12),
            Step::Seen(1, Some(11)),
            Step::Seen(2, Some(12)),
            Step::Cached(0),
            Step::Commit(4, 2),
            Step::Cached(0),
            Step::Seen(1, None),
            Step::Seen(2, None),
            Step::Allocate(3),
            Step::Edit(4, 14),
            Step::Cached(0),
            Step::Commit(4, 2),
            Step::Cached(2),
            Step::Seen(3, Some(0)),
            Step::Seen(4, Some(14)),
        ],
    },
    // A page of the cache that is edited past it leaves it. The last edit before a commit decides whether the page enters the cache. Each
    // page has its own bytes, whatever place in memory they were put into.
    StepRow {
        name: "the_last_edit_decides",
        sectors: 1024,
        first: THREE_PAGES,
        steps: &[
            Step::Reopen(3),
            Step::Has(1, Some(1)),
            Step::Has(2, Some(2)),
            Step::Cached(2),
            Step::EditPast(1, 21),
            Step::Cached(1),
            Step::EditPast(2, 22),
            Step::Edit(2, 32),
            Step::Edit(3, 33),
            Step::EditPast(3, 23),
            Step::Commit(5, 2),
            Step::Cached(1),
            Step::Seen(2, Some(32)),
            Step::Has(1, Some(21)),
            Step::Has(3, Some(23)),
            Step::Edit(4, 44),
            Step::Has(2, Some(32)),
            Step::Cached(3),
        ],
    },
];

#[test]
fn rows_of_the_cache(rt: HostRuntime) {
    take_rows(&rt, rt.alloc(), ROWS);
}
