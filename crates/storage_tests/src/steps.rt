//! Calls on an open volume, one after the other. They are data, which takes no proof.
use crate::asserted::same_in;
use crate::image::{alike, filled};
use crate::opened::{Change, Volume};
use pages::PagesError;
use std::alloc::Global;
use std::fmt::Debug;
use std::process::Abort;

/// A row: steps on an empty volume of so many sectors, the first of which are those of other rows too.
pub struct StepRow {
    pub name: &'static str,
    pub sectors: u32,
    pub first: &'static [Step],
    pub steps: &'static [Step],
}

/// A call that has to work, or what is asked of the volume and its answer.
#[derive(Clone, Copy)]
pub enum Step {
    /// A page gets bytes that are all alike.
    Edit(u32, u8),
    /// So do the pages from the first on, up to but without the end.
    EditAll(u32, u32, u8),
    /// A page that is read past the cache gets bytes that are all alike.
    EditPast(u32, u8),
    /// A page of zeros is allocated, with this number.
    Allocate(u32),
    /// A page that is read past the cache is allocated, with this number and bytes that are all alike.
    AllocatePast(u32, u8),
    Release(u32),
    Catalog(u32),
    NoteUse(u32),
    /// Opens the volume again with a cache of so many pages.
    Reopen(usize),
    /// A commit that makes so many writes and syncs, and reads nothing.
    Commit(u64, u64),
    /// A commit is refused with `Full`. It doesn't call the device, and the volume is spent.
    Full,
    /// Five pages, filled with their number, are read, for which the device is read so often.
    Reads([u8; 5], u64),
    /// The same of pages that are brought into memory, and seen there.
    Loads([u8; 5], u64),
    /// The byte that a page is filled with.
    Has(u32, Option<u8>),
    /// The same of a page in memory.
    Seen(u32, Option<u8>),
    /// The same of a page that becomes the most recently used one.
    Visit(u32, Option<u8>),
    Cached(usize),
    Changed(usize),
    Free(u32),
}

/// Takes the steps of each row, on a volume of its own.
pub fn take_rows(rt: &impl Abort, alloc: Global, rows: &[StepRow]) {
    for row in rows {
        take_row(rt, alloc, row);
    }
}

fn take_row(rt: &impl Abort, alloc: Global, row: &StepRow) {
    let mut volume = Volume::empty(rt, alloc, row.sectors);
    take_steps(rt, alloc, &mut volume, row.name, row.first);
    take_steps(rt, alloc, &mut volume, row.name, row.steps);
    volume.close();
}

/// Takes these steps. What isn't as expected is named by its row and its place among them.
pub fn take_steps(rt: &impl Abort, alloc: Global, volume: &mut Volume, row: &str, steps: &[Step]) {
    for (place, step) in steps.iter().enumerate() {
        take_step(rt, alloc, volume, &(row, place), *step);
    }
}

fn take_step(rt: &impl Abort, alloc: Global, volume: &mut Volume, case: &impl Debug, step: Step) {
    match step {
        Step::Edit(page, byte) => volume.change(rt, page, Change::Edit(byte)),
        Step::EditAll(first, end, byte) => volume.edit_all(rt, first, end, byte),
        Step::EditPast(page, byte) => volume.change(rt, page, Change::EditPast(byte)),
        Step::Release(page) => volume.change(rt, page, Change::Release),
        Step::Catalog(page) => volume.pages.set_catalog(page),
        Step::NoteUse(page) => volume.pages.note_use(page),
        Step::Reopen(capacity) => volume.reopen(rt, alloc, capacity),
        Step::Commit(writes, syncs) => commit(rt, volume, case, (0, writes, syncs)),
        Step::Full => is_full(rt, volume, case),
        Step::Reads(numbers, reads) => has_reads(rt, volume, case, false, numbers, reads),
        Step::Loads(numbers, reads) => has_reads(rt, volume, case, true, numbers, reads),
        other => look(rt, volume, case, other),
    }
}

fn look(rt: &impl Abort, volume: &mut Volume, case: &impl Debug, step: Step) {
    match step {
        Step::Allocate(page) => same_in(rt, case, volume.pages.allocate(), Ok(page)),
        Step::AllocatePast(page, byte) => {
            let answer = volume.pages.allocate_past(&filled(byte));
            same_in(rt, case, answer, Ok(page));
        }
        Step::Has(page, byte) => same_in(rt, case, volume.has(rt, page), byte),
        Step::Seen(page, byte) => same_in(rt, case, volume.seen(page), byte),
        Step::Visit(page, byte) => {
            same_in(rt, case, volume.pages.visit(page).map(alike), byte);
        }
        Step::Cached(count) => same_in(rt, case, volume.pages.cached(), count),
        Step::Changed(count) => same_in(rt, case, volume.pages.changed_pages(), count),
        Step::Free(count) => same_in(rt, case, volume.pages.free_sectors(), count),
        _ => panic!(rt; "no question"),
    }
}

/// Commits what was changed by so many reads, writes and syncs.
fn commit(rt: &impl Abort, volume: &mut Volume, case: &impl Debug, calls: (u64, u64, u64)) {
    let before = volume.counts();
    volume.commit(rt).expect(rt, "commit");
    same_in(rt, case, volume.since(before), calls);
}

fn is_full(rt: &impl Abort, volume: &mut Volume, case: &impl Debug) {
    let before = volume.counts();
    same_in(rt, case, volume.commit(rt), Err(PagesError::Full));
    same_in(rt, case, volume.since(before), (0, 0, 0));
    same_in(rt, case, volume.pages.is_spent(), true);
}

/// Five pages have these bytes, for which the device is read so often. They are read, or loaded.
fn has_reads(
    rt: &impl Abort,
    volume: &mut Volume,
    case: &impl Debug,
    is_loaded: bool,
    numbers: [u8; 5],
    reads: u64,
) {
    let before = volume.counts();
    for number in &numbers {
        let page = *number as u32;
        let byte = if is_loaded {
            volume.load(rt, page)
        } else {
            volume.has(rt, page)
        };
        same_in(rt, case, byte, Some(*number));
    }
    same_in(rt, case, volume.since(before).0, reads);
}
