//! The pages that were changed since the last commit.
ghost use Rattle.std.specs.Prelude.{◌≡◌, ◌≢◌, ◌<◌, ◌≤◌, ℕ, List, ◌+◌, ◌++◌, ◌∷◌, is_some, option_copied, if◌then◌else◌, [], length, slice_set, Option, IsOk, IfOk, OnOk, OnErr, IfSome, IfNone, slice_index_or, None, false, true, ◌^◌};
ghost use Rattle.std.specs.List.{All, HoldsAt};
ghost use Rattle.std.specs.Vec.{vec_len, vec_capacity};
ghost use Rattle.std.specs.HashMap.{spare};
ghost use Rattle.station.specs.Disk.{Sector};
ghost use Rattle.pages.specs.Image.{NamesOnce};
ghost use Rattle.pages.specs.Changes.{pages_after, changed_pages, mapped_after, ChangesPage, ArePlaced};
ghost use Rattle.pages.specs.Needed.{filled_count, Fills};

use crate::page_bytes::PageBytes;
use crate::volume::MAP_ENTRIES;
use std::alloc::{AllocError, Global};
use std::collections::HashMap;

/// Of so many places the room is kept.
const FEW_PLACES: usize = 64;

/// A page's new bytes, or none where it was released.
#[derive(Drop)]
pub(crate) struct Change {
    pub page: u32,
    pub bytes: Option<PageBytes>,
}

impl Change {
    /// The page's new bytes, or none.
    pub(crate) fn bytes(&self) -> Option<[u8; 4096]>
        ensures { result ≡ self.now.bytes }
    {
        match &self.bytes {
            Some(kept) => Some(kept.bytes()),
            None => None,
        }
    }

    /// The page's new bytes where they stand, or none.
    pub(crate) fn view(&self) -> Option<&[u8; 4096]>
        ensures { option_copied result ≡ self.now.bytes }
    {
        match &self.bytes {
            Some(kept) => Some(kept.view()),
            None => None,
        }
    }
}

/// The place of a page's change.
pub(crate) fn find_change(
    changes: &[Change],
    places: &HashMap<u32, usize>,
    page: u32,
) -> Option<usize>
    requires { ArePlaced changes.now places.now }
    ensures found { IfSome result
        (λ i. (i < length changes.now) × HoldsAt (λ c. c.page ≡ page) changes.now i) }
    ensures absent { IfNone result (All (λ c. c.page ≢ page) changes.now) }
{
    places.get(&page).copied()
}

/// Room for one more change.
pub(crate) fn reserve_change(
    changes: &mut Vec<Change>,
    places: &mut HashMap<u32, usize>,
) -> Result<(), AllocError>
    requires placed { ArePlaced changes.old.items places.old }
    ensures placed { ArePlaced changes.new.items places.new }
    ensures items { changes.new.items ≡ changes.old.items }
    ensures room { OnOk result
        ((vec_len changes.new < vec_capacity changes.new) × (0 < spare places.new)) }
{
    places.reserve(1)?;
    changes.reserve(1)
}

/// A change of a page that had none.
fn push_change(
    changes: &mut Vec<Change>,
    places: &mut HashMap<u32, usize>,
    change: Change,
) -> Result<(), AllocError>
    requires absent { All (λ c. c.page ≢ change.page) changes.old.items }
    requires placed { ArePlaced changes.old.items places.old }
    ensures placed { ArePlaced changes.new.items places.new }
    ensures ok { OnOk result (changes.new.items ≡ changes.old.items ++ change ∷ []) }
    ensures err { OnErr result (changes.new.items ≡ changes.old.items) }
    ensures sure { vec_len changes.old < vec_capacity changes.old → 0 < spare places.old
        → IsOk result }
{
    let page = change.page;
    places.reserve(1)?;
    changes.push(change)?;
    places.insert(page, changes.len() - 1)?;
    Ok(())
}

/// No change is left. Room for a few places is kept, and that for many is given back.
pub(crate) fn clear_places(alloc: Global, places: &mut HashMap<u32, usize>)
    ensures { places.new.entries ≡ [] }
{
    if places.len() <= FEW_PLACES {
        places.clear();
    } else {
        *places = HashMap::new(alloc);
    }
}

/// Gives a page new bytes, or none.
pub(crate) fn set_change(
    changes: &mut Vec<Change>,
    places: &mut HashMap<u32, usize>,
    page: u32,
    bytes: Option<PageBytes>,
) -> Result<(), AllocError>
    requires some { 0 < page }
    requires placed { ArePlaced changes.old.items places.old }
    ensures placed { ArePlaced changes.new.items places.new }
    ensures changed { NamesOnce (changed_pages changes.old.items)
        → OnOk result ((pages : List (Option Sector)) → pages_after pages
        changes.new.items ≡ slice_set (pages_after pages changes.old.items) page bytes) }
    ensures once { NamesOnce (changed_pages changes.old.items)
        → OnOk result (NamesOnce (changed_pages changes.new.items)) }
    ensures changes_page { OnOk result
        (ChangesPage (changed_pages changes.old.items) page (changed_pages changes.new.items)) }
    ensures filled { NamesOnce (changed_pages changes.old.items) → filled_count
        changes.new.items ≤ filled_count changes.old.items + (if is_some bytes then 1 else 0) }
    ensures fills { NamesOnce (changed_pages changes.old.items)
        → OnOk result (IfSome bytes (λ _. Fills changes.old.items page changes.new.items)) }
    ensures bounds { (n : ℕ) → page < n → All (λ c. (0 < c.page) × (c.page < n)) changes.old.items
        → OnOk result (All (λ c. (0 < c.page) × (c.page < n)) changes.new.items) }
    ensures err { OnErr result (changes.new.items ≡ changes.old.items) }

    // With room for one more change it succeeds.
    ensures sure { vec_len changes.old < vec_capacity changes.old → 0 < spare places.old
        → IsOk result }
{
    let change = Change { page, bytes };
    match find_change(changes, places, page) {
        Some(i) => {
            changes[i] = change;
            Ok(())
        }
        None => push_change(changes, places, change),
    }
}

/// Whether a page is in the map of this table and these changes.
pub(crate) fn is_kept(
    table: &[u32],
    changes: &[Change],
    places: &HashMap<u32, usize>,
    page: u32,
) -> bool
    requires some { 0 < page }
    requires page { page < length table.now }
    requires once { NamesOnce (changed_pages changes.now) }
    requires placed { ArePlaced changes.now places.now }
    ensures { result ≡ slice_index_or (mapped_after table.now changes.now) page false }
{
    match find_change(changes, places, page) {
        Some(i) => changes[i].bytes.is_some(),
        None => table[page as usize] != 0,
    }
}

/// The first page number from `start` on, below `end`, that isn't used.
fn unused_between(
    table: &[u32],
    changes: &[Change],
    places: &HashMap<u32, usize>,
    start: usize,
    end: usize,
) -> Option<u32>
    requires few { length table.now < 2 ^ 32 }
    requires start { 0 < start }
    requires end { end ≤ length table.now }
    requires once { NamesOnce (changed_pages changes.now) }
    requires placed { ArePlaced changes.now places.now }
    ensures found { IfSome result (λ page. (start ≤ page) × (page < end)
        × (slice_index_or (mapped_after table.now changes.now) page false ≡ false)) }
    ensures full { IfNone result ((n : ℕ) → start ≤ n → n < end
        → slice_index_or (mapped_after table.now changes.now) n false ≡ true) }
{
    for page in start..end {
        let number = page as u32;
        if !is_kept(table, changes, places, number) {
            return Some(number);
        }
    }
    None
}

/// A page number of a run that isn't used, from `from` on, unless the run is noted as one without any.
fn unused_in_run(
    table: &[u32],
    changes: &[Change],
    places: &HashMap<u32, usize>,
    from: usize,
    passed: &[bool],
    run: usize,
) -> Option<u32>
    requires few { length table.now < 2 ^ 32 }
    requires once { NamesOnce (changed_pages changes.now) }
    requires placed { ArePlaced changes.now places.now }
    requires run { run < length passed.now }
    ensures { IfSome result (λ page. (0 < page) × (page < length table.now)
        × (slice_index_or (mapped_after table.now changes.now) page false ≡ false)) }
{
    if passed[run] {
        return None;
    }
    let first = run.saturating_mul(MAP_ENTRIES);
    let start = from.max(first).max(1);
    let end = table.len().min(first.saturating_add(MAP_ENTRIES));
    match unused_between(table, changes, places, start, end) {
        Some(page) => Some(page),
        None => None,
    }
}

/// A page number that isn't used, from `from` on, in a run that isn't noted as one without any.
fn unused_from(
    table: &[u32],
    changes: &[Change],
    places: &HashMap<u32, usize>,
    from: usize,
    passed: &[bool],
) -> Option<u32>
    requires few { length table.now < 2 ^ 32 }
    requires once { NamesOnce (changed_pages changes.now) }
    requires placed { ArePlaced changes.now places.now }
    ensures { IfSome result (λ page. (0 < page) × (page < length table.now)
        × (slice_index_or (mapped_after table.now changes.now) page false ≡ false)) }
{
    for run in from / MAP_ENTRIES..passed.len() {
        if let Some(page) = unused_in_run(table, changes, places, from, passed, run) {
            return Some(page);
        }
    }
    None
}

/// A page number that isn't used: the first from `from` on that the notes don't pass over, or else the first.
pub(crate) fn unused_page(
    table: &[u32],
    changes: &[Change],
    places: &HashMap<u32, usize>,
    from: usize,
    passed: &[bool],
) -> Option<u32>
    requires few { length table.now < 2 ^ 32 }
    requires once { NamesOnce (changed_pages changes.now) }
    requires placed { ArePlaced changes.now places.now }
    ensures found { IfSome result (λ page. (0 < page) × (page < length table.now)
        × (slice_index_or (mapped_after table.now changes.now) page false ≡ false)) }
    ensures full { IfNone result ((n : ℕ) → 0 < n → n < length table.now
        → slice_index_or (mapped_after table.now changes.now) n false ≡ true) }
{
    if let Some(page) = unused_from(table, changes, places, from, passed) {
        return Some(page);
    }
    match unused_between(table, changes, places, 1, table.len()) {
        Some(page) => Some(page),
        None => None,
    }
}

/// Notes the runs from a page number on, up to that of another, as runs without unused ones.
pub(crate) fn pass_runs(passed: &mut Vec<bool>, from: u32, page: u32)
    ensures { length passed.new.items ≡ length passed.old.items }
{
    let start = from as usize / MAP_ENTRIES;
    let end = passed.len().min(page as usize / MAP_ENTRIES);
    for run in start..end {
        passed[run] = true;
    }
}

/// The run of a page that is released has an unused number.
pub(crate) fn forget_run(passed: &mut Vec<bool>, page: u32)
    ensures { length passed.new.items ≡ length passed.old.items }
{
    let run = page as usize / MAP_ENTRIES;
    if run < passed.len() {
        passed[run] = false;
    }
}
