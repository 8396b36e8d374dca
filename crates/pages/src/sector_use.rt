//! Which sectors of a volume are used.
ghost use Rattle.std.specs.Prelude.{◌≡◌, ◌<◌, ◌≤◌, ◌+◌, ◌*◌, ◌==◌, count_by, ℕ, false, true, if◌then◌else◌, length, slice_index_or, IfOk, IfSome, IfNone};
ghost use Rattle.pages.specs.Runs.{used_flags, unused_below, unused_count, AreRuns};

use crate::volume::count_free;
use memchr::memchr;
use std::alloc::{AllocError, Global};
use std::marker::Model;

/// The sectors of a run.
const RUN: usize = 1024;

/// The byte of a sector that isn't used.
const UNUSED: u8 = 0;

/// How many sectors a search for adjacent ones looks at.
const SPAN: usize = 256;

/// For each sector a byte, 1 if it is used, and of each run of 1,024 sectors how many aren't: so a search passes over runs without one.
#[derive(Drop)]
pub(crate) struct SectorUse {
    used: Vec<u8>,
    unused: Vec<u32>,
}

impl Model for SectorUse {
    ghost use Rattle.std.specs.Prelude.{Bool, List};
    ghost use Rattle.pages.specs.Runs.{used_flags, AreRuns};

    ghost Value = { List Bool };

    ghost view = { λ sectors. used_flags sectors.used.items };

    ghost invariant = { λ sectors. AreRuns (used_flags sectors.used.items) sectors.unused.items };
}

/// How many sectors of a run aren't used.
fn count_run(used: &[bool], run: usize) -> u32
    requires few { length used.now ≤ 921600 }
    requires start { 1024 * run ≤ length used.now }
    ensures { unused_below used.now (1024 * run + 1024)
        ≡ unused_below used.now (1024 * run) + result }
{
    let start = RUN * run;
    let end = used.len().min(start + RUN);
    count_free(&used[start..end])
}

/// How many sectors of each run aren't used.
fn count_runs(alloc: Global, used: &[bool]) -> Result<Vec<u32>, AllocError>
    requires { length used.now ≤ 921600 }
    ensures { IfOk result (λ counts. AreRuns used.now counts.items) }
{
    let mut counts = Vec::new(alloc);
    for run in 0..(used.len() + RUN - 1) / RUN {
        counts.push(count_run(used, run))?;
    }
    Ok(counts)
}

/// How many sectors of a run aren't used, after one of them turned.
fn turned_count(count: u32, was: bool, used: bool) -> u32
    requires few { count ≤ 921600 }
    requires some { was ≡ false → 0 < count }
    ensures { result + (if was then 0 else 1) ≡ count + (if used then 0 else 1) }
{
    if was == used {
        return count;
    }
    if used { count - 1 } else { count + 1 }
}

/// For each sector the byte that marks it as used, or as not.
fn mark_bytes(alloc: Global, used: &[bool]) -> Result<Vec<u8>, AllocError>
    ensures { IfOk result (λ bytes. used_flags bytes.items ≡ used.now) }
{
    used.iter().map(|used| u8::from(*used)).collect(alloc)
}

/// The first sector of some that isn't used.
fn first_unused(used: &[u8], start: usize, end: usize) -> Option<u32>
    requires few { length used.now ≤ 921600 }
    requires end { end ≤ length used.now }
    ensures found { IfSome result
        (λ s. (start ≤ s) × (s < end) × (slice_index_or (used_flags used.now) s false ≡ false)) }
    ensures first { IfSome result (λ s. (t : ℕ) → start ≤ t → t < s
        → slice_index_or (used_flags used.now) t false ≡ true) }
    ensures full { IfNone result
        ((t : ℕ) → start ≤ t → t < end → slice_index_or (used_flags used.now) t false ≡ true) }
{
    let sectors = used.get(start..end)?;
    let place = memchr(UNUSED, sectors)?;
    Some((start + place) as u32)
}

/// The first sector of a run, and from this one on, that isn't used.
fn unused_in_run(used: &[u8], counts: &[u32], from: usize, run: usize) -> Option<u32>
    requires runs { AreRuns (used_flags used.now) counts.now }
    requires run { run < length counts.now }
    ensures found { IfSome result (λ s. (from ≤ s) × (1024 * run ≤ s) × (s < length used.now)
        × (slice_index_or (used_flags used.now) s false ≡ false)) }
    ensures first { IfSome result (λ s. (t : ℕ) → from ≤ t → 1024 * run ≤ t → t < s
        → slice_index_or (used_flags used.now) t false ≡ true) }
    ensures full { IfNone result ((t : ℕ) → from ≤ t → 1024 * run ≤ t → t < 1024 * run + 1024
        → t < length used.now → slice_index_or (used_flags used.now) t false ≡ true) }
{
    if counts[run] == 0 {
        return None;
    }
    let start = RUN.saturating_mul(run);
    let end = used.len().min(start.saturating_add(RUN));
    match first_unused(used, from.max(start), end) {
        Some(sector) => Some(sector),
        None => None,
    }
}

/// The first of so many adjacent sectors among some that aren't used.
fn first_adjacent(used: &[u8], start: usize, end: usize, count: usize) -> Option<u32>
    requires few { length used.now ≤ 921600 }
    requires end { end ≤ length used.now }
    ensures { IfSome result (λ s. (start ≤ s) × (s < end)) }
{
    let mut first = start;
    for place in start..end {
        if used[place] != UNUSED {
            first = place + 1;
        } else if place - first + 1 >= count {
            return Some(first as u32);
        }
    }
    None
}

/// How many of some sectors aren't used.
fn count_bytes(used: &[u8]) -> usize
    ensures { result ≡ count_by (λ byte. byte == 0) used.now }
{
    used.iter().filter(|byte| **byte == UNUSED).count()
}

/// How many sectors from one place on and before another aren't used.
fn count_between(used: &[u8], start: usize, end: usize) -> usize
    ensures { unused_below (used_flags used.now) start + result
        ≤ unused_count (used_flags used.now) }
{
    match used.get(start..end) {
        Some(sectors) => count_bytes(sectors),
        None => 0,
    }
}

impl SectorUse {
    ghost use Rattle.std.specs.Prelude.{slice_set};

    /// The use of sectors that are marked so.
    pub(crate) fn new(alloc: Global, used: Vec<bool>) -> Result<SectorUse, AllocError>
        requires { length used.items ≤ 921600 }
        ensures { IfOk result (λ sectors. sectors ≡ used.items) }
    {
        let unused = count_runs(alloc, &used)?;
        let used = mark_bytes(alloc, &used)?;
        Ok(SectorUse { used, unused })
    }

    /// Whether a sector is used.
    pub(crate) fn is_used(&self, sector: u32) -> bool
        requires { sector < length self.now }
        ensures { result ≡ slice_index_or self.now sector false }
    {
        self.used[sector as usize] != UNUSED
    }

    /// A sector becomes used, or is used no longer.
    pub(crate) fn set(&mut self, sector: u32, used: bool)
        requires { sector < length self.old }
        ensures { self.new ≡ slice_set self.old sector used }
    {
        let place = sector as usize;
        let run = place / RUN;
        self.unused[run] = turned_count(self.unused[run], self.used[place] != UNUSED, used);
        self.used[place] = u8::from(used);
    }

    /// The first sector from this one on that isn't used.
    pub(crate) fn next_unused(&self, from: u32) -> Option<u32>
        ensures found { IfSome result
            (λ s. (from ≤ s) × (s < length self.now) × (slice_index_or self.now s false ≡ false)) }
        ensures first { IfSome result
            (λ s. (t : ℕ) → from ≤ t → t < s → slice_index_or self.now t false ≡ true) }
        ensures full { IfNone result ((t : ℕ) → from ≤ t → t < length self.now
            → slice_index_or self.now t false ≡ true) }
    {
        let from = from as usize;
        for run in from / RUN..self.unused.len() {
            if let Some(sector) = unused_in_run(&self.used, &self.unused, from, run) {
                return Some(sector);
            }
        }
        None
    }

    /// The first of so many adjacent sectors that aren't used. It looks at 256 sectors, from the first one on that isn't used and isn't
    /// before this one.
    pub(crate) fn adjacent_unused(&self, from: u32, count: usize) -> Option<u32>
        ensures { IfSome result (λ s. (from ≤ s) × (s < length self.now)) }
    {
        let start = self.next_unused(from)? as usize;
        let end = self.used.len().min(start.saturating_add(SPAN));
        first_adjacent(&self.used, start, end, count)
    }

    /// Whether so many sectors from this one on aren't used. It looks at no more than four times as many sectors.
    pub(crate) fn has_room(&self, from: u32, count: usize) -> bool
        ensures { result ≡ true → unused_below self.now from + count ≤ unused_count self.now }
    {
        let start = from as usize;
        let end = start.saturating_add(count.saturating_mul(4));
        count_between(&self.used, start, end.min(self.used.len())) >= count
    }
}
