//! The plan of a commit: the next volume, its blocks, and the sectors whose use changes.
ghost use Rattle.std.specs.Prelude.{◌≡◌, ◌<◌, ◌≤◌, ◌+◌, ◌^◌, Err, length, slice_set, IfOk, IfSome, OnOk};
ghost use Rattle.std.specs.List.{All};
ghost use Rattle.pages.specs.Errors.{IsPlanError};
ghost use Rattle.pages.specs.Plan.{IsPlan};
ghost use Rattle.pages.specs.Layout.{version_of};
ghost use Rattle.pages.specs.Image.{NamesOnce};
ghost use Rattle.pages.specs.Changes.{changed_pages};
ghost use Rattle.pages.specs.Needed.{LacksSectors, needed_sectors};
ghost use Rattle.pages.specs.Use.{use_after};
ghost use Rattle.pages.specs.Volumes.{volume_of, IsSound, IsSoundAfter, SameSize, IsNext, IsFresh, MayStart, AreAscending, unused_count};

use crate::change::Change;
use crate::draft::{Draft, UseChange};
use crate::error::PagesError;
use crate::sector_use::SectorUse;
use crate::stage::{stage_changes, stage_maps};
use crate::volume::VolumeMap;
use crate::volume_mark::VolumeMark;
use roots::GENERATIONS;
use std::alloc::{AllocError, Global};

/// The first sector after the roots.
const FIRST_SECTOR: u32 = 2;

/// A draft has room for so many blocks from the start, which is enough for a small commit, and for as many old and new sectors.
const FEW_BLOCKS: usize = 8;

/// A commit of more changes takes the first sectors that aren't used, and looks for no adjacent ones.
const MOST_ADJACENT: usize = 256;

/// So many sectors before the one around which a search looks are looked at too.
const BEHIND: u32 = 8;

/// How far the next search is from one that found nothing.
const STEP: u32 = 256;

/// The next volume, with these changes, this mark and this page of the catalog's root.
pub(crate) fn next_volume<'a>(
    alloc: Global,
    volume: &mut VolumeMap,
    changes: &'a [Change],
    mark: VolumeMark,
    catalog: u32,
) -> Result<Draft<'a>, PagesError>
    requires sound { IsSound volume.old }
    requires mark { version_of volume.old.mark ≤ version_of mark }
    requires pages { All (λ c. (0 < c.page) × (c.page < length volume.old.table)) changes.now }
    requires once { NamesOnce (changed_pages changes.now) }
    ensures cause { IsPlanError result }
    ensures plan { IfOk result (λ draft.
        IsPlan (volume_of volume.old) (volume_of volume.new) draft.blocks.items changes.now) }
    ensures sectors { volume.new.sectors ≡ volume.old.sectors }
    ensures next { OnOk result (IsNext volume.old volume.new (version_of mark) catalog) }
    ensures sound { IfOk result (λ draft. IsSoundAfter volume.new draft.turns.items) }
    ensures full { result ≡ Err PagesError.Full → LacksSectors (volume_of volume.old) changes.now }
    ensures room { OnOk result (¬ (LacksSectors (volume_of volume.old) changes.now)) }

    // Each changed page and each changed map sector is written once, in ascending sectors.
    ensures blocks { IfOk result (λ draft. AreAscending draft.blocks.items
        × (length draft.blocks.items ≡ needed_sectors (volume_of volume.old) changes.now)) }
{
    if volume.generation + 1 >= GENERATIONS {
        return Err(PagesError::Full);
    }
    let start = start_of(volume, changes.len());
    let mut draft = fresh_draft(alloc, volume.maps.len(), start.sector)?;
    stage_changes(volume, &mut draft, changes)?;
    stage_maps(alloc, volume, &mut draft)?;
    volume.mark = mark;
    volume.generation += 1;
    volume.catalog = catalog;
    volume.near = volume.last_start;
    volume.last_start = start.near;
    Ok(draft)
}

/// Marks the sectors whose use changed.
pub(crate) fn mark_turns(used: &mut SectorUse, free: &mut u32, turns: &[UseChange])
    requires low { All (λ t. t.sector < length used.old) turns.now }
    requires few { length used.old < 2 ^ 32 }
    requires free { free.old ≡ unused_count used.old }
    ensures used { used.new ≡ use_after used.old turns.now }
    ensures free { free.new ≡ unused_count used.new }
{
    for turn in turns {
        mark_turn(used, free, *turn);
    }
}

/// Where the blocks of a commit begin, and around which sector the commit after the next one looks.
#[derive(Clone, Copy)]
struct Start {
    sector: u32,
    near: u32,
}

/// Where a commit of so many changes finds adjacent sectors, one for each change and one for a map sector. From there on the volume has
/// all sectors that the commit may need.
fn adjacent_start(used: &SectorUse, near: u32, changes: usize) -> Option<u32>
    ensures { IfSome result (MayStart used.now changes) }
{
    if changes > MOST_ADJACENT {
        return None;
    }
    let from = near.saturating_sub(BEHIND).max(FIRST_SECTOR);
    let start = used.adjacent_unused(from, changes + 1)?;
    if !used.has_room(start, 2 * changes) {
        return None;
    }
    Some(start)
}

/// Where a search begins, after one around this sector that found nothing. After the last sector it begins anew.
fn near_behind(near: u32, sectors: u32) -> u32 {
    let behind = near.saturating_add(STEP);
    if behind < sectors {
        behind
    } else {
        FIRST_SECTOR
    }
}

/// Where the blocks of a commit of so many changes begin: where adjacent sectors are, if some are found, and after the roots else.
fn start_of(volume: &VolumeMap, changes: usize) -> Start
    ensures { MayStart volume.now.used changes result.sector }
{
    match adjacent_start(&volume.used, volume.near, changes) {
        Some(sector) => Start {
            sector,
            near: sector,
        },
        None => Start {
            sector: FIRST_SECTOR,
            near: near_behind(volume.near, volume.sectors),
        },
    }
}

/// A draft with nothing in it, for so many maps, whose blocks begin there.
fn fresh_draft<'a>(alloc: Global, maps: usize, start: u32) -> Result<Draft<'a>, AllocError>
    ensures { IfOk result (λ draft. IsFresh maps start draft) }
{
    Ok(Draft {
        blocks: Vec::with_capacity(alloc, FEW_BLOCKS)?,
        changed_maps: vec![in alloc; false; maps]?,
        turns: Vec::with_capacity(alloc, 2 * FEW_BLOCKS)?,
        start,
        next: start,
    })
}

/// Marks a sector whose use changed.
fn mark_turn(used: &mut SectorUse, free: &mut u32, turn: UseChange)
    requires low { turn.sector < length used.old }
    requires few { length used.old < 2 ^ 32 }
    requires free { free.old ≡ unused_count used.old }
    ensures used { used.new ≡ slice_set used.old turn.sector turn.used }
    ensures free { free.new ≡ unused_count used.new }
{
    if used.is_used(turn.sector) {
        *free += 1;
    }
    used.set(turn.sector, turn.used);
    if turn.used {
        *free -= 1;
    }
}
