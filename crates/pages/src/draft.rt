//! The next volume, while its blocks are chosen.
ghost use Rattle.std.specs.Prelude.{◌≡◌, ◌<◌, ◌≤◌, ◌^◌, ◌++◌, ℕ, length, slice_index_or, false, true, Err, IfOk, OnOk, IsOkUnless, ◌/◌};
ghost use Rattle.pages.specs.Errors.{IsPlanError};
ghost use Rattle.pages.specs.Use.{turns_of};
ghost use Rattle.pages.specs.Volumes.{PlacesBlock, SetsPage, SetsMap};

use crate::error::PagesError;
use crate::sector_use::SectorUse;
use crate::volume::{MAP_ENTRIES, VolumeMap};
use station::{Block, SectorBytes};
use std::alloc::AllocError;

/// A sector that becomes used, or is used no longer.
#[derive(Clone, Copy, PartialEq, Eq)]
pub(crate) struct UseChange {
    pub sector: u32,
    pub used: bool,
}

/// What the next volume has other than the volume.
#[derive(Drop)]
pub(crate) struct Draft<'a> {
    pub blocks: Vec<Block<'a>>,
    /// The maps whose entries changed.
    pub changed_maps: Vec<bool>,
    /// The sectors whose use changed.
    pub turns: Vec<UseChange>,
    /// The first sector that may be taken.
    pub start: u32,
    /// No sector from here on is taken yet.
    pub next: u32,
}

/// Notes that a name was replaced by another.
pub(crate) fn note_turns(turns: &mut Vec<UseChange>, old: u32, new: u32) -> Result<(), AllocError>
    ensures { OnOk result (turns.new.items ≡ turns.old.items ++ turns_of old new) }
{
    if old != 0 {
        turns.push(UseChange {
            sector: old,
            used: false,
        })?;
    }
    if new != 0 {
        turns.push(UseChange {
            sector: new,
            used: true,
        })?;
    }
    Ok(())
}

/// Places a block in the next sector that isn't used. So blocks of adjacent sectors stand one after the other.
pub(crate) fn place_block<'a>(
    used: &SectorUse,
    draft: &mut Draft<'a>,
    bytes: SectorBytes<'a>,
) -> Result<u32, PagesError>
    requires { length used.now < 2 ^ 32 }
    ensures placed { IfOk result
        (λ sector. PlacesBlock used.now draft.old draft.new sector bytes.entry) }
    ensures full { result ≡ Err PagesError.Full → (s : ℕ) → draft.old.next ≤ s → s < length used.now
        → slice_index_or used.now s false ≡ true }
    ensures cause { IsPlanError result }
{
    let sector = match used.next_unused(draft.next) {
        Some(sector) => sector,
        None => return Err(PagesError::Full),
    };
    draft.blocks.push(Block { sector, bytes })?;
    draft.next = sector + 1;
    Ok(sector)
}

/// Gives a page another sector, or none.
pub(crate) fn set_page(
    volume: &mut VolumeMap,
    draft: &mut Draft,
    page: usize,
    sector: u32,
) -> Result<(), PagesError>
    requires page { page < length volume.old.table }
    requires changed_maps { page / 1024 < length draft.old.changed_maps.items }
    ensures sectors { volume.new.sectors ≡ volume.old.sectors }
    ensures set { OnOk result (SetsPage volume.old volume.new draft.old draft.new page sector) }
    ensures cause { IsOkUnless result PagesError.Memory }
{
    note_turns(&mut draft.turns, volume.table.entries()[page], sector)?;
    volume.table.set(page, sector);
    draft.changed_maps[page / MAP_ENTRIES] = true;
    Ok(())
}

/// Gives a map another sector, or none.
pub(crate) fn set_map(
    volume: &mut VolumeMap,
    draft: &mut Draft,
    map: usize,
    sector: u32,
) -> Result<(), PagesError>
    requires { map < length volume.old.maps.items }
    ensures sectors { volume.new.sectors ≡ volume.old.sectors }
    ensures set { OnOk result (SetsMap volume.old volume.new draft.old draft.new map sector) }
    ensures cause { IsOkUnless result PagesError.Memory }
{
    note_turns(&mut draft.turns, volume.maps[map], sector)?;
    volume.maps[map] = sector;
    Ok(())
}
