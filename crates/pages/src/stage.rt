//! The blocks of the next volume: its pages, and then its maps.
ghost use Rattle.std.specs.Prelude.{◌≡◌, ◌<◌, ◌≤◌, ◌+◌, ◌*◌, ◌^◌, ◌/◌, ◌++◌, ◌≢◌, [], ◌∷◌, true, ℕ, List, length, is_some, Err, OnOk, IsOkUnless, ◌==◌};
ghost use Rattle.std.specs.List.{All, list_all};
ghost use Rattle.pages.specs.declared.change.Change.{Change};
ghost use Rattle.pages.specs.Image.{Volume, NamesOnce, map_part};
ghost use Rattle.pages.specs.Use.{free_count};
ghost use Rattle.pages.specs.Changes.{changed_pages};
ghost use Rattle.pages.specs.Needed.{filled_count, written_below};
ghost use Rattle.pages.specs.Errors.{IsPlanError};
ghost use Rattle.pages.specs.Volumes.{unused_below, IsDraft, IsMappedDraft, IsCounted, SameSize, ReleasesPage};

use crate::change::Change;
use crate::draft::{Draft, place_block, set_map, set_page};
use crate::error::PagesError;
use crate::table::map_entries;
use crate::volume::{MAP_ENTRIES, VolumeMap};
use station::SectorBytes;
use std::alloc::Global;

/// Stages one changed page.
pub(crate) fn stage_change<'a>(
    volume: &mut VolumeMap,
    draft: &mut Draft<'a>,
    change: &'a Change,
) -> Result<(), PagesError>
    requires few { length volume.old.used < 2 ^ 32 }
    requires page { change.now.page < length volume.old.table }
    requires changed_maps { change.now.page / 1024 < length draft.old.changed_maps.items }
    ensures cause { IsPlanError result }
    ensures sectors { volume.new.sectors ≡ volume.old.sectors }
    ensures start { OnOk result (draft.new.start ≡ draft.old.start) }
    ensures size { OnOk result (SameSize volume.old volume.new) }
    ensures maps { OnOk result (volume.new.maps ≡ volume.old.maps) }
    ensures changed_maps { OnOk result
        (length draft.new.changed_maps.items ≡ length draft.old.changed_maps.items) }
    ensures staged { (v : Volume) (changes : List Change)
        → 0 < change.now.page → IsDraft v volume.old draft.old changes
        → OnOk result (IsDraft v volume.new draft.new (changes ++ change.now ∷ [])) }
    ensures counted { (v : Volume) (changes : List Change) (maps : ℕ) → All
        (λ c. c.page ≢ change.now.page) changes → IsCounted v volume.old draft.old changes maps
        → OnOk result (IsCounted v volume.new draft.new (changes ++ change.now ∷ []) maps) }
    ensures full { (v : Volume) (changes : List Change) (maps : ℕ)
        → IsCounted v volume.old draft.old changes maps
        → result ≡ Err PagesError.Full → (is_some change.now.bytes ≡ true) × (free_count v
        ≡ unused_below volume.old.used draft.old.start + (filled_count changes + maps)) }
{
    let page = change.page as usize;
    match &change.bytes {
        Some(bytes) => {
            let bytes = SectorBytes::borrowed(bytes.view());
            let sector = place_block(&volume.used, draft, bytes)?;
            set_page(volume, draft, page, sector)
        }
        None => release_page(volume, draft, page),
    }
}

/// Takes a page's sector away, if it has one.
pub(crate) fn release_page(
    volume: &mut VolumeMap,
    draft: &mut Draft,
    page: usize,
) -> Result<(), PagesError>
    requires page { page < length volume.old.table }
    requires changed_maps { page / 1024 < length draft.old.changed_maps.items }
    ensures sectors { volume.new.sectors ≡ volume.old.sectors }
    ensures released { OnOk result (ReleasesPage volume.old volume.new draft.old draft.new page) }
    ensures cause { IsOkUnless result PagesError.Memory }
{
    if volume.table.entries()[page] == 0 {
        return Ok(());
    }
    set_page(volume, draft, page, 0)
}

/// Stages each changed page.
pub(crate) fn stage_changes<'a>(
    volume: &mut VolumeMap,
    draft: &mut Draft<'a>,
    changes: &'a [Change],
) -> Result<(), PagesError>
    requires few { length volume.old.used < 2 ^ 32 }
    requires pages { All (λ c. (0 < c.page) × (c.page < length volume.old.table)) changes.now }
    requires count { length volume.old.table ≡ 1024 * length draft.old.changed_maps.items }
    ensures cause { IsPlanError result }
    ensures sectors { volume.new.sectors ≡ volume.old.sectors }
    ensures start { OnOk result (draft.new.start ≡ draft.old.start) }
    ensures size { OnOk result (SameSize volume.old volume.new) }
    ensures maps { OnOk result (volume.new.maps ≡ volume.old.maps) }
    ensures changed_maps { OnOk result
        (length draft.new.changed_maps.items ≡ length draft.old.changed_maps.items) }
    ensures staged { (v : Volume) → IsDraft v volume.old draft.old []
        → OnOk result (IsDraft v volume.new draft.new changes.now) }
    ensures counted { (v : Volume) → NamesOnce (changed_pages changes.now) → IsCounted v volume.old
        draft.old [] 0 → OnOk result (IsCounted v volume.new draft.new changes.now 0) }
    ensures full { (v : Volume) → NamesOnce (changed_pages changes.now)
        → IsCounted v volume.old draft.old [] 0 → result ≡ Err PagesError.Full
        → free_count v < unused_below volume.old.used draft.old.start + filled_count changes.now }
{
    for change in changes {
        stage_change(volume, draft, change)?;
    }
    Ok(())
}

/// Whether no entry of a map names a sector.
fn is_blank(entries: &[u32]) -> bool
    ensures { result ≡ list_all (λ entry. entry == 0) entries.now }
{
    entries.iter().all(|entry| *entry == 0)
}

/// Stages one map, if its entries changed.
pub(crate) fn stage_map(
    alloc: Global,
    volume: &mut VolumeMap,
    draft: &mut Draft,
    map: usize,
) -> Result<(), PagesError>
    requires few { length volume.old.used < 2 ^ 32 }
    requires map { map < length volume.old.maps.items }
    requires changed_maps { map < length draft.old.changed_maps.items }
    requires count { length volume.old.table ≡ 1024 * length volume.old.maps.items }
    ensures cause { IsPlanError result }
    ensures sectors { volume.new.sectors ≡ volume.old.sectors }
    ensures start { OnOk result (draft.new.start ≡ draft.old.start) }
    ensures size { OnOk result (SameSize volume.old volume.new) }
    ensures changed_maps { OnOk result (draft.new.changed_maps ≡ draft.old.changed_maps) }
    ensures mapped { (v : Volume) (changes : List Change) → IsMappedDraft v volume.old draft.old
        changes map → OnOk result (IsMappedDraft v volume.new draft.new changes (map + 1)) }
    ensures counted { (v : Volume) (changes : List Change)
        → IsCounted v volume.old draft.old changes (written_below v changes map) → OnOk result
        (IsCounted v volume.new draft.new changes (written_below v changes (map + 1))) }
    ensures full { (v : Volume) (changes : List Change)
        → IsCounted v volume.old draft.old changes (written_below v changes map)
        → result ≡ Err PagesError.Full → free_count v < unused_below volume.old.used
        draft.old.start + (filled_count changes + written_below v changes (map + 1)) }
{
    if !draft.changed_maps[map] {
        return Ok(());
    }
    if is_blank(map_entries(volume.table.entries(), map)) {
        return set_map(volume, draft, map, 0);
    }
    let bytes = SectorBytes::owned(alloc, *volume.table.map_bytes(map))?;
    let sector = place_block(&volume.used, draft, bytes)?;
    set_map(volume, draft, map, sector)
}

/// Stages each map whose entries changed.
pub(crate) fn stage_maps(
    alloc: Global,
    volume: &mut VolumeMap,
    draft: &mut Draft,
) -> Result<(), PagesError>
    requires few { length volume.old.used < 2 ^ 32 }
    requires count { length volume.old.table ≡ 1024 * length volume.old.maps.items }
    requires changed_maps { length draft.old.changed_maps.items ≡ length volume.old.maps.items }
    ensures cause { IsPlanError result }
    ensures sectors { volume.new.sectors ≡ volume.old.sectors }
    ensures start { OnOk result (draft.new.start ≡ draft.old.start) }
    ensures size { OnOk result (SameSize volume.old volume.new) }
    ensures mapped { (v : Volume) (changes : List Change)
        → IsMappedDraft v volume.old draft.old changes 0 → OnOk result
        (IsMappedDraft v volume.new draft.new changes (length volume.old.maps.items)) }
    ensures counted { (v : Volume) (changes : List Change)
        → IsCounted v volume.old draft.old changes 0 → OnOk result (IsCounted v volume.new draft.new
        changes (written_below v changes (length volume.old.maps.items))) }
    ensures full { (v : Volume) (changes : List Change) → IsCounted v volume.old draft.old changes 0
        → result ≡ Err PagesError.Full → free_count v < unused_below volume.old.used draft.old.start
        + (filled_count changes + written_below v changes (length volume.old.maps.items)) }
{
    for map in 0..volume.maps.len() {
        stage_map(alloc, volume, draft, map)?;
    }
    Ok(())
}
