//! The volume of a device is read, and made.
ghost use Rattle.std.specs.Prelude.{◌≡◌, ◌⊎◌, ◌≤◌, ◌<◌, ◌↔◌, ◌++◌, ℕ, List, [], true, false, Err, Some, length, slice_index, IfOk, IfErr, OnOk, OnErr};
ghost use Rattle.station.specs.Disk.{Sector};
ghost use Rattle.station.specs.State.{state_after_sync};
ghost use Rattle.station.specs.History.{Through};
ghost use Rattle.station.specs.Calls.{OnlyReads};
ghost use Rattle.station.specs.Failures.{Blames};
ghost use Rattle.station.specs.Opening.{IsOpening};
ghost use Rattle.pages.specs.Layout.{IsForeign, newest};
ghost use Rattle.pages.specs.Image.{Reads, Map, IsImageOf, IsDamaged, IsCommitted};
ghost use Rattle.pages.specs.Errors.{RefusesImage, IsOpenError, IsReadError, FailsWithError};
ghost use Rattle.pages.specs.Marked.{IsMarked, AreNames};
ghost use Rattle.pages.specs.Found.{found_root, IsFoundWithin, IsTable, HoldsMaps};
ghost use Rattle.pages.specs.Volumes.{volume_of, IsSound};

use crate::error::PagesError;
use crate::marks::mark_names;
use crate::reading::read_table;
use crate::root::{FoundRoot, read_root};
use crate::sector_use::SectorUse;
use crate::table::SectorTable;
use crate::volume::{VolumeMap, count_free};
use crate::volume_mark::mark_at;
use station::Device;
use std::alloc::{AllocError, Global};

/// The volume that a device has. Nothing is written.
pub(crate) fn read_volume<D: Device>(alloc: Global, device: &mut D) -> Result<VolumeMap, PagesError>
    ensures only { OnlyReads D.Device (result ≡ Err PagesError.Device) device.old device.new }
    ensures reads { D.is_honest device.old
        → IfOk result (λ volume. Reads (D.state device.old).disk.present (volume_of volume)) }
    ensures sound { IfOk result (λ volume. IsSound volume) }
    ensures there { IfOk result (λ volume. volume.sectors ≤ D.sectors device.old) }
    ensures refused { D.is_honest device.old
        → IfErr result (λ error. RefusesImage (D.state device.old).disk.present error) }
    ensures cause { IsOpenError result }
{
    let root = read_root(alloc, device)?;
    let named = read_named(alloc, device, &root)?;
    let volume = named_volume(alloc, root, named)?;
    Ok(volume)
}

/// What the maps of a root name, in addition to the roots.
#[derive(Drop)]
struct Named {
    /// The sector of each page.
    table: Vec<u32>,
    /// Whether a sector is a root or is named.
    used: Vec<bool>,
}

/// The table of a root that was read, and the sectors that both name.
fn read_named<D: Device>(
    alloc: Global,
    device: &mut D,
    root: &FoundRoot,
) -> Result<Named, PagesError>
    requires { IsFoundWithin (D.sectors device.old) root.now }
    ensures only { OnlyReads D.Device (result ≡ Err PagesError.Device) device.old device.new }
    ensures table { IfOk result (λ named. IsTable root.now named.table.items named.used.items) }
    ensures entries { D.is_honest device.old → IfOk result
        (λ named. HoldsMaps (D.state device.old).disk.present root.now named.table.items) }
    ensures refused { D.is_honest device.old
        → newest (D.state device.old).disk.present ≡ Some (found_root root.now)
        → IfErr result (λ error. RefusesImage (D.state device.old).disk.present error) }
    ensures cause { IsOpenError result }
{
    let mut used = marked_maps(alloc, root)?;
    let table = read_table(alloc, device, &root.maps)?;
    if !mark_table(&mut used, &table) {
        return Err(PagesError::Damaged);
    }
    Ok(Named { table, used })
}

/// The use of the sectors where the maps of a root are named.
fn marked_maps(alloc: Global, root: &FoundRoot) -> Result<Vec<bool>, PagesError>
    requires { 2 ≤ root.now.sectors }
    ensures marked { IfOk result (λ used. IsMarked root.now.maps.items used.items) }
    ensures count { IfOk result (λ used. length used.items ≡ root.now.sectors) }
    ensures refused { (image : List Sector) → newest image ≡ Some (found_root root.now)
        → IfErr result (λ error. RefusesImage image error) }
    ensures cause { OnErr result
        ((result ≡ Err PagesError.Damaged) ⊎ (result ≡ Err PagesError.Memory)) }
{
    let mut used = fresh_use(alloc, root.sectors as usize)?;
    if !mark_names(&mut used, &root.maps) {
        return Err(PagesError::Damaged);
    }
    Ok(used)
}

/// Marks each sector that a table names, as `mark_names` does, if page 0 has none.
fn mark_table(used: &mut Vec<bool>, table: &[u32]) -> bool
    requires { 0 < length table.now }
    ensures count { length used.new.items ≡ length used.old.items }
    ensures marked { result ≡ true → (before : List ℕ) → IsMarked before used.old.items
        → IsMarked (before ++ table.now) used.new.items }
    ensures first { result ≡ true → slice_index table.now 0 ≡ 0 }
    ensures refused { result ≡ false → (before : List ℕ) → IsMarked before used.old.items
        → AreNames (length used.old.items) (before ++ table.now)
        → slice_index table.now 0 ≡ 0 → ⊥ }
{
    if !mark_names(used, table) {
        return false;
    }
    let first = table[0];
    first == 0
}

/// The volume of a root, of the table that its maps hold, and of the sectors that both name.
fn named_volume(alloc: Global, root: FoundRoot, named: Named) -> Result<VolumeMap, AllocError>
    requires within { IsFoundWithin root.sectors root }
    requires table { IsTable root named.table.items named.used.items }
    ensures root { IfOk result (λ volume. (volume_of volume).root ≡ found_root root) }
    ensures table { IfOk result (λ volume. volume.table ≡ named.table.items) }
    ensures sound { IfOk result (λ volume. IsSound volume) }
{
    let free = count_free(&named.used);
    let used = SectorUse::new(alloc, named.used)?;
    let table = SectorTable::new(alloc, named.table, root.maps.len())?;
    Ok(VolumeMap {
        mark: mark_at(root.mark),
        generation: root.generation,
        sectors: root.sectors,
        catalog: root.catalog,
        maps: root.maps,
        table,
        used,
        free,
        near: 0,
        last_start: 0,
    })
}

/// Makes all that waits durable, and reads the volume.
pub(crate) fn open_volume<D: Device>(alloc: Global, device: &mut D) -> Result<VolumeMap, PagesError>
    ensures honest { D.is_honest device.old ↔ D.is_honest device.new }
    ensures sectors { D.sectors device.new ≡ D.sectors device.old }
    ensures failures { Blames (result ≡ Err PagesError.Device) (D.failures device.old)
        (D.failures device.new) }

    // Until it has succeeded, a crash leaves what was possible before. Nothing is written.
    ensures moments { D.is_honest device.old → Through (D.history device.old) (D.history device.new)
        (D.state device.new) (IsOpening (D.state device.old)) }
    ensures state { D.is_honest device.old
        → OnOk result (D.state device.new ≡ state_after_sync (D.state device.old)) }
    ensures unwritten { D.is_honest device.old
        → OnErr result ((D.state device.new ≡ D.state device.old)
        ⊎ (D.state device.new ≡ state_after_sync (D.state device.old))) }

    // What was read is what the disk holds, and a crash leaves it.
    ensures committed { D.is_honest device.old
        → IfOk result (λ volume. IsCommitted (volume_of volume) (D.state device.new).disk) }
    ensures sound { IfOk result (λ volume. IsSound volume) }
    ensures there { IfOk result (λ volume. volume.sectors ≤ D.sectors device.old) }

    // `Damaged` where the present image holds no map, `ForeignMark` where its newest root is another format's.
    ensures refused { D.is_honest device.old
        → IfErr result (λ error. RefusesImage (D.state device.old).disk.present error) }
    ensures opens { D.is_honest device.old → (m : Map)
        → IsImageOf (D.state device.old).disk.present m → IsReadError result }
    ensures foreign { D.is_honest device.old → IsForeign (D.state device.old).disk.present
        → FailsWithError PagesError.ForeignMark result }
    ensures damaged { D.is_honest device.old → IsDamaged (D.state device.old).disk.present
        → FailsWithError PagesError.Damaged result }
    ensures cause { IsOpenError result }
{
    device.sync()?;
    read_volume(alloc, device)
}

/// The use of the sectors where nothing is named: the roots alone are used.
fn fresh_use(alloc: Global, sectors: usize) -> Result<Vec<bool>, AllocError>
    requires { 2 ≤ sectors }
    ensures marked { IfOk result (λ used. IsMarked [] used.items) }
    ensures count { IfOk result (λ used. length used.items ≡ sectors) }
{
    let mut used = vec![in alloc; false; sectors]?;
    used[0] = true;
    used[1] = true;
    Ok(used)
}
