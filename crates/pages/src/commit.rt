//! A volume's next generation is put on the disk.
ghost use Rattle.std.specs.Prelude.{◌≡◌, ◌+◌, ◌<◌, ◌≤◌, ◌↔◌, Err, length, OnOk};
ghost use Rattle.std.specs.List.{All};
ghost use Rattle.station.specs.Failures.{Blames};
ghost use Rattle.pages.specs.Layout.{version_of};
ghost use Rattle.pages.specs.Image.{IsCommitted, NamesOnce};
ghost use Rattle.pages.specs.Changes.{next_map, changed_pages};
ghost use Rattle.pages.specs.Needed.{LacksSectors};
ghost use Rattle.pages.specs.Errors.{IsCommitError};
ghost use Rattle.pages.specs.Commits.{volume_on, IfDiskHolds, LeavesEither, DoesNothing, KeepsConsole, IsRefusalForRoom};
ghost use Rattle.pages.specs.Volumes.{volume_of, IsSound};

use crate::change::Change;
use crate::error::PagesError;
use crate::payload::root_bytes_of;
use crate::plan::{mark_turns, next_volume};
use crate::volume::VolumeMap;
use crate::volume_mark::VolumeMark;
use station::{Device, two_phase_write};
use std::alloc::Global;

/// Puts the volume with these changes on the disk, with this mark and this page of the catalog's root. It writes the blocks and syncs,
/// and then it writes the root and syncs. After a refusal the volume in memory is of no use.
pub(crate) fn commit_volume<D: Device>(
    alloc: Global,
    device: &mut D,
    volume: &mut VolumeMap,
    changes: &[Change],
    mark: VolumeMark,
    catalog: u32,
) -> Result<(), PagesError>
    requires sound { IsSound volume.old }
    requires mark { version_of volume.old.mark ≤ version_of mark }
    requires sectors { volume.old.sectors ≤ D.sectors device.old }
    requires pages { All (λ c. (0 < c.page) × (c.page < length volume.old.table)) changes.now }
    requires once { NamesOnce (changed_pages changes.now) }
    ensures honest { D.is_honest device.old ↔ D.is_honest device.new }
    ensures sectors { D.sectors device.new ≡ D.sectors device.old }
    ensures failures { Blames (result ≡ Err PagesError.Device) (D.failures device.old)
        (D.failures device.new) }
    ensures cause { IsCommitError result }
    ensures console { KeepsConsole D.Device device.old device.new }

    // At each moment a crash leaves the map before, or the one after.
    ensures moments { IfDiskHolds D.Device volume.old device.old
        (LeavesEither D.Device (volume_on D.Device volume.old device.old)
        (next_map (volume_on D.Device volume.old device.old) changes.now (version_of mark) catalog)
        device.old device.new) }

    // After `Ok` it is the one after.
    ensures committed { IfDiskHolds D.Device volume.old device.old
        (OnOk result (IsCommitted (volume_of volume.new) (D.state device.new).disk)) }
    ensures map { IfDiskHolds D.Device volume.old device.old
        (OnOk result (volume_on D.Device volume.new device.new
        ≡ next_map (volume_on D.Device volume.old device.old) changes.now (version_of mark)
        catalog)) }
    ensures sound { OnOk result (IsSound volume.new) }
    ensures same_sectors { volume.new.sectors ≡ volume.old.sectors }
    ensures next { OnOk result ((volume.new.generation ≡ volume.old.generation + 1)
        × (version_of volume.new.mark ≡ version_of mark) × (volume.new.catalog ≡ catalog)) }

    // `Full` means that too few sectors are free, or that no generation is left, and then nothing was done.
    ensures short { result ≡ Err PagesError.Full → LacksSectors (volume_of volume.old) changes.now }
    ensures told { LacksSectors (volume_of volume.old) changes.now
        → IsRefusalForRoom result }
    ensures full { result ≡ Err PagesError.Full → DoesNothing D.Device device.old device.new }
{
    let draft = next_volume(alloc, volume, changes, mark, catalog)?;
    let bytes = root_bytes_of(volume);
    two_phase_write(
        device,
        &draft.blocks,
        (volume.generation % 2) as u32,
        &bytes,
    )?;
    mark_turns(&mut volume.used, &mut volume.free, &draft.turns);
    Ok(())
}
