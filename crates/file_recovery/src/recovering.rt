//! All files of a volume, of either store.
ghost use Rattle.std.specs.Prelude.{◌≡◌, ◌⊎◌, ◌≤◌, true, false, Err, IfOk, IfErr, OnOk, OnErr};
ghost use Rattle.station.specs.Calls.{OnlyReads, OnlyWrites};
ghost use Rattle.station.specs.History.{Through};
ghost use Rattle.station.specs.Opening.{IsOpening};
ghost use Rattle.station.specs.State.{state_after_sync};
ghost use Rattle.pages.specs.Layout.{IsForeign, version_of};
ghost use Rattle.pages.specs.Pages.{map_now, is_spent, sectors_of};
ghost use Rattle.btree.specs.Calls.{IfAgrees};
ghost use Rattle.records.specs.Files.{Files, AreShort};
ghost use Rattle.volume_format.specs.Volume.{MapHolds, Holds};
ghost use Rattle.file_recovery.specs.Faults.{IsReadFault};
ghost use Rattle.file_recovery.specs.Recovered.{HoldsFiles, IsRecoveryRefusal, RefusedTrees, IsReadCause, IsTreeCause};
ghost use Rattle.file_bytes.specs.Stored.{files_of};

use crate::catalog::read_catalog;
use crate::coverage::are_covered;
use file_bytes::{StoredFile, are_short};
use pages::{PageMap, VolumeMark};
use records::StoreFault;
use station::Device;
use std::alloc::Global;
use volume_format::to_fault;

/// How many pages are kept in memory.
const CAPACITY: usize = 64;

/// The files that a volume holds, whichever store wrote it. It syncs first, and writes nothing.
pub fn recover<D: Device>(alloc: Global, device: &mut D) -> Result<Vec<StoredFile>, StoreFault>
    ensures only { OnlyWrites D.Device (result ≡ Err StoreFault.Device) device.old device.new }

    // Until it has succeeded, a crash leaves what was possible before.
    ensures moments { D.is_honest device.old → Through (D.history device.old) (D.history device.new)
        (D.state device.new) (IsOpening (D.state device.old)) }
    ensures state { D.is_honest device.old
        → OnOk result (D.state device.new ≡ state_after_sync (D.state device.old)) }
    ensures unwritten { D.is_honest device.old
        → OnErr result ((D.state device.new ≡ D.state device.old)
        ⊎ (D.state device.new ≡ state_after_sync (D.state device.old))) }

    // What it answers is what the disk holds; `Damaged` means that it holds no files, and where it holds some, the device and memory alone
    // refuse.
    ensures holds { D.is_honest device.old → IfOk result
        (λ files. HoldsFiles (D.state device.old).disk.present (files_of files.items)) }
    ensures refused { D.is_honest device.old
        → IfErr result (IsRecoveryRefusal (D.state device.old).disk.present) }
    ensures opens { D.is_honest device.old → (files : Files)
        → HoldsFiles (D.state device.old).disk.present files → IfErr result IsReadCause }
{
    match recover_trees(alloc, device) {
        Ok(files) => Ok(files),
        Err(fault) => match fault {
            StoreFault::Layout => half_store::recover(alloc, device),
            other => Err(other),
        },
    }
}

/// The files that an opened volume holds. `Damaged` means that it holds none.
fn read_volume<D: Device>(
    alloc: Global,
    pages: &mut PageMap,
    device: &mut D,
) -> Result<Vec<StoredFile>, StoreFault>
    requires unspent { is_spent pages.old ≡ false }
    requires sectors { sectors_of pages.old ≤ D.sectors device.old }
    ensures only { OnlyReads D.Device (result ≡ Err StoreFault.Device) device.old device.new }
    ensures holds { IfAgrees D.Device pages.old device.old (IfOk result (λ files.
        MapHolds (map_now pages.old (D.state device.old).disk.present) (files_of files.items))) }
    ensures damaged { IfAgrees D.Device pages.old device.old (result ≡ Err StoreFault.Damaged
        → (files : Files) → MapHolds (map_now pages.old (D.state device.old).disk.present) files
        → ⊥) }
    ensures cause { IfErr result IsReadFault }
{
    let mut seen = vec![in alloc; false; pages.page_count()]?;
    let files = read_catalog(alloc, pages.generation(), pages, device, &mut seen)?;
    if !are_covered(pages, &seen) {
        return Err(StoreFault::Damaged);
    }
    if may_hold(pages.mark(), &files) {
        Ok(files)
    } else {
        Err(StoreFault::Damaged)
    }
}

/// Whether a volume with this mark may hold these files: with the first mark it has no long records.
fn may_hold(mark: VolumeMark, files: &[StoredFile]) -> bool
    ensures yes { result ≡ true → version_of mark ≡ 0 → AreShort (files_of files.now) }
    ensures no { result ≡ false → (version_of mark ≡ 0 → AreShort (files_of files.now)) → ⊥ }
{
    match mark {
        VolumeMark::First => are_short(files),
        VolumeMark::Second => true,
    }
}

/// The files that a volume of trees holds. It syncs first, and writes nothing.
fn recover_trees<D: Device>(alloc: Global, device: &mut D) -> Result<Vec<StoredFile>, StoreFault>
    ensures only { OnlyWrites D.Device (result ≡ Err StoreFault.Device) device.old device.new }
    ensures moments { D.is_honest device.old → Through (D.history device.old) (D.history device.new)
        (D.state device.new) (IsOpening (D.state device.old)) }
    ensures state { D.is_honest device.old
        → OnOk result (D.state device.new ≡ state_after_sync (D.state device.old)) }
    ensures unwritten { D.is_honest device.old
        → OnErr result ((D.state device.new ≡ D.state device.old)
        ⊎ (D.state device.new ≡ state_after_sync (D.state device.old))) }
    ensures holds { D.is_honest device.old
        → IfOk result (λ files. Holds (D.state device.old).disk.present (files_of files.items)) }
    ensures refused { D.is_honest device.old
        → IfErr result (RefusedTrees (D.state device.old).disk.present) }
    ensures opens { D.is_honest device.old → (files : Files)
        → Holds (D.state device.old).disk.present files → IfErr result IsReadCause }

    // Where the newest root is the other store's, it tells so, unless the device or memory failed.
    ensures foreign { D.is_honest device.old → IsForeign (D.state device.old).disk.present
        → IfErr result IsTreeCause }
{
    let mut pages = match PageMap::open(alloc, device, CAPACITY) {
        Ok(pages) => pages,
        Err(error) => return Err(to_fault(error)),
    };
    read_volume(alloc, &mut pages, device)
}
