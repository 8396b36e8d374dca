//! The command `copy`.
ghost use Rattle.std.specs.Prelude.{◌≡◌, ◌≤◌, Err, IfErr};
ghost use Rattle.station.specs.Calls.{OnlyWrites};
ghost use Rattle.volume_copies.specs.Copied.{IsOpened, IsCopyRefusal, KeepsDevice, LeavesNew};
ghost use Rattle.volume_copies.specs.Copied.{IsSafeWhileCopied, DoneOnlyIfCopied, LeavesNoneIfAbandoned, DifferentOnlyIfHidden};
ghost use Rattle.volume_copies.specs.Blamed.{blamed_on_new};

use crate::copied::Copied;
use crate::copy_error::CopyError;
use crate::new_volume::copy_files;
use crate::progress::Progress;
use file_recovery::recover;
use records::StoreFault;
use station::Device;
use std::alloc::Global;

/// Makes the new device a volume of trees, of all its sectors, with the files of the old one, and
/// reads it back. The old one is only read. The new one is no volume until it is compared.
pub fn copy_volume<D: Device, E: Device, P: Progress>(
    alloc: Global,
    old: &mut D,
    new: E,
    progress: &mut P,
) -> Copied<E, CopyError>
    requires least { 1024 ≤ E.sectors new }
    requires most { E.sectors new ≤ 921600 }

    // The old volume is only read, as recovery reads it.
    ensures only { OnlyWrites D.Device
        (result.copy ≡ Err (CopyError.Old StoreFault.Device)) old.old old.new }
    ensures opened { D.is_honest old.old → IsOpened D.Device old.old old.new }
    ensures refused { D.is_honest old.old
        → IfErr result.copy (IsCopyRefusal (D.state old.old).disk.present) }

    // At each moment a crash leaves of the new device what was possible before, no volume, or the
    // same files.
    ensures keeps { KeepsDevice E.Device
        (result.copy ≡ Err (CopyError.New StoreFault.Device)) new result.device }
    ensures moments { IsSafeWhileCopied D.Device E.Device old.old new result.device }

    // A copy that is done holds the same files, whatever a crash leaves of it. No other one leaves
    // a volume, unless the old volume was refused or the new device failed.
    ensures copied { DoneOnlyIfCopied D.Device E.Device old.old new result.copy result.device }
    ensures none { LeavesNoneIfAbandoned E.Device new result.copy result.device }

    // A copy that differs is a volume, except for its root. A refusal of the old volume leaves the
    // new device as it was.
    ensures different { DifferentOnlyIfHidden E.Device new result.copy result.device }
    ensures untouched { IfErr result.copy (λ error. LeavesNew error new result.device) }
{
    match recover(alloc, old) {
        Ok(files) => blame_new(copy_files(alloc, &files, new, progress)),
        Err(fault) => Copied {
            device: new,
            copy: Err(CopyError::Old(fault)),
        },
    }
}

/// The same, where a fault is that of the new volume.
fn blame_new<E>(made: Copied<E, StoreFault>) -> Copied<E, CopyError>
    ensures device { result.device ≡ made.device }
    ensures copy { result.copy ≡ blamed_on_new made.copy }
{
    let Copied { device, copy } = made;
    Copied {
        device,
        copy: copy.map_err(CopyError::New),
    }
}
