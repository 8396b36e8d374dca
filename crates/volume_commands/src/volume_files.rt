//! The files of a volume, as a command reads them.
ghost use Rattle.std.specs.Prelude.{◌≡◌, IfOk, IfErr};
ghost use Rattle.records.specs.Files.{Files};
ghost use Rattle.file_recovery.specs.Recovered.{HoldsFiles};
ghost use Rattle.file_bytes.specs.Stored.{files_of};
ghost use Rattle.volume_commands.specs.Faults.{IsReadError};
ghost use Rattle.volume_commands.specs.Calls.{ReadsVolume};

use crate::volume_error::VolumeError;
use file_recovery::{StoredFile, recover};
use station::Device;
use std::alloc::Global;

/// The files that a volume holds, whichever store wrote it.
pub(crate) fn read_files<D: Device>(
    alloc: Global,
    device: &mut D,
) -> Result<Vec<StoredFile>, VolumeError>
    ensures reads { ReadsVolume D.Device result device.old device.new }
    ensures files { D.is_honest device.old → IfOk result (λ files.
        HoldsFiles (D.state device.old).disk.present (files_of files.items)) }
    ensures cause { IfErr result IsReadError }
{
    match recover(alloc, device) {
        Ok(files) => Ok(files),
        Err(fault) => Err(VolumeError::of(fault)),
    }
}
