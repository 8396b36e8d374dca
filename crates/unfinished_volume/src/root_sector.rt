//! The root in sector 0 is hidden before a volume is made, and shown after that.
ghost use Rattle.std.specs.Prelude.{◌≡◌, ◌<◌, Err, OnOk, IsErr, slice_set};
ghost use Rattle.station.specs.Disk.{idle_disk};
ghost use Rattle.station.specs.History.{Through};
ghost use Rattle.station.specs.Calls.{OnlyWrites};
ghost use Rattle.station.specs.Blocks.{CrashLeaves};
ghost use Rattle.unfinished_volume.specs.Inverted.{inverted_image};
ghost use Rattle.unfinished_volume.specs.Hidden.{HidesRoot};
ghost use Rattle.unfinished_volume.specs.Moments.{PossibleOr, PossibleOrHidden};

use crate::inverting::inverted_sector;
use station::{Device, DeviceError, write_through};

/// Makes sector 0 one that is no root: zeros with an inverted first byte. It is durable at `Ok`.
pub fn hide_root<D: Device>(device: &mut D) -> Result<(), DeviceError>
    requires { 0 < D.sectors device.old }
    ensures only { OnlyWrites D.Device (IsErr result) device.old device.new }

    // At each moment a crash leaves what was possible before, or no root in sector 0.
    ensures moments { D.is_honest device.old → Through (D.history device.old)
        (D.history device.new) (D.state device.new)
        (CrashLeaves (D.state device.old).events (PossibleOrHidden (D.state device.old).disk)) }
    ensures hidden { D.is_honest device.old → OnOk result (HidesRoot (D.state device.new).disk) }
{
    write_root(device, &inverted_sector(&[0; 4096]))
}

/// Inverts the first byte of sector 0 again, which is the only sector that is written. It is
/// durable at `Ok`.
pub fn show_root<D: Device>(device: &mut D) -> Result<(), DeviceError>
    requires { 0 < D.sectors device.old }
    ensures only { OnlyWrites D.Device (IsErr result) device.old device.new }

    // At each moment a crash leaves what was possible before, or all sectors with the root shown.
    ensures moments { D.is_honest device.old → Through (D.history device.old)
        (D.history device.new) (D.state device.new) (CrashLeaves (D.state device.old).events
        (PossibleOr (D.state device.old).disk
        (inverted_image (D.state device.old).disk.present))) }
    ensures shown { D.is_honest device.old → OnOk result ((D.state device.new).disk
        ≡ idle_disk (inverted_image (D.state device.old).disk.present)) }
{
    let mut bytes = [0; 4096];
    device.read(0, &mut bytes)?;
    write_root(device, &inverted_sector(&bytes))
}

/// Writes sector 0 after all writes before it are durable. It is durable itself at `Ok`.
fn write_root<D: Device>(device: &mut D, bytes: &[u8; 4096]) -> Result<(), DeviceError>
    requires { 0 < D.sectors device.old }
    ensures only { OnlyWrites D.Device (IsErr result) device.old device.new }
    ensures moments { D.is_honest device.old → Through (D.history device.old)
        (D.history device.new) (D.state device.new) (CrashLeaves (D.state device.old).events
        (PossibleOr (D.state device.old).disk
        (slice_set (D.state device.old).disk.present 0 bytes.now))) }
    ensures durable { D.is_honest device.old → OnOk result ((D.state device.new).disk
        ≡ idle_disk (slice_set (D.state device.old).disk.present 0 bytes.now)) }
{
    device.sync()?;
    write_through(device, 0, bytes)
}
