//! A device is made a volume without files.
ghost use Rattle.std.specs.Prelude.{◌≡◌, ◌≤◌, [], OnOk, IsErr};
ghost use Rattle.station.specs.History.{EachImage};
ghost use Rattle.station.specs.Calls.{OnlyWrites};
ghost use Rattle.half_store.specs.Half.{Holds, Rests};

use crate::root::root_bytes;
use station::{Device, DeviceError};

/// Writes zeros to sector 1 and the root of generation 0 to sector 0, and syncs. What the device held before is gone.
pub fn format<D: Device>(device: &mut D) -> Result<(), DeviceError>
    requires least { 1024 ≤ D.sectors device.old }
    requires most { D.sectors device.old ≤ 921600 }
    ensures only { OnlyWrites D.Device (IsErr result) device.old device.new }

    // After `Ok` a crash leaves no files.
    ensures empty { D.is_honest device.old
        → OnOk result (EachImage (λ image. Holds image []) (D.state device.new)) }
    ensures rests { D.is_honest device.old
        → OnOk result (Rests (D.sectors device.old) 0 (D.state device.new).disk []) }
{
    let root = root_bytes(device.count(), 0, 0);
    device.write(1, &[0; 4096])?;
    device.write(0, &root)?;
    device.sync()
}
