//! The command `format`.
ghost use Rattle.std.specs.Prelude.{◌≡◌, ◌≤◌, ◌↔◌, [], OnOk};
ghost use Rattle.station.specs.History.{EachImage};
ghost use Rattle.station.specs.Failures.{CountsFailure};
ghost use Rattle.file_recovery.specs.Recovered.{HoldsFiles};

use alternate_keys::format;
use station::{Device, DeviceError};

/// Makes a volume of the device's size without files. What the device held before is gone.
pub fn format_volume<D: Device>(device: &mut D) -> Result<(), DeviceError>
    requires least { 1024 ≤ D.sectors device.old }
    requires most { D.sectors device.old ≤ 921600 }
    ensures honest { D.is_honest device.old ↔ D.is_honest device.new }
    ensures sectors { D.sectors device.new ≡ D.sectors device.old }
    ensures failures { CountsFailure result (D.failures device.old) (D.failures device.new) }

    // After `Ok` a crash leaves no files.
    ensures empty { D.is_honest device.old → OnOk result
        (EachImage (λ image. HoldsFiles image []) (D.state device.new)) }
{
    format(device)
}
