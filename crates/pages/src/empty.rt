//! A device is made a volume without pages.
ghost use Rattle.std.specs.Prelude.{◌≡◌, ◌≤◌, ◌↔◌, OnOk};
ghost use Rattle.station.specs.History.{EachImage};
ghost use Rattle.station.specs.State.{SameConsole};
ghost use Rattle.station.specs.Failures.{CountsFailure};
ghost use Rattle.pages.specs.Image.{IsImageOf, IsCommitted};
ghost use Rattle.pages.specs.Payload.{SpellsRoot};
ghost use Rattle.pages.specs.Empty.{empty_map, empty_volume};

use crate::payload::root_bytes_with;
use crate::root::map_count_of;
use crate::volume_mark::VolumeMark;
use station::{Device, DeviceError};

/// Writes zeros to sector 1 and the root of generation 0 to sector 0, and syncs. What the device held before is gone.
pub fn format<D: Device>(device: &mut D) -> Result<(), DeviceError>
    requires least { 1024 ≤ D.sectors device.old }
    requires most { D.sectors device.old ≤ 921600 }
    ensures honest { D.is_honest device.old ↔ D.is_honest device.new }
    ensures sectors { D.sectors device.new ≡ D.sectors device.old }
    ensures failures { CountsFailure result (D.failures device.old) (D.failures device.new) }

    // After `Ok` a crash leaves the empty map.
    ensures empty { D.is_honest device.old → OnOk result (EachImage
        (λ image. IsImageOf image (empty_map (D.sectors device.old))) (D.state device.new)) }
    ensures committed { D.is_honest device.old → OnOk result
        (IsCommitted (empty_volume (D.sectors device.old)) (D.state device.new).disk) }
{
    let root = empty_root(device.count());
    device.write(1, &[0; 4096])?;
    device.write(0, &root)?;
    device.sync()
}

/// The root sector of a volume without pages.
fn empty_root(sectors: u32) -> [u8; 4096]
    requires least { 1024 ≤ sectors }
    requires most { sectors ≤ 921600 }
    ensures { SpellsRoot (empty_volume sectors).root result }
{
    let maps = [0; 900];
    let maps = &maps[..map_count_of(sectors)];
    root_bytes_with(VolumeMark::Second, 0, sectors, 0, maps)
}
