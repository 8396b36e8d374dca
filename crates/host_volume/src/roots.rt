//! The two roots of a volume, written again.

ghost use Rattle.std.specs.Prelude.{◌≡◌, ◌<◌, OnOk, IsErr};
ghost use Rattle.station.specs.Calls.{OnlyWrites};
ghost use Rattle.station.specs.State.{state_after_sync};
ghost use Rattle.host_volume.specs.Roots.{state_after_rewrite, roots_rewritten};

use station::{Device, DeviceError};

/// Syncs what the host has of a device, and then writes its roots again.
pub(crate) fn sync_and_rewrite_roots<D: Device>(device: &mut D) -> Result<(), DeviceError>
    ensures only { OnlyWrites D.Device (IsErr result) device.old device.new }
    ensures state { D.is_honest device.old → OnOk result (D.state device.new
        ≡ roots_rewritten (D.sectors device.old) (state_after_sync (D.state device.old))) }
{
    device.sync()?;
    rewrite_roots(device)
}

/// Reads each root, writes the same bytes back and syncs them. A root that only the cache of the host has is on the disk then.
pub fn rewrite_roots<D: Device>(device: &mut D) -> Result<(), DeviceError>
    ensures only { OnlyWrites D.Device (IsErr result) device.old device.new }
    ensures state { D.is_honest device.old →
        OnOk result
        (D.state device.new ≡ roots_rewritten (D.sectors device.old) (D.state device.old)) }
{
    let sectors = device.count();
    if sectors > 0 {
        rewrite(device, 0)?;
    }
    if sectors > 1 {
        rewrite(device, 1)?;
    }
    Ok(())
}

/// Reads a sector, writes the same bytes back and syncs them.
fn rewrite<D: Device>(device: &mut D, sector: u32) -> Result<(), DeviceError>
    requires { sector < D.sectors device.old }
    ensures only { OnlyWrites D.Device (IsErr result) device.old device.new }
    ensures state { D.is_honest device.old →
        OnOk result (D.state device.new ≡ state_after_rewrite (D.state device.old) sector) }
{
    let mut bytes = [0; 4096];
    device.read(sector, &mut bytes)?;
    device.write(sector, &bytes)?;
    device.sync() // The disk has the root from here on.
}
