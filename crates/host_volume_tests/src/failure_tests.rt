//! Calls that the host refuses.

use crate::asserted::{holds, same};
use crate::devices::{has_sector, new_device, write_all};
use crate::host_files::{opened, remove, set_length};
use host_volume::{Access, HostDevice, HostVolume};
use station::Device;

/// Another process cuts the file while it is open. What is lost fails and is counted.
#[test]
fn file_that_loses_its_end(rt: HostRuntime) {
    let mut device = new_device(&rt, "end.V", 3);
    set_length(&rt, "end.V", 4097);
    has_sector(&rt, &mut device, 0, Some(0));
    has_sector(&rt, &mut device, 1, None);
    has_sector(&rt, &mut device, 2, None);
    same(&rt, device.failures(), 2);
    remove(&rt, "end.V");
}

/// A regular file that the host can't sync: an opening to write fails, and each sync.
#[test]
fn file_that_cannot_be_synced(rt: HostRuntime) {
    let path = "/proc/self/comm";
    holds(&rt, HostVolume::open(&rt, path, Access::ReadWrite).is_err());
    let volume = opened(&rt, path, Access::Read);
    holds(&rt, volume.sync().is_err());
    let mut device = HostDevice::new(rt.alloc(), volume);
    holds(&rt, device.sync().is_err());
    same(&rt, device.failures(), 1);
}

/// A device whose roots wait, over the same file: its syncs do nothing, and the one before the roots fails.
#[test]
fn sync_that_waits(rt: HostRuntime) {
    let volume = opened(&rt, "/proc/self/comm", Access::Read);
    let mut device = HostDevice::with_roots_last(rt.alloc(), volume);
    holds(&rt, device.sync().is_ok());
    same(&rt, device.failures(), 0);
    holds(&rt, device.into_volume().is_err());
}

/// A volume that is open to read refuses writes. The failure is answered at the latest by the sync, and by each call from then on.
#[test]
fn writes_that_the_host_refuses(rt: HostRuntime) {
    drop(new_device(&rt, "refused.V", 4));
    let volume = opened(&rt, "refused.V", Access::Read);
    let mut device = HostDevice::new(rt.alloc(), volume);
    let _ = write_all(&mut device, &[(2, 1)]);
    holds(&rt, device.sync().is_err());
    holds(&rt, device.sync().is_err());
    same(&rt, device.failures(), 2);
    has_sector(&rt, &mut device, 2, None);
    holds(&rt, !write_all(&mut device, &[(0, 1)]));
    same(&rt, device.failures(), 4);
    holds(&rt, device.into_volume().is_err());
    remove(&rt, "refused.V");
}
