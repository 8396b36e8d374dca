//! Devices over new volumes, and what they hold.

use crate::host_files::new_volume;
use host_volume::HostDevice;
use station::Device;
use std::fs::File;
use std::process::Abort;
use std::rt::Files;

/// A device over a new volume of so many sectors.
pub fn new_device<R: Files<File = File> + AllocGlobal + Abort>(
    rt: &R,
    path: &str,
    sectors: u32,
) -> HostDevice {
    HostDevice::new(rt.alloc(), new_volume(rt, path, sectors))
}

/// Writes each of these sectors, with a byte of its own.
pub fn write_all(device: &mut HostDevice, sectors: &[(u32, u8)]) -> bool {
    sectors.iter().all(|(sector, byte)| {
        *sector < device.count() && device.write(*sector, &[*byte; 4096]).is_ok()
    })
}

/// Asserts that a device has a sector of this byte, or that the sector cannot be read.
pub fn has_sector(rt: &impl Abort, device: &mut HostDevice, sector: u32, byte: Option<u8>) {
    let mut bytes = [0; 4096];
    assert!(rt; sector < device.count());
    let is_read = device.read(sector, &mut bytes).is_ok();
    assert!(rt; is_read == byte.is_some(), "{sector}");
    assert!(rt; bytes == [byte.unwrap_or(0); 4096], "{sector}");
}

/// Asserts that a device has sectors of these bytes.
pub fn has_sectors_of(rt: &impl Abort, device: &mut HostDevice, sectors: &[(u32, u8)]) {
    for (sector, byte) in sectors {
        has_sector(rt, device, *sector, Some(*byte));
    }
}
