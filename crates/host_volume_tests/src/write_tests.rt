//! What a device wrote: when it reaches the file, and in which order.

use crate::asserted::{holds, same, value_of};
use crate::devices::{has_sectors_of, new_device, write_all};
use crate::host_files::{has_first_bytes, remove};
use station::Device;

/// What was written reaches the file by the next sync, each sector at its place, whether or not sectors are adjacent.
#[test]
fn writes_before_a_sync(rt: HostRuntime) {
    let mut device = new_device(&rt, "sync.V", 8);
    for (sectors, expected) in [
        (&[(2u32, 1u8), (3, 2), (4, 3)], [0, 0, 1, 2, 3, 0, 0, 0]),
        (&[(6, 4), (5, 5), (7, 6)], [0, 0, 1, 2, 3, 5, 4, 6]),
        (&[(0, 7), (2, 8), (3, 9)], [7, 0, 8, 9, 3, 5, 4, 6]),
        (&[(1, 1), (1, 2), (2, 3)], [7, 2, 3, 9, 3, 5, 4, 6]),
    ] {
        holds(&rt, write_all(&mut device, sectors));
        holds(&rt, device.sync().is_ok());
        has_first_bytes(&rt, "sync.V", &expected);
    }
    same(&rt, device.failures(), 0);
    remove(&rt, "sync.V");
}

/// A read gives what was written last, before any sync.
#[test]
fn reads_behind_writes(rt: HostRuntime) {
    let mut device = new_device(&rt, "read.V", 8);
    holds(&rt, write_all(&mut device, &[(2, 1), (3, 2), (4, 3)]));
    has_sectors_of(&rt, &mut device, &[(4, 3), (2, 1), (3, 2), (5, 0)]);
    remove(&rt, "read.V");
}

/// More adjacent sectors than are gathered reach the file in their order.
#[test]
fn many_adjacent_writes(rt: HostRuntime) {
    let mut device = new_device(&rt, "many.V", 200);
    let mut numbers = [0u8; 200];
    for sector in 0..200u8 {
        numbers[sector as usize] = sector;
        holds(&rt, write_all(&mut device, &[(sector as u32, sector)]));
    }
    holds(&rt, device.sync().is_ok());
    has_first_bytes(&rt, "many.V", &numbers);
    remove(&rt, "many.V");
}

/// The volume that a device gives back has what was written.
#[test]
fn volume_of_a_device_that_wrote(rt: HostRuntime) {
    let mut device = new_device(&rt, "given.V", 4);
    holds(&rt, write_all(&mut device, &[(2, 1), (3, 2)]));
    drop(value_of(&rt, device.into_volume()));
    has_first_bytes(&rt, "given.V", &[0, 0, 1, 2]);
    remove(&rt, "given.V");
}
