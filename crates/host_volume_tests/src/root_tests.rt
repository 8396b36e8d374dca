//! Roots that wait, and roots that are written again.

use crate::asserted::{holds, same, value_of};
use crate::devices::{has_sectors_of, write_all};
use crate::host_files::{has_first_bytes, new_volume, remove};
use host_volume::{HostDevice, rewrite_roots};
use station::{Device, MemoryStation};
use std::alloc::{AllocError, Global};

/// Roots that wait: a read gives them, the file has zeros in their place, and gets them by `into_volume`.
#[test]
fn roots_that_wait(rt: HostRuntime) {
    let volume = new_volume(&rt, "wait.V", 4);
    let mut device = HostDevice::with_roots_last(rt.alloc(), volume);
    holds(
        &rt,
        write_all(&mut device, &[(1, 1), (0, 2), (2, 3), (1, 4), (3, 5)]),
    );
    holds(&rt, device.sync().is_ok());
    has_first_bytes(&rt, "wait.V", &[0, 0, 3, 5]);
    has_sectors_of(&rt, &mut device, &[(0, 2), (1, 4), (2, 3), (3, 5)]);
    drop(value_of(&rt, device.into_volume()));
    has_first_bytes(&rt, "wait.V", &[2, 4, 3, 5]);
    remove(&rt, "wait.V");
}

/// A device in memory of so many sectors, if there is memory for it.
fn possible_station(alloc: Global, sectors: u32) -> Result<MemoryStation, AllocError> {
    let content = vec![in alloc; [3; 4096]; sectors as usize]?;
    MemoryStation::new(alloc, content, Vec::new(alloc))
}

/// A device of so many sectors: how often it is read, written and synced while its roots are written again.
#[test]
fn roots_that_are_written_again(rt: HostRuntime) {
    for (sectors, expected) in [(0, 0), (1, 1), (2, 2), (5, 2)] {
        let mut station = value_of(&rt, possible_station(rt.alloc(), sectors));
        holds(&rt, rewrite_roots(&mut station).is_ok());
        let calls = (station.reads(), station.writes(), station.syncs());
        same(&rt, calls, (expected, expected, expected));
    }
}

/// Each of the six calls fails in turn.
#[test]
fn roots_that_are_not_written_again(rt: HostRuntime) {
    for n in 1..7 {
        let mut station = value_of(&rt, possible_station(rt.alloc(), 2));
        station.fail_at(n);
        same(&rt, (n, rewrite_roots(&mut station).is_err()), (n, true));
    }
}
