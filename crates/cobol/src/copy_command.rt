//! `copy OLD NEW SECTORS`.

ghost use Rattle.std.specs.Prelude.{◌≤◌};

use crate::verdict::Verdict;
use crate::watched::Watched;
use host::{Progress, Reasons};
use host_volume::{Access, HostDevice, HostVolume, NewVolume, Replacement};
use std::fs::File;
use std::rt::Files;
use std::time::Clock;
use volume_copies::{Copied, VolumeCopy, copy_volume};

/// Makes a volume of so many sectors at the path `new`, with the files of the volume at the path `old`. It has that path only once it is
/// whole. Until then, and after a refusal, what was there stays.
pub fn copy<R, E>(rt: &R, old: &str, new: &str, sectors: u32, err: &mut E) -> Verdict
where
    R: Files<File = File> + AllocGlobal + Clock,
    E: Reasons,
    requires least { 1024 ≤ sectors }
    requires most { sectors ≤ 921600 }
{
    let mut old = match HostVolume::open(rt, old, Access::Read) {
        Ok(volume) => HostDevice::new(rt.alloc(), volume),
        Err(error) => return Verdict::refusing_host_file(error),
    };
    let replacement = match Replacement::open(rt, new) {
        Ok(replacement) => replacement,
        Err(error) => return Verdict::refusing_host_file(error),
    };
    let begun = match replacement.begin(rt) {
        Ok(begun) => begun,
        Err(error) => return Verdict::refusing_host_file(error),
    };
    match copy_into(rt, &mut old, begun, sectors, err) {
        Ok(volume) => end(rt, replacement, volume),
        Err(verdict) => {
            replacement.give_up(rt);
            verdict
        }
    }
}

/// Fills a new volume, and copies the files of a device into it.
fn copy_into<R, E>(
    rt: &R,
    old: &mut HostDevice,
    new: NewVolume,
    sectors: u32,
    err: &mut E,
) -> Result<HostVolume, Verdict>
where
    R: Files<File = File> + AllocGlobal + Clock,
    E: Reasons,
    requires least { 1024 ≤ sectors }
    requires most { sectors ≤ 921600 }
{
    let volume = new
        .fill(rt.alloc(), sectors, |_| {})
        .map_err(Verdict::refusing_device)?;
    let device = HostDevice::with_roots_last(rt.alloc(), volume);
    let mut watched = Watched {
        rt,
        progress: Progress::new(rt, &*err, 100),
        err,
    };
    let Copied { device, copy } = copy_volume(rt.alloc(), old, device, &mut watched);
    watched.end();
    match copy {
        Ok(VolumeCopy::Done) => device.into_volume().map_err(|_| Verdict::device()),
        Ok(VolumeCopy::Different) => Err(Verdict::device()),
        Err(error) => Err(Verdict::refusing_copy(error)),
    }
}

/// Gives a whole volume its path.
fn end<R>(rt: &R, replacement: Replacement, volume: HostVolume) -> Verdict
where
    R: Files<File = File> + AllocGlobal,
{
    match replacement.end(rt, volume) {
        Ok(()) => Verdict::Done,
        Err(error) => Verdict::refusing_device(error),
    }
}
