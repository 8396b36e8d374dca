//! `format VOLUME SECTORS`.

ghost use Rattle.std.specs.Prelude.{◌≤◌};

use crate::verdict::Verdict;
use host::{Progress, Reasons};
use host_volume::{HostDevice, NewVolume};
use std::fs::File;
use std::rt::Files;
use std::time::Clock;
use volume_commands::format_volume;

/// Makes a volume of so many sectors at this path, without files.
pub fn format<R, E>(rt: &R, path: &str, sectors: u32, err: &mut E) -> Verdict
where
    R: Files<File = File> + AllocGlobal + Clock,
    E: Reasons,
    requires least { 1024 ≤ sectors }
    requires most { sectors ≤ 921600 }
{
    let new = match NewVolume::open(rt, path) {
        Ok(new) => new,
        Err(error) => return Verdict::refusing_host_file(error),
    };
    let mut progress = Progress::new(rt, &*err, sectors);
    let filled = new.fill(rt.alloc(), sectors, |written| {
        progress.report(rt, err, written);
    });
    progress.end(err);
    let volume = match filled {
        Ok(volume) => volume,
        Err(error) => return Verdict::refusing_device(error),
    };
    match format_volume(&mut HostDevice::new(rt.alloc(), volume)) {
        Ok(()) => Verdict::Done,
        Err(_) => Verdict::device(),
    }
}
