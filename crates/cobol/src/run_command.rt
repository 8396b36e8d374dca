//! `run IMAGE VOLUME [--budget N] [--date YYMMDD | --today] [--trace-files]`.

ghost use Rattle.std.specs.Prelude.{All, IfOk};
ghost use Rattle.machine.specs.Ends.{IsDigit};

use crate::verdict::Verdict;
use command_words::RunRequest;
use host::{HostStation, read_image, today};
use host_volume::{Access, HostDevice, HostVolume};
use run_unit::run_volume;
use station::Device;
use std::alloc::Global;
use std::env::Env;
use std::fs::File;
use std::io::{BufRead, Write};
use std::rt::Files;
use std::time::Clock;

/// Runs an image over a volume. Both host files are opened before the image is examined. If it is asked for, each file statement is
/// printed to `err`.
pub fn run<R, C, O, E>(rt: &R, request: RunRequest, console: C, out: O, err: &mut E) -> Verdict
where
    R: Files<File = File> + AllocGlobal + Clock + Env + Clone + Drop,
    C: BufRead + Drop,
    O: Write + Drop,
    E: Write,
    requires { All IsDigit request.day }
{
    let day = match day_of_run(rt, &request) {
        Ok(day) => day,
        Err(verdict) => return verdict,
    };
    let image = match read_image(rt, request.image) {
        Ok(image) => image,
        Err(error) => return Verdict::refusing_host_file(error),
    };
    let volume = match HostVolume::open(rt, request.volume, Access::ReadWrite) {
        Ok(volume) => HostDevice::new(rt.alloc(), volume),
        Err(error) => return Verdict::refusing_host_file(error),
    };
    let trace = request.is_traced.then_some(err);
    match HostStation::new(rt.alloc(), console, out, trace, volume) {
        Ok(station) => run_on(rt.alloc(), image.as_slice(), station, day, request.budget),
        Err(_) => Verdict::memory(),
    }
}

/// The date that the program receives.
fn day_of_run<R>(rt: &R, request: &RunRequest) -> Result<[u8; 6], Verdict>
where
    R: Files<File = File> + AllocGlobal + Clock + Env + Clone + Drop,
    requires { All IsDigit request.now.day }
    ensures { IfOk result (λ day. All IsDigit day) }
{
    if request.is_today {
        return today(rt).map_err(|_| Verdict::device());
    }
    Ok(request.day)
}

/// Runs an image over a station, and flushes what it shows.
pub fn run_on<C, O, E, D>(
    alloc: Global,
    image: &[u8],
    mut station: HostStation<C, O, E, D>,
    day: [u8; 6],
    budget: u64,
) -> Verdict
where
    C: BufRead + Drop,
    O: Write + Drop,
    E: Write + Drop,
    D: Device + Drop,
    requires { All IsDigit day }
{
    let ended = run_volume(alloc, image, &mut station, day, budget);
    Verdict::after(ended, station.flush())
}
