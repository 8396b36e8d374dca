//! `load VOLUME NAME`.

use crate::unknown_name::refuse_name;
use crate::verdict::Verdict;
use crate::watched::Watched;
use host::{Progress, Reasons};
use host_volume::{Access, HostDevice, HostVolume};
use std::alloc::Global;
use std::fs::File;
use std::io;
use std::io::{Read, Write};
use std::rt::Files;
use std::time::Clock;
use volume_copies::{LineFault, Load, LoadEnd, load_volume};

/// Makes each line of a text a row of the file of this name, prints how many are rows now, and says which line was refused.
pub fn load<R, C, O, E>(
    rt: &R,
    path: &str,
    name: &str,
    lines: C,
    out: &mut O,
    err: &mut E,
) -> Verdict
where
    R: Files<File = File> + AllocGlobal + Clock,
    C: Read + Drop,
    O: Write,
    E: Reasons,
{
    let mut device = match HostVolume::open(rt, path, Access::ReadWrite) {
        Ok(volume) => HostDevice::new(rt.alloc(), volume),
        Err(error) => return Verdict::refusing_host_file(error),
    };
    match read_text(rt.alloc(), lines) {
        Ok(text) => load_text(rt, &mut device, name, &text, out, err),
        Err(error) => Verdict::refusing_device(error),
    }
}

/// All that a reader gives.
fn read_text<C: Read + Drop>(alloc: Global, mut lines: C) -> io::Result<Vec<u8>> {
    let mut text = Vec::new(alloc);
    lines.read_to_end(&mut text)?;
    Ok(text)
}

/// Makes the lines of a text rows of a file in the volume of a device.
fn load_text<R, O, E>(
    rt: &R,
    device: &mut HostDevice,
    name: &str,
    text: &[u8],
    out: &mut O,
    err: &mut E,
) -> Verdict
where
    R: AllocGlobal + Clock,
    O: Write,
    E: Reasons,
{
    let mut watched = Watched {
        rt,
        progress: Progress::new(rt, &*err, 100),
        err,
    };
    let load = load_volume(rt.alloc(), device, name.as_bytes(), text, &mut watched);
    watched.end();
    if load.end == LoadEnd::UnknownName {
        return refuse_name(rt.alloc(), name, err);
    }
    if writeln!(out, "rows {}", load.rows).is_err() || out.flush().is_err() {
        return Verdict::device();
    }
    verdict_after(load, err)
}

/// Says which line was refused, and why.
fn verdict_after<E: Write>(load: Load, err: &mut E) -> Verdict {
    let line = load.rows.saturating_add(1);
    match load.end {
        LoadEnd::Done => Verdict::Done,
        LoadEnd::UnknownName => Verdict::WrongCommand,
        LoadEnd::Malformed(fault) => {
            let _ = writeln!(err, "error: line {line}: {}", reason_of(fault));
            Verdict::Reported
        }
        LoadEnd::Rejected(status) => {
            let bytes = status.bytes();
            let _ = write!(err, "error: line {line}: FILE STATUS ");
            let _ = err.write_all(&bytes);
            let _ = err.write_all(b"\n");
            Verdict::Reported
        }
        LoadEnd::Refused(fault) => Verdict::Refused(fault.number()),
    }
}

/// Why a line is no record.
fn reason_of(fault: LineFault) -> &'static str {
    match fault {
        LineFault::Escape =>
            "a backslash is neither doubled nor followed by x and two hexadecimal digits",
        LineFault::Control => "a byte below hexadecimal 20, or 7f, is not written as an escape",
        LineFault::Long => "the line is longer than a record",
    }
}
