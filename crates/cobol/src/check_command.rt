//! `check SOURCE`.

use crate::command::show_bytes;
use crate::verdict::Verdict;
use host::read_source;
use source_commands::check_source;
use std::io::Write;
use std::rt::Files;

/// Compiles the source at a path, writes no image, and shows what is wrong.
pub fn check<R, O>(rt: &R, path: &str, out: &mut O) -> Verdict
where
    R: Files + AllocGlobal,
    O: Write,
{
    let source = match read_source(rt, path) {
        Ok(source) => source,
        Err(error) => return Verdict::refusing_host_file(error),
    };
    let Ok(report) = check_source(rt.alloc(), path.as_bytes(), source.as_slice()) else {
        return Verdict::memory();
    };
    match show_bytes(out, report.text.as_slice()) {
        Verdict::Done if report.fault.is_some() => Verdict::Reported,
        verdict => verdict,
    }
}
