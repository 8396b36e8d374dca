//! `layout SOURCE`.

use crate::command::show_bytes;
use crate::verdict::Verdict;
use host::read_source;
use source_commands::layout_of_source;
use std::io::Write;
use std::rt::Files;

/// Shows where the items of the source at a path are, and its files.
pub fn show_layout<R, O>(rt: &R, path: &str, out: &mut O) -> Verdict
where
    R: Files + AllocGlobal,
    O: Write,
{
    let source = match read_source(rt, path) {
        Ok(source) => source,
        Err(error) => return Verdict::refusing_host_file(error),
    };
    match layout_of_source(rt.alloc(), source.as_slice()) {
        Ok(text) => show_bytes(out, text.as_slice()),
        Err(fault) => Verdict::refusing(fault),
    }
}
