//! A name that no file of a volume has.

use crate::verdict::Verdict;
use std::alloc::Global;
use std::io::Write;
use volume_commands::bytes_text;

/// Says that no file has this name, as `list` would print it.
pub fn refuse_name<E: Write>(alloc: Global, name: &str, err: &mut E) -> Verdict {
    let Ok(text) = bytes_text(alloc, name.as_bytes()) else {
        return Verdict::memory();
    };
    let _ = err.write_all(b"error: the volume has no file ");
    let _ = err.write_all(text.as_slice());
    let _ = err.write_all(b"\n");
    Verdict::WrongCommand
}
