//! `compile SOURCE IMAGE`.

use crate::verdict::Verdict;
use compiler::compile;
use host::{read_source, write_image};
use std::rt::Files;

/// Compiles the source at one path and writes its image to the other. The image is complete before its file is opened, so a
/// refused source leaves that file as it was.
pub fn compile_file<R: Files + AllocGlobal>(rt: &R, source: &str, image: &str) -> Verdict {
    match image_of(rt, source) {
        Ok(bytes) => match write_image(rt, image, bytes.as_slice()) {
            Ok(()) => Verdict::Done,
            Err(error) => Verdict::refusing_host_file(error),
        },
        Err(verdict) => verdict,
    }
}

/// The image of a source file.
fn image_of<R: Files + AllocGlobal>(rt: &R, source: &str) -> Result<Vec<u8>, Verdict> {
    let text = read_source(rt, source).map_err(Verdict::refusing_host_file)?;
    compile(rt.alloc(), text.as_slice()).map_err(Verdict::refusing)
}
