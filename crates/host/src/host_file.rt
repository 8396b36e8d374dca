//! Sources and images as host files.

use std::io::{Read, Write};
use std::rt::Files;
use std::{fs, io};

/// One byte more than a source may have. A longer source is refused without reading the rest.
const MOST_READ: u64 = 8_000_001;
/// What an image begins with: one without and one with parts of items.
const MARKS: [[u8; 8]; 2] = [*b"COBIMG01", *b"COBIMG02"];

/// The bytes of a source file, or the first 8,000,001 of them if it is too large. It fails if the host doesn't open or read the
/// file, or if memory runs out (`OutOfMemory`).
pub fn read_source<R: Files + AllocGlobal>(rt: &R, path: &str) -> io::Result<Vec<u8>> {
    let mut bytes = Vec::new(rt.alloc());
    let file = fs::open(rt, path)?;
    file.take(MOST_READ).read_to_end(&mut bytes)?;
    Ok(bytes)
}

/// The bytes of an image file, or the first eight if they are no mark of an image. It fails if the host doesn't open or read the
/// file, or if memory runs out (`OutOfMemory`).
pub fn read_image<R: Files + AllocGlobal>(rt: &R, path: &str) -> io::Result<Vec<u8>> {
    let mut bytes = Vec::new(rt.alloc());
    let mut file = fs::open(rt, path)?;
    Read::by_ref(&mut file)
        .take(MARKS[0].len() as u64)
        .read_to_end(&mut bytes)?;
    if MARKS.iter().any(|mark| bytes.as_slice() == mark.as_slice()) {
        file.read_to_end(&mut bytes)?;
    }
    Ok(bytes)
}

/// Writes the bytes of an image to a host file, in place of what it holds. It fails if the host doesn't open or write the file;
/// then the file may have a beginning of the image.
pub fn write_image<R: Files>(rt: &R, path: &str, image: &[u8]) -> io::Result<()> {
    let mut file = fs::create(rt, path)?;
    file.write_all(image)?;
    file.flush()
}
