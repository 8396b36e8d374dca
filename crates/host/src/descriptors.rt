//! The numbers of standard input, output and error.

use std::rt::Files;
use std::{fs, io};

/// A file from which nothing is read, and which, opened for reading, can't be written to.
const NOTHING: &str = "/dev/null";

/// Holds the three standard numbers until the result is dropped. A host file takes the least number that is free. If one of the
/// three were closed, the next file would have its number, and what a program shows would be written into that file. Numbers that
/// are in use stay as they are. It fails if the host doesn't open `/dev/null`.
pub fn hold_descriptors<R: Files>(rt: &R) -> io::Result<[R::File; 3]> {
    Ok([
        fs::open(rt, NOTHING)?,
        fs::open(rt, NOTHING)?,
        fs::open(rt, NOTHING)?,
    ])
}
