//! File statements that a person is told of.

/// A file statement that a run executed.
#[derive(Clone, Copy)]
pub struct TracedStatement<'a> {
    /// The line of the source in which it begins, from 1.
    pub line: u32,
    /// Its verb, and the mode of an OPEN.
    pub verb: &'a str,
    /// The file's name on the volume.
    pub file: &'a [u8],
    /// The value of FILE STATUS after it.
    pub status: [u8; 2],
}
