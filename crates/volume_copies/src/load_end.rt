//! How far a text was loaded.
use records::{Status, StoreFault};

/// How many lines of a text are rows of a file, and why no more.
#[derive(Clone, Copy, PartialEq, Eq)]
pub struct Load {
    pub rows: u64,
    pub end: LoadEnd,
}

/// Why no more lines became rows.
#[derive(Clone, Copy, PartialEq, Eq)]
pub enum LoadEnd {
    /// There are no more.
    Done,
    /// The volume has no file of that name.
    UnknownName,
    /// The next line is no record of the file.
    Malformed(LineFault),
    /// The row of the next line was refused with this FILE STATUS.
    Rejected(Status),
    /// The device, the volume or memory refused something.
    Refused(StoreFault),
}

/// Why a line is no record.
#[derive(Clone, Copy, PartialEq, Eq)]
pub enum LineFault {
    /// A backslash is neither doubled nor followed by `x` and two hexadecimal digits.
    Escape,
    /// A byte below 20, or 7f, is written as itself.
    Control,
    /// A record has fewer bytes.
    Long,
}
