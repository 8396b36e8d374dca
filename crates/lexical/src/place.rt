//! Places in a source text.

/// A place in a source text: a line, and a column of the reference format (COBOL-85, Section IV, "Reference format").
/// Both count from 1.
#[derive(Clone, Copy, Debug, PartialEq, Eq)]
pub struct Place {
    pub line: u32,
    pub column: u8,
}
