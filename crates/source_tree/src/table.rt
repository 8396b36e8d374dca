//! Tables.

/// One dimension of a table (COBOL-85, Nucleus, "The OCCURS clause").
#[derive(Clone, Copy, PartialEq, Eq)]
pub struct Dimension {
    /// Bytes from one occurrence to the next.
    pub stride: u32,
    pub count: u32,
}
