//! The mark of a volume of pages.
ghost use Rattle.std.specs.Prelude.{◌≡◌, ◌<◌};
ghost use Rattle.pages.specs.Layout.{version_of};

/// The mark of a volume of pages. It is in the first eight bytes of a root, and says what the catalog has.
#[derive(Clone, Copy, PartialEq, Eq)]
pub enum VolumeMark {
    /// `COBVOL01`.
    First,
    /// `COBVOL02`: the catalog has the number of rows of each file. A new volume has this mark.
    Second,
}

/// The marks of a volume of pages, in the order of their introduction.
pub const PAGE_MARKS: [[u8; 8]; 2] = [*b"COBVOL01", *b"COBVOL02"];

/// The marks of a volume of halves.
pub const HALF_MARKS: [[u8; 8]; 1] = [*b"COBHALF1"];

/// The mark with this index in the family of a volume of pages.
pub(crate) fn mark_at(version: usize) -> VolumeMark
    requires { version < 2 }
    ensures { version_of result ≡ version }
{
    if version == 0 {
        VolumeMark::First
    } else {
        VolumeMark::Second
    }
}
