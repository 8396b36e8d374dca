//! What becomes of a copy.
ghost use Rattle.std.specs.Prelude.{◌≡◌};

/// What became of a copy.
#[derive(Clone, Copy, PartialEq, Eq)]
pub enum VolumeCopy {
    /// The new volume holds the same files.
    Done,
    /// It was read back, and it isn't known to hold the same files.
    Different,
}

/// The new device, and what became of the copy.
#[derive(Drop)]
pub struct Copied<E, F> {
    pub device: E,
    pub copy: Result<VolumeCopy, F>,
}
