//! Why a volume wasn't copied.
ghost use Rattle.std.specs.Prelude.{◌≡◌};
ghost use Rattle.volume_copies.specs.Copied.{number_of};

use records::StoreFault;
use thiserror::Error;

/// Why a volume wasn't copied.
#[derive(Clone, Copy, Debug, PartialEq, Eq, Error)]
pub enum CopyError {
    /// The old volume can't be read.
    #[error("the old volume can't be read")]
    Old(StoreFault),
    /// The new volume can't be made.
    #[error("the new volume can't be made")]
    New(StoreFault),
}

impl CopyError {
    /// The number that the product prints.
    pub fn number(self) -> u8
        ensures { result ≡ number_of self }
    {
        match self {
            CopyError::Old(fault) => fault.number(),
            CopyError::New(fault) => fault.number(),
        }
    }
}
