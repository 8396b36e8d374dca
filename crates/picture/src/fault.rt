//! Why a text is refused.

ghost use Rattle.std.specs.Prelude.{◌≡◌};
ghost use Rattle.picture.specs.Faults as spec;

use std::alloc::{AllocError, AllocFailed};
use thiserror::Error;

/// What is wrong with a picture.
#[derive(Clone, Copy, Debug, PartialEq, Eq)]
pub enum PictureFault {
    /// The text has no form.
    NoForm,
}

impl PictureFault {
    /// The number that the product prints.
    pub fn number(self) -> u8
        ensures { result ≡ spec.number_of self }
    {
        match self {
            PictureFault::NoForm => 20,
        }
    }
}

/// Why no picture was answered.
#[derive(Clone, Copy, Debug, PartialEq, Eq, Error)]
pub enum PictureError {
    #[error("out of memory")]
    Memory,
    #[error("this is no picture")]
    Refused(PictureFault),
}

impl From<AllocError> for PictureError {
    ghost use Rattle.std.specs.Prelude.{◌≡◌};
    ghost use Rattle.picture.specs.declared.fault.PictureError.TheVariants.{Memory};

    ghost from_gives = { λ _ e. e ≡ Memory };

    fn from(_: AllocError) -> PictureError {
        PictureError::Memory
    }
}

impl<T: Drop> From<AllocFailed<T>> for PictureError {
    ghost use Rattle.std.specs.Prelude.{◌≡◌};
    ghost use Rattle.picture.specs.declared.fault.PictureError.TheVariants.{Memory};

    ghost from_gives = { λ _ e. e ≡ Memory };

    fn from(_: AllocFailed<T>) -> PictureError {
        PictureError::Memory
    }
}
