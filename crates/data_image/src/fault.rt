//! What is wrong with an image, or with its code.

ghost use Rattle.std.specs.Prelude.{◌≡◌};
ghost use Rattle.data_image.specs.Faults.{number_of};

use std::alloc::{AllocError, AllocFailed};
use thiserror::Error;

#[derive(Clone, Copy, Debug, PartialEq, Eq, Error)]
pub enum ImageFault {
    #[error("the bytes don't begin with the mark of an image")]
    Mark,
    #[error("the bytes end too soon, or go on after the code")]
    Length,
    #[error("a value is out of range")]
    Value,
    #[error("an index is outside its table")]
    Index,
    #[error("the code has a shape that no program has")]
    Shape,
}

// The numbers that the product prints.
const MARK: u8 = 70;

const LENGTH: u8 = 71;

const VALUE: u8 = 72;

const INDEX: u8 = 73;

const SHAPE: u8 = 74;

impl ImageFault {
    /// The number that the product prints.
    pub fn number(self) -> u8
        ensures { result ≡ number_of self }
    {
        match self {
            ImageFault::Mark => MARK,
            ImageFault::Length => LENGTH,
            ImageFault::Value => VALUE,
            ImageFault::Index => INDEX,
            ImageFault::Shape => SHAPE,
        }
    }
}

/// Why bytes give no code, or no part of it.
#[derive(Clone, Copy, Debug, PartialEq, Eq, Error)]
pub enum ImageError {
    #[error("out of memory")]
    Memory,
    #[error("the bytes spell no code")]
    Refused(ImageFault),
}

impl From<AllocError> for ImageError {
    ghost use Rattle.std.specs.Prelude.{◌≡◌};
    ghost use Rattle.data_image.specs.declared.fault.ImageError.TheVariants.{Memory};

    ghost from_gives = { λ _ e. e ≡ Memory };

    fn from(_: AllocError) -> ImageError {
        ImageError::Memory
    }
}

impl<T: Drop> From<AllocFailed<T>> for ImageError {
    ghost use Rattle.std.specs.Prelude.{◌≡◌};
    ghost use Rattle.data_image.specs.declared.fault.ImageError.TheVariants.{Memory};

    ghost from_gives = { λ _ e. e ≡ Memory };

    fn from(_: AllocFailed<T>) -> ImageError {
        ImageError::Memory
    }
}
