//! Why a call on the pages is refused.
ghost use Rattle.std.specs.Prelude.{◌≡◌};
ghost use Rattle.pages.specs.Errors.{number_of};

use roots::{RootsError, RootsFault};
use station::DeviceError;
use std::alloc::{AllocError, AllocFailed};
use thiserror::Error;

/// Its number is what the product prints.
#[derive(Clone, Copy, Debug, PartialEq, Eq, Error)]
pub enum PagesError {
    /// 80: the device failed.
    #[error("the device failed")]
    Device,
    /// 81: no sector, page number or generation is left.
    #[error("the volume is full")]
    Full,
    /// 82: the volume holds no map.
    #[error("the volume is damaged")]
    Damaged,
    /// 83: memory ran out.
    #[error("out of memory")]
    Memory,
    /// 84: a commit was refused before. The volume has to be opened again.
    #[error("a commit was refused before")]
    Spent,
    /// 86: the volume has another format.
    #[error("the volume has another format")]
    ForeignMark,
}

impl PagesError {
    /// The number by which a refusal is told.
    pub fn number(self) -> u8
        ensures { result ≡ number_of self }
    {
        match self {
            PagesError::Device => 80,
            PagesError::Full => 81,
            PagesError::Damaged => 82,
            PagesError::Memory => 83,
            PagesError::Spent => 84,
            PagesError::ForeignMark => 86,
        }
    }
}

impl From<DeviceError> for PagesError {
    ghost use Rattle.std.specs.Prelude.{◌≡◌};
    ghost use Rattle.pages.specs.declared.error.PagesError.TheVariants.{Device};

    ghost from_gives = { λ _ e. e ≡ Device };

    fn from(_: DeviceError) -> PagesError {
        PagesError::Device
    }
}

impl From<AllocError> for PagesError {
    ghost use Rattle.std.specs.Prelude.{◌≡◌};
    ghost use Rattle.pages.specs.declared.error.PagesError.TheVariants.{Memory};

    ghost from_gives = { λ _ e. e ≡ Memory };

    fn from(_: AllocError) -> PagesError {
        PagesError::Memory
    }
}

impl<T: Drop> From<AllocFailed<T>> for PagesError {
    ghost use Rattle.std.specs.Prelude.{◌≡◌};
    ghost use Rattle.pages.specs.declared.error.PagesError.TheVariants.{Memory};

    ghost from_gives = { λ _ e. e ≡ Memory };

    fn from(_: AllocFailed<T>) -> PagesError {
        PagesError::Memory
    }
}

impl From<RootsError> for PagesError {
    ghost use Rattle.std.specs.Prelude.{◌≡◌};
    ghost use Rattle.pages.specs.Errors.{of_roots};

    ghost from_gives = { λ error e. e ≡ of_roots error };

    fn from(error: RootsError) -> PagesError {
        match error {
            RootsError::Device => PagesError::Device,
            RootsError::Roots(RootsFault::Damaged) => PagesError::Damaged,
            RootsError::Roots(RootsFault::ForeignMark) => PagesError::ForeignMark,
        }
    }
}
