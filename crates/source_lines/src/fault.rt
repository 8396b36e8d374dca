//! What is wrong with a source text before any token is read.

use lexical::Place;
use std::alloc::{AllocError, AllocFailed};
use thiserror::Error;

#[derive(Clone, Copy, Debug, PartialEq, Eq)]
pub enum FaultKind {
    /// A byte outside hexadecimal 20 to 7e where one is tested.
    ByteOutsideCharacterSet,
    /// Column 7 holds no indicator of the reference format.
    UnknownIndicator,
    /// A continuation that continues nothing, is blank, or doesn't begin with the literal's mark in area B.
    WrongContinuation,
    /// More than 8,000,000 bytes.
    SourceTooLarge,
    /// A nonnumeric literal that isn't closed and isn't continued.
    UnclosedLiteral,
}

impl FaultKind {
    ghost use Rattle.std.specs.Prelude.{◌≡◌};
    ghost use Rattle.source_lines.specs.Faults.{number_of};

    /// The number that the product prints.
    pub fn number(self) -> u8
        ensures { result ≡ number_of self }
    {
        match self {
            FaultKind::ByteOutsideCharacterSet => 10,
            FaultKind::UnknownIndicator => 11,
            FaultKind::WrongContinuation => 12,
            FaultKind::SourceTooLarge => 13,
            FaultKind::UnclosedLiteral => 14,
        }
    }
}

/// A fault and where it stands.
#[derive(Clone, Copy, Debug, PartialEq, Eq)]
pub struct SourceFault {
    pub kind: FaultKind,
    pub place: Place,
}

/// Why a source text has no lines.
#[derive(Clone, Copy, Debug, PartialEq, Eq, Error)]
pub enum SourceError {
    #[error("out of memory")]
    Memory,
    #[error("the source text breaks the reference format")]
    Refused(SourceFault),
}

impl From<AllocError> for SourceError {
    ghost use Rattle.std.specs.Prelude.{◌≡◌};
    ghost use Rattle.source_lines.specs.declared.fault.SourceError.TheVariants.{Memory};

    ghost from_gives = { λ _ e. e ≡ Memory };

    fn from(_: AllocError) -> SourceError {
        SourceError::Memory
    }
}

impl<T: Drop> From<AllocFailed<T>> for SourceError {
    ghost use Rattle.std.specs.Prelude.{◌≡◌};
    ghost use Rattle.source_lines.specs.declared.fault.SourceError.TheVariants.{Memory};

    ghost from_gives = { λ _ e. e ≡ Memory };

    fn from(_: AllocFailed<T>) -> SourceError {
        SourceError::Memory
    }
}
