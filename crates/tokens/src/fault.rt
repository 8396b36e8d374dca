//! What is wrong with the characters of a source text.

ghost use Rattle.std.specs.Prelude.{◌≡◌};
ghost use Rattle.tokens.specs.Faults.{number_of};

use lexical::Place;
use std::alloc::{AllocError, AllocFailed};
use thiserror::Error;

#[derive(Clone, Copy, Debug, PartialEq, Eq)]
pub enum FaultKind {
    /// A character that begins no token.
    StrayCharacter,
    /// A word of more than 30 characters, or with a hyphen last.
    WrongWord,
    /// A numeric literal of more than 18 digits.
    WrongNumericLiteral,
    /// A nonnumeric literal that is empty, not closed, or has more than 160 characters.
    WrongNonnumericLiteral,
}

impl FaultKind {
    /// The number that the product prints.
    pub fn number(self) -> u8
        ensures { result ≡ number_of self }
    {
        match self {
            FaultKind::StrayCharacter => 15,
            FaultKind::WrongWord => 16,
            FaultKind::WrongNumericLiteral => 17,
            FaultKind::WrongNonnumericLiteral => 18,
        }
    }
}

/// A fault and where it stands.
#[derive(Clone, Copy, Debug, PartialEq, Eq)]
pub struct TokenFault {
    pub kind: FaultKind,
    pub place: Place,
}

/// Why characters make no tokens.
#[derive(Clone, Copy, Debug, PartialEq, Eq, Error)]
pub enum TokenError {
    #[error("out of memory")]
    Memory,
    #[error("the characters make no token")]
    Refused(TokenFault),
}

impl From<AllocError> for TokenError {
    ghost use Rattle.std.specs.Prelude.{◌≡◌};
    ghost use Rattle.tokens.specs.declared.fault.TokenError.TheVariants.{Memory};

    ghost from_gives = { λ _ e. e ≡ Memory };

    fn from(_: AllocError) -> TokenError {
        TokenError::Memory
    }
}

impl<T: Drop> From<AllocFailed<T>> for TokenError {
    ghost use Rattle.std.specs.Prelude.{◌≡◌};
    ghost use Rattle.tokens.specs.declared.fault.TokenError.TheVariants.{Memory};

    ghost from_gives = { λ _ e. e ≡ Memory };

    fn from(_: AllocFailed<T>) -> TokenError {
        TokenError::Memory
    }
}
