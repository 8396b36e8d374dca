//! What is wrong with the tokens of a source text.

ghost use Rattle.std.specs.Prelude.{◌≡◌};
ghost use Rattle.std.specs.Option.{option_copied};
ghost use Rattle.divisions.specs.Faults as spec;
ghost use Rattle.divisions.specs.Faults.{number_of, placed_at, fault_at};

use grammar::Halt;
use lexical::Place;
use std::alloc::{AllocError, AllocFailed};
use thiserror::Error;
use tokens::Token;

#[derive(Clone, Copy, Debug, PartialEq, Eq)]
pub enum FaultKind {
    /// A picture has no form.
    PictureWithoutForm,
    /// No rule of the grammar reads the token.
    UnexpectedToken,
    /// Statements stand in one another more than 64 deep.
    NestedTooDeep,
}

impl FaultKind {
    /// The number that the product prints.
    pub fn number(self) -> u8
        ensures { result ≡ number_of self }
    {
        match self {
            FaultKind::PictureWithoutForm => 20,
            FaultKind::UnexpectedToken => 30,
            FaultKind::NestedTooDeep => 31,
        }
    }
}

/// A fault and where it stands: the picture, or the token at which reading stopped, the last one where none was left, and
/// line 1, column 1 where there is none at all.
#[derive(Clone, Copy, Debug, PartialEq, Eq)]
pub struct ParseFault {
    pub kind: FaultKind,
    pub place: Place,
}

/// Why tokens make no tree.
#[derive(Clone, Copy, Debug, PartialEq, Eq, Error)]
pub enum ParseError {
    #[error("out of memory")]
    Memory,
    #[error("the tokens make no program")]
    Refused(ParseFault),
}

impl From<AllocError> for ParseError {
    ghost use Rattle.std.specs.Prelude.{◌≡◌};
    ghost use Rattle.divisions.specs.declared.fault.ParseError.TheVariants.{Memory};

    ghost from_gives = { λ _ e. e ≡ Memory };

    fn from(_: AllocError) -> ParseError {
        ParseError::Memory
    }
}

impl<T: Drop> From<AllocFailed<T>> for ParseError {
    ghost use Rattle.std.specs.Prelude.{◌≡◌};
    ghost use Rattle.divisions.specs.declared.fault.ParseError.TheVariants.{Memory};

    ghost from_gives = { λ _ e. e ≡ Memory };

    fn from(_: AllocFailed<T>) -> ParseError {
        ParseError::Memory
    }
}

/// Where the token stands, or that place where there is none.
fn place_or(other: Place, token: Option<&Token>) -> Place
    ensures { result ≡ spec.place_or other (option_copied token.entry) }
{
    match token {
        Some(token) => token.place,
        None => other,
    }
}

/// Where the token stands from which on so many are left.
fn place_at(tokens: &[Token], left: usize) -> Place
    ensures { result ≡ placed_at tokens.now left }
{
    let last = place_or(Place { line: 1, column: 1 }, tokens.last());
    place_or(last, tokens.get(tokens.len().saturating_sub(left)))
}

/// The fault of these tokens where reading halts so.
pub fn refusal(tokens: &[Token], halt: Halt) -> ParseFault
    ensures { result ≡ fault_at tokens.now halt }
{
    match halt {
        Halt::Unexpected(left) => ParseFault {
            kind: FaultKind::UnexpectedToken,
            place: place_at(tokens, left),
        },
        Halt::TooDeep(left) => ParseFault {
            kind: FaultKind::NestedTooDeep,
            place: place_at(tokens, left),
        },
    }
}
