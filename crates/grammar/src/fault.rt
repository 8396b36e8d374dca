//! Why reading stops.

use std::alloc::{AllocError, AllocFailed};
use thiserror::Error;

/// Where reading stopped, by the number of tokens from there on.
#[derive(Clone, Copy, Debug)]
pub enum Halt {
    /// No rule reads the next token.
    Unexpected(usize),
    /// The statement that begins here nests too deep.
    TooDeep(usize),
}

/// Why nothing was read.
#[derive(Clone, Copy, Debug, Error)]
pub enum ReadFault {
    #[error("out of memory")]
    Memory,
    #[error("no rule reads the tokens")]
    Halted(Halt),
}

impl From<AllocError> for ReadFault {
    ghost use Rattle.std.specs.Prelude.{◌≡◌};
    ghost use Rattle.grammar.specs.declared.fault.ReadFault.TheVariants.{Memory};

    ghost from_gives = { λ _ e. e ≡ Memory };

    fn from(_: AllocError) -> ReadFault {
        ReadFault::Memory
    }
}

impl<T: Drop> From<AllocFailed<T>> for ReadFault {
    ghost use Rattle.std.specs.Prelude.{◌≡◌};
    ghost use Rattle.grammar.specs.declared.fault.ReadFault.TheVariants.{Memory};

    ghost from_gives = { λ _ e. e ≡ Memory };

    fn from(_: AllocFailed<T>) -> ReadFault {
        ReadFault::Memory
    }
}
