//! Why a source text isn't compiled.

ghost use Rattle.std.specs.Prelude.{◌≡◌};
ghost use Rattle.compiler.specs.Faults.{number_of, place_of, from_lines, from_tokens, from_tree, from_rules};

use check_rules::CheckError;
use divisions::ParseError;
use lexical::Place;
use source_lines::SourceError;
use std::alloc::AllocError;
use thiserror::Error;
use tokens::TokenError;

/// A fault of a source text, by the stage that met it.
#[derive(Clone, Copy, Debug, PartialEq, Eq)]
pub enum CompileFault {
    /// 10 to 14.
    Lines(source_lines::SourceFault),
    /// 15 to 18.
    Tokens(tokens::TokenFault),
    /// 20, 30 and 31.
    Tree(divisions::ParseFault),
    /// 17, 18 and 40 to 69.
    Rules(check_rules::BrokenRule),
}

impl CompileFault {
    /// The number that the product prints.
    pub fn number(self) -> u8
        ensures { result ≡ number_of self }
    {
        match self {
            CompileFault::Lines(fault) => fault.kind.number(),
            CompileFault::Tokens(fault) => fault.kind.number(),
            CompileFault::Tree(fault) => fault.kind.number(),
            CompileFault::Rules(broken) => broken.rule.number(),
        }
    }

    /// Where it stands.
    pub fn place(self) -> Place
        ensures { result ≡ place_of self }
    {
        match self {
            CompileFault::Lines(fault) => fault.place,
            CompileFault::Tokens(fault) => fault.place,
            CompileFault::Tree(fault) => fault.place,
            CompileFault::Rules(broken) => broken.place,
        }
    }
}

/// Why there is no image of a source text.
#[derive(Clone, Copy, Debug, PartialEq, Eq, Error)]
pub enum CompileError {
    #[error("out of memory")]
    Memory,
    #[error("the source text has a fault")]
    Refused(CompileFault),
}

impl From<SourceError> for CompileError {
    ghost use Rattle.std.specs.Prelude.{◌≡◌};
    ghost use Rattle.compiler.specs.Faults.{from_lines};

    ghost from_gives = { λ fault e. e ≡ from_lines fault };

    fn from(fault: SourceError) -> CompileError {
        match fault {
            SourceError::Memory => CompileError::Memory,
            SourceError::Refused(fault) => CompileError::Refused(CompileFault::Lines(fault)),
        }
    }
}

impl From<TokenError> for CompileError {
    ghost use Rattle.std.specs.Prelude.{◌≡◌};
    ghost use Rattle.compiler.specs.Faults.{from_tokens};

    ghost from_gives = { λ fault e. e ≡ from_tokens fault };

    fn from(fault: TokenError) -> CompileError {
        match fault {
            TokenError::Memory => CompileError::Memory,
            TokenError::Refused(fault) => CompileError::Refused(CompileFault::Tokens(fault)),
        }
    }
}

impl From<ParseError> for CompileError {
    ghost use Rattle.std.specs.Prelude.{◌≡◌};
    ghost use Rattle.compiler.specs.Faults.{from_tree};

    ghost from_gives = { λ fault e. e ≡ from_tree fault };

    fn from(fault: ParseError) -> CompileError {
        match fault {
            ParseError::Memory => CompileError::Memory,
            ParseError::Refused(fault) => CompileError::Refused(CompileFault::Tree(fault)),
        }
    }
}

impl From<CheckError> for CompileError {
    ghost use Rattle.std.specs.Prelude.{◌≡◌};
    ghost use Rattle.compiler.specs.Faults.{from_rules};

    ghost from_gives = { λ fault e. e ≡ from_rules fault };

    fn from(fault: CheckError) -> CompileError {
        match fault {
            CheckError::Memory => CompileError::Memory,
            CheckError::Refused(broken) => CompileError::Refused(CompileFault::Rules(broken)),
        }
    }
}

impl From<AllocError> for CompileError {
    ghost use Rattle.std.specs.Prelude.{◌≡◌};
    ghost use Rattle.compiler.specs.declared.fault.CompileError.TheVariants.{Memory};

    ghost from_gives = { λ _ e. e ≡ Memory };

    fn from(_: AllocError) -> CompileError {
        CompileError::Memory
    }
}
