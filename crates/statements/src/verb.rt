//! The verbs that begin statements.

ghost use Rattle.std.specs.Prelude.{◌≡◌};
ghost use Rattle.statements.specs.Verbs as spec;

use grammar::Tokens;
use tokens::{Kind, Reserved};

/// A verb of an arithmetic statement.
#[derive(Clone, Copy)]
pub enum ArithmeticVerb {
    Add,
    Subtract,
    Multiply,
    Divide,
    Compute,
}

/// A verb of a file statement.
#[derive(Clone, Copy)]
pub enum FileVerb {
    Open,
    Close,
    Read,
    Write,
    Rewrite,
    Delete,
    Start,
}

/// A reserved word that is a verb.
#[derive(Clone, Copy)]
pub enum VerbWord {
    Accept,
    Arithmetic(ArithmeticVerb),
    Continue,
    Display,
    Evaluate,
    Exit,
    Filing(FileVerb),
    If,
    Initialize,
    Inspect,
    Move,
    Perform,
    Set,
    Stop,
    String,
}

/// The verb that a word is.
pub fn verb_of(word: Reserved) -> Option<VerbWord>
    ensures { result ≡ spec.verb_of word }
{
    match word {
        Reserved::Accept => Some(VerbWord::Accept),
        Reserved::Add => Some(VerbWord::Arithmetic(ArithmeticVerb::Add)),
        Reserved::Close => Some(VerbWord::Filing(FileVerb::Close)),
        Reserved::Compute => Some(VerbWord::Arithmetic(ArithmeticVerb::Compute)),
        Reserved::Continue => Some(VerbWord::Continue),
        Reserved::Delete => Some(VerbWord::Filing(FileVerb::Delete)),
        Reserved::Display => Some(VerbWord::Display),
        Reserved::Divide => Some(VerbWord::Arithmetic(ArithmeticVerb::Divide)),
        Reserved::Evaluate => Some(VerbWord::Evaluate),
        Reserved::Exit => Some(VerbWord::Exit),
        Reserved::If => Some(VerbWord::If),
        Reserved::Initialize => Some(VerbWord::Initialize),
        Reserved::Inspect => Some(VerbWord::Inspect),
        Reserved::Move => Some(VerbWord::Move),
        Reserved::Multiply => Some(VerbWord::Arithmetic(ArithmeticVerb::Multiply)),
        Reserved::Open => Some(VerbWord::Filing(FileVerb::Open)),
        Reserved::Perform => Some(VerbWord::Perform),
        Reserved::Read => Some(VerbWord::Filing(FileVerb::Read)),
        Reserved::Rewrite => Some(VerbWord::Filing(FileVerb::Rewrite)),
        Reserved::Set => Some(VerbWord::Set),
        Reserved::Start => Some(VerbWord::Filing(FileVerb::Start)),
        Reserved::Stop => Some(VerbWord::Stop),
        Reserved::String => Some(VerbWord::String),
        Reserved::Subtract => Some(VerbWord::Arithmetic(ArithmeticVerb::Subtract)),
        Reserved::Write => Some(VerbWord::Filing(FileVerb::Write)),
        _ => None,
    }
}

/// The verb that comes next.
pub fn verb_at(tokens: &Tokens<'_>) -> Option<VerbWord>
    ensures { result ≡ spec.verb_at tokens.now }
{
    match tokens.rest() {
        [next, ..] => match next.kind {
            Kind::Reserved(word) => verb_of(word),
            _ => None,
        },
        [] => None,
    }
}

/// The next token begins a statement: it is a verb.
pub fn begins_statement(tokens: &Tokens<'_>) -> bool
    ensures { result ≡ spec.begins_statement tokens.now }
{
    verb_at(tokens).is_some()
}
