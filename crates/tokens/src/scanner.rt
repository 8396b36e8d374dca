//! The tokens of a source text.

ghost use Rattle.std.specs.Prelude.{◌≡◌, ◌++◌, Ok};
ghost use Rattle.answers.specs.Answer.{Gives};
ghost use Rattle.tokens.specs.Faults.{fault_of};
ghost use Rattle.tokens.specs.Scanning as spec;

use crate::context::Context;
use crate::fault::TokenError;
use crate::lexeme::{Lexeme, next_lexeme};
use crate::token::{Kind, Span, Token};
use lexical::Place;
use source_lines::Lines;
use sqlite_items::Items;
use std::alloc::Global;

/// The tokens of a source text, in order.
#[tactic(auto, unfolding(crate::specs::Scanning::tokens))]
pub fn scan(alloc: Global, lines: &Lines) -> Result<Items<Token>, TokenError>
    ensures { Gives (λ tokens. tokens) fault_of result (spec.tokens lines.now) }
{
    let mut tokens = Items::new(alloc);
    let mut before = Context::Apart;
    let mut start = 0;
    let mut rest = lines.characters();
    while let [first, more @ ..] = rest {
        let Lexeme { kind, size } = next_lexeme(alloc, before, *first, rest, more)?;
        let end = start + size;
        before = before.after(kind.as_ref());
        add(&mut tokens, kind, Span { start, end }, first.place)?;
        rest = &rest[size..];
        start = end;
    }
    Ok(tokens)
}

/// Adds the token of this kind, if there is one.
fn add(
    tokens: &mut Items<Token>,
    kind: Option<Kind>,
    span: Span,
    place: Place,
) -> Result<(), TokenError>
    ensures { Gives (λ _. tokens.new) fault_of result
        (Ok (tokens.old ++ spec.token_of kind span place)) }
{
    match kind {
        Some(kind) => {
            tokens.push(Token { kind, span, place })?;
            Ok(())
        }
        None => Ok(()),
    }
}
