//! Words.

ghost use Rattle.std.specs.Prelude.{◌≡◌};
ghost use Rattle.answers.specs.Answer.{Gives};
ghost use Rattle.tokens.specs.Faults.{fault_of};
ghost use Rattle.tokens.specs.Words as spec;

use crate::character::{Class, bytes_in_upper_case, ends, run};
use crate::fault::{FaultKind, TokenError, TokenFault};
use crate::lexeme::{Lexeme, token};
use crate::spelling::reserved;
use crate::token::Kind;
use lexical::Place;
use source_lines::Character;
use sqlite_items::Items;
use std::alloc::Global;

const MAX_WORD: usize = 30;

pub fn refused(kind: FaultKind, place: Place) -> TokenError
    ensures { result ≡ TokenError.Refused (record { kind = kind; place = place }) }
{
    TokenError::Refused(TokenFault { kind, place })
}

/// The kind of a word in upper case.
#[tactic(auto, unfolding(crate::specs::Words::kind_of_word))]
fn kind_of_word(text: Vec<u8>) -> Kind
    ensures { result ≡ spec.kind_of_word text.items }
{
    match reserved(&text) {
        Some(word) => Kind::Reserved(word),
        None => Kind::Word(Items::from_vec(text)),
    }
}

/// The word that the run of letters, digits and hyphens at the front is.
#[tactic(auto, unfolding(crate::specs::Words::word))]
pub fn word(alloc: Global, place: Place, characters: &[Character]) -> Result<Lexeme, TokenError>
    ensures { Gives (λ lexeme. lexeme) fault_of result (spec.word place characters.now) }
{
    let size = run(Class::InWord, characters);
    let run = &characters[..size];
    if size > MAX_WORD || ends(Class::Hyphen, run) {
        return Err(refused(FaultKind::WrongWord, place));
    }
    let text = bytes_in_upper_case(alloc, run)?;
    Ok(token(kind_of_word(text), size))
}
