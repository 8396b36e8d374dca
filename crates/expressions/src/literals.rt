//! Literals and figurative constants.

ghost use Rattle.std.specs.Prelude.{◌≡◌};
ghost use Rattle.grammar.specs.Reading as read;
ghost use Rattle.grammar.specs.Parts.{is_told, begins_telling};
ghost use Rattle.grammar.specs.Reading.{Reads};
ghost use Rattle.expressions.specs.Literals as spec;

use grammar::{ReadFault, Tokens};
use source_tree::{Figurative, Literal, LiteralValue};
use sqlite_items::Items;
use std::alloc::Global;
use tokens::{Kind, Reserved, Token};

/// The next token begins a literal.
pub fn begins_literal(tokens: &Tokens<'_>) -> bool
    ensures { result ≡ spec.begins_literal tokens.now }
{
    match tokens.rest() {
        [next, ..] => tokens.at_word(Reserved::All) || is_plain(next),
        [] => false,
    }
}

/// A literal or a figurative constant.
#[tactic(auto, unfolding(crate::specs::Literals::literal_reader))]
pub fn literal(alloc: Global, tokens: &mut Tokens<'_>) -> Result<Literal, ReadFault>
    ensures { Reads (spec.literal_reader tokens.old) result tokens.new }
{
    if tokens.at_word(Reserved::All) {
        all_literal(alloc, tokens)
    } else {
        plain_literal(alloc, tokens)
    }
}

/// The next token is a numeric literal or ZERO.
pub fn begins_number(tokens: &Tokens<'_>) -> bool
    ensures { result ≡ begins_telling spec.number_literal_in tokens.now }
{
    match tokens.rest() {
        [next, ..] => match next.kind {
            Kind::Numeric(_) => true,
            Kind::Reserved(word) => is_zero(word),
            _ => false,
        },
        [] => false,
    }
}

/// A numeric literal or ZERO.
#[tactic(auto, unfolding(grammar::specs::Reading::one_token))]
pub fn number_literal(alloc: Global, tokens: &mut Tokens<'_>) -> Result<Literal, ReadFault>
    ensures { Reads (read.one_token spec.number_literal_in tokens.old) result tokens.new }
{
    let [next, rest @ ..] = tokens.rest() else {
        return Err(tokens.refuse());
    };
    let value = match &next.kind {
        Kind::Numeric(written) => LiteralValue::Numeric(written.copy(alloc)?),
        Kind::Reserved(word) => {
            if !is_zero(*word) {
                return Err(tokens.refuse());
            }
            LiteralValue::Figurative(Figurative::Zero)
        }
        _ => return Err(tokens.refuse()),
    };
    tokens.go_to(rest);
    Ok(Literal {
        value,
        place: next.place,
    })
}

/// The figurative constant that a word is.
fn figurative_of(word: Reserved) -> Option<Figurative>
    ensures { result ≡ spec.figurative_of word }
{
    match word {
        Reserved::Zero | Reserved::Zeros | Reserved::Zeroes => Some(Figurative::Zero),
        Reserved::Space | Reserved::Spaces => Some(Figurative::Space),
        Reserved::HighValue | Reserved::HighValues => Some(Figurative::HighValue),
        Reserved::LowValue | Reserved::LowValues => Some(Figurative::LowValue),
        Reserved::Quote | Reserved::Quotes => Some(Figurative::Quote),
        _ => None,
    }
}

/// The token is a literal of one token.
fn is_plain(token: &Token) -> bool
    ensures { result ≡ is_told (spec.plain_in token.now) }
{
    match &token.kind {
        Kind::Numeric(_) | Kind::Nonnumeric(_) => true,
        Kind::Reserved(word) => matches!(figurative_of(*word), Some(_)),
        _ => false,
    }
}

/// ALL and a nonnumeric literal.
#[tactic(auto, unfolding(crate::specs::Literals::all_literal_reader, grammar::specs::Reading::one_token))]
fn all_literal(alloc: Global, tokens: &mut Tokens<'_>) -> Result<Literal, ReadFault>
    ensures { Reads (spec.all_literal_reader tokens.old) result tokens.new }
{
    let place = tokens.here()?;
    tokens.expect(Reserved::All)?;
    let [next, rest @ ..] = tokens.rest() else {
        return Err(tokens.refuse());
    };
    match &next.kind {
        Kind::Nonnumeric(bytes) => {
            let value = LiteralValue::All(Items::from_slice(alloc, bytes.as_slice())?);
            tokens.go_to(rest);
            Ok(Literal { value, place })
        }
        _ => Err(tokens.refuse()),
    }
}

/// A literal of one token.
#[tactic(auto, unfolding(grammar::specs::Reading::one_token))]
fn plain_literal(alloc: Global, tokens: &mut Tokens<'_>) -> Result<Literal, ReadFault>
    ensures { Reads (read.one_token spec.plain_in tokens.old) result tokens.new }
{
    let [next, rest @ ..] = tokens.rest() else {
        return Err(tokens.refuse());
    };
    let value = match &next.kind {
        Kind::Numeric(written) => LiteralValue::Numeric(written.copy(alloc)?),
        Kind::Nonnumeric(bytes) => {
            LiteralValue::Nonnumeric(Items::from_slice(alloc, bytes.as_slice())?)
        }
        Kind::Reserved(word) => match figurative_of(*word) {
            Some(constant) => LiteralValue::Figurative(constant),
            None => return Err(tokens.refuse()),
        },
        _ => return Err(tokens.refuse()),
    };
    tokens.go_to(rest);
    Ok(Literal {
        value,
        place: next.place,
    })
}

/// The word is ZERO.
fn is_zero(word: Reserved) -> bool
    ensures { result ≡ spec.is_zero word }
{
    matches!(figurative_of(word), Some(Figurative::Zero))
}
