//! The token or separator at the front of some characters.

ghost use Rattle.std.specs.Prelude.{◌≡◌, ◌≤◌, ◌∷◌, length, IfOk};
ghost use Rattle.answers.specs.Answer.{Gives};
ghost use Rattle.tokens.specs.Faults.{fault_of};
ghost use Rattle.tokens.specs.Lexemes as spec;

use crate::character::{Class, begins, has, is_in, run};
use crate::context::Context;
use crate::fault::{FaultKind, TokenError};
use crate::literal::{begins_number, nonnumeric, numeric};
use crate::picture::picture;
use crate::token::{Kind, Operator};
use crate::word::{refused, word};
use lexical::{Place, Sign};
use source_lines::Character;
use std::alloc::Global;

/// A token's kind, or none for a separator, and how many characters it has.
#[derive(Drop)]
pub struct Lexeme {
    pub kind: Option<Kind>,
    pub size: usize,
}

/// A token with this many characters.
pub fn token(kind: Kind, size: usize) -> Lexeme
    ensures { result ≡ record { kind = Some kind; size = size } }
{
    Lexeme {
        kind: Some(kind),
        size,
    }
}

fn is_equal_sign(more: &[Character]) -> bool
    ensures { result ≡ spec.is_equal_sign more.now }
{
    match more {
        [first, ..] => first.byte == b'=',
        [] => false,
    }
}

#[tactic(auto, unfolding(crate::specs::Lexemes::comparison))]
fn comparison(
    alone: Operator,
    with_equal: Operator,
    more: &[Character],
) -> Result<Lexeme, TokenError>
    ensures { Gives (λ lexeme. lexeme) fault_of result (spec.comparison alone with_equal more.now) }
{
    if is_equal_sign(more) {
        Ok(token(Kind::Operator(with_equal), 2))
    } else {
        Ok(token(Kind::Operator(alone), 1))
    }
}

fn period(place: Place, more: &[Character]) -> Result<Lexeme, TokenError>
    ensures { Gives (λ lexeme. lexeme) fault_of result (spec.period place more.now) }
{
    if begins(Class::Nonblank, more) {
        Err(refused(FaultKind::StrayCharacter, place))
    } else {
        Ok(token(Kind::Period, 1))
    }
}

/// A period, a parenthesis, a colon or an operator.
#[tactic(auto, unfolding(crate::specs::Lexemes::punctuation))]
fn punctuation(place: Place, first: u8, more: &[Character]) -> Result<Lexeme, TokenError>
    ensures { Gives (λ lexeme. lexeme) fault_of result (spec.punctuation place first more.now) }
{
    match first {
        b'.' => period(place, more),
        b'(' => Ok(token(Kind::LeftParenthesis, 1)),
        b')' => Ok(token(Kind::RightParenthesis, 1)),
        b':' => Ok(token(Kind::Colon, 1)),
        b'+' => Ok(token(Kind::Operator(Operator::Plus), 1)),
        b'-' => Ok(token(Kind::Operator(Operator::Minus), 1)),
        b'*' => Ok(token(Kind::Operator(Operator::Times), 1)),
        b'/' => Ok(token(Kind::Operator(Operator::Divide), 1)),
        b'=' => Ok(token(Kind::Operator(Operator::Equal), 1)),
        b'>' => comparison(Operator::Greater, Operator::GreaterOrEqual, more),
        b'<' => comparison(Operator::Less, Operator::LessOrEqual, more),
        _ => Err(refused(FaultKind::StrayCharacter, place)),
    }
}

fn begins_word(characters: &[Character]) -> bool
    ensures { result ≡ spec.begins_word characters.now }
{
    has(Class::Letter, &characters[..run(Class::InWord, characters)])
}

fn word_or_number(
    alloc: Global,
    place: Place,
    characters: &[Character],
) -> Result<Lexeme, TokenError>
    ensures { Gives (λ lexeme. lexeme) fault_of result (spec.word_or_number place characters.now) }
{
    if begins_word(characters) {
        word(alloc, place, characters)
    } else {
        numeric(alloc, place, Sign::Unsigned, characters)
    }
}

/// The sign that a plus or minus is before these characters, if it is one.
fn sign_here(before: Context, first: u8, more: &[Character]) -> Option<Sign>
    ensures { result ≡ spec.sign_here before first more.now }
{
    if before.is_joined() || !begins_number(more) {
        return None;
    }
    match first {
        b'+' => Some(Sign::Plus),
        b'-' => Some(Sign::Minus),
        _ => None,
    }
}

/// What stands at the front where no picture is awaited.
#[tactic(auto, unfolding(crate::specs::Lexemes::plain_lexeme))]
fn plain(
    alloc: Global,
    before: Context,
    first: Character,
    characters: &[Character],
    more: &[Character],
) -> Result<Lexeme, TokenError>
    requires { characters.now ≡ first ∷ more.now }
    ensures { Gives (λ lexeme. lexeme) fault_of result (spec.plain_lexeme before first more.now) }
{
    if is_in(Class::Separator, first.byte) {
        Ok(Lexeme {
            kind: None,
            size: 1,
        })
    } else if is_in(Class::LetterOrDigit, first.byte) {
        word_or_number(alloc, first.place, characters)
    } else if begins_number(characters) {
        numeric(alloc, first.place, Sign::Unsigned, characters)
    } else if is_in(Class::Mark, first.byte) {
        nonnumeric(alloc, first.place, first.byte, more)
    } else {
        match sign_here(before, first.byte, more) {
            Some(sign) => numeric(alloc, first.place, sign, more),
            None => punctuation(first.place, first.byte, more),
        }
    }
}

/// The token or separator at the front.
#[tactic(auto, unfolding(crate::specs::Lexemes::lexeme))]
pub fn next_lexeme(
    alloc: Global,
    before: Context,
    first: Character,
    characters: &[Character],
    more: &[Character],
) -> Result<Lexeme, TokenError>
    requires { characters.now ≡ first ∷ more.now }
    ensures value { Gives (λ lexeme. lexeme) fault_of result (spec.lexeme before first more.now) }
    ensures within { IfOk result
        (λ lexeme. (1 ≤ lexeme.size) × (lexeme.size ≤ length characters.now)) }
{
    if before.awaits_picture() && is_in(Class::Nonblank, first.byte) {
        picture(alloc, before, first.byte, characters)
    } else {
        plain(alloc, before, first, characters, more)
    }
}
