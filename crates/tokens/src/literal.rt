//! Numeric and nonnumeric literals.

ghost use Rattle.std.specs.Prelude.{[], false, ◌≡◌, ◌≤◌, length, map, IfErr};
ghost use Rattle.answers.specs.Answer.{Gives};
ghost use Rattle.tokens.specs.Faults.{fault_of};
ghost use Rattle.tokens.specs.Literals as spec;

use crate::character::{Class, begins, bytes, run};
use crate::fault::{FaultKind, TokenError};
use crate::lexeme::{Lexeme, token};
use crate::token::Kind;
use crate::word::refused;
use lexical::{NumericLiteral, Place, Sign};
use source_lines::Character;
use sqlite_items::Items;
use std::alloc::Global;

const MAX_DIGITS: usize = 18;

const MAX_TEXT: usize = 160;

/// Whether a digit stands at the front, or a point with a digit.
pub fn begins_number(characters: &[Character]) -> bool
    ensures { result ≡ spec.begins_number characters.now }
{
    begins(Class::Digit, characters) || begins(Class::Digit, after_point(characters))
}

/// The numeric literal with this sign, of which these are the characters after the sign.
#[tactic(auto, unfolding(crate::specs::Literals::numeric))]
pub fn numeric(
    alloc: Global,
    place: Place,
    sign: Sign,
    characters: &[Character],
) -> Result<Lexeme, TokenError>
    ensures { Gives (λ lexeme. lexeme) fault_of result (spec.numeric place sign characters.now) }
{
    let whole = run(Class::Digit, characters);
    let fraction = after_point(&characters[whole..]);
    let decimals = run(Class::Digit, fraction);
    if whole + decimals > MAX_DIGITS {
        return Err(refused(FaultKind::WrongNumericLiteral, place));
    }
    let literal = NumericLiteral {
        sign,
        whole: Items::from_vec(bytes(alloc, &characters[..whole])?),
        decimals: Items::from_vec(bytes(alloc, &fraction[..decimals])?),
    };
    let size = sign_size(sign) + whole + point_size(decimals) + decimals;
    Ok(token(Kind::Numeric(literal), size))
}

/// The nonnumeric literal with this mark, of which these are the characters after the opening mark.
#[tactic(auto, unfolding(crate::specs::Literals::nonnumeric))]
pub fn nonnumeric(
    alloc: Global,
    place: Place,
    mark: u8,
    characters: &[Character],
) -> Result<Lexeme, TokenError>
    ensures { Gives (λ lexeme. lexeme) fault_of result (spec.nonnumeric place mark characters.now) }
{
    let Some((text, size)) = quoted(alloc, mark, characters)? else {
        return Err(refused(FaultKind::WrongNonnumericLiteral, place));
    };
    if text.is_empty() || text.len() > MAX_TEXT {
        return Err(refused(FaultKind::WrongNonnumericLiteral, place));
    }
    Ok(token(Kind::Nonnumeric(text), size))
}

fn after_point(characters: &[Character]) -> &[Character]
    ensures value { result.now ≡ spec.after_point characters.now }
{
    match characters {
        [first, more @ ..] if first.byte == b'.' => more,
        _ => &[],
    }
}

fn sign_size(sign: Sign) -> usize
    ensures value { result ≡ spec.sign_size sign }
    ensures within { result ≤ 1 }
{
    match sign {
        Sign::Unsigned => 0,
        Sign::Plus | Sign::Minus => 1,
    }
}

fn point_size(decimals: usize) -> usize
    ensures value { result ≡ spec.point_size decimals }
    ensures within { result ≤ 1 }
{
    if decimals == 0 { 0 } else { 1 }
}

/// The text up to the mark that closes it, a doubled mark as one, and how many characters there are with both marks; none where
/// no mark closes it.
fn quoted(
    alloc: Global,
    mark: u8,
    mut characters: &[Character],
) -> Result<Option<(Items<u8>, usize)>, TokenError>
    ensures { Gives (λ text. text) fault_of result
        (Ok (spec.quoted_characters mark false [] 1 characters.entry.now)) }
{
    let mut text = Vec::new(alloc);
    let mut is_after_mark = false;
    let mut size = 1;
    while let [one, more @ ..] = characters {
        if one.byte == mark && !is_after_mark {
            is_after_mark = true;
        } else if is_after_mark && one.byte != mark {
            return Ok(Some((Items::from_vec(text), size)));
        } else {
            text.push(one.byte)?;
            is_after_mark = false;
        }
        size += 1;
        characters = more;
    }
    if is_after_mark {
        Ok(Some((Items::from_vec(text), size)))
    } else {
        Ok(None)
    }
}
