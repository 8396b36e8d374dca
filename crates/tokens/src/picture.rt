//! Pictures.

ghost use Rattle.std.specs.Prelude.{◌≡◌, ◌≤◌, length, Ok};
ghost use Rattle.answers.specs.Answer.{Gives};
ghost use Rattle.tokens.specs.Faults.{fault_of};
ghost use Rattle.tokens.specs.Pictures as spec;

use crate::character::{Class, bytes, ends, run};
use crate::context::Context;
use crate::fault::TokenError;
use crate::lexeme::{Lexeme, token};
use crate::reserved::Reserved;
use crate::token::Kind;
use source_lines::Character;
use sqlite_items::Items;
use std::alloc::Global;

/// The picture at the front, or IS before it.
#[tactic(auto, unfolding(crate::specs::Pictures::picture))]
pub fn picture(
    alloc: Global,
    before: Context,
    first: u8,
    characters: &[Character],
) -> Result<Lexeme, TokenError>
    ensures { Gives (λ lexeme. lexeme) fault_of result
        (Ok (spec.picture before first characters.now)) }
{
    let size = picture_size(characters);
    if size == 0 {
        return Ok(lone_mark(first));
    }
    let text = bytes(alloc, &characters[..size])?;
    if before.may_be_is() && is_is(&text) {
        Ok(token(Kind::Reserved(Reserved::Is), size))
    } else {
        Ok(token(Kind::Picture(Items::from_vec(text)), size))
    }
}

/// How many characters the picture at the front has.
fn picture_size(characters: &[Character]) -> usize
    ensures value { result ≡ spec.picture_size characters.now }
    ensures within { result ≤ length characters.now }
{
    let size = run(Class::Nonblank, characters);
    if ends(Class::Ending, &characters[..size]) {
        size - 1
    } else {
        size
    }
}

fn is_is(text: &[u8]) -> bool
    ensures { result ≡ spec.is_is text.now }
{
    text.eq_ignore_ascii_case(b"IS")
}

/// A period, comma or semicolon where a picture is awaited.
fn lone_mark(first: u8) -> Lexeme
    ensures { result ≡ spec.lone_mark first }
{
    if first == b'.' {
        token(Kind::Period, 1)
    } else {
        Lexeme {
            kind: None,
            size: 1,
        }
    }
}
