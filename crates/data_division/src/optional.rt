//! Words of which one or none stands.

ghost use Rattle.std.specs.Prelude.{◌≡◌, Ok};
ghost use Rattle.std.specs.Option.{option_copied};
ghost use Rattle.grammar.specs.Reading as read;
ghost use Rattle.grammar.specs.Reading.{Reads};
ghost use Rattle.data_division.specs.ClauseReading as spec;

use grammar::{ReadFault, Tokens, after_word, past_word};
use tokens::{Reserved, Token};

/// Passes one of two words.
#[tactic(auto, unfolding(crate::specs::ClauseReading::either_reader))]
pub fn either(tokens: &mut Tokens<'_>, one: Reserved, other: Reserved) -> Result<(), ReadFault>
    ensures { Reads (spec.either_reader one other tokens.old) result tokens.new }
{
    if tokens.at_word(one) {
        tokens.expect(one)
    } else {
        tokens.expect(other)
    }
}

/// Passes one of two words, if one comes next.
#[tactic(auto, unfolding(crate::specs::ClauseReading::skip_either))]
pub fn skip_either(tokens: &mut Tokens<'_>, one: Reserved, other: Reserved) -> Result<(), ReadFault>
    ensures { Reads (spec.skip_either one other tokens.old) result tokens.new }
{
    if tokens.at_word(one) {
        tokens.expect(one)?;
    } else {
        tokens.skip(other);
    }
    Ok(())
}

/// The tokens after `SEPARATE [CHARACTER]`, where that comes first.
#[tactic(auto, unfolding(crate::specs::ClauseReading::after_separate))]
fn after_separate(tokens: &[Token]) -> Option<&[Token]>
    ensures { option_copied result ≡ spec.after_separate tokens.now }
{
    let rest = after_word(tokens, Reserved::Separate)?;
    Some(past_word(rest, Reserved::Character))
}

/// Passes `SEPARATE [CHARACTER]`, if that comes next, and tells whether it did.
#[tactic(auto, unfolding(grammar::specs::Reading::presence_reader))]
pub fn take_separate(tokens: &mut Tokens<'_>) -> bool
    ensures { read.presence_reader spec.after_separate tokens.old ≡ Ok (result, tokens.new) }
{
    match after_separate(tokens.rest()) {
        Some(rest) => {
            tokens.go_to(rest);
            true
        }
        None => false,
    }
}
