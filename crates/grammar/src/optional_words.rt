//! A word that may be left out, with the IS after it.

ghost use Rattle.std.specs.Prelude.{◌≡◌};
ghost use Rattle.grammar.specs.OptionalWords as spec;
ghost use Rattle.grammar.specs.Reading.{Reads};

use crate::cursor::Tokens;
use crate::fault::ReadFault;
use tokens::Reserved;

/// Passes this word with an optional IS, if it comes next.
#[tactic(auto, unfolding(crate::specs::OptionalWords::skip_led))]
pub fn skip_led(tokens: &mut Tokens<'_>, one: Reserved) -> Result<(), ReadFault>
    ensures { Reads (spec.skip_led one tokens.old) result tokens.new }
{
    if tokens.at_word(one) {
        tokens.expect(one)?;
        tokens.skip(Reserved::Is);
    }
    Ok(())
}
