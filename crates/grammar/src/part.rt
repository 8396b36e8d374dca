//! Lists of a part, whatever the part is.

ghost use Rattle.std.specs.Prelude.{◌≡◌, Bool, List};
ghost use Rattle.tokens.specs.declared.token.Token.{Token};
ghost use Rattle.grammar.specs.Reading as spec;
ghost use Rattle.grammar.specs.Reading.{Parser, Reads};

use crate::cursor::Tokens;
use crate::fault::ReadFault;
use sqlite_items::Items;
use std::alloc::Global;

/// What a list is made of.
pub trait Part<T: Drop> {
    /// What has to hold before one is read.
    ghost ready: { Self → Type 0 };

    /// How one is read.
    ghost reading: { Self → Parser T };

    /// Where one begins.
    ghost beginning: { Self → List Token → Bool };

    fn read(&self, alloc: Global, tokens: &mut Tokens<'_>) -> Result<T, ReadFault>
        requires { ready self.now }
        ensures { Reads (reading self.now tokens.old) result tokens.new };

    fn begins(&self, tokens: &Tokens<'_>) -> bool
        ensures { result ≡ beginning self.now tokens.now };
}

/// One or more, up to where no more can begin.
#[tactic(auto, unfolding(crate::specs::Reading::several, crate::specs::Reading::several_from))]
pub fn several<T: Drop, P: Part<T>>(
    part: &P,
    alloc: Global,
    tokens: &mut Tokens<'_>,
) -> Result<Items<T>, ReadFault>
    requires { P.ready part.now }
    ensures { Reads (spec.several (P.reading part.now) (P.beginning part.now) tokens.old) result
        tokens.new }
{
    let mut found = Items::new(alloc);
    for _turn in 0..tokens.len() {
        found.push(part.read(alloc, tokens)?)?;
        if !part.begins(tokens) {
            return Ok(found);
        }
    }
    Err(tokens.refuse())
}

/// Any number, up to where no more can begin.
#[tactic(auto, unfolding(crate::specs::Reading::any))]
pub fn any<T: Drop, P: Part<T>>(
    part: &P,
    alloc: Global,
    tokens: &mut Tokens<'_>,
) -> Result<Items<T>, ReadFault>
    requires { P.ready part.now }
    ensures { Reads (spec.any (P.reading part.now) (P.beginning part.now) tokens.old) result
        tokens.new }
{
    if part.begins(tokens) {
        several(part, alloc, tokens)
    } else {
        Ok(Items::new(alloc))
    }
}
