//! Looking past what would be read, without reading it: nothing is allocated, and the cursor stays where it is.

ghost use Rattle.std.specs.Prelude.{◌≡◌, Bool, List};
ghost use Rattle.std.specs.Option.{option_copied};
ghost use Rattle.tokens.specs.declared.token.Token.{Token};
ghost use Rattle.grammar.specs.Reading as spec;
ghost use Rattle.grammar.specs.Reading.{Words};

use tokens::Token;

/// What a list is made of that is looked past.
pub trait Passing {
    /// The tokens after one.
    ghost passing: { Self → Words };

    /// Where one begins.
    ghost beginning: { Self → List Token → Bool };

    fn pass<'a>(&self, tokens: &'a [Token]) -> Option<&'a [Token]>
        ensures { option_copied result ≡ passing self.now tokens.now };

    fn begins(&self, tokens: &[Token]) -> bool
        ensures { result ≡ beginning self.now tokens.now };
}

/// The tokens after one or more, up to where no more can begin.
#[tactic(auto, unfolding(crate::specs::Reading::past_several, crate::specs::Reading::past_several_from))]
pub fn past_several<'a, P: Passing>(part: &P, tokens: &'a [Token]) -> Option<&'a [Token]>
    ensures { option_copied result
        ≡ spec.past_several (P.passing part.now) (P.beginning part.now) tokens.now }
{
    let mut rest = tokens;
    for _turn in 0..tokens.len() {
        rest = part.pass(rest)?;
        if !part.begins(rest) {
            return Some(rest);
        }
    }
    None
}

/// The tokens after any number, up to where no more can begin.
#[tactic(auto, unfolding(crate::specs::Reading::past_any))]
pub fn past_any<'a, P: Passing>(part: &P, tokens: &'a [Token]) -> Option<&'a [Token]>
    ensures { option_copied result
        ≡ spec.past_any (P.passing part.now) (P.beginning part.now) tokens.now }
{
    if part.begins(tokens) {
        past_several(part, tokens)
    } else {
        Some(tokens)
    }
}
