//! Phrases with statements, each with its opposite.

ghost use Rattle.std.specs.Prelude.{◌≡◌};
ghost use Rattle.std.specs.Option.{option_copied};
ghost use Rattle.grammar.specs.Reading as read;
ghost use Rattle.grammar.specs.Reading.{Reads};
ghost use Rattle.grammar.specs.Phrases as spec;

use crate::cursor::Tokens;
use crate::fault::ReadFault;
use crate::part::{Part, several};
use crate::words::{after_word, past_word};
use source_tree::Phrases;
use sqlite_items::Items;
use std::alloc::Global;
use tokens::{Reserved, Token};

/// A phrase that has an opposite after NOT, by its words.
#[derive(Clone, Copy)]
pub enum Phrase {
    /// `[ON] SIZE ERROR`
    SizeError,
    /// `[AT] END`
    AtEnd,
    /// `INVALID [KEY]`
    InvalidKey,
    /// `[ON] OVERFLOW`
    Overflow,
}

/// The tokens after the phrase's words, where they come first.
pub fn after_opened(tokens: &[Token], phrase: Phrase) -> Option<&[Token]>
    ensures { option_copied result ≡ spec.after_opened phrase tokens.now }
{
    match phrase {
        Phrase::SizeError => {
            let rest = after_word(past_word(tokens, Reserved::On), Reserved::Size)?;
            after_word(rest, Reserved::Error)
        }
        Phrase::AtEnd => after_word(past_word(tokens, Reserved::At), Reserved::End),
        Phrase::InvalidKey => {
            let rest = after_word(tokens, Reserved::Invalid)?;
            Some(past_word(rest, Reserved::Key))
        }
        Phrase::Overflow => after_word(past_word(tokens, Reserved::On), Reserved::Overflow),
    }
}

/// The tokens after NOT and the phrase's words, where they come first.
pub fn after_denied(tokens: &[Token], phrase: Phrase) -> Option<&[Token]>
    ensures { option_copied result ≡ spec.after_denied phrase tokens.now }
{
    let rest = after_word(tokens, Reserved::Not)?;
    after_opened(rest, phrase)
}

/// The statements of a phrase whose words `after` follows; none where the words aren't there.
pub fn phrase_at<'a, T: Drop, P: Part<T>>(
    part: &P,
    alloc: Global,
    tokens: &mut Tokens<'a>,
    after: Option<&'a [Token]>,
) -> Result<Option<Items<T>>, ReadFault>
    requires { P.ready part.now }
    ensures { Reads (spec.phrase_at (read.several (P.reading part.now) (P.beginning part.now))
        (option_copied after.entry) tokens.old) result tokens.new }
{
    let Some(after) = after else {
        return Ok(None);
    };
    tokens.go_to(after);
    Ok(Some(several(part, alloc, tokens)?))
}

/// A phrase and its opposite, each with one or more statements, in this order; either may be left out.
#[tactic(auto, unfolding(crate::specs::Phrases::two_sided_reader, crate::specs::Phrases::phrase_reader))]
pub fn two_sided<T: Drop, P: Part<T>>(
    phrase: Phrase,
    part: &P,
    alloc: Global,
    tokens: &mut Tokens<'_>,
) -> Result<Phrases<T>, ReadFault>
    requires { P.ready part.now }
    ensures { Reads (spec.two_sided_reader (read.several (P.reading part.now)
        (P.beginning part.now)) phrase tokens.old) result tokens.new }
{
    let after = after_opened(tokens.rest(), phrase);
    let arose = phrase_at(part, alloc, tokens, after)?;
    let after = after_denied(tokens.rest(), phrase);
    let did_not = phrase_at(part, alloc, tokens, after)?;
    Ok(Phrases { arose, did_not })
}
