//! Reserved words.

ghost use Rattle.std.specs.Prelude.{◌≡◌};
ghost use Rattle.std.specs.Option.{option_copied};
ghost use Rattle.grammar.specs.Reading as spec;

use tokens::{Kind, Reserved, Token};

/// The token is this word.
#[tactic(auto, unfolding(tokens::specs::Reserved::same_word))]
pub fn is_word(token: &Token, word: Reserved) -> bool
    ensures { result ≡ spec.is_word word token.now }
{
    match token.kind {
        Kind::Reserved(other) => other == word,
        _ => false,
    }
}

/// The tokens after this word, if it comes first.
#[tactic(auto, unfolding(crate::specs::Reading::after_word))]
pub fn after_word(tokens: &[Token], word: Reserved) -> Option<&[Token]>
    ensures { option_copied result ≡ spec.after_word word tokens.now }
{
    let [first, rest @ ..] = tokens else {
        return None;
    };
    if is_word(first, word) {
        Some(rest)
    } else {
        None
    }
}

/// The tokens after this word, or all where it doesn't come first.
#[tactic(auto, unfolding(crate::specs::Reading::past_word))]
pub fn past_word(tokens: &[Token], word: Reserved) -> &[Token]
    ensures { result.now ≡ spec.past_word word tokens.now }
{
    after_word(tokens, word).unwrap_or(tokens)
}
