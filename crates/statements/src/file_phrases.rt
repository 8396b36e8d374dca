//! The phrases of file statements: AT END or INVALID KEY, each with its opposite.

ghost use Rattle.std.specs.Prelude.{◌≡◌};
ghost use Rattle.grammar.specs.Reading as read;
ghost use Rattle.grammar.specs.Reading.{Reads};
ghost use Rattle.statements.specs.FilePhrases as rule;

use grammar::{Part, Phrase, ReadFault, Tokens, two_sided};
use source_tree::{FilePhrases, Phrases};
use std::alloc::Global;

/// INVALID KEY and its opposite, where one of them stands.
#[tactic(auto, unfolding(crate::specs::FilePhrases::key_phrases_reader))]
pub fn key_phrases<S: Drop, P: Part<S>>(
    statement: &P,
    alloc: Global,
    tokens: &mut Tokens<'_>,
) -> Result<FilePhrases<S>, ReadFault>
    requires { P.ready statement.now }
    ensures { Reads (rule.key_phrases_reader (read.several (P.reading statement.now)
        (P.beginning statement.now)) tokens.old) result tokens.new }
{
    let both = two_sided(Phrase::InvalidKey, statement, alloc, tokens)?;
    if has_phrase(&both) {
        return Ok(FilePhrases::InvalidKey(both));
    }
    drop(both);
    Ok(FilePhrases::Absent)
}

/// AT END and its opposite, where one of them stands, and else INVALID KEY and its opposite.
#[tactic(auto, unfolding(crate::specs::FilePhrases::read_phrases_reader))]
pub fn read_phrases<S: Drop, P: Part<S>>(
    statement: &P,
    alloc: Global,
    tokens: &mut Tokens<'_>,
) -> Result<FilePhrases<S>, ReadFault>
    requires { P.ready statement.now }
    ensures { Reads (rule.read_phrases_reader (read.several (P.reading statement.now)
        (P.beginning statement.now)) tokens.old) result tokens.new }
{
    let both = two_sided(Phrase::AtEnd, statement, alloc, tokens)?;
    if has_phrase(&both) {
        Ok(FilePhrases::AtEnd(both))
    } else {
        drop(both);
        key_phrases(statement, alloc, tokens)
    }
}

/// One of the two stands, or both do.
fn has_phrase<S>(both: &Phrases<S>) -> bool
    ensures { result ≡ rule.has_phrase both.now }
{
    both.arose.is_some() || both.did_not.is_some()
}
