//! Names.

ghost use Rattle.std.specs.Prelude.{◌≡◌};
ghost use Rattle.grammar.specs.Parts as grammar;
ghost use Rattle.grammar.specs.Reading as spec;
ghost use Rattle.grammar.specs.Reading.{Reads};

use crate::cursor::Tokens;
use crate::fault::ReadFault;
use crate::part::Part;
use source_tree::Name;
use sqlite_items::Items;
use std::alloc::Global;
use tokens::Kind;

/// Names in a list.
pub struct Names;

impl Part<Name> for Names {
    ghost use Rattle.grammar.specs.Parts as grammar;
    ghost use Rattle.grammar.specs.Reading as spec;

    ghost ready = { λ _. Unit {0} };

    ghost reading = { λ _. spec.name };

    ghost beginning = { λ _. grammar.begins_name };

    fn read(&self, alloc: Global, tokens: &mut Tokens<'_>) -> Result<Name, ReadFault> {
        name(alloc, tokens)
    }

    fn begins(&self, tokens: &Tokens<'_>) -> bool {
        begins_name(tokens)
    }
}

/// The next token is a user-defined word.
pub fn begins_name(tokens: &Tokens<'_>) -> bool
    ensures { result ≡ grammar.begins_name tokens.now }
{
    match tokens.rest() {
        [next, ..] => matches!(next.kind, Kind::Word(_)),
        [] => false,
    }
}

/// A user-defined word.
#[tactic(auto, unfolding(crate::specs::Reading::name, crate::specs::Reading::one_token))]
pub fn name(alloc: Global, tokens: &mut Tokens<'_>) -> Result<Name, ReadFault>
    ensures { Reads (spec.name tokens.old) result tokens.new }
{
    let [next, rest @ ..] = tokens.rest() else {
        return Err(tokens.refuse());
    };
    let Kind::Word(word) = &next.kind else {
        return Err(tokens.refuse());
    };
    let characters = Items::from_slice(alloc, word.as_slice())?;
    tokens.go_to(rest);
    Ok(Name {
        characters,
        place: next.place,
    })
}
