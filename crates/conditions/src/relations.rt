//! Relational operators by themselves, as after KEY of START.

ghost use Rattle.std.specs.Prelude.{◌≡◌};
ghost use Rattle.grammar.specs.Reading.{Reads};
ghost use Rattle.conditions.specs.Relations as spec;

use crate::asked::{Asked, Test, next_test, read_asked};
use grammar::{ReadFault, Tokens, past_word};
use source_tree::RelationalOperator;
use tokens::{Reserved, Token};

/// A relational operator as it is written, with IS before it or without. Another word is refused where it stands.
#[tactic(auto, unfolding(crate::specs::Relations::relation_reader))]
pub fn relation(tokens: &mut Tokens<'_>) -> Result<RelationalOperator, ReadFault>
    ensures { Reads (spec.relation_reader tokens.old) result tokens.new }
{
    if begins_relation(tokens.rest()) {
        return some_relation(tokens);
    }
    let other = past_word(past_word(tokens.rest(), Reserved::Is), Reserved::Not);
    tokens.go_to(other);
    Err(tokens.refuse())
}

/// A relational operator comes here, after IS and NOT.
fn begins_relation(tokens: &[Token]) -> bool
    ensures { result ≡ spec.begins_relation tokens.now }
{
    matches!(
        next_test(tokens),
        Some(Test::Symbol(_) | Test::Order(_) | Test::Equal)
    )
}

#[tactic(auto, unfolding(crate::specs::Relations::some_relation_reader))]
fn some_relation(tokens: &mut Tokens<'_>) -> Result<RelationalOperator, ReadFault>
    ensures { Reads (spec.some_relation_reader tokens.old) result tokens.new }
{
    match read_asked(tokens)? {
        Asked::Relation(operator) => Ok(operator),
        _ => Err(tokens.refuse()),
    }
}
