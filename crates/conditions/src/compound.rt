//! Conditions.

ghost use Rattle.grammar.specs.Reading.{Reads};
ghost use Rattle.conditions.specs.Conditions as spec;

use crate::nested::{Conditions, simple};
use grammar::{ReadFault, Tokens};
use source_tree::Condition;
use std::alloc::Global;

/// A condition with at most this many NOTs, parentheses and signs in one another.
#[tactic(auto, unfolding(crate::specs::Conditions::condition_reader))]
pub fn condition(
    alloc: Global,
    tokens: &mut Tokens<'_>,
    depth: usize,
) -> Result<Condition, ReadFault>
    ensures { Reads (spec.condition_reader depth tokens.old) result tokens.new }
{
    let conditions = Conditions {
        alloc,
        depth,
        simple,
    };
    conditions.disjunction(tokens)
}
