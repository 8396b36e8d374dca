//! Sides of a relation.

ghost use Rattle.grammar.specs.Reading.{Reads};
ghost use Rattle.conditions.specs.Conditions as spec;

use expressions::{begins_expression, expression, literal};
use grammar::{ReadFault, Tokens};
use source_tree::Side;
use std::alloc::Global;

/// An expression, or a literal that is no number. Signs and parentheses nest to this depth.
#[tactic(auto, unfolding(crate::specs::Conditions::side_reader))]
pub fn side(alloc: Global, tokens: &mut Tokens<'_>, depth: usize) -> Result<Side, ReadFault>
    ensures { Reads (spec.side_reader depth tokens.old) result tokens.new }
{
    if begins_expression(tokens) {
        expression_side(alloc, tokens, depth)
    } else {
        literal_side(alloc, tokens)
    }
}

#[tactic(auto, unfolding(crate::specs::Conditions::expression_side_reader))]
fn expression_side(alloc: Global, tokens: &mut Tokens<'_>, depth: usize) -> Result<Side, ReadFault>
    ensures { Reads (spec.expression_side_reader depth tokens.old) result tokens.new }
{
    Ok(Side::Expression(expression(alloc, tokens, depth)?))
}

#[tactic(auto, unfolding(crate::specs::Conditions::literal_side_reader))]
fn literal_side(alloc: Global, tokens: &mut Tokens<'_>) -> Result<Side, ReadFault>
    ensures { Reads (spec.literal_side_reader tokens.old) result tokens.new }
{
    Ok(Side::Literal(literal(alloc, tokens)?))
}
