//! Arithmetic expressions.

ghost use Rattle.std.specs.Prelude.{◌≡◌};
ghost use Rattle.grammar.specs.Reading.{Reads};
ghost use Rattle.expressions.specs.Expressions as spec;

use crate::factors::{Factors, factor};
use grammar::{ReadFault, Tokens};
use source_tree::Expression;
use std::alloc::Global;

/// An arithmetic expression with at most this many signs and parentheses in one another.
#[tactic(auto, unfolding(crate::specs::Expressions::expression_reader))]
pub fn expression(
    alloc: Global,
    tokens: &mut Tokens<'_>,
    depth: usize,
) -> Result<Expression, ReadFault>
    ensures { Reads (spec.expression_reader depth tokens.old) result tokens.new }
{
    let factors = Factors {
        alloc,
        depth,
        factor,
    };
    factors.sum(tokens)
}
