//! COMPUTE.

ghost use Rattle.std.specs.Prelude.{◌≡◌};
ghost use Rattle.grammar.specs.Reading as read;
ghost use Rattle.grammar.specs.Reading.{Reads};
ghost use Rattle.statements.specs.Computing as spec;

use crate::receivers::all_receivers;
use expressions::expression;
use grammar::{ReadFault, Tokens};
use source_tree::Operation;
use std::alloc::Global;
use tokens::{Kind, Operator, Reserved, Token};

/// From the verb on, without its phrases; `depth` is how deep the expression may nest.
#[tactic(auto, unfolding(crate::specs::Computing::compute_reader))]
pub fn read_compute(
    alloc: Global,
    depth: usize,
    tokens: &mut Tokens<'_>,
) -> Result<Operation, ReadFault>
    ensures { Reads (spec.compute_reader depth tokens.old) result tokens.new }
{
    tokens.expect(Reserved::Compute)?;
    let receivers = all_receivers(alloc, tokens)?;
    equal(tokens)?;
    let value = expression(alloc, tokens, depth)?;
    Ok(Operation::Compute { receivers, value })
}

/// `=` or EQUAL, if a token is one of them.
fn equal_in(token: &Token) -> Option<()>
    ensures { result ≡ spec.equal_in token.now }
{
    match token.kind {
        Kind::Operator(Operator::Equal) => Some(()),
        Kind::Reserved(Reserved::Equal) => Some(()),
        _ => None,
    }
}

/// Passes `=` or EQUAL, which has to come next.
#[tactic(auto, unfolding(grammar::specs::Reading::one_token))]
fn equal(tokens: &mut Tokens<'_>) -> Result<(), ReadFault>
    ensures { Reads (read.one_token spec.equal_in tokens.old) result tokens.new }
{
    let [next, rest @ ..] = tokens.rest() else {
        return Err(tokens.refuse());
    };
    let Some(()) = equal_in(next) else {
        return Err(tokens.refuse());
    };
    tokens.go_to(rest);
    Ok(())
}
