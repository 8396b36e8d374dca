//! Arithmetic statements.

ghost use Rattle.std.specs.Prelude.{◌≡◌};
ghost use Rattle.grammar.specs.Reading as read;
ghost use Rattle.grammar.specs.Reading.{Reads};
ghost use Rattle.statements.specs.Arithmetic as rule;

use crate::add_statement::read_add;
use crate::compute_statement::read_compute;
use crate::divide_statement::read_divide;
use crate::multiply_statement::read_multiply;
use crate::subtract_statement::read_subtract;
use crate::verb::ArithmeticVerb;
use grammar::{Part, Phrase, ReadFault, Tokens, beside, two_sided};
use source_tree::{Arithmetic, Operation, Verb};
use std::alloc::Global;
use tokens::Reserved;

/// From the verb on: what is computed, the SIZE ERROR phrases and the END word; `depth` is how deep an expression may nest.
#[tactic(auto, unfolding(crate::specs::Arithmetic::arithmetic_reader))]
pub fn arithmetic<S: Drop, P: Part<S>>(
    statement: &P,
    alloc: Global,
    depth: usize,
    verb: ArithmeticVerb,
    tokens: &mut Tokens<'_>,
) -> Result<Verb<S>, ReadFault>
    requires { P.ready statement.now }
    ensures { Reads (rule.arithmetic_reader depth (read.several (P.reading statement.now)
        (P.beginning statement.now)) verb tokens.old) result tokens.new }
{
    let operation = operation(alloc, depth, verb, tokens)?;
    let phrases = two_sided(Phrase::SizeError, statement, alloc, tokens);
    let (operation, phrases) = beside(operation, phrases)?;
    tokens.skip(end_word(&operation));
    Ok(Verb::Arithmetic(Arithmetic { operation, phrases }))
}

/// What is computed, from the verb on; `depth` is how deep an expression may nest.
fn operation(
    alloc: Global,
    depth: usize,
    verb: ArithmeticVerb,
    tokens: &mut Tokens<'_>,
) -> Result<Operation, ReadFault>
    ensures { Reads (rule.operation_reader depth verb tokens.old) result tokens.new }
{
    match verb {
        ArithmeticVerb::Add => read_add(alloc, tokens),
        ArithmeticVerb::Subtract => read_subtract(alloc, tokens),
        ArithmeticVerb::Multiply => read_multiply(alloc, tokens),
        ArithmeticVerb::Divide => read_divide(alloc, tokens),
        ArithmeticVerb::Compute => read_compute(alloc, depth, tokens),
    }
}

/// The END word of a statement.
fn end_word(operation: &Operation) -> Reserved
    ensures { result ≡ rule.end_word operation.now }
{
    match operation {
        Operation::Add { .. } | Operation::AddGiving { .. } => Reserved::EndAdd,
        Operation::Subtract { .. } | Operation::SubtractGiving { .. } => Reserved::EndSubtract,
        Operation::Multiply { .. } | Operation::MultiplyGiving { .. } => Reserved::EndMultiply,
        Operation::Divide { .. }
        | Operation::DivideGiving { .. }
        | Operation::DivideRemainder { .. } => Reserved::EndDivide,
        Operation::Compute { .. } => Reserved::EndCompute,
    }
}
