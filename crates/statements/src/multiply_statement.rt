//! MULTIPLY.

ghost use Rattle.std.specs.Prelude.{◌≡◌};
ghost use Rattle.grammar.specs.Reading.{Reads};
ghost use Rattle.statements.specs.Multiplying as spec;

use crate::followed::followed;
use crate::receivers::{Target, target_of};
use expressions::number_operand;
use grammar::{ReadFault, Tokens, beside};
use source_tree::Operation;
use std::alloc::Global;
use tokens::Reserved;

/// From the verb on, without its phrases.
#[tactic(auto, unfolding(crate::specs::Multiplying::multiply_reader))]
pub fn read_multiply(alloc: Global, tokens: &mut Tokens<'_>) -> Result<Operation, ReadFault>
    ensures { Reads (spec.multiply_reader tokens.old) result tokens.new }
{
    tokens.expect(Reserved::Multiply)?;
    let factor = followed(number_operand(alloc, tokens), Reserved::By, tokens)?;
    let (factor, target) = beside(factor, target_of(alloc, tokens))?;
    Ok(match target {
        Target::Receivers(receivers) => Operation::Multiply { factor, receivers },
        Target::Giving { operand, receivers } => Operation::MultiplyGiving {
            factor,
            by: operand,
            receivers,
        },
    })
}
