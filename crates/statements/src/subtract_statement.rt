//! SUBTRACT.

ghost use Rattle.std.specs.Prelude.{◌≡◌};
ghost use Rattle.grammar.specs.Reading.{Reads};
ghost use Rattle.statements.specs.Subtracting as spec;

use crate::followed::followed;
use crate::receivers::{Target, numbers, target_of};
use grammar::{ReadFault, Tokens};
use source_tree::Operation;
use std::alloc::Global;
use tokens::Reserved;

/// From the verb on, without its phrases.
#[tactic(auto, unfolding(crate::specs::Subtracting::subtract_reader))]
pub fn read_subtract(alloc: Global, tokens: &mut Tokens<'_>) -> Result<Operation, ReadFault>
    ensures { Reads (spec.subtract_reader tokens.old) result tokens.new }
{
    tokens.expect(Reserved::Subtract)?;
    let operands = followed(numbers(alloc, tokens), Reserved::From, tokens)?;
    Ok(match target_of(alloc, tokens)? {
        Target::Receivers(receivers) => Operation::Subtract {
            operands,
            receivers,
        },
        Target::Giving { operand, receivers } => Operation::SubtractGiving {
            operands,
            minuend: operand,
            receivers,
        },
    })
}
