//! ADD.

ghost use Rattle.std.specs.Prelude.{◌≡◌};
ghost use Rattle.grammar.specs.Reading.{Reads};
ghost use Rattle.statements.specs.Adding as spec;

use crate::receivers::{Target, all_receivers, numbers, target_of};
use grammar::{ReadFault, Tokens};
use source_tree::{Operand, Operation};
use sqlite_items::Items;
use std::alloc::Global;
use tokens::Reserved;

/// From the verb on, without its phrases.
#[tactic(auto, unfolding(crate::specs::Adding::add_reader))]
pub fn read_add(alloc: Global, tokens: &mut Tokens<'_>) -> Result<Operation, ReadFault>
    ensures { Reads (spec.add_reader tokens.old) result tokens.new }
{
    tokens.expect(Reserved::Add)?;
    let operands = numbers(alloc, tokens)?;
    added(alloc, operands, tokens)
}

/// After the operands: TO, and receivers or the last operand with GIVING.
#[tactic(auto, unfolding(crate::specs::Adding::adding_to_reader))]
fn adding_to(
    alloc: Global,
    operands: Items<Operand>,
    tokens: &mut Tokens<'_>,
) -> Result<Operation, ReadFault>
    ensures { Reads (spec.adding_to_reader operands tokens.old) result tokens.new }
{
    tokens.expect(Reserved::To)?;
    match target_of(alloc, tokens)? {
        Target::Receivers(receivers) => Ok(Operation::Add {
            operands,
            receivers,
        }),
        Target::Giving { operand, receivers } => {
            let mut operands = operands;
            operands.push(operand)?;
            Ok(Operation::AddGiving {
                operands,
                receivers,
            })
        }
    }
}

/// After the operands: from TO on, or GIVING and receivers.
#[tactic(auto, unfolding(crate::specs::Adding::added_reader, crate::specs::Adding::adding_up_reader))]
fn added(
    alloc: Global,
    operands: Items<Operand>,
    tokens: &mut Tokens<'_>,
) -> Result<Operation, ReadFault>
    ensures { Reads (spec.added_reader operands tokens.old) result tokens.new }
{
    if tokens.at_word(Reserved::To) {
        return adding_to(alloc, operands, tokens);
    }
    tokens.expect(Reserved::Giving)?;
    let receivers = all_receivers(alloc, tokens)?;
    Ok(Operation::AddGiving {
        operands,
        receivers,
    })
}
