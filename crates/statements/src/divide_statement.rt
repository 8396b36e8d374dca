//! DIVIDE.

ghost use Rattle.std.specs.Prelude.{◌≡◌, Some};
ghost use Rattle.grammar.specs.Reading.{Reads};
ghost use Rattle.statements.specs.Dividing as spec;

use crate::receivers::{Target, all_receivers, target_of};
use expressions::{number_operand, reference};
use grammar::{ReadFault, Tokens, beside};
use source_tree::{DivisionOrder, Operand, Operation, Receiver};
use sqlite_items::Items;
use std::alloc::Global;
use tokens::Reserved;

/// From the verb on, without its phrases.
#[tactic(auto, unfolding(crate::specs::Dividing::divide_reader, crate::specs::Dividing::divided_reader))]
pub fn read_divide(alloc: Global, tokens: &mut Tokens<'_>) -> Result<Operation, ReadFault>
    ensures { Reads (spec.divide_reader tokens.old) result tokens.new }
{
    tokens.expect(Reserved::Divide)?;
    let first = number_operand(alloc, tokens)?;
    if tokens.at_word(Reserved::By) {
        by(alloc, first, tokens)
    } else {
        into(alloc, first, tokens)
    }
}

/// The one receiver of a list.
fn only(receivers: Items<Receiver>) -> Option<Receiver>
    ensures { result ≡ spec.only receivers }
{
    let mut receivers = receivers;
    let last = receivers.pop()?;
    if receivers.is_empty() {
        Some(last)
    } else {
        None
    }
}

/// REMAINDER and a reference, after the one quotient.
fn remainder_of(
    alloc: Global,
    first: Operand,
    order: DivisionOrder,
    second: Operand,
    quotient: Receiver,
    tokens: &mut Tokens<'_>,
) -> Result<Operation, ReadFault>
    ensures { Reads (spec.remainder_of first order second (Some quotient) tokens.old) result
        tokens.new }
{
    let divided = (first, second, quotient);
    let (divided, ()) = beside(divided, tokens.expect(Reserved::Remainder))?;
    let ((first, second, quotient), remainder) = beside(divided, reference(alloc, tokens))?;
    Ok(Operation::DivideRemainder {
        first,
        order,
        second,
        quotient,
        remainder,
    })
}

/// After the receivers of GIVING: REMAINDER takes one quotient.
#[tactic(auto, unfolding(crate::specs::Dividing::given_reader))]
fn given(
    alloc: Global,
    first: Operand,
    order: DivisionOrder,
    second: Operand,
    receivers: Items<Receiver>,
    tokens: &mut Tokens<'_>,
) -> Result<Operation, ReadFault>
    ensures { Reads (spec.given_reader first order second receivers tokens.old) result tokens.new }
{
    if !tokens.at_word(Reserved::Remainder) {
        return Ok(Operation::DivideGiving {
            first,
            order,
            second,
            receivers,
        });
    }
    match only(receivers) {
        Some(quotient) => remainder_of(alloc, first, order, second, quotient, tokens),
        None => {
            drop((first, second));
            Err(tokens.refuse())
        }
    }
}

/// From INTO on.
#[tactic(auto, unfolding(crate::specs::Dividing::into_reader))]
fn into(alloc: Global, first: Operand, tokens: &mut Tokens<'_>) -> Result<Operation, ReadFault>
    ensures { Reads (spec.into_reader first tokens.old) result tokens.new }
{
    let (first, ()) = beside(first, tokens.expect(Reserved::Into))?;
    let (first, target) = beside(first, target_of(alloc, tokens))?;
    match target {
        Target::Receivers(receivers) => Ok(Operation::Divide {
            divisor: first,
            receivers,
        }),
        Target::Giving { operand, receivers } => {
            given(
                alloc,
                first,
                DivisionOrder::Into,
                operand,
                receivers,
                tokens,
            )
        }
    }
}

/// From BY on.
#[tactic(auto, unfolding(crate::specs::Dividing::by_reader))]
fn by(alloc: Global, first: Operand, tokens: &mut Tokens<'_>) -> Result<Operation, ReadFault>
    ensures { Reads (spec.by_reader first tokens.old) result tokens.new }
{
    let (first, ()) = beside(first, tokens.expect(Reserved::By))?;
    let (first, second) = beside(first, number_operand(alloc, tokens))?;
    by_giving(alloc, first, second, tokens)
}

/// From GIVING on, after BY and an operand.
fn by_giving(
    alloc: Global,
    first: Operand,
    second: Operand,
    tokens: &mut Tokens<'_>,
) -> Result<Operation, ReadFault>
    ensures { Reads (spec.giving_of first second tokens.old) result tokens.new }
{
    let (operands, ()) = beside((first, second), tokens.expect(Reserved::Giving))?;
    let ((first, second), receivers) = beside(operands, all_receivers(alloc, tokens))?;
    given(alloc, first, DivisionOrder::By, second, receivers, tokens)
}
