//! Operands and receivers of arithmetic statements.

ghost use Rattle.std.specs.Prelude.{◌≡◌};
ghost use Rattle.grammar.specs.Reading.{Reads};
ghost use Rattle.statements.specs.Receivers as spec;

use crate::followed::followed;
use expressions::{NumberOperands, after_reference_before, number_operand, reference};
use grammar::{Part, ReadFault, Tokens, begins_name, beside, several};
use source_tree::{Operand, Receiver};
use sqlite_items::Items;
use std::alloc::Global;
use tokens::Reserved;

/// What follows TO, FROM, BY or INTO.
#[derive(Drop)]
pub enum Target {
    /// One or more receivers.
    Receivers(Items<Receiver>),
    /// An operand, and the receivers after GIVING.
    Giving {
        operand: Operand,
        receivers: Items<Receiver>,
    },
}

/// One or more operands that are numbers.
#[tactic(auto, unfolding(crate::specs::Receivers::numbers_reader))]
pub fn numbers(alloc: Global, tokens: &mut Tokens<'_>) -> Result<Items<Operand>, ReadFault>
    ensures { Reads (spec.numbers_reader tokens.old) result tokens.new }
{
    several(&NumberOperands, alloc, tokens)
}

/// Receivers, each with ROUNDED or without.
struct Receivers;

impl Part<Receiver> for Receivers {
    ghost use Rattle.grammar.specs.Parts as grammar;
    ghost use Rattle.statements.specs.Receivers as spec;

    ghost ready = { λ _. Unit {0} };

    ghost reading = { λ _. spec.receiver_reader };

    ghost beginning = { λ _. grammar.begins_name };

    #[tactic(auto, unfolding(crate::specs::Receivers::receiver_reader))]
    fn read(&self, alloc: Global, tokens: &mut Tokens<'_>) -> Result<Receiver, ReadFault> {
        let item = reference(alloc, tokens)?;
        let rounded = tokens.take(Reserved::Rounded);
        Ok(Receiver { item, rounded })
    }

    fn begins(&self, tokens: &Tokens<'_>) -> bool {
        begins_name(tokens)
    }
}

/// One or more receivers.
#[tactic(auto, unfolding(crate::specs::Receivers::receivers_reader))]
pub fn all_receivers(alloc: Global, tokens: &mut Tokens<'_>) -> Result<Items<Receiver>, ReadFault>
    ensures { Reads (spec.receivers_reader tokens.old) result tokens.new }
{
    several(&Receivers, alloc, tokens)
}

/// A name comes next that isn't of an operand before GIVING.
fn begins_receivers(tokens: &Tokens<'_>) -> bool
    ensures { result ≡ spec.begins_receivers tokens.now }
{
    begins_name(tokens) && after_reference_before(tokens.rest(), Reserved::Giving).is_none()
}

/// Receivers, or an operand and the receivers after GIVING.
#[tactic(auto, unfolding(crate::specs::Receivers::target_reader, crate::specs::Receivers::receivers_alone_reader, crate::specs::Receivers::giving_reader))]
pub fn target_of(alloc: Global, tokens: &mut Tokens<'_>) -> Result<Target, ReadFault>
    ensures { Reads (spec.target_reader tokens.old) result tokens.new }
{
    if begins_receivers(tokens) {
        return Ok(Target::Receivers(all_receivers(alloc, tokens)?));
    }
    let operand = followed(number_operand(alloc, tokens), Reserved::Giving, tokens)?;
    let (operand, receivers) = beside(operand, all_receivers(alloc, tokens))?;
    Ok(Target::Giving { operand, receivers })
}
