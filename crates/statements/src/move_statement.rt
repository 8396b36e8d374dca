//! MOVE.

ghost use Rattle.std.specs.Prelude.{◌≡◌};
ghost use Rattle.std.specs.Result.{result_map_both};
ghost use Rattle.grammar.specs.Reading.{Reads};
ghost use Rattle.statements.specs.Moving as spec;
ghost use Rattle.source_tree.specs.declared.statement.Verb.TheVariants as verb;

use crate::followed::followed;
use expressions::{References, operand};
use grammar::{ReadFault, Tokens, beside, several};
use source_tree::DataStatement;
use std::alloc::Global;
use tokens::Reserved;

/// From the verb on.
#[tactic(auto, unfolding(crate::specs::Moving::move_reader))]
pub fn read_move(alloc: Global, tokens: &mut Tokens<'_>) -> Result<DataStatement, ReadFault>
    ensures { Reads (spec.move_reader tokens.old)
        (result_map_both verb.DataStatement (λ fault. fault) result)
        tokens.new }
{
    tokens.expect(Reserved::Move)?;
    let sender = followed(operand(alloc, tokens), Reserved::To, tokens)?;
    let (sender, receivers) = beside(sender, several(&References, alloc, tokens))?;
    Ok(DataStatement::Move { sender, receivers })
}
