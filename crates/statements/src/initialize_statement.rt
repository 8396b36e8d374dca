//! INITIALIZE.

ghost use Rattle.std.specs.Prelude.{◌≡◌};
ghost use Rattle.std.specs.Result.{result_map_both};
ghost use Rattle.grammar.specs.Reading.{Reads};
ghost use Rattle.statements.specs.Initializing as spec;
ghost use Rattle.source_tree.specs.declared.statement.Verb.TheVariants as verb;

use expressions::References;
use grammar::{ReadFault, Tokens, several};
use source_tree::DataStatement;
use std::alloc::Global;
use tokens::Reserved;

/// From the verb on.
#[tactic(auto, unfolding(crate::specs::Initializing::initialize_reader))]
pub fn read_initialize(alloc: Global, tokens: &mut Tokens<'_>) -> Result<DataStatement, ReadFault>
    ensures { Reads (spec.initialize_reader tokens.old)
        (result_map_both verb.DataStatement (λ fault. fault) result)
        tokens.new }
{
    tokens.expect(Reserved::Initialize)?;
    let receivers = several(&References, alloc, tokens)?;
    Ok(DataStatement::Initialize { receivers })
}
