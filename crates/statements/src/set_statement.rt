//! SET of condition names.

ghost use Rattle.std.specs.Prelude.{◌≡◌};
ghost use Rattle.std.specs.Result.{result_map_both};
ghost use Rattle.grammar.specs.Reading.{Reads};
ghost use Rattle.statements.specs.Setting as spec;
ghost use Rattle.source_tree.specs.declared.statement.Verb.TheVariants as verb;

use crate::followed::followed;
use expressions::References;
use grammar::{ReadFault, Tokens, several};
use source_tree::DataStatement;
use std::alloc::Global;
use tokens::Reserved;

/// From the verb on.
#[tactic(auto, unfolding(crate::specs::Setting::set_reader))]
pub fn read_set(alloc: Global, tokens: &mut Tokens<'_>) -> Result<DataStatement, ReadFault>
    ensures { Reads (spec.set_reader tokens.old)
        (result_map_both verb.DataStatement (λ fault. fault) result)
        tokens.new }
{
    tokens.expect(Reserved::Set)?;
    let conditions = followed(several(&References, alloc, tokens), Reserved::To, tokens);
    let conditions = followed(conditions, Reserved::True, tokens)?;
    Ok(DataStatement::Set { conditions })
}
