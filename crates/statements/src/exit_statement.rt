//! EXIT.

ghost use Rattle.std.specs.Prelude.{◌≡◌};
ghost use Rattle.std.specs.Result.{result_map_both};
ghost use Rattle.grammar.specs.Reading.{Reads};
ghost use Rattle.statements.specs.Exiting as spec;
ghost use Rattle.source_tree.specs.declared.statement.Verb.TheVariants as verb;

use grammar::{ReadFault, Tokens};
use source_tree::ControlStatement;
use tokens::Reserved;

/// From the verb on.
#[tactic(auto, unfolding(crate::specs::Exiting::exit_reader))]
pub fn read_exit(tokens: &mut Tokens<'_>) -> Result<ControlStatement, ReadFault>
    ensures { Reads (spec.exit_reader tokens.old)
        (result_map_both verb.ControlStatement (λ fault. fault) result)
        tokens.new }
{
    tokens.expect(Reserved::Exit)?;
    Ok(ControlStatement::Exit)
}
