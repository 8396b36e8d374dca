//! STOP RUN.

ghost use Rattle.std.specs.Prelude.{◌≡◌};
ghost use Rattle.std.specs.Result.{result_map_both};
ghost use Rattle.grammar.specs.Reading.{Reads};
ghost use Rattle.statements.specs.StopRun as spec;
ghost use Rattle.source_tree.specs.declared.statement.Verb.TheVariants as verb;

use grammar::{ReadFault, Tokens};
use source_tree::ControlStatement;
use tokens::Reserved;

/// From the verb on.
#[tactic(auto, unfolding(crate::specs::StopRun::stop_run_reader))]
pub fn stop_run(tokens: &mut Tokens<'_>) -> Result<ControlStatement, ReadFault>
    ensures { Reads (spec.stop_run_reader tokens.old)
        (result_map_both verb.ControlStatement (λ fault. fault) result)
        tokens.new }
{
    tokens.expect(Reserved::Stop)?;
    tokens.expect(Reserved::Run)?;
    Ok(ControlStatement::StopRun)
}
