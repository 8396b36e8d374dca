//! The identification division, and END PROGRAM.

ghost use Rattle.std.specs.Prelude.{◌≡◌};
ghost use Rattle.grammar.specs.Reading.{Reads};
ghost use Rattle.divisions.specs.Reading as spec;

use grammar::{ReadFault, Tokens, name};
use source_tree::Name;
use std::alloc::Global;
use tokens::Reserved;

/// The program's name.
#[tactic(auto, unfolding(crate::specs::Reading::identification))]
pub fn identification(alloc: Global, tokens: &mut Tokens<'_>) -> Result<Name, ReadFault>
    ensures { Reads (spec.identification tokens.old) result tokens.new }
{
    tokens.heading(&[Reserved::Identification, Reserved::Division])?;
    tokens.heading(&[Reserved::ProgramId])?;
    let given = name(alloc, tokens)?;
    tokens.period()?;
    Ok(given)
}

/// END PROGRAM with any name, where END comes next.
#[tactic(auto, unfolding(crate::specs::Reading::optional_end_reader, crate::specs::Reading::end_program))]
pub fn ending(alloc: Global, tokens: &mut Tokens<'_>) -> Result<(), ReadFault>
    ensures { Reads (spec.optional_end_reader tokens.old) result tokens.new }
{
    if !tokens.at_word(Reserved::End) {
        return Ok(());
    }
    tokens.expect(Reserved::End)?;
    tokens.expect(Reserved::Program)?;
    let _other = name(alloc, tokens)?;
    tokens.period()
}
