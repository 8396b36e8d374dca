//! PERFORM.

ghost use Rattle.std.specs.Prelude.{◌≡◌};
ghost use Rattle.grammar.specs.Reading as read;
ghost use Rattle.grammar.specs.Reading.{Reads};
ghost use Rattle.statements.specs.Performing as rule;

use crate::followed::followed;
use crate::repetition::turns;
use expressions::after_reference_before;
use grammar::{Part, ReadFault, Tokens, begins_name, beside, name, several};
use source_tree::{Name, PerformStatement, Performed, Verb};
use std::alloc::Global;
use tokens::Reserved;

/// From the verb on; `depth` is how deep a condition may nest.
#[tactic(auto, unfolding(crate::specs::Performing::perform_reader))]
pub fn read_perform<S: Drop, P: Part<S>>(
    statement: &P,
    alloc: Global,
    depth: usize,
    tokens: &mut Tokens<'_>,
) -> Result<Verb<S>, ReadFault>
    requires { P.ready statement.now }
    ensures { Reads (rule.perform_reader depth (read.several (P.reading statement.now)
        (P.beginning statement.now)) tokens.old) result tokens.new }
{
    tokens.expect(Reserved::Perform)?;
    if begins_procedures(tokens) {
        procedures(alloc, depth, tokens)
    } else {
        in_line(statement, alloc, depth, tokens)
    }
}

/// How often, the statements and END-PERFORM.
#[tactic(auto, unfolding(crate::specs::Performing::in_line_reader))]
fn in_line<S: Drop, P: Part<S>>(
    statement: &P,
    alloc: Global,
    depth: usize,
    tokens: &mut Tokens<'_>,
) -> Result<Verb<S>, ReadFault>
    requires { P.ready statement.now }
    ensures { Reads (rule.in_line_reader depth (read.several (P.reading statement.now)
        (P.beginning statement.now)) tokens.old) result tokens.new }
{
    let turns = turns(alloc, depth, tokens)?;
    let inside = followed(
        several(statement, alloc, tokens),
        Reserved::EndPerform,
        tokens,
    );
    let (turns, inside) = beside(turns, inside)?;
    Ok(Verb::PerformStatement(PerformStatement {
        performed: Performed::Statements(inside),
        turns,
    }))
}

/// THRU or THROUGH, whichever `thru` is, and the last procedure's name.
fn through(
    alloc: Global,
    tokens: &mut Tokens<'_>,
    thru: Reserved,
) -> Result<Option<Name>, ReadFault>
    ensures { Reads (rule.through_by thru tokens.old) result tokens.new }
{
    tokens.expect(thru)?;
    Ok(Some(name(alloc, tokens)?))
}

/// The last procedure's name, where THRU or THROUGH stands.
#[tactic(auto, unfolding(crate::specs::Performing::through_name_reader, crate::specs::Performing::through_reader))]
fn last(alloc: Global, tokens: &mut Tokens<'_>) -> Result<Option<Name>, ReadFault>
    ensures { Reads (rule.through_name_reader tokens.old) result tokens.new }
{
    if tokens.at_word(Reserved::Thru) {
        through(alloc, tokens, Reserved::Thru)
    } else if tokens.at_word(Reserved::Through) {
        through(alloc, tokens, Reserved::Through)
    } else {
        Ok(None)
    }
}

/// A name comes next that isn't of a count before TIMES.
fn begins_procedures(tokens: &Tokens<'_>) -> bool
    ensures { result ≡ rule.begins_procedures tokens.now }
{
    begins_name(tokens) && after_reference_before(tokens.rest(), Reserved::Times).is_none()
}

/// Procedures by their names, and how often; `depth` is how deep a condition may nest.
#[tactic(auto, unfolding(crate::specs::Performing::procedures_reader))]
fn procedures<S: Drop>(
    alloc: Global,
    depth: usize,
    tokens: &mut Tokens<'_>,
) -> Result<Verb<S>, ReadFault>
    ensures { Reads (rule.procedures_reader depth tokens.old) result tokens.new }
{
    let first = name(alloc, tokens)?;
    let last = last(alloc, tokens)?;
    let turns = turns(alloc, depth, tokens)?;
    Ok(Verb::PerformStatement(PerformStatement {
        performed: Performed::Procedures { first, last },
        turns,
    }))
}
