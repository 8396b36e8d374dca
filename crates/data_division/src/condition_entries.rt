//! Entries of condition names (COBOL-85, Nucleus, "Condition-names").

ghost use Rattle.std.specs.Prelude.{◌≡◌};
ghost use Rattle.grammar.specs.Reading.{Reads};
ghost use Rattle.data_division.specs.EntryReading as spec;

use crate::optional::{either, skip_either};
use expressions::{begins_literal, literal};
use grammar::{Part, ReadFault, Tokens, beside, name, several};
use source_tree::{ConditionEntry, Entry, Literal, ValueRange};
use std::alloc::Global;
use tokens::Reserved;

/// What comes after level 88.
#[tactic(auto, unfolding(crate::specs::EntryReading::condition_reader))]
pub fn condition_entry(alloc: Global, tokens: &mut Tokens<'_>) -> Result<Entry, ReadFault>
    ensures { Reads (spec.condition_reader tokens.old) result tokens.new }
{
    let name = name(alloc, tokens)?;
    let (name, ()) = beside(name, either(tokens, Reserved::Value, Reserved::Values))?;
    let (name, ()) = beside(name, skip_either(tokens, Reserved::Is, Reserved::Are))?;
    let entry = beside(name, several(&Ranges, alloc, tokens))?;
    let ((name, values), ()) = beside(entry, tokens.period())?;
    Ok(Entry::Condition(ConditionEntry { name, values }))
}

/// THRU or THROUGH comes next.
fn begins_through(tokens: &Tokens<'_>) -> bool
    ensures { result ≡ spec.begins_through tokens.now }
{
    tokens.at_word(Reserved::Thru) || tokens.at_word(Reserved::Through)
}

/// The last value of a range, where one stands.
#[tactic(auto, unfolding(crate::specs::EntryReading::last_value_reader, crate::specs::EntryReading::through_literal_reader))]
fn last_value(alloc: Global, tokens: &mut Tokens<'_>) -> Result<Option<Literal>, ReadFault>
    ensures { Reads (spec.last_value_reader tokens.old) result tokens.new }
{
    if !begins_through(tokens) {
        return Ok(None);
    }
    either(tokens, Reserved::Thru, Reserved::Through)?;
    Ok(Some(literal(alloc, tokens)?))
}

/// A value or a range of values.
#[tactic(auto, unfolding(crate::specs::EntryReading::range_reader))]
fn range(alloc: Global, tokens: &mut Tokens<'_>) -> Result<ValueRange, ReadFault>
    ensures { Reads (spec.range_reader tokens.old) result tokens.new }
{
    let first = literal(alloc, tokens)?;
    let (first, last) = beside(first, last_value(alloc, tokens))?;
    Ok(ValueRange { first, last })
}

/// Values and ranges in a list.
struct Ranges;

impl Part<ValueRange> for Ranges {
    ghost use Rattle.expressions.specs.Literals.{begins_literal};
    ghost use Rattle.data_division.specs.EntryReading as spec;

    ghost ready = { λ _. Unit {0} };

    ghost reading = { λ _. spec.range_reader };

    ghost beginning = { λ _. begins_literal };

    fn read(&self, alloc: Global, tokens: &mut Tokens<'_>) -> Result<ValueRange, ReadFault> {
        range(alloc, tokens)
    }

    fn begins(&self, tokens: &Tokens<'_>) -> bool {
        begins_literal(tokens)
    }
}
