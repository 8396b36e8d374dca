//! Entries of items and groups.

ghost use Rattle.std.specs.Prelude.{◌≡◌};
ghost use Rattle.grammar.specs.Reading.{Reads};
ghost use Rattle.data_division.specs.Entries as rule;
ghost use Rattle.data_division.specs.EntryReading as spec;

use crate::stated::{Stated, stated_clauses};
use grammar::{ReadFault, Tokens, begins_name, beside, name};
use source_tree::{Entry, Integer, ItemEntry, Name};
use std::alloc::Global;
use tokens::Reserved;

/// What comes after the level of an item.
#[tactic(auto, unfolding(crate::specs::EntryReading::item_reader))]
pub fn item_entry(
    level: Integer,
    alloc: Global,
    tokens: &mut Tokens<'_>,
) -> Result<Entry, ReadFault>
    ensures { Reads (spec.item_reader level tokens.old) result tokens.new }
{
    let head = beside(level, named(alloc, tokens))?;
    let ((level, name), clauses) = beside(head, stated_clauses(alloc, tokens))?;
    let (item, ()) = beside(item_of(level, name, clauses), tokens.period())?;
    Ok(Entry::Item(item))
}

/// A name, FILLER, or neither.
#[tactic(auto, unfolding(crate::specs::EntryReading::named_reader, crate::specs::EntryReading::given_reader, crate::specs::EntryReading::filler_reader))]
fn named(alloc: Global, tokens: &mut Tokens<'_>) -> Result<Option<Name>, ReadFault>
    ensures { Reads (spec.named_reader tokens.old) result tokens.new }
{
    if begins_name(tokens) {
        Ok(Some(name(alloc, tokens)?))
    } else {
        tokens.skip(Reserved::Filler);
        Ok(None)
    }
}

/// The item with these clauses. SYNCHRONIZED leaves nothing.
fn item_of(level: Integer, name: Option<Name>, clauses: Stated) -> ItemEntry
    ensures { result ≡ rule.item_of level name clauses }
{
    ItemEntry {
        level,
        name,
        redefines: clauses.redefines,
        picture: clauses.picture,
        usage: clauses.usage,
        sign: clauses.sign,
        occurs: clauses.occurs,
        justified: clauses.justified,
        blank_when_zero: clauses.blank_when_zero,
        value: clauses.value,
    }
}
