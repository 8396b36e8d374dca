//! Entries in lists, whose forms their levels decide.

ghost use Rattle.std.specs.Prelude.{◌≡◌};
ghost use Rattle.grammar.specs.Reading.{Reads};
ghost use Rattle.data_division.specs.Entries as rule;
ghost use Rattle.data_division.specs.EntryReading as entries;

use crate::condition_entries::condition_entry;
use crate::item_entries::item_entry;
use data_entries::number;
use expressions::{begins_integer, integer};
use grammar::{Part, ReadFault, Tokens};
use source_tree::{Entry, Integer};
use std::alloc::Global;

/// The level of condition names.
const CONDITION: u32 = 88;

/// Entries in a list.
pub struct Entries;

impl Part<Entry> for Entries {
    ghost use Rattle.expressions.specs.Subscripts.{begins_integer};
    ghost use Rattle.data_division.specs.EntryReading as entries;

    ghost ready = { λ _. Unit {0} };

    ghost reading = { λ _. entries.entry_reader };

    ghost beginning = { λ _. begins_integer };

    fn read(&self, alloc: Global, tokens: &mut Tokens<'_>) -> Result<Entry, ReadFault> {
        entry(alloc, tokens)
    }

    fn begins(&self, tokens: &Tokens<'_>) -> bool {
        begins_integer(tokens)
    }
}

fn is_condition(level: &Integer) -> bool
    ensures { result ≡ rule.is_condition level.now }
{
    number(level) == CONDITION
}

/// An entry, whose form its level decides.
#[tactic(auto, unfolding(crate::specs::EntryReading::entry_reader, crate::specs::EntryReading::by_level))]
fn entry(alloc: Global, tokens: &mut Tokens<'_>) -> Result<Entry, ReadFault>
    ensures { Reads (entries.entry_reader tokens.old) result tokens.new }
{
    let level = integer(alloc, tokens)?;
    if is_condition(&level) {
        drop(level);
        condition_entry(alloc, tokens)
    } else {
        item_entry(level, alloc, tokens)
    }
}
