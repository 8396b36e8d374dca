//! Rule 43: level numbers, and condition names before all items (COBOL-85, Nucleus, "Level-numbers"); rule 69: the number
//! of entries.

ghost use Rattle.std.specs.Prelude.{◌≡◌, ◌≤◌, ◌<◌, length, drop, OnOk};
ghost use Rattle.source_tree.specs.Broken.{each};
ghost use Rattle.source_tree.specs.EntryRules as rules;
ghost use Rattle.source_tree.specs.Integers.{number_of};
ghost use Rattle.source_tree.specs.Levels.{leading_conditions, forest_of};
ghost use Rattle.entry_rules.specs.Checks.{IsFirstBreach};
ghost use Rattle.entry_rules.specs.Walk.{HasLevels};

use crate::rule::{BrokenRule, Rule};
use data_entries::number;
use source_tree::{Entry, Place};

/// The greatest level of an item in a record.
const MOST_LEVEL: u32 = 49;

/// The level of an item that stands by itself.
const INDEPENDENT: u32 = 77;

/// The most entries of working storage and of the records of files together (own choice).
pub const MOST_ENTRIES: usize = 5_000;

/// There are no more entries than that.
pub fn count_rules(most: usize, entries: &[Entry]) -> Result<(), BrokenRule>
    ensures rules { IsFirstBreach result (each rules.excess (drop most entries.now)) }
    ensures few { OnOk result (length entries.now ≤ most) }
{
    match entries.get(most) {
        Some(entry) => Rule::Limit.broken_if(true, place_of(entry)),
        None => Ok(()),
    }
}

/// Each level number is one.
pub fn level_rules(entries: &[Entry]) -> Result<(), BrokenRule>
    ensures rules { IsFirstBreach result (each rules.level_rules entries.now) }
    ensures levels { OnOk result (HasLevels (forest_of entries.now)) }
{
    for entry in entries {
        level_rule(entry)?;
    }
    Ok(())
}

/// No condition name comes before all items.
pub fn home_rules(entries: &[Entry]) -> Result<(), BrokenRule>
    ensures { IsFirstBreach result (each rules.homeless (leading_conditions entries.now)) }
{
    match entries {
        [Entry::Condition(one), ..] => Rule::LevelOrder.broken_if(true, one.name.place),
        _ => Ok(()),
    }
}

/// 01 to 49 and 77.
fn is_level(level: u32) -> bool
    ensures { result ≡ rules.is_level level }
{
    (1 <= level && level <= MOST_LEVEL) || level == INDEPENDENT
}

fn place_of(entry: &Entry) -> Place
    ensures { result ≡ rules.place_of_entry entry.now }
{
    match entry {
        Entry::Item(one) => one.level.place,
        Entry::Condition(one) => one.name.place,
    }
}

fn level_rule(entry: &Entry) -> Result<(), BrokenRule>
    ensures { IsFirstBreach result (rules.level_rules entry.now) }
{
    match entry {
        Entry::Item(one) => {
            Rule::LevelOrder.broken_if(!is_level(number(&one.level)), one.level.place)
        }
        Entry::Condition(_) => Ok(()),
    }
}
