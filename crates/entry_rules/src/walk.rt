//! The walk over entries: each one after those in it, and the bytes that they take.

ghost use Rattle.std.specs.Prelude.{◌≡◌, ◌+◌, ◌*◌, ◌≤◌, ◌<◌, length, None, IfOk};
ghost use Rattle.source_tree.specs.Clauses.{inside, occurrences};
ghost use Rattle.source_tree.specs.EntryRules.{forest_rules};
ghost use Rattle.source_tree.specs.Integers.{number_of};
ghost use Rattle.source_tree.specs.Levels.{leading_conditions, forest_of};
ghost use Rattle.source_tree.specs.Rooms as rooms;
ghost use Rattle.entry_rules.specs.Checks.{IsFirstFault};
ghost use Rattle.entry_rules.specs.Described.{size_rules};
ghost use Rattle.entry_rules.specs.Trees as spec;
ghost use Rattle.entry_rules.specs.Walk.{HasLevelLast, HasLevels, at_of, redefinable_of};

use crate::described::Described;
use crate::entry::entry_rules;
use crate::position::Position;
use crate::redefinition::{Redefinable, remembered};
use crate::rule::CheckError;
use data_entries::{Sibling, next_item, picture_of};
use source_tree::{Around, Entry, ItemEntry};
use std::alloc::Global;

/// Checks an entry, those in it before it, and its condition names after it. Answers the bytes of all its occurrences.
#[cycle(walk)]
pub fn check_item(
    alloc: Global,
    at: Position,
    one: Sibling<'_>,
    last: Option<Redefinable<'_>>,
) -> Result<u64, CheckError>
    requires level { number_of one.entry.now.level < 100000 }
    requires levels { HasLevels (forest_of one.inner.now) }
    requires last { HasLevelLast last }
    requires nesting { at.nesting + length one.inner.now < 5000 }
    ensures rules { IsFirstFault result (spec.item_rules at one.entry.entry.now (leading_conditions
        one.entry.inner.now) (forest_of one.entry.inner.now) (redefinable_of last.entry)) }
    ensures bytes { IfOk result (λ bytes. bytes
        ≡ spec.extent at.around one.entry.entry.now (forest_of one.entry.inner.now)) }
    ensures bound { IfOk result (λ bytes. bytes ≤ spec.most_extent) }
{
    let within = check_group(alloc, at.below(one.entry, one.inner), one.inner)?;
    let described = describe(alloc, at.around, one, within)?;
    entry_rules(at, &described, one.inner, last)?;
    Ok(described.extent())
}

/// The bytes that an entry takes of its group, of those of all its occurrences: none where it redefines another.
fn taken(entry: &ItemEntry, bytes: u64) -> u64
    ensures value { result ≡ spec.own_bytes entry.now bytes }
    ensures bound { result ≤ bytes }
{
    if entry.redefines.is_some() { 0 } else { bytes }
}

/// The entry, whose inner ones take so many bytes, with the item that its clauses describe, if it keeps the limits of sizes.
fn describe<'a>(
    alloc: Global,
    around: Around,
    one: Sibling<'a>,
    within: u64,
) -> Result<Described<'a>, CheckError>
    requires { within ≡ rooms.room (inside around one.entry.now) (forest_of one.inner.now) }
    ensures rules { IsFirstFault result (size_rules one.entry.entry.now
        (rooms.item_with around one.entry.entry.now (forest_of one.entry.inner.now))) }
    ensures described { IfOk result (λ described.
        spec.DescribesEntry around one.entry.entry.now (forest_of one.entry.inner.now) described) }
{
    let picture = picture_of(alloc, one.entry)?;
    let described = Described::of(around, one.entry, picture, within)?;
    Ok(described)
}

/// Checks the entries of a group. Answers the bytes that they take.
#[cycle(walk)]
fn check_group(alloc: Global, at: Position, entries: &[Entry]) -> Result<u64, CheckError>
    requires levels { HasLevels (forest_of entries.now) }
    requires nesting { at.nesting + length entries.now ≤ 5000 }
    ensures rules { IsFirstFault result (forest_rules (at_of at) None (forest_of entries.now)) }
    ensures bytes { IfOk result (λ bytes. bytes ≡ rooms.room at.around (forest_of entries.now)) }
    ensures bound { IfOk result (λ bytes. bytes ≤ spec.most_extent * length entries.now) }
{
    let mut bytes = 0;
    let mut last = None;
    let mut rest = entries;
    'items: while let Some(one) = next_item(rest) {
        let extent = check_item(alloc, at, one, last)?;
        bytes += taken(one.entry, extent);
        last = remembered(one.entry, extent, last);
        rest = one.next;
    }
    Ok(bytes)
}
