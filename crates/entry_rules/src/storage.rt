//! The rules of working storage as a whole; rule 48 of its areas together.

ghost use Rattle.std.specs.Prelude.{◌≡◌, ◌+◌, ◌≤◌, ◌++◌, ◌*◌, ◌<◌, [], false, None, length, ◌^◌, sum, IfOk, OnOk, if◌then◌else◌, max};
ghost use Rattle.source_tree.specs.EntryRules as rules;
ghost use Rattle.source_tree.specs.Levels.{forest_of};
ghost use Rattle.source_tree.specs.Rooms.{area_lengths};
ghost use Rattle.entry_rules.specs.Areas as spec;
ghost use Rattle.entry_rules.specs.Checks.{IsFirstBreach, IsFirstFault};
ghost use Rattle.entry_rules.specs.Trees.{most_extent};
ghost use Rattle.entry_rules.specs.Walk.{HasLevels, at_of};

use crate::levels::{MOST_ENTRIES, count_rules, home_rules, level_rules};
use crate::position::Position;
use crate::redefinition::remembered;
use crate::rule::{BrokenRule, CheckError, Rule};
use crate::walk::check_item;
use data_entries::next_item;
use source_tree::{Entry, ItemEntry, Place};
use std::alloc::Global;

/// The most bytes of working storage and of record areas together (own choice).
pub const MOST_STORAGE: u64 = 1_000_000;

/// Whether the entries of working storage keep the rules of entries: 43 to 48, 55 and 69. Otherwise the answer is the
/// first that they break, in the order of the definition: the number of entries, level numbers, each entry after those in
/// it, and the bytes of all areas; those are the answer of entries that are accepted.
pub fn check_entries(alloc: Global, entries: &[Entry]) -> Result<u64, CheckError>
    // The answer is the definition's: none is broken, or this is the first, unless memory runs out.
    ensures rules { IsFirstFault result (rules.entry_rules entries.now) }
    ensures bytes { IfOk result (λ bytes. bytes ≡ sum (area_lengths (forest_of entries.now))) }
{
    count_rules(MOST_ENTRIES, entries)?;
    level_rules(entries)?;
    home_rules(entries)?;
    check_storage(alloc, entries)
}

/// The last area so far: where the 01 or 77 that begins it stands, and the bytes of the longest one that stands there.
#[derive(Clone, Copy)]
struct Area {
    place: Place,
    longest: u64,
}

/// The areas so far.
#[derive(Clone, Copy)]
struct Areas {
    /// The bytes of those before the last one.
    before: u64,
    last: Option<Area>,
    /// Where the first area stands that goes past the limit, except for the last one.
    past: Option<Place>,
}

impl Area {
    /// The area as it is after an entry of so many bytes that redefines.
    fn redefined(self, bytes: u64) -> Area
        ensures { result ≡ record { place = self.place; longest = max self.longest bytes } }
    {
        Area {
            place: self.place,
            longest: self.longest.max(bytes),
        }
    }

    /// Where it stands, if it goes past the limit with so many bytes of areas before it.
    fn past(self, before: u64) -> Option<Place>
        requires { before + self.longest < 2 ^ 64 }
        ensures { result ≡ spec.past_in before self }
    {
        if before + self.longest > MOST_STORAGE {
            Some(self.place)
        } else {
            None
        }
    }
}

impl Areas {
    fn none() -> Areas
        ensures { result ≡ spec.no_areas }
    {
        Areas {
            before: 0,
            last: None,
            past: None,
        }
    }

    /// The first area that goes past the limit.
    fn first_past(self) -> Option<Place>
        requires { spec.bytes_in self < 2 ^ 64 }
        ensures { result ≡ spec.first_past self }
    {
        match (self.past, self.last) {
            (None, Some(area)) => area.past(self.before),
            (past, _) => past,
        }
    }

    /// The areas after a 01 or 77 of so many bytes. One that redefines stands in the last area.
    fn with(self, entry: &ItemEntry, bytes: u64) -> Areas
        requires { spec.bytes_in self + bytes < 2 ^ 64 }
        ensures { result ≡ spec.with self entry.now bytes }
    {
        if entry.redefines.is_some() {
            return Areas {
                before: self.before,
                last: self.last.map(|area| area.redefined(bytes)),
                past: self.past,
            };
        }
        Areas {
            before: self.bytes(),
            last: Some(Area {
                place: entry.level.place,
                longest: bytes,
            }),
            past: self.first_past(),
        }
    }

    /// The bytes of all of them.
    fn bytes(self) -> u64
        requires { spec.bytes_in self < 2 ^ 64 }
        ensures { result ≡ spec.bytes_in self }
    {
        self.before + self.last.map_or(0, |area| area.longest)
    }

    /// No area goes past the limit.
    fn rules(self) -> Result<(), BrokenRule>
        requires { spec.bytes_in self < 2 ^ 64 }
        ensures { IsFirstBreach result (spec.past_rules (spec.first_past self)) }
    {
        match self.first_past() {
            Some(place) => Rule::Size.broken_if(true, place),
            None => Ok(()),
        }
    }
}

/// The rules of each entry, and then of the areas together. Answers the bytes of all areas.
fn check_storage(alloc: Global, entries: &[Entry]) -> Result<u64, CheckError>
    requires levels { HasLevels (forest_of entries.now) }
    requires few { length entries.now ≤ rules.most_entries }
    ensures rules { IsFirstFault result (rules.forest_rules (rules.outermost false) None
        (forest_of entries.now) ++ rules.storage_rules 0 (forest_of entries.now)) }
    ensures bytes { IfOk result (λ bytes. bytes ≡ sum (area_lengths (forest_of entries.now))) }
{
    let mut areas = Areas::none();
    let mut last = None;
    let mut rest = entries;
    'items: while let Some(one) = next_item(rest) {
        let bytes = check_item(alloc, Position::outermost(false), one, last)?;
        areas = areas.with(one.entry, bytes);
        last = remembered(one.entry, bytes, last);
        rest = one.next;
    }
    areas.rules()?;
    Ok(areas.bytes())
}
