//! Where the items of working storage stand, and how many areas it has.

ghost use Rattle.std.specs.Prelude.{◌≡◌, ◌-◌, ◌≤◌, ◌++◌, [], length, OnOk, if◌then◌else◌};
ghost use Rattle.source_tree.specs.Levels.{forest_of};
ghost use Rattle.source_tree.specs.Clauses.{nothing_around};
ghost use Rattle.source_tree.specs.EntryRules.{entry_rules, most_entries};
ghost use Rattle.source_tree.specs.Records as tree;
ghost use Rattle.source_tree.specs.Rooms.{redefines};
ghost use Rattle.layout.specs.Fits.{Fits};
ghost use Rattle.layout.specs.Placing as spec;

use crate::placed::PlacedItem;
use crate::places::{NOTHING_AROUND, Surroundings, place_item};
use data_entries::next_item;
use source_tree::{Entry, ItemEntry};
use std::alloc::{AllocError, Global};

/// Places the items of each 01 and 77. One that redefines has the area of the last one that doesn't.
pub(crate) fn place_storage(
    alloc: Global,
    entries: &[Entry],
    out: &mut Vec<PlacedItem>,
) -> Result<(), AllocError>
    requires fits { Fits nothing_around (forest_of entries.now) }
    requires most { length entries.now ≤ most_entries }
    ensures { OnOk result
        (out.new.items ≡ out.old.items ++ spec.storage_items 0 (forest_of entries.now)) }
{
    let mut areas: u32 = 0;
    let mut rest = entries;
    'items: while let Some(one) = next_item(rest) {
        let area = area_of(one.entry, areas);
        let around = Surroundings {
            around: NOTHING_AROUND,
            area,
            dimensions: &[],
        };
        place_item(alloc, around, one, 0, out)?;
        areas = area + 1;
        rest = one.next;
    }
    Ok(())
}

/// How many areas working storage of entries that keep the rules has: one for each 01 and 77 that redefines nothing.
pub fn storage_areas(entries: &[Entry]) -> u32
    requires { entry_rules entries.now ≡ [] }
    ensures value { result ≡ tree.storage_areas entries.now }
    ensures most { result ≤ most_entries }
{
    let mut areas = 0;
    let mut rest = entries;
    'areas: while let Some(one) = next_item(rest) {
        if one.entry.redefines.is_none() {
            areas += 1;
        }
        rest = one.next;
    }
    areas
}

/// The area of a 01 or 77 with so many areas before it: a new one, or the last one where it redefines.
fn area_of(entry: &ItemEntry, areas: u32) -> u32
    ensures { result ≡ (if redefines entry.now then areas - 1 else areas) }
{
    if entry.redefines.is_some() {
        areas.saturating_sub(1)
    } else {
        areas
    }
}
