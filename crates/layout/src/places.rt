//! Where the items of a group stand.

ghost use Rattle.std.specs.Prelude.{◌≡◌, ◌+◌, ◌*◌, ◌≤◌, [], ◌∷◌, ◌++◌, length, IfOk, OnOk, if◌then◌else◌};
ghost use Rattle.source_tree.specs.Levels.{forest_of};
ghost use Rattle.source_tree.specs.Clauses as clauses;
ghost use Rattle.source_tree.specs.ClauseRules.{most_item_bytes, most_occurrences};
ghost use Rattle.source_tree.specs.Rooms.{item_with, redefines, room};
ghost use Rattle.source_tree.specs.Places as tree;
ghost use Rattle.layout.specs.Fits.{Fits, FitsEntry, most_offset};
ghost use Rattle.layout.specs.Placing as spec;

use crate::placed::PlacedItem;
use crate::rooms::{describe, taken};
use data_entries::{Sibling, inside, next_item, number};
use source_tree::{Around, Dimension, Entry, ItemEntry};
use sqlite_items::Items;
use std::alloc::{AllocError, Global};

pub(crate) const NOTHING_AROUND: Around = Around {
    usage: None,
    sign: None,
};

/// What stands around entries: the clauses of their groups, their area, and the tables that hold them.
#[derive(Clone, Copy)]
pub struct Surroundings<'a> {
    pub around: Around,
    pub area: u32,
    pub dimensions: &'a [Dimension],
}

/// The dimensions of an item of so many bytes: those around it, and its own where it has OCCURS.
fn dimensions_of(
    alloc: Global,
    around: &[Dimension],
    entry: &ItemEntry,
    length: u32,
) -> Result<Items<Dimension>, AllocError>
    requires { clauses.occurrences entry.now ≤ most_occurrences }
    ensures { IfOk result
        (λ dimensions. dimensions ≡ tree.with_dimension entry.now.occurs length around.now) }
{
    let mut dimensions = Vec::from_slice(alloc, around)?;
    if let Some(count) = &entry.occurs {
        dimensions.push(Dimension {
            stride: length,
            count: number(count),
        })?;
    }
    Ok(Items::from_vec(dimensions))
}

/// Where an item begins: at the next byte, or where the last one does that redefines nothing.
fn beginning(entry: &ItemEntry, last: u32, next: u32) -> u32
    ensures { result ≡ (if redefines entry.now then last else next) }
{
    if entry.redefines.is_some() {
        last
    } else {
        next
    }
}

/// Places an item without those in it. Answers its bytes.
fn place_own(
    alloc: Global,
    around: Surroundings<'_>,
    one: Sibling<'_>,
    offset: u32,
    out: &mut Vec<PlacedItem>,
) -> Result<u32, AllocError>
    requires fits { FitsEntry around.around one.entry.now (forest_of one.inner.now) }
    requires within { Fits (clauses.inside around.around one.entry.now) (forest_of one.inner.now) }
    ensures items { OnOk result (out.new.items ≡ out.old.items
        ++ spec.own_item around.entry.around around.entry.area around.entry.dimensions.now
        one.entry.entry.now (item_with around.entry.around one.entry.entry.now
        (forest_of one.entry.inner.now)) offset ∷ []) }
    ensures length { IfOk result (λ length. length ≡ (item_with around.entry.around
        one.entry.entry.now (forest_of one.entry.inner.now)).length) }
{
    let described = describe(alloc, around.around, one.entry, one.inner)?;
    let length = described.item.length;
    let dimensions = dimensions_of(alloc, around.dimensions, one.entry, length)?;
    out.push(PlacedItem {
        item: described.item,
        editing: described.editing,
        area: around.area,
        offset,
        dimensions,
    })?;
    Ok(length)
}

/// Places an item and those in it. Answers the bytes that it takes.
#[cycle(places)]
pub fn place_item(
    alloc: Global,
    around: Surroundings<'_>,
    one: Sibling<'_>,
    offset: u32,
    out: &mut Vec<PlacedItem>,
) -> Result<u32, AllocError>
    requires fits { FitsEntry around.around one.entry.now (forest_of one.inner.now) }
    requires within { Fits (clauses.inside around.around one.entry.now) (forest_of one.inner.now) }
    requires offset { offset + 65536 * length one.inner.now ≤ most_offset }
    ensures items { OnOk result
        (out.new.items ≡ out.old.items ++ spec.entry_items around.entry.around around.entry.area
        around.entry.dimensions.now one.entry.entry.now (forest_of one.entry.inner.now) offset) }
    ensures bytes { IfOk result (λ bytes. bytes ≡ spec.occupied_bytes around.entry.around
        one.entry.entry.now (forest_of one.entry.inner.now)) }
{
    let length = place_own(alloc, around, one, offset, out)?;
    let dimensions = dimensions_of(alloc, around.dimensions, one.entry, length)?;
    let within = Surroundings {
        around: inside(around.around, one.entry),
        area: around.area,
        dimensions: dimensions.as_slice(),
    };
    let placed = place_group(alloc, within, one.inner, offset, out);
    drop(dimensions);
    placed?;
    Ok(taken(one.entry, length))
}

/// Places the items of a group that begins at this offset. One that redefines stands where the last one stands that doesn't.
#[cycle(places)]
fn place_group(
    alloc: Global,
    around: Surroundings<'_>,
    entries: &[Entry],
    start: u32,
    out: &mut Vec<PlacedItem>,
) -> Result<(), AllocError>
    requires fits { Fits around.around (forest_of entries.now) }
    requires most { room around.around (forest_of entries.now) ≤ most_item_bytes }
    requires offset { start + 65536 * length entries.now ≤ most_offset }
    ensures { OnOk result (out.new.items ≡ out.old.items ++ spec.group_items around.entry.around
        around.entry.area around.entry.dimensions.now start start (forest_of entries.now)) }
{
    let mut last = start;
    let mut here = start;
    let mut rest = entries;
    'items: while let Some(one) = next_item(rest) {
        last = beginning(one.entry, last, here);
        here += place_item(alloc, around, one, last, out)?;
        rest = one.next;
    }
    Ok(())
}
