//! The bytes that entries take.

ghost use Rattle.std.specs.Prelude.{◌≡◌, ◌*◌, ◌≤◌, IfOk, if◌then◌else◌};
ghost use Rattle.source_tree.specs.Levels.{forest_of};
ghost use Rattle.source_tree.specs.Clauses as clauses;
ghost use Rattle.source_tree.specs.ClauseRules.{most_item_bytes, most_occurrences};
ghost use Rattle.source_tree.specs.Rooms as spec;
ghost use Rattle.layout.specs.Fits.{Fits};

use data_entries::{editing, elementary, inside, next_item, occurrences, picture_of};
use items::{Item, Kind};
use picture::Picture;
use source_tree::{Around, Entry, ItemEntry};
use std::alloc::{AllocError, Global};

/// An item, and the picture by which it is edited, if it is.
#[derive(Drop)]
pub struct Described {
    pub item: Item,
    pub editing: Option<Picture>,
}

/// The bytes of all occurrences of an item of so many.
pub fn extent(entry: &ItemEntry, length: u32) -> u32
    requires times { clauses.occurrences entry.now ≤ most_occurrences }
    requires most { length ≤ most_item_bytes }
    ensures { result ≡ clauses.occurrences entry.now * length }
{
    occurrences(entry) * length
}

/// The bytes that an entry takes where its item has so many: none of its own where it redefines another.
pub fn taken(entry: &ItemEntry, length: u32) -> u32
    requires times { clauses.occurrences entry.now ≤ most_occurrences }
    requires most { length ≤ most_item_bytes }
    ensures { result
        ≡ (if spec.redefines entry.now then 0 else clauses.occurrences entry.now * length) }
{
    if entry.redefines.is_some() {
        0
    } else {
        extent(entry, length)
    }
}

/// The item of an entry with those in it.
#[cycle(rooms)]
pub fn describe(
    alloc: Global,
    around: Around,
    entry: &ItemEntry,
    inner: &[Entry],
) -> Result<Described, AllocError>
    requires length { (spec.item_with around entry.now (forest_of inner.now)).length
        ≤ most_item_bytes }
    requires fits { Fits (clauses.inside around entry.now) (forest_of inner.now) }
    ensures item { IfOk result
        (λ d. d.item ≡ spec.item_with around entry.now (forest_of inner.now)) }
    ensures editing { IfOk result (λ d. d.editing ≡ clauses.editing_of around entry.now) }
{
    match picture_of(alloc, entry)? {
        Some(picture) => {
            let item = elementary(around, entry, &picture);
            let editing = editing(around, entry, picture);
            Ok(Described { item, editing })
        }
        None => {
            let length = room(alloc, inside(around, entry), inner)?;
            let kind = Kind::Group;
            Ok(Described {
                item: Item { kind, length },
                editing: None,
            })
        }
    }
}

/// The bytes that the entries of a group take.
#[cycle(rooms)]
fn room(alloc: Global, around: Around, entries: &[Entry]) -> Result<u32, AllocError>
    requires most { spec.room around (forest_of entries.now) ≤ most_item_bytes }
    requires fits { Fits around (forest_of entries.now) }
    ensures { IfOk result (λ bytes. bytes ≡ spec.room around (forest_of entries.now)) }
{
    let mut bytes = 0;
    let mut rest = entries;
    'items: while let Some(one) = next_item(rest) {
        let described = describe(alloc, around, one.entry, one.inner)?;
        bytes += taken(one.entry, described.item.length);
        rest = one.next;
    }
    Ok(bytes)
}
