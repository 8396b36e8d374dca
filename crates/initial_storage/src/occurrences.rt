//! The bytes of items, one after another.

ghost use Rattle.std.specs.Prelude.{◌≡◌, ◌+◌, ◌*◌, ◌++◌, [], length, take, drop, OnOk, if◌then◌else◌};
ghost use Rattle.source_tree.specs.Levels.{forest_of};
ghost use Rattle.source_tree.specs.Clauses as clauses;
ghost use Rattle.source_tree.specs.Rooms.{redefines, item_with, extent, room};
ghost use Rattle.source_tree.specs.Starts.{start, initial_bytes};
ghost use Rattle.initial_storage.specs.Fits.{Fits, FitsEntry, HasKind, HasValue};
ghost use Rattle.initial_storage.specs.Occurrences as spec;

use crate::repeat::repeat_from;
use crate::value::write_start;
use data_entries::{Sibling, elementary, inside, next_item, occurrences, picture_of};
use items::{Item, Kind};
use source_tree::{Around, Entry, ItemEntry};
use std::alloc::{AllocError, Global};

/// Puts all occurrences of an item after the bytes that are there.
#[cycle(occurrences)]
pub fn put_item(
    alloc: Global,
    around: Around,
    one: Sibling<'_>,
    out: &mut Vec<u8>,
) -> Result<(), AllocError>
    requires fits { FitsEntry around one.entry.now (forest_of one.inner.now) }
    requires within { Fits (clauses.inside around one.entry.now) (forest_of one.inner.now) }
    ensures bytes { OnOk result (out.new.items ≡ out.old.items
        ++ spec.all_occurrences around one.entry.entry.now (forest_of one.entry.inner.now)) }
    ensures length { OnOk
        result (length out.new.items ≡ length out.old.items + extent around one.entry.entry.now
        (room (clauses.inside around one.entry.entry.now) (forest_of one.entry.inner.now))) }
{
    let begin = out.len();
    put_occurrence(alloc, around, one, out)?;
    repeat_from(out, begin, occurrences(one.entry))
}

/// Writes what the item of an entry holds over the bytes from a place on.
fn start_from(
    alloc: Global,
    item: Item,
    entry: &ItemEntry,
    begin: usize,
    out: &mut Vec<u8>,
) -> Result<(), AllocError>
    requires kind { HasKind item }
    requires value { HasValue item.kind entry.now.value }
    requires length { begin + item.length ≡ length out.old.items }
    ensures bytes { OnOk result (out.new.items ≡ take begin out.old.items
        ++ initial_bytes item entry.now.value (drop begin out.old.items)) }
    ensures length { length out.new.items ≡ length out.old.items }
{
    write_start(alloc, item, entry, &mut out[begin..])
}

/// Puts one occurrence of an item after the bytes that are there. The value of a group goes over the bytes of its items.
#[cycle(occurrences)]
fn put_occurrence(
    alloc: Global,
    around: Around,
    one: Sibling<'_>,
    out: &mut Vec<u8>,
) -> Result<(), AllocError>
    requires fits { FitsEntry around one.entry.now (forest_of one.inner.now) }
    requires within { Fits (clauses.inside around one.entry.now) (forest_of one.inner.now) }
    ensures bytes { OnOk result (out.new.items ≡ out.old.items
        ++ spec.occurrence around one.entry.entry.now (forest_of one.entry.inner.now)) }
    ensures length { OnOk result (length out.new.items ≡ length out.old.items
        + (item_with around one.entry.entry.now (forest_of one.entry.inner.now)).length) }
{
    let begin = out.len();
    match picture_of(alloc, one.entry)? {
        Some(picture) => {
            let item = elementary(around, one.entry, &picture);
            drop(picture);
            out.resize(begin + item.length as usize, b' ')?;
            start_from(alloc, item, one.entry, begin, out)
        }
        None => {
            put_group(alloc, inside(around, one.entry), one.inner, out)?;
            let length = (out.len() - begin) as u32;
            let kind = Kind::Group;
            start_from(alloc, Item { kind, length }, one.entry, begin, out)
        }
    }
}

/// Puts an item that redefines nothing; others set nothing.
#[cycle(occurrences)]
fn put_unless_redefining(
    alloc: Global,
    around: Around,
    one: Sibling<'_>,
    out: &mut Vec<u8>,
) -> Result<(), AllocError>
    requires fits { FitsEntry around one.entry.now (forest_of one.inner.now) }
    requires within { Fits (clauses.inside around one.entry.now) (forest_of one.inner.now) }
    ensures bytes { OnOk result
        (out.new.items ≡ out.old.items ++ (if redefines one.entry.entry.now then []
        else spec.all_occurrences around one.entry.entry.now (forest_of one.entry.inner.now))) }
    ensures length { OnOk result (length out.new.items ≡ length out.old.items
        + (if redefines one.entry.entry.now then 0 else extent around one.entry.entry.now
        (room (clauses.inside around one.entry.entry.now) (forest_of one.entry.inner.now)))) }
{
    if one.entry.redefines.is_some() {
        return Ok(());
    }
    put_item(alloc, around, one, out)
}

/// Puts the items of a group.
#[cycle(occurrences)]
fn put_group(
    alloc: Global,
    around: Around,
    entries: &[Entry],
    out: &mut Vec<u8>,
) -> Result<(), AllocError>
    requires { Fits around (forest_of entries.now) }
    ensures bytes { OnOk result
        (out.new.items ≡ out.old.items ++ start around (forest_of entries.now)) }
    ensures length { OnOk result
        (length out.new.items ≡ length out.old.items + room around (forest_of entries.now)) }
{
    let mut rest = entries;
    'items: while let Some(one) = next_item(rest) {
        put_unless_redefining(alloc, around, one, out)?;
        rest = one.next;
    }
    Ok(())
}
