//! What INITIALIZE puts into the bytes of items, one after another: none where a byte stays.

ghost use Rattle.std.specs.Prelude.{◌≡◌, ◌≤◌, ◌++◌, [], ◌∷◌, None, length, take, drop, OnOk, IfOk, if◌then◌else◌};
ghost use Rattle.std.specs.List.{repeat};
ghost use Rattle.items.specs.Items.{IsItem};
ghost use Rattle.source_tree.specs.Levels.{forest_of};
ghost use Rattle.source_tree.specs.Literals.{constant_of};
ghost use Rattle.source_tree.specs.Clauses as clauses;
ghost use Rattle.source_tree.specs.ClauseRules.{most_item_bytes};
ghost use Rattle.source_tree.specs.Rooms.{redefines, item_with};
ghost use Rattle.source_tree.specs.Starts.{or_initial};
ghost use Rattle.source_tree.specs.Moving.{moved_by};
ghost use Rattle.source_tree.specs.Initializing as spec;
ghost use Rattle.initial_storage.specs.Fits.{Fits, FitsEntry};
ghost use Rattle.initial_storage.specs.Formed.{IsEditing, HasForm, AreFormed};

use data_entries::{Sibling, editing, elementary, inside, next_item, occurrences, picture_of};
use edited_move::{edit_into, move_into};
use items::{Figurative, Item, Kind, Taken, initialize};
use picture::Picture;
use source_tree::{Around, Entry, ItemEntry};
use std::alloc::{AllocError, Global};

/// Puts an elementary item that is named.
pub fn put_initialized(
    alloc: Global,
    item: Item,
    editing: &Option<Picture>,
    out: &mut Vec<Option<u8>>,
) -> Result<(), AllocError>
    requires form { IsItem item }
    requires editing { IsEditing item editing.now }
    ensures { OnOk result (out.new.items ≡ out.old.items ++ spec.initial_pattern editing.now item) }
{
    let mut bytes = vec![in alloc; b' '; item.length as usize]?;
    write_initialized(item, editing, &mut bytes);
    put_new(&bytes, out)
}

/// Puts the items of a group.
#[cycle(patterns)]
pub fn put_within(
    alloc: Global,
    around: Around,
    entries: &[Entry],
    out: &mut Vec<Option<u8>>,
) -> Result<(), AllocError>
    requires fits { Fits around (forest_of entries.now) }
    requires formed { AreFormed around (forest_of entries.now) }
    ensures { OnOk result
        (out.new.items ≡ out.old.items ++ spec.entries_pattern around (forest_of entries.now)) }
{
    let mut rest = entries;
    'items: while let Some(one) = next_item(rest) {
        put_unless_redefining(alloc, around, one, out)?;
        rest = one.next;
    }
    Ok(())
}

/// Zero for numbers, edited or not, and spaces for others.
fn initial_constant(kind: Kind) -> Figurative
    ensures { result ≡ constant_of (spec.initial_figurative kind) }
{
    match kind {
        Kind::Numeric(_) | Kind::NumericEdited { .. } => Figurative::Zero,
        _ => Figurative::Space,
    }
}

/// Writes what INITIALIZE moves into an item, over bytes of its length.
fn write_initialized(item: Item, editing: &Option<Picture>, bytes: &mut [u8])
    requires form { IsItem item }
    requires editing { IsEditing item editing.now }
    requires length { length bytes.old ≡ item.length }
    ensures { bytes.new
        ≡ or_initial item (moved_by editing.now item (spec.initial_sender item.kind)) }
{
    initialize(item, bytes);
    let taken = Taken::Figurative(initial_constant(item.kind));
    let _ = match editing {
        None => move_into(taken, &[], item, bytes),
        Some(picture) => edit_into(taken, &[], item, picture, bytes),
    };
}

/// Puts bytes that are new.
fn put_new(bytes: &[u8], out: &mut Vec<Option<u8>>) -> Result<(), AllocError>
    ensures { OnOk result (out.new.items ≡ out.old.items ++ spec.whole_pattern bytes.now) }
{
    for byte in bytes {
        out.push(Some(*byte))?;
    }
    Ok(())
}

/// Puts so many bytes that stay.
fn put_old(count: u32, out: &mut Vec<Option<u8>>) -> Result<(), AllocError>
    ensures { OnOk result (out.new.items ≡ out.old.items ++ repeat count (None ∷ [])) }
{
    for _turn in 0..count {
        out.push(None)?;
    }
    Ok(())
}

/// Copies the bytes from a place to the end, so that they stand there so many times.
fn repeat_pattern(out: &mut Vec<Option<u8>>, begin: usize, times: u32) -> Result<(), AllocError>
    requires begin { begin ≤ length out.old.items }
    requires some { 1 ≤ times }
    ensures { OnOk result
        (out.new.items ≡ take begin out.old.items ++ repeat times (drop begin out.old.items)) }
{
    let end = out.len();
    for _turn in 1..times {
        out.extend_from_within(begin..end)?;
    }
    Ok(())
}

/// Puts an elementary item; a FILLER stays.
fn put_elementary(
    alloc: Global,
    around: Around,
    entry: &ItemEntry,
    picture: Picture,
    out: &mut Vec<Option<u8>>,
) -> Result<(), AllocError>
    requires length { (clauses.elementary around entry.now picture).length ≤ most_item_bytes }
    requires form { HasForm (clauses.elementary around entry.now picture)
        (clauses.editing_by (clauses.kind_of around entry.now picture) picture) }
    ensures { OnOk result (out.new.items ≡ out.old.items
        ++ spec.unless_filler entry.now.name (clauses.elementary around entry.now picture)
        (spec.initial_pattern (clauses.editing_by (clauses.kind_of around entry.now picture)
        picture) (clauses.elementary around entry.now picture))) }
{
    let item = elementary(around, entry, &picture);
    let editing = editing(around, entry, picture);
    match entry.name {
        None => put_old(item.length, out),
        Some(_) => put_initialized(alloc, item, &editing, out),
    }
}

/// Puts one occurrence of an item in a group.
#[cycle(patterns)]
fn put_one(
    alloc: Global,
    around: Around,
    one: Sibling<'_>,
    out: &mut Vec<Option<u8>>,
) -> Result<(), AllocError>
    requires fits { FitsEntry around one.entry.now (forest_of one.inner.now) }
    requires within { Fits (clauses.inside around one.entry.now) (forest_of one.inner.now) }
    requires form { HasForm (item_with around one.entry.now (forest_of one.inner.now))
        (clauses.editing_of around one.entry.now) }
    requires formed { AreFormed (clauses.inside around one.entry.now) (forest_of one.inner.now) }
    ensures { OnOk
        result (out.new.items ≡ out.old.items ++ spec.entry_pattern around one.entry.entry.now
        (item_with around one.entry.entry.now (forest_of one.entry.inner.now)) (spec.entries_pattern
        (clauses.inside around one.entry.entry.now) (forest_of one.entry.inner.now))) }
{
    match picture_of(alloc, one.entry)? {
        Some(picture) => put_elementary(alloc, around, one.entry, picture, out),
        None => put_within(alloc, inside(around, one.entry), one.inner, out),
    }
}

/// Puts all occurrences of an item in a group.
#[cycle(patterns)]
fn put_all(
    alloc: Global,
    around: Around,
    one: Sibling<'_>,
    out: &mut Vec<Option<u8>>,
) -> Result<(), AllocError>
    requires fits { FitsEntry around one.entry.now (forest_of one.inner.now) }
    requires within { Fits (clauses.inside around one.entry.now) (forest_of one.inner.now) }
    requires form { HasForm (item_with around one.entry.now (forest_of one.inner.now))
        (clauses.editing_of around one.entry.now) }
    requires formed { AreFormed (clauses.inside around one.entry.now) (forest_of one.inner.now) }
    ensures { OnOk result (out.new.items ≡ out.old.items ++ repeat
        (clauses.occurrences one.entry.entry.now) (spec.entry_pattern around one.entry.entry.now
        (item_with around one.entry.entry.now (forest_of one.entry.inner.now)) (spec.entries_pattern
        (clauses.inside around one.entry.entry.now) (forest_of one.entry.inner.now)))) }
{
    let begin = out.len();
    put_one(alloc, around, one, out)?;
    repeat_pattern(out, begin, occurrences(one.entry))
}

/// Puts an item that redefines nothing; others are left out.
#[cycle(patterns)]
fn put_unless_redefining(
    alloc: Global,
    around: Around,
    one: Sibling<'_>,
    out: &mut Vec<Option<u8>>,
) -> Result<(), AllocError>
    requires fits { FitsEntry around one.entry.now (forest_of one.inner.now) }
    requires within { Fits (clauses.inside around one.entry.now) (forest_of one.inner.now) }
    requires form { HasForm (item_with around one.entry.now (forest_of one.inner.now))
        (clauses.editing_of around one.entry.now) }
    requires formed { AreFormed (clauses.inside around one.entry.now) (forest_of one.inner.now) }
    ensures { OnOk result
        (out.new.items ≡ out.old.items ++ (if redefines one.entry.entry.now then [] else repeat
        (clauses.occurrences one.entry.entry.now) (spec.entry_pattern around one.entry.entry.now
        (item_with around one.entry.entry.now (forest_of one.entry.inner.now)) (spec.entries_pattern
        (clauses.inside around one.entry.entry.now) (forest_of one.entry.inner.now))))) }
{
    if one.entry.redefines.is_some() {
        return Ok(());
    }
    put_all(alloc, around, one, out)
}
