//! The pairs of a row leave and come to the trees of the alternate keys.
ghost use Rattle.std.specs.Prelude.{◌≡◌, ◌≤◌, ◌<◌, ◌+◌, ◌*◌, true, Err, None, IsSome, length, OnOk, IfOk, IfErr};
ghost use Rattle.pages.specs.Pages.{is_spent, committed_of, sectors_of, changed_pages_of};
ghost use Rattle.pages.specs.Use.{free_count};
ghost use Rattle.btree.specs.Calls.{pages_on};
ghost use Rattle.btree.specs.Entries.{entry_with, with_new_entry, without_entry};
ghost use Rattle.btree.specs.Results.{FewChanged};
ghost use Rattle.records.specs.Stores.{spec_of, IsKey};
ghost use Rattle.volume_format.specs.Grows.{IsTreeAmong};
ghost use Rattle.volume_format.specs.Trees.{layout_under};
ghost use Rattle.alternate_keys.specs.Among.{OnAmong};
ghost use Rattle.row_trees.specs.Calls.{EditsPages};
ghost use Rattle.alternate_keys.specs.Faults.{IsReadFault, IsWriteFault};
ghost use Rattle.alternate_keys.specs.Moved.{HasValues, pair_entry, old_key, entries_after, MayMove, PairsMayMove, OnPairMoves};
ghost use Rattle.alternate_keys.specs.Placed.{HaveBecome};

use crate::enter::insert_among;
use crate::file_tree::file_tree;
use crate::leave::remove_among;
use crate::old_row::{is_changed, old_pair};
use crate::row_move::RowMove;
use crate::row_verb::RowVerb;
use crate::search_keys::pair_bytes;
use btree::Tree;
use file_bytes::part_of;
use pages::PageMap;
use records::{FileSpec, KeyOfReference, StoreFault};
use station::Device;
use std::alloc::Global;

/// Moves the pairs of a row in the trees of the alternate keys. The other trees stay. The answer is the pages of their roots.
pub(crate) fn move_pairs<D: Device>(
    alloc: Global,
    pages: &mut PageMap,
    device: &mut D,
    file: &FileSpec,
    listing: &[u8],
    row_move: RowMove<'_>,
) -> Result<Vec<u32>, StoreFault>
    requires sectors { sectors_of pages.old ≤ D.sectors device.old }
    requires listing { length listing.now ≡ 83 }
    requires values { HasValues row_move.verb (spec_of file.now) row_move.old_value.now
        row_move.bytes.now }
    ensures edits { EditsPages D.Device (result ≡ Err StoreFault.Device) pages.old device.old
        pages.new device.new }
    ensures came { OnPairMoves D.Device row_move.entry.verb (spec_of file.now) pages.old device.old
        listing.now row_move.entry.old_value.now row_move.entry.bytes.now row_move.entry.arrival
        (λ held after left right trees. IfOk result (λ roots. HaveBecome after
        (pages_on D.Device pages.new device.old) left right trees (length trees) roots.items)) }
    ensures few { OnPairMoves D.Device row_move.entry.verb (spec_of file.now)
        pages.old device.old listing.now row_move.entry.old_value.now
        row_move.entry.bytes.now row_move.entry.arrival (λ held after left right trees.
        OnOk result (FewChanged (84 * length file.now.alternates.items) pages.old pages.new)) }
    ensures room { OnPairMoves D.Device row_move.entry.verb (spec_of file.now) pages.old device.old
        listing.now row_move.entry.old_value.now row_move.entry.bytes.now row_move.entry.arrival
        (λ held after left right trees. result ≡ Err StoreFault.Full → free_count (committed_of
        pages.old) < length (changed_pages_of pages.old) + 84 * length file.now.alternates.items) }
    ensures damaged { OnPairMoves D.Device row_move.entry.verb (spec_of file.now)
        pages.old device.old listing.now row_move.entry.old_value.now row_move.entry.bytes.now
        row_move.entry.arrival (λ held after left right trees. PairsMayMove row_move.entry.verb
        held row_move.entry.old_value.now row_move.entry.bytes.now row_move.entry.arrival
        → result ≡ Err StoreFault.Damaged → ⊥) }
    ensures count { IfOk result (λ roots. length roots.items ≡ length file.now.alternates.items) }
    ensures spent { result ≡ Err StoreFault.Spent → is_spent pages.old ≡ true }
    ensures cause { IfErr result IsWriteFault }
{
    let mut roots = Vec::new(alloc);
    let count = file.alternates.len() as u8;
    for key in 0..count {
        let mut tree = file_tree(alloc, file, KeyOfReference::Alternate(key), listing);
        move_pair(alloc, &mut tree, pages, device, file, key, row_move)?;
        roots.push(tree.root())?;
    }
    Ok(roots)
}

/// Takes the pair of a row out of the tree of an alternate key. The other trees stay.
fn take_pair<D: Device>(
    alloc: Global,
    tree: &mut Tree,
    pages: &mut PageMap,
    device: &mut D,
    file: &FileSpec,
    key: u8,
    old: &[u8],
) -> Result<(), StoreFault>
    requires sectors { sectors_of pages.old ≤ D.sectors device.old }
    requires key { IsKey (spec_of file.now) (KeyOfReference.Alternate key) }
    requires old { length old.now ≡ file.now.record_length + 8 * length file.now.alternates.items }
    ensures edits { EditsPages D.Device (result ≡ Err StoreFault.Device) pages.old device.old
        pages.new device.new }
    ensures taken { OnAmong D.Device tree.old pages.old device.old (λ left right entries.
        OnOk result (IsTreeAmong (pages_on D.Device pages.new device.old) left right tree.new
        (without_entry entries (old_key (spec_of file.now) key old.now)))) }
    ensures damaged { OnAmong D.Device tree.old pages.old device.old
        (λ left right entries. IsSome (entry_with entries (old_key (spec_of file.now) key old.now))
        → result ≡ Err StoreFault.Damaged → ⊥) }
    ensures few { OnAmong D.Device tree.old pages.old device.old
        (λ left right entries. OnOk result (FewChanged 42 pages.old pages.new)) }
    ensures layout { tree.new.layout ≡ tree.old.layout }
    ensures spent { result ≡ Err StoreFault.Spent → is_spent pages.old ≡ true }
    ensures cause { IfErr result IsReadFault }
{
    let at = old_pair(alloc, file, key, old)?;
    remove_among(tree, pages, device, &at)
}

/// The pair of a record with an arrival under an alternate key.
#[derive(Clone, Copy)]
struct NewPair<'a> {
    key: u8,
    arrival: u64,
    bytes: &'a [u8],
}

/// Puts the pair of a record with an arrival into the tree of an alternate key. The other trees stay. The volume is damaged if the pair
/// is there.
fn give_pair<D: Device>(
    alloc: Global,
    tree: &mut Tree,
    pages: &mut PageMap,
    device: &mut D,
    file: &FileSpec,
    pair: NewPair<'_>,
) -> Result<(), StoreFault>
    requires sectors { sectors_of pages.old ≤ D.sectors device.old }
    requires key { IsKey (spec_of file.now) (KeyOfReference.Alternate pair.key) }
    requires layout { tree.old.layout
        ≡ layout_under (spec_of file.now) (KeyOfReference.Alternate pair.key) }
    requires bytes { length pair.bytes.now ≡ file.now.record_length }
    ensures edits { EditsPages D.Device (result ≡ Err StoreFault.Device) pages.old device.old
        pages.new device.new }
    ensures given { OnAmong D.Device
        tree.old pages.old device.old (λ left right entries. OnOk result (IsTreeAmong
        (pages_on D.Device pages.new device.old) left right tree.new (with_new_entry entries
        (pair_entry (spec_of file.now) pair.entry.key pair.entry.bytes.now pair.entry.arrival)))) }
    ensures damaged { OnAmong D.Device tree.old pages.old device.old
        (λ left right entries. entry_with entries (pair_entry (spec_of file.now) pair.entry.key
        pair.entry.bytes.now pair.entry.arrival).key ≡ None → result ≡ Err StoreFault.Damaged → ⊥) }
    ensures few { OnAmong D.Device tree.old pages.old device.old
        (λ left right entries. FewChanged 42 pages.old pages.new) }
    ensures room { OnAmong
        D.Device tree.old pages.old device.old (λ left right entries. result ≡ Err StoreFault.Full
        → free_count (committed_of pages.old) < length (changed_pages_of pages.old) + 42) }
    ensures layout { tree.new.layout ≡ tree.old.layout }
    ensures spent { result ≡ Err StoreFault.Spent → is_spent pages.old ≡ true }
    ensures cause { IfErr result IsWriteFault }
{
    let place = file.key_place(KeyOfReference::Alternate(pair.key));
    let at = pair_bytes(alloc, part_of(place, pair.bytes), pair.arrival)?;
    let prime = file.key_place(KeyOfReference::Prime);
    if insert_among(tree, pages, device, &at, part_of(prime, pair.bytes))? {
        Ok(())
    } else {
        Err(StoreFault::Damaged)
    }
}

/// Moves the pair of a row in the tree of an alternate key: the new one comes, the old one leaves, or both if the record has another
/// value. The other trees stay.
fn move_pair<D: Device>(
    alloc: Global,
    tree: &mut Tree,
    pages: &mut PageMap,
    device: &mut D,
    file: &FileSpec,
    key: u8,
    row_move: RowMove<'_>,
) -> Result<(), StoreFault>
    requires sectors { sectors_of pages.old ≤ D.sectors device.old }
    requires key { IsKey (spec_of file.now) (KeyOfReference.Alternate key) }
    requires layout { tree.old.layout
        ≡ layout_under (spec_of file.now) (KeyOfReference.Alternate key) }
    requires values { HasValues row_move.verb (spec_of file.now) row_move.old_value.now
        row_move.bytes.now }
    ensures edits { EditsPages D.Device (result ≡ Err StoreFault.Device) pages.old device.old
        pages.new device.new }
    ensures moved { OnAmong D.Device tree.old pages.old device.old
        (λ left right entries. OnOk result (IsTreeAmong (pages_on D.Device pages.new device.old)
        left right tree.new (entries_after row_move.entry.verb (spec_of file.now) key
        row_move.entry.old_value.now row_move.entry.bytes.now row_move.entry.arrival entries))) }
    ensures damaged { OnAmong D.Device tree.old pages.old
        device.old (λ left right entries. MayMove row_move.entry.verb (spec_of file.now) key
        row_move.entry.old_value.now row_move.entry.bytes.now row_move.entry.arrival entries
        → result ≡ Err StoreFault.Damaged → ⊥) }
    ensures few { OnAmong D.Device tree.old pages.old device.old
        (λ left right entries. OnOk result (FewChanged 84 pages.old pages.new)) }
    ensures room { OnAmong
        D.Device tree.old pages.old device.old (λ left right entries. result ≡ Err StoreFault.Full
        → free_count (committed_of pages.old) < length (changed_pages_of pages.old) + 84) }
    ensures layout { tree.new.layout ≡ tree.old.layout }
    ensures spent { result ≡ Err StoreFault.Spent → is_spent pages.old ≡ true }
    ensures cause { IfErr result IsWriteFault }
{
    let pair = NewPair {
        key,
        arrival: row_move.arrival,
        bytes: row_move.bytes,
    };
    match row_move.verb {
        RowVerb::Insert => give_pair(alloc, tree, pages, device, file, pair),
        RowVerb::Remove => take_pair(alloc, tree, pages, device, file, key, row_move.old_value),
        RowVerb::Replace => {
            if !is_changed(file, key, row_move.old_value, row_move.bytes) {
                return Ok(());
            }
            take_pair(alloc, tree, pages, device, file, key, row_move.old_value)?;
            give_pair(alloc, tree, pages, device, file, pair)
        }
    }
}
