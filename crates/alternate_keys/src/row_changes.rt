//! A row comes to the trees of its file, gets another record there, or leaves them. The catalog doesn't say so yet.
ghost use Rattle.std.specs.Prelude.{◌≡◌, ◌≤◌, length};
ghost use Rattle.pages.specs.Pages.{sectors_of};
ghost use Rattle.records.specs.Changes.{insertion, replacement, removal};
ghost use Rattle.records.specs.Stores.{spec_of, key_length, pair_of, IsNewNumber};
ghost use Rattle.alternate_keys.specs.Moved.{changed_by, IsAsked};
ghost use Rattle.alternate_keys.specs.RowChanges.{ChangesTrees};

use crate::commit::is_done;
use crate::file_tree::row_tree;
use crate::finding_row::find_row;
use crate::leave::{remove_row, replace_row};
use crate::move_row::move_row;
use crate::new_row::{NewRow, insert_row};
use crate::old_row::{arrival_next, value_after};
use crate::row_move::RowMove;
use crate::row_turn::RowTurn;
use crate::row_verb::RowVerb;
use crate::taken_row::look_at_new_row;
use crate::values::{NewRecord, find_duplicate_key};
use file_bytes::{number_of_new, part_of};
use pages::PageMap;
use records::{FileSpec, KeyOfReference, Outcome, StoreFault};
use station::Device;
use std::alloc::Global;
use volume_format::next_arrival;

/// A change of a row that is asked for: by the row's number where the file has no prime key, and by a record, or the prime key of a row
/// that leaves.
#[derive(Clone, Copy)]
pub(crate) struct RowChange<'a> {
    pub(crate) verb: RowVerb,
    pub(crate) number: u64,
    pub(crate) bytes: &'a [u8],
}

/// A row of a file changes.
pub(crate) fn change_trees<D: Device>(
    alloc: Global,
    pages: &mut PageMap,
    device: &mut D,
    file: &FileSpec,
    listing: &[u8],
    change: RowChange<'_>,
) -> Result<RowTurn, StoreFault>
    requires sectors { sectors_of pages.old ≤ D.sectors device.old }
    requires listing { length listing.now ≡ 83 }
    requires asked { IsAsked change.verb (spec_of file.now) change.number change.bytes.now }
    ensures { ChangesTrees D.Device (λ held. changed_by change.entry.verb file.now.organization
        change.entry.number change.entry.bytes.now held)
        file.now pages.old device.old listing.now pages.new device.new result }
{
    let number = change.number;
    let bytes = change.bytes;
    match change.verb {
        RowVerb::Insert => insert_trees(alloc, pages, device, file, listing, number, bytes),
        RowVerb::Replace => replace_trees(alloc, pages, device, file, listing, number, bytes),
        RowVerb::Remove => remove_trees(alloc, pages, device, file, listing, number, bytes),
    }
}

/// A new row comes.
fn insert_trees<D: Device>(
    alloc: Global,
    pages: &mut PageMap,
    device: &mut D,
    file: &FileSpec,
    listing: &[u8],
    number: u64,
    bytes: &[u8],
) -> Result<RowTurn, StoreFault>
    requires sectors { sectors_of pages.old ≤ D.sectors device.old }
    requires listing { length listing.now ≡ 83 }
    requires number { IsNewNumber file.now.organization number }
    requires bytes { length bytes.now ≡ file.now.record_length }
    ensures { ChangesTrees D.Device (λ held. insertion number bytes.now held)
        file.now pages.old device.old listing.now pages.new device.new result }
{
    let outcome = look_at_new_row(alloc, pages, device, file, listing, number, bytes)?;
    if !is_done(outcome) {
        return Ok(RowTurn::none(alloc, outcome));
    }
    let arrival = next_arrival(listing);
    if arrival == u64::MAX {
        return Err(StoreFault::Damaged);
    }
    let mut prime = row_tree(alloc, file, listing);
    let own = number_of_new(file.organization, number, arrival);
    let row = NewRow {
        number: own,
        arrival,
        bytes,
    };
    if !insert_row(alloc, &mut prime, pages, device, file, row)? {
        return Ok(RowTurn::none(alloc, Outcome::Taken));
    }
    let root = prime.root();
    let row_move = RowMove {
        verb: RowVerb::Insert,
        old_value: &[],
        arrival,
        next: arrival + 1,
        bytes,
    };
    let listing = move_row(alloc, pages, device, file, listing, row_move, root)?;
    Ok(RowTurn { outcome, listing })
}

/// A row gets another record.
fn replace_trees<D: Device>(
    alloc: Global,
    pages: &mut PageMap,
    device: &mut D,
    file: &FileSpec,
    listing: &[u8],
    number: u64,
    bytes: &[u8],
) -> Result<RowTurn, StoreFault>
    requires sectors { sectors_of pages.old ≤ D.sectors device.old }
    requires listing { length listing.now ≡ 83 }
    requires bytes { length bytes.now ≡ file.now.record_length }
    ensures { ChangesTrees D.Device (λ held. replacement number bytes.now held)
        file.now pages.old device.old listing.now pages.new device.new result }
{
    let verb = RowVerb::Replace;
    let mut prime = row_tree(alloc, file, listing);
    let place = file.key_place(KeyOfReference::Prime);
    let prime_key = part_of(place, bytes);
    let row = match find_row(alloc, &prime, pages, device, file, number, prime_key)? {
        Some(row) => row,
        None => return Ok(RowTurn::none(alloc, Outcome::Missing)),
    };
    let old = row.value();
    let new_record = NewRecord {
        verb,
        old_value: old,
        bytes,
    };
    let outcome = find_duplicate_key(alloc, pages, device, file, listing, new_record)?;
    if !is_done(outcome) {
        return Ok(RowTurn::none(alloc, outcome));
    }
    let arrival = next_arrival(listing);
    if arrival == u64::MAX {
        return Err(StoreFault::Damaged);
    }
    let value = value_after(alloc, file, old, bytes, arrival)?;
    replace_row(&mut prime, pages, device, row.key(), &value)?;
    let next = arrival_next(file, old, bytes, arrival);
    let root = prime.root();
    let row_move = RowMove {
        verb,
        old_value: old,
        arrival,
        next,
        bytes,
    };
    let listing = move_row(alloc, pages, device, file, listing, row_move, root)?;
    Ok(RowTurn { outcome, listing })
}

/// A row leaves.
fn remove_trees<D: Device>(
    alloc: Global,
    pages: &mut PageMap,
    device: &mut D,
    file: &FileSpec,
    listing: &[u8],
    number: u64,
    key: &[u8],
) -> Result<RowTurn, StoreFault>
    requires sectors { sectors_of pages.old ≤ D.sectors device.old }
    requires listing { length listing.now ≡ 83 }
    requires key { length key.now ≡ key_length (spec_of file.now) KeyOfReference.Prime }
    ensures { ChangesTrees D.Device (λ held. removal
        (pair_of file.now.organization key.now number) held)
        file.now pages.old device.old listing.now pages.new device.new result }
{
    let mut prime = row_tree(alloc, file, listing);
    let row = match find_row(alloc, &prime, pages, device, file, number, key)? {
        Some(row) => row,
        None => return Ok(RowTurn::none(alloc, Outcome::Missing)),
    };
    remove_row(&mut prime, pages, device, row.key())?;
    let next = next_arrival(listing);
    let root = prime.root();
    let old_value = row.value();
    let row_move = RowMove {
        verb: RowVerb::Remove,
        old_value,
        arrival: next,
        next,
        bytes: &[],
    };
    let listing = move_row(alloc, pages, device, file, listing, row_move, root)?;
    Ok(RowTurn {
        outcome: Outcome::Done,
        listing,
    })
}
