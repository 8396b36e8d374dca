//! Which values of a new record are there already.
ghost use Rattle.std.specs.Prelude.{◌≡◌, ◌≤◌, ◌&&◌, ◌||◌, not, true, List, Err, length, take, filter, if◌then◌else◌, slice_index_or, IfOk, IfErr};
ghost use Rattle.pages.specs.Pages.{is_spent, sectors_of};
ghost use Rattle.btree.specs.Calls.{IfAgrees, pages_on};
ghost use Rattle.records.specs.Rows.{Row, no_key};
ghost use Rattle.records.specs.Changes.{repeats, is_taken, is_duplicate, done_outcome};
ghost use Rattle.records.specs.Stores.{spec_of, IsKey};
ghost use Rattle.volume_format.specs.Calls.{LooksAt};
ghost use Rattle.alternate_keys.specs.Faults.{IsReadFault};
ghost use Rattle.alternate_keys.specs.Moved.{HasValues, is_new};
ghost use Rattle.alternate_keys.specs.Placed.{HasAllPairs, listed_tree};
ghost use Rattle.alternate_keys.specs.Seen.{HasPairs};

use crate::file_tree::file_tree;
use crate::old_row::is_changed;
use crate::repeats::is_value_there;
use crate::row_verb::RowVerb;
use file_bytes::part_of;
use pages::PageMap;
use records::{FileSpec, KeyOfReference, Outcome, StoreFault};
use station::Device;
use std::alloc::Global;

/// A new record, with what is done to its row, and the row's value in the tree of rows before. A row that is new has no value before.
#[derive(Clone, Copy)]
pub(crate) struct NewRecord<'a> {
    pub(crate) verb: RowVerb,
    pub(crate) old_value: &'a [u8],
    pub(crate) bytes: &'a [u8],
}

/// Whether a record comes to a value of an alternate key that a row has.
pub(crate) fn is_repeated<D: Device>(
    alloc: Global,
    pages: &mut PageMap,
    device: &mut D,
    file: &FileSpec,
    key: u8,
    listing: &[u8],
    new_record: NewRecord<'_>,
) -> Result<bool, StoreFault>
    requires sectors { sectors_of pages.old ≤ D.sectors device.old }
    requires key { IsKey (spec_of file.now) (KeyOfReference.Alternate key) }
    requires listing { length listing.now ≡ 83 }
    requires values { HasValues new_record.verb (spec_of file.now) new_record.old_value.now
        new_record.bytes.now }
    requires bytes { length new_record.bytes.now ≡ file.now.record_length }
    ensures looks { LooksAt D.Device (result ≡ Err StoreFault.Device) pages.old device.old pages.new
        device.new }
    ensures repeated { IfAgrees D.Device pages.old device.old ((rows : List Row) → HasPairs
        (spec_of file.now) (KeyOfReference.Alternate key) (pages_on D.Device pages.old device.old)
        rows (listed_tree (spec_of file.now) key listing.now)
        → IfOk result (λ repeated. repeated ≡ (is_new new_record.entry.verb
        (take file.now.record_length new_record.entry.old_value.now) new_record.entry.bytes.now
        (slice_index_or (spec_of file.now).alternates key no_key) && repeats rows
        new_record.entry.bytes.now (slice_index_or (spec_of file.now).alternates key no_key)))) }
    ensures damaged { IfAgrees D.Device pages.old device.old ((rows : List Row) → HasPairs
        (spec_of file.now) (KeyOfReference.Alternate key) (pages_on D.Device pages.old device.old)
        rows (listed_tree (spec_of file.now) key listing.now) →
        result ≡ Err StoreFault.Damaged → ⊥) }
    ensures spent { result ≡ Err StoreFault.Spent → is_spent pages.old ≡ true }
    ensures cause { IfErr result IsReadFault }
{
    if !is_new_value(file, key, new_record) {
        return Ok(false);
    }
    let tree = file_tree(alloc, file, KeyOfReference::Alternate(key), listing);
    let place = file.key_place(KeyOfReference::Alternate(key));
    is_value_there(
        alloc,
        &tree,
        pages,
        device,
        part_of(place, new_record.bytes),
    )
}

/// What a record comes to by its values of the alternate keys, or of those of which it has another value than the row had: `Taken`
/// where a row has its value of one without DUPLICATES, `Duplicate` where a row has its value of one with them, or `Done`.
pub(crate) fn find_duplicate_key<D: Device>(
    alloc: Global,
    pages: &mut PageMap,
    device: &mut D,
    file: &FileSpec,
    listing: &[u8],
    new_record: NewRecord<'_>,
) -> Result<Outcome, StoreFault>
    requires sectors { sectors_of pages.old ≤ D.sectors device.old }
    requires listing { length listing.now ≡ 83 }
    requires values { HasValues new_record.verb (spec_of file.now) new_record.old_value.now
        new_record.bytes.now }
    requires bytes { length new_record.bytes.now ≡ file.now.record_length }
    ensures looks { LooksAt D.Device (result ≡ Err StoreFault.Device) pages.old device.old pages.new
        device.new }
    ensures told { IfAgrees D.Device pages.old device.old ((rows : List Row)
        → HasAllPairs (spec_of file.now) (pages_on D.Device pages.old device.old) rows listing.now
        → IfOk result (λ outcome. outcome ≡ (if is_taken (filter
        (is_new new_record.entry.verb (take file.now.record_length new_record.entry.old_value.now)
        new_record.entry.bytes.now) (spec_of file.now).alternates) rows new_record.entry.bytes.now
        then Outcome.Taken else done_outcome (is_duplicate (filter (is_new new_record.entry.verb
        (take file.now.record_length new_record.entry.old_value.now) new_record.entry.bytes.now)
        (spec_of file.now).alternates) rows new_record.entry.bytes.now)))) }
    ensures damaged { IfAgrees D.Device pages.old device.old ((rows : List Row)
        → HasAllPairs (spec_of file.now) (pages_on D.Device pages.old device.old) rows listing.now
        → result ≡ Err StoreFault.Damaged → ⊥) }
    ensures spent { result ≡ Err StoreFault.Spent → is_spent pages.old ≡ true }
    ensures cause { IfErr result IsReadFault }
{
    let count = file.alternates.len() as u8;
    let mut duplicate = false;
    for key in 0..count {
        let repeated = is_repeated(alloc, pages, device, file, key, listing, new_record)?;
        if is_barred(file.alternates[key as usize].duplicates, repeated) {
            return Ok(Outcome::Taken);
        }
        duplicate = either(duplicate, repeated);
    }
    if duplicate {
        return Ok(Outcome::Duplicate);
    }
    Ok(Outcome::Done)
}

/// Whether a row comes to its value of an alternate key by this change.
fn is_new_value(file: &FileSpec, key: u8, new_record: NewRecord<'_>) -> bool
    requires key { IsKey (spec_of file.now) (KeyOfReference.Alternate key) }
    requires values { HasValues new_record.verb (spec_of file.now) new_record.old_value.now
        new_record.bytes.now }
    ensures { result ≡ is_new new_record.entry.verb
        (take file.now.record_length new_record.entry.old_value.now) new_record.entry.bytes.now
        (slice_index_or (spec_of file.now).alternates key no_key) }
{
    match new_record.verb {
        RowVerb::Insert => true,
        RowVerb::Replace => is_changed(file, key, new_record.old_value, new_record.bytes),
        RowVerb::Remove => true,
    }
}

/// Whether a value that is there already bars a record.
fn is_barred(duplicates: bool, repeated: bool) -> bool
    ensures { result ≡ (not duplicates && repeated) }
{
    if duplicates { false } else { repeated }
}

/// Whether one of two is so.
fn either(one: bool, two: bool) -> bool
    ensures { result ≡ (one || two) }
{
    if one { true } else { two }
}
