//! Whether a new row may come, looked at before a page is changed.
ghost use Rattle.std.specs.Prelude.{◌≡◌, ◌≤◌, ◌<◌, ◌+◌, true, false, List, [], Err, length, map, filter, is_some, if◌then◌else◌, IfOk, IfErr};
ghost use Rattle.pages.specs.Pages.{is_spent, committed_of, sectors_of, changed_pages_of};
ghost use Rattle.pages.specs.Use.{free_count};
ghost use Rattle.btree.specs.Calls.{IfAgrees, pages_on};
ghost use Rattle.btree.specs.Entries.{entry_with};
ghost use Rattle.chains.specs.Chain.{pages_for};
ghost use Rattle.records.specs.Rows.{Row, named_pair};
ghost use Rattle.records.specs.Changes.{insertion, is_taken, is_duplicate, done_outcome};
ghost use Rattle.records.specs.Stores.{spec_of, IsNewNumber, is_change};
ghost use Rattle.volume_format.specs.Chained.{chained_bytes};
ghost use Rattle.volume_format.specs.Trees.{entry_under};
ghost use Rattle.file_bytes.specs.Rows.{prime_key};
ghost use Rattle.volume_format.specs.Calls.{LooksAt};
ghost use Rattle.alternate_keys.specs.Faults.{IsReadFault};
ghost use Rattle.alternate_keys.specs.Moved.{is_new};
ghost use Rattle.alternate_keys.specs.Placed.{OnTrees};
ghost use Rattle.alternate_keys.specs.Seen.{HasRows, row_tree_of};

use crate::commit::is_done;
use crate::file_tree::file_tree;
use crate::row_verb::RowVerb;
use crate::values::{NewRecord, find_duplicate_key};
use btree::Tree;
use chains::page_count;
use file_bytes::{number_of_new, row_key};
use pages::PageMap;
use records::{FileSpec, KeyOfReference, Outcome, StoreFault};
use station::Device;
use std::alloc::Global;
use volume_format::{chained_bytes, next_arrival, to_fault};

/// How many pages a new entry changes at most, besides those of its record.
const ENTRY_PAGES: usize = 42;

/// What a new row comes to by its values, before a page is changed: `Taken` where it may not come. That its prime key or number is
/// there is looked at only where a page may be refused; elsewhere the tree of rows finds it.
pub(crate) fn look_at_new_row<D: Device>(
    alloc: Global,
    pages: &mut PageMap,
    device: &mut D,
    file: &FileSpec,
    listing: &[u8],
    number: u64,
    bytes: &[u8],
) -> Result<Outcome, StoreFault>
    requires sectors { sectors_of pages.old ≤ D.sectors device.old }
    requires listing { length listing.now ≡ 83 }
    requires number { IsNewNumber file.now.organization number }
    requires bytes { length bytes.now ≡ file.now.record_length }
    ensures looks { LooksAt D.Device (result ≡ Err StoreFault.Device) pages.old device.old pages.new
        device.new }
    ensures told { OnTrees D.Device (spec_of file.now) pages.old device.old listing.now
        (λ named generation left right. IfOk result (λ outcome. is_change outcome ≡ true →
        outcome ≡ (if is_taken (filter (is_new RowVerb.Insert [] bytes.now)
        (spec_of file.now).alternates) named.file.rows bytes.now then Outcome.Taken else
        done_outcome (is_duplicate (filter (is_new RowVerb.Insert [] bytes.now)
        (spec_of file.now).alternates) named.file.rows bytes.now)))) }
    ensures taken { OnTrees D.Device (spec_of file.now) pages.old device.old listing.now
        (λ named generation left right. IfOk result (λ outcome. is_change outcome ≡ false →
        outcome ≡ (insertion number bytes.now named.file).outcome)) }
    ensures free { is_spent pages.old ≡ false
        → OnTrees D.Device (spec_of file.now) pages.old device.old listing.now
        (λ named generation left right. IfOk result (λ outcome. is_change outcome ≡ true →
        free_count (committed_of pages.old) < length (changed_pages_of pages.old)
        + (42 + pages_for (chained_bytes (spec_of file.now)))
        → is_change (insertion number bytes.now named.file).outcome ≡ true)) }
    ensures damaged { OnTrees D.Device (spec_of file.now) pages.old device.old listing.now
        (λ named generation left right. result ≡ Err StoreFault.Damaged → ⊥) }
    ensures spent { result ≡ Err StoreFault.Spent → is_spent pages.old ≡ true }
    ensures cause { IfErr result IsReadFault }
{
    let new_record = NewRecord {
        verb: RowVerb::Insert,
        old_value: &[],
        bytes,
    };
    let outcome = find_duplicate_key(alloc, pages, device, file, listing, new_record)?;
    if !is_done(outcome) {
        return Ok(outcome);
    }
    if !is_scarce(pages, file) {
        return Ok(outcome);
    }
    let prime = file_tree(alloc, file, KeyOfReference::Prime, listing);
    let own = number_of_new(file.organization, number, next_arrival(listing));
    if is_row_there(alloc, &prime, pages, device, file, own, bytes)? {
        return Ok(Outcome::Taken);
    }
    Ok(outcome)
}

/// Whether a new entry may find no page for it.
fn is_scarce(pages: &PageMap, file: &FileSpec) -> bool
    ensures { is_spent pages.now ≡ false
        → free_count (committed_of pages.now) < length (changed_pages_of pages.now)
        + (42 + pages_for (chained_bytes (spec_of file.now)))
        → result ≡ true }
{
    let free = pages.free_sectors() as usize;
    let changed = pages.changed_pages();
    let most = entry_pages(chained_bytes(file));
    if free < most {
        return true;
    }
    free - most < changed
}

/// How many pages a new row changes at most in the tree of rows, by the bytes of its record that are in a chain.
fn entry_pages(record_bytes: u16) -> usize
    ensures { result ≡ 42 + pages_for record_bytes }
{
    ENTRY_PAGES + page_count(record_bytes as usize)
}

/// Whether the tree of rows has a row of this record's prime key, or of this number where the file has none.
fn is_row_there<D: Device>(
    alloc: Global,
    prime: &Tree,
    pages: &mut PageMap,
    device: &mut D,
    file: &FileSpec,
    number: u64,
    bytes: &[u8],
) -> Result<bool, StoreFault>
    requires sectors { sectors_of pages.old ≤ D.sectors device.old }
    requires bytes { length bytes.now ≡ file.now.record_length }
    ensures looks { LooksAt D.Device (result ≡ Err StoreFault.Device) pages.old device.old pages.new
        device.new }
    ensures there { IfAgrees D.Device pages.old device.old ((rows : List Row)
        → HasRows (spec_of file.now) (pages_on D.Device pages.old device.old) rows
        (row_tree_of (spec_of file.now) prime.now) →
        IfOk result (λ there. there ≡ is_some
        (entry_with (map (entry_under (spec_of file.now) KeyOfReference.Prime) rows) (prime_key
        file.now.organization (named_pair file.now.organization number bytes.now))))) }
    ensures damaged { IfAgrees D.Device pages.old device.old ((rows : List Row)
        → HasRows (spec_of file.now) (pages_on D.Device pages.old device.old) rows
        (row_tree_of (spec_of file.now) prime.now)
        → result ≡ Err StoreFault.Damaged → ⊥) }
    ensures spent { result ≡ Err StoreFault.Spent → is_spent pages.old ≡ true }
    ensures cause { IfErr result IsReadFault }
{
    let key = row_key(alloc, file.organization, number, bytes)?;
    match prime.get(pages, device, &key) {
        Ok(entry) => Ok(entry.is_some()),
        Err(error) => Err(to_fault(error)),
    }
}
