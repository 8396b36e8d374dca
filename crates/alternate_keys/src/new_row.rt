//! A new row comes to the tree of rows.
ghost use Rattle.std.specs.Prelude.{◌≡◌, ◌≤◌, ◌<◌, ◌+◌, true, false, Ok, Err, None, IsSome, length, IfErr};
ghost use Rattle.pages.specs.Pages.{is_spent, committed_of, sectors_of, changed_pages_of, IsUnchanged};
ghost use Rattle.pages.specs.Use.{free_count};
ghost use Rattle.btree.specs.Calls.{pages_on};
ghost use Rattle.btree.specs.Entries.{entry_with, with_new_entry};
ghost use Rattle.btree.specs.Results.{FewChanged};
ghost use Rattle.chains.specs.Chain.{pages_for};
ghost use Rattle.records.specs.Stores.{spec_of};
ghost use Rattle.volume_format.specs.Chained.{chained_bytes};
ghost use Rattle.volume_format.specs.Trees.{entry_under, layout_under};
ghost use Rattle.row_trees.specs.Calls.{EditsPages, OnRowTreeAmong};
ghost use Rattle.row_trees.specs.RowTree.{IsRowTreeAmong};
ghost use Rattle.alternate_keys.specs.Faults.{IsWriteFault};
ghost use Rattle.alternate_keys.specs.NewRow.{row_with};

use crate::enter::enter_row;
use crate::row_bytes::new_value;
use file_bytes::row_key;
use pages::PageMap;
use records::{FileSpec, KeyOfReference, StoreFault};
use row_trees::RowTree;
use station::Device;
use std::alloc::Global;

/// A new row: its number, its record, and its arrival under each alternate key.
#[derive(Clone, Copy)]
pub(crate) struct NewRow<'a> {
    pub(crate) number: u64,
    pub(crate) arrival: u64,
    pub(crate) bytes: &'a [u8],
}

/// Puts a new row into the tree of rows. The other trees stay. `false` is returned if its prime key or number is there, and then nothing
/// was changed.
pub(crate) fn insert_row<D: Device>(
    alloc: Global,
    prime: &mut RowTree,
    pages: &mut PageMap,
    device: &mut D,
    file: &FileSpec,
    row: NewRow<'_>,
) -> Result<bool, StoreFault>
    requires sectors { sectors_of pages.old ≤ D.sectors device.old }
    requires layout { prime.old.tree.layout
        ≡ layout_under (spec_of file.now) KeyOfReference.Prime }
    requires form { prime.old.record_bytes ≡ chained_bytes (spec_of file.now) }
    requires bytes { length row.bytes.now ≡ file.now.record_length }
    ensures edits { EditsPages D.Device (result ≡ Err StoreFault.Device) pages.old device.old
        pages.new device.new }
    ensures inserted { OnRowTreeAmong D.Device prime.old pages.old device.old (λ left right entries.
        result ≡ Ok true → (entry_with entries (entry_under (spec_of file.now) KeyOfReference.Prime
        (row_with (spec_of file.now) row.entry.number row.entry.arrival row.entry.bytes.now)).key
        ≡ None) × IsRowTreeAmong (pages_on D.Device pages.new device.old) left
        right prime.new (with_new_entry entries (entry_under (spec_of file.now) KeyOfReference.Prime
        (row_with (spec_of file.now) row.entry.number row.entry.arrival row.entry.bytes.now)))) }
    ensures there { OnRowTreeAmong
        D.Device prime.old pages.old device.old (λ left right entries. result ≡ Ok false
        → IsSome (entry_with entries (entry_under (spec_of file.now) KeyOfReference.Prime (row_with
        (spec_of file.now) row.entry.number row.entry.arrival row.entry.bytes.now)).key)) }
    ensures same { result ≡ Ok false → IsUnchanged pages.old pages.new }
    ensures damaged { OnRowTreeAmong D.Device prime.old pages.old device.old
        (λ left right entries. result ≡ Err StoreFault.Damaged → ⊥) }
    ensures changed_pages { OnRowTreeAmong D.Device prime.old pages.old device.old
        (λ left right entries.
        FewChanged (42 + pages_for prime.old.record_bytes) pages.old pages.new) }
    ensures room { OnRowTreeAmong D.Device prime.old pages.old device.old
        (λ left right entries. result ≡ Err StoreFault.Full → free_count (committed_of pages.old)
        < length (changed_pages_of pages.old) + (42 + pages_for prime.old.record_bytes)) }
    ensures layout { prime.new.tree.layout ≡ prime.old.tree.layout }
    ensures form { prime.new.record_bytes ≡ prime.old.record_bytes }
    ensures spent { result ≡ Err StoreFault.Spent → is_spent pages.old ≡ true }
    ensures cause { IfErr result IsWriteFault }
{
    let key = row_key(alloc, file.organization, row.number, row.bytes)?;
    let value = new_value(alloc, file, row.arrival, row.bytes)?;
    enter_row(prime, pages, device, &key, &value)
}
