//! The tree of an alternate key, against the rows of its file.
ghost use Rattle.std.specs.Prelude.{◌≡◌, ◌≤◌, true, false, Err, IfErr, OnOk};
ghost use Rattle.std.specs.List.{All};
ghost use Rattle.pages.specs.Pages.{is_spent, sectors_of};
ghost use Rattle.btree.specs.Calls.{OnTree};
ghost use Rattle.btree.specs.Entries.{entries_of};
ghost use Rattle.records.specs.declared.key.KeyOfReference.TheVariants.{Alternate};
ghost use Rattle.records.specs.Laws.{RowsAscend};
ghost use Rattle.records.specs.Rows.{pair_under};
ghost use Rattle.records.specs.Stores.{spec_of, IsKey};
ghost use Rattle.volume_format.specs.Trees.{key_under, AreOf};
ghost use Rattle.volume_format.specs.Calls.{LooksAt};
ghost use Rattle.file_recovery.specs.Faults.{IsReadFault};
ghost use Rattle.file_recovery.specs.Rows.{IsSized, IsPairOf, PrimesAscend};
ghost use Rattle.file_bytes.specs.Stored.{row_of, rows_of};

use crate::listing::is_same;
use crate::row_bytes::{alternate_value, arrival_of};
use crate::row_search::find_row;
use crate::sparse_index::SparseIndex;
use btree::{Entry, Tree};
use file_bytes::StoredRow;
use pages::PageMap;
use records::{FileSpec, StoreFault};
use station::Device;
use std::alloc::Global;
use volume_format::{first_in, next_in};

/// Whether the entries of the tree of an alternate key are exactly the pairs of the rows, which ascend under the prime key.
pub(crate) fn check_index<D: Device>(
    alloc: Global,
    file: &FileSpec,
    key: u8,
    rows: &[StoredRow],
    tree: &Tree,
    pages: &mut PageMap,
    device: &mut D,
) -> Result<(), StoreFault>
    requires unspent { is_spent pages.old ≡ false }
    requires sectors { sectors_of pages.old ≤ D.sectors device.old }
    requires key { IsKey (spec_of file.now) (Alternate key) }
    requires rows { All (IsSized (spec_of file.now)) (rows_of rows.now) }
    ensures looks { LooksAt D.Device (result ≡ Err StoreFault.Device) pages.old device.old pages.new
        device.new }
    ensures index { RowsAscend file.now.organization (rows_of rows.now)
        → OnTree D.Device tree.now.layout tree.now.root pages.old device.old
        (λ levels. OnOk result (AreOf (spec_of file.now) (Alternate key) (rows_of rows.now)
        (entries_of tree.now.layout levels))) }
    ensures damaged { RowsAscend file.now.organization (rows_of rows.now)
        → OnTree D.Device tree.now.layout tree.now.root pages.old device.old
        (λ levels. result ≡ Err StoreFault.Damaged → AreOf (spec_of file.now) (Alternate key)
        (rows_of rows.now) (entries_of tree.now.layout levels) → ⊥) }
    ensures cause { IfErr result IsReadFault }
{
    let index = SparseIndex::new(alloc, file, rows)?;
    let mut next = first_in(tree, pages, device)?;
    for turn in 0..rows.len() {
        match next {
            Some(entry) => {
                if !is_pair(file, key, rows, &index, &entry) {
                    return Err(StoreFault::Damaged);
                }
                next = next_in(tree, pages, device, &entry)?;
            }
            None => return Err(StoreFault::Damaged),
        }
    }
    match next {
        Some(_) => Err(StoreFault::Damaged),
        None => Ok(()),
    }
}

/// Whether an entry of the tree of an alternate key is the pair of a row.
fn is_pair(file: &FileSpec, key: u8, rows: &[StoredRow], index: &SparseIndex, entry: &Entry) -> bool
    requires key { IsKey (spec_of file.now) (Alternate key) }
    requires rows { All (IsSized (spec_of file.now)) (rows_of rows.now) }
    ensures yes { result ≡ true → IsPairOf (spec_of file.now) key (rows_of rows.now) entry.now }
    ensures no { PrimesAscend (spec_of file.now) (rows_of rows.now) → result ≡ false
        → IsPairOf (spec_of file.now) key (rows_of rows.now) entry.now → ⊥ }
{
    match find_row(file, rows, index, entry.value()) {
        Some(place) => has_pair_key(file, key, &rows[place], entry.key()),
        None => false,
    }
}

/// Whether this key of the tree of an alternate key is a row's.
fn has_pair_key(file: &FileSpec, key: u8, row: &StoredRow, pair: &[u8]) -> bool
    requires key { IsKey (spec_of file.now) (Alternate key) }
    requires row { IsSized (spec_of file.now) (row_of row.now) }
    ensures yes { result ≡ true → key_under (spec_of file.now) (Alternate key)
        (pair_under (spec_of file.now) (Alternate key) (row_of row.now)) ≡ pair.now }
    ensures no { result ≡ false → key_under (spec_of file.now) (Alternate key)
        (pair_under (spec_of file.now) (Alternate key) (row_of row.now)) ≡ pair.now → ⊥ }
{
    let value = alternate_value(file, key, row);
    if pair.len() < value.len() {
        return false;
    }
    let (front, arrival) = pair.split_at(value.len());
    if !is_same(front, value) {
        return false;
    }
    is_same(&arrival_of(row, key).to_be_bytes(), arrival)
}
