//! The rows of a file are read from its tree.
ghost use Rattle.std.specs.Prelude.{◌≡◌, ◌≤◌, false, Err, IfOk, IfErr};
ghost use Rattle.std.specs.List.{AllByRecursion};
ghost use Rattle.pages.specs.Pages.{is_spent, sectors_of};
ghost use Rattle.btree.specs.Calls.{pages_on, OnPages, OnTree};
ghost use Rattle.btree.specs.Entries.{HasLengths, entries_of};
ghost use Rattle.records.specs.Files.{IsRow};
ghost use Rattle.records.specs.Stores.{spec_of};
ghost use Rattle.volume_format.specs.Trees.{prime_layout};
ghost use Rattle.volume_format.specs.Calls.{LooksAt};
ghost use Rattle.file_recovery.specs.Faults.{IsReadFault};
ghost use Rattle.file_recovery.specs.Rows.{FindsRow, FindsRows, NoRow, NoRows};
ghost use Rattle.file_bytes.specs.Stored.{row_of, rows_of};

use crate::chained::whole_value;
use crate::rows::row_of_entry;
use btree::{Entry, Tree};
use file_bytes::StoredRow;
use pages::PageMap;
use records::{FileSpec, StoreFault};
use station::Device;
use std::alloc::Global;
use volume_format::{first_in, next_in};

/// The rows of a file, from its tree of rows, whose entries are exactly theirs. The pages of the chains of their records are marked.
/// `Damaged` means that they are those of no rows of such a file whose chains can be marked. The rows are kept in memory.
pub(crate) fn read_rows<D: Device>(
    alloc: Global,
    file: &FileSpec,
    next_arrival: u64,
    tree: &Tree,
    pages: &mut PageMap,
    device: &mut D,
    seen: &mut [bool],
) -> Result<Vec<StoredRow>, StoreFault>
    requires unspent { is_spent pages.old ≡ false }
    requires sectors { sectors_of pages.old ≤ D.sectors device.old }
    requires layout { tree.now.layout ≡ prime_layout (spec_of file.now) }
    ensures looks { LooksAt D.Device (result ≡ Err StoreFault.Device) pages.old device.old pages.new
        device.new }
    ensures are { IfOk result
        (λ rows. AllByRecursion (IsRow (spec_of file.now) next_arrival) (rows_of rows.items)) }
    ensures rows { OnTree D.Device tree.now.layout tree.now.root pages.old device.old
        (λ levels. IfOk result (λ rows. FindsRows (spec_of file.now)
        (pages_on D.Device pages.old device.old) (entries_of tree.now.layout levels)
        (rows_of rows.items) seen.old seen.new)) }
    ensures damaged { OnTree D.Device tree.now.layout tree.now.root pages.old device.old
        (λ levels. result ≡ Err StoreFault.Damaged → NoRows (spec_of file.now) next_arrival
        (pages_on D.Device pages.old device.old) (entries_of tree.now.layout levels) seen.old) }
    ensures cause { IfErr result IsReadFault }
{
    let mut rows = Vec::new(alloc);
    let mut next = first_in(tree, pages, device)?;
    for _turn in 0..u64::MAX {
        match next {
            Some(entry) => {
                let row = read_row(alloc, file, next_arrival, &entry, pages, device, seen)?;
                rows.push(row)?;
                next = next_in(tree, pages, device, &entry)?;
            }
            None => return Ok(rows),
        }
    }
    // So many rows have no place in memory.
    Err(StoreFault::Memory)
}

/// The row of an entry. The pages of the chain of its record are marked. `Damaged` means that no row of the file has that entry, with a
/// chain that can be marked.
fn read_row<D: Device>(
    alloc: Global,
    file: &FileSpec,
    next_arrival: u64,
    entry: &Entry,
    pages: &mut PageMap,
    device: &mut D,
    seen: &mut [bool],
) -> Result<StoredRow, StoreFault>
    requires unspent { is_spent pages.old ≡ false }
    requires sectors { sectors_of pages.old ≤ D.sectors device.old }
    requires lengths { HasLengths (prime_layout (spec_of file.now)) entry.now }
    ensures looks { LooksAt D.Device (result ≡ Err StoreFault.Device) pages.old device.old pages.new
        device.new }
    ensures is { IfOk result (λ row. IsRow (spec_of file.now) next_arrival (row_of row)) }
    ensures row { OnPages D.Device pages.old device.old (λ before. IfOk result (λ row. FindsRow
        (spec_of file.now) before entry.now (row_of row) seen.old seen.new)) }
    ensures damaged { OnPages D.Device pages.old device.old
        (λ before. result ≡ Err StoreFault.Damaged
        → NoRow (spec_of file.now) next_arrival before entry.now seen.old) }
    ensures cause { IfErr result IsReadFault }
{
    if !file.is_long() {
        return row_of_entry(alloc, file, next_arrival, entry.key(), entry.value());
    }
    let whole = whole_value(alloc, file, entry.value(), pages, device, seen)?;
    row_of_entry(alloc, file, next_arrival, entry.key(), &whole)
}
