//! A file is written anew, in the order in which its rows came to their alternate keys.
ghost use Rattle.std.specs.Prelude.{◌≡◌, ◌≤◌, true, length, Err};
ghost use Rattle.records.specs.Stores.{IsNewNumber};
ghost use Rattle.volume_copies.specs.Copied.{KeepsDevice};

use crate::progress::Progress;
use crate::rewriting::rewrite_row;
use crate::write_order::{RowWrite, writes_of};
use file_recovery::{StoredFile, StoredRow};
use records::{FileSpec, Organization, Store, StoreFault};
use station::Device;
use std::alloc::Global;

/// The greatest relative number.
const MOST_NUMBER: u64 = 999_999_999;

/// Writes a file. So many rows were written before it, of so many. The answer is how many are
/// written after it.
pub(crate) fn write_file<S: Store, D: Device, P: Progress>(
    alloc: Global,
    store: &mut S,
    device: &mut D,
    file: &StoredFile,
    before: u64,
    all: u64,
    progress: &mut P,
) -> Result<u64, StoreFault>
    requires { S.needs store.old ≤ D.sectors device.old }
    ensures keeps { KeepsDevice D.Device (result ≡ Err StoreFault.Device) device.old device.new }
    ensures needs { S.needs store.new ≡ S.needs store.old }
{
    let writes = writes_of(alloc, file)?;
    store.create(device, &file.spec)?;
    let mut rows = before;
    for write in &writes {
        write_row(alloc, store, device, file, write)?;
        if write.is_first {
            rows = rows.saturating_add(1);
            progress.report(rows, all);
        }
    }
    Ok(rows)
}

/// Does a write of a row.
fn write_row<S: Store, D: Device>(
    alloc: Global,
    store: &mut S,
    device: &mut D,
    file: &StoredFile,
    write: &RowWrite,
) -> Result<(), StoreFault>
    requires { S.needs store.old ≤ D.sectors device.old }
    ensures keeps { KeepsDevice D.Device (result ≡ Err StoreFault.Device) device.old device.new }
    ensures needs { S.needs store.new ≡ S.needs store.old }
{
    let Some(row) = file.rows.as_slice().get(write.row) else {
        return Ok(());
    };
    if !is_row_of(&file.spec, row) {
        return Ok(());
    }
    if write.is_first {
        let _ = store.insert(device, &file.spec, row.number, &row.bytes)?;
        return Ok(());
    }
    rewrite_row(alloc, store, device, file, row, write.arrival)
}

/// Whether a store takes a row with this number and record.
fn is_row_of(file: &FileSpec, row: &StoredRow) -> bool
    ensures length { result ≡ true → length row.now.bytes.items ≡ file.now.record_length }
    ensures number { result ≡ true → IsNewNumber file.now.organization row.now.number }
{
    if row.bytes.len() != file.record_length as usize {
        return false;
    }
    match file.organization {
        Organization::Relative => 1 <= row.number && row.number <= MOST_NUMBER,
        _ => true,
    }
}
