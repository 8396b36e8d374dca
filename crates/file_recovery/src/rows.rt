//! A row, read from its entry in the tree of rows.
ghost use Rattle.std.specs.Prelude.{◌≡◌, ◌+◌, ◌*◌, true, length, Err, IfOk, IfErr, IsOkUnless};
ghost use Rattle.records.specs.Rows.{Row, pair_under};
ghost use Rattle.records.specs.Files.{IsRow};
ghost use Rattle.records.specs.Stores.{spec_of};
ghost use Rattle.records.specs.declared.key.KeyOfReference.TheVariants.{Prime};
ghost use Rattle.file_bytes.specs.Rows.{prime_key_length, row_value};
ghost use Rattle.file_bytes.specs.Stored.{row_of};
ghost use Rattle.volume_format.specs.Trees.{key_under};
ghost use Rattle.file_recovery.specs.Rows.{IsOwnFault};

use crate::listing::is_same;
use crate::row_bytes::row_value;
use file_bytes::{StoredRow, is_row, read_row, row_key};
use records::{FileSpec, StoreFault};
use std::alloc::Global;

/// The row of an entry, whose record is in place. `Damaged` means that it is none of such a file's rows.
pub(crate) fn row_of_entry(
    alloc: Global,
    file: &FileSpec,
    next: u64,
    key: &[u8],
    value: &[u8],
) -> Result<StoredRow, StoreFault>
    requires key { length key.now ≡ prime_key_length file.now.organization }
    requires value { length value.now
        ≡ file.now.record_length + 8 * length file.now.alternates.items }
    ensures is { IfOk result (λ row. IsRow (spec_of file.now) next (row_of row)) }
    ensures row { IfOk result (λ row.
        (key_under (spec_of file.now) Prime (pair_under (spec_of file.now) Prime (row_of row))
        ≡ key.now) × (row_value (row_of row) ≡ value.now)) }
    ensures damaged { result ≡ Err StoreFault.Damaged → (row : Row)
        → IsRow (spec_of file.now) next row
        → key_under (spec_of file.now) Prime (pair_under (spec_of file.now) Prime row) ≡ key.now
        → row_value row ≡ value.now → ⊥ }
    ensures cause { IfErr result IsOwnFault }
{
    let row = read_row(alloc, file, key, value)?;
    if !is_row(file, next, &row) {
        return Err(StoreFault::Damaged);
    }
    let is_own = is_entry_of(alloc, file, &row, key, value)?;
    if !is_own {
        return Err(StoreFault::Damaged);
    }
    Ok(row)
}

/// Whether the entry is the one of this row.
fn is_entry_of(
    alloc: Global,
    file: &FileSpec,
    row: &StoredRow,
    key: &[u8],
    value: &[u8],
) -> Result<bool, StoreFault>
    requires { length row.now.bytes.items ≡ file.now.record_length }
    ensures yes { IfOk result (λ is. is ≡ true
        → (key_under (spec_of file.now) Prime (pair_under (spec_of file.now) Prime (row_of row.now))
        ≡ key.now) × (row_value (row_of row.now) ≡ value.now)) }
    ensures no { IfOk result (λ is. key_under (spec_of file.now)
        Prime (pair_under (spec_of file.now) Prime (row_of row.now)) ≡ key.now
        → row_value (row_of row.now) ≡ value.now → is ≡ true) }
    ensures memory { IsOkUnless result StoreFault.Memory }
{
    let own = row_key(alloc, file.organization, row.number, &row.bytes)?;
    if !is_same(&own, key) {
        return Ok(false);
    }
    let again = row_value(alloc, row)?;
    Ok(is_same(&again, value))
}
