//! A row as entries of the trees of its file.
ghost use Rattle.std.specs.Prelude.{◌≡◌, ◌<◌, length, IfOk, IsOkUnless, slice_index_or};
ghost use Rattle.std.specs.List.{All};
ghost use Rattle.records.specs.declared.key.KeyOfReference.TheVariants.{Prime, Alternate};
ghost use Rattle.records.specs.Rows.{part, place_of};
ghost use Rattle.records.specs.Stores.{spec_of, IsKey};
ghost use Rattle.file_bytes.specs.Rows.{row_value as value_of};
ghost use Rattle.file_bytes.specs.Stored.{row_of, rows_of};
ghost use Rattle.file_recovery.specs.Rows.{IsSized, prime_at};

use file_bytes::{StoredRow, part_of, push_row_value};
use records::{FileSpec, KeyOfReference, StoreFault};
use std::alloc::Global;

/// What follows the key of a row: its record, and its arrivals.
pub(crate) fn row_value(alloc: Global, row: &StoredRow) -> Result<Vec<u8>, StoreFault>
    ensures value { IfOk result (λ value. value.items ≡ value_of (row_of row.now)) }
    ensures memory { IsOkUnless result StoreFault.Memory }
{
    let arrivals = row.arrivals.len().saturating_mul(8);
    let mut out = Vec::with_capacity(alloc, row.bytes.len().saturating_add(arrivals))?;
    push_row_value(&mut out, row)?;
    Ok(out)
}

/// The value of an alternate key in a row.
pub(crate) fn alternate_value<'a>(file: &FileSpec, key: u8, row: &'a StoredRow) -> &'a [u8]
    requires key { IsKey (spec_of file.now) (Alternate key) }
    requires record { length row.now.bytes.items ≡ file.now.record_length }
    ensures { result.now ≡ part (place_of (spec_of file.now) (Alternate key)) row.now.bytes.items }
{
    let place = file.key_place(KeyOfReference::Alternate(key));
    part_of(place, &row.bytes)
}

/// The value of the prime key in the row at a place.
pub(crate) fn prime_value_at<'a>(file: &FileSpec, rows: &'a [StoredRow], place: usize) -> &'a [u8]
    requires rows { All (IsSized (spec_of file.now)) (rows_of rows.now) }
    requires place { place < length rows.now }
    ensures { result.now ≡ prime_at (spec_of file.now) (rows_of rows.now) place }
{
    prime_value(file, &rows[place])
}

/// The arrival of a row at its value of an alternate key.
pub(crate) fn arrival_of(row: &StoredRow, key: u8) -> u64
    requires { key < length row.now.arrivals.items }
    ensures { result ≡ slice_index_or row.now.arrivals.items key 0 }
{
    row.arrivals[key as usize]
}

/// The value of the prime key in a row.
fn prime_value<'a>(file: &FileSpec, row: &'a StoredRow) -> &'a [u8]
    requires { length row.now.bytes.items ≡ file.now.record_length }
    ensures { result.now ≡ part (place_of (spec_of file.now) Prime) row.now.bytes.items }
{
    let place = file.key_place(KeyOfReference::Prime);
    part_of(place, &row.bytes)
}
