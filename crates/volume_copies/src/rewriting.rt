//! A row that is rewritten, so that it arrives anew under some alternate keys.
ghost use Rattle.std.specs.Prelude.{◌≡◌, ◌≤◌, ◌<◌, length, Err, IfOk};
ghost use Rattle.volume_copies.specs.Copied.{KeepsDevice};

use crate::write_order::arrival_under;
use file_recovery::{StoredFile, StoredRow};
use records::{FileSpec, KeyPlace, Organization, Outcome, Store, StoreFault};
use station::Device;
use std::alloc::{AllocError, Global};

/// Gives a row another value of each key with DUPLICATES under which it has this arrival, and then
/// its own value again. Keys under which it arrived earlier keep their values.
pub(crate) fn rewrite_row<S: Store, D: Device>(
    alloc: Global,
    store: &mut S,
    device: &mut D,
    file: &StoredFile,
    row: &StoredRow,
    arrival: u64,
) -> Result<(), StoreFault>
    requires device { S.needs store.old ≤ D.sectors device.old }
    requires record { length row.now.bytes.items ≡ file.now.spec.record_length }
    ensures keeps { KeepsDevice D.Device (result ≡ Err StoreFault.Device) device.old device.new }
    ensures needs { S.needs store.new ≡ S.needs store.old }
{
    for change in 1..=u8::MAX {
        if is_rewritten(alloc, store, device, file, row, arrival, change)? {
            return Ok(());
        }
    }
    Ok(())
}

/// The same by this change of each key, unless a key without DUPLICATES has the other value in
/// another row.
fn is_rewritten<S: Store, D: Device>(
    alloc: Global,
    store: &mut S,
    device: &mut D,
    file: &StoredFile,
    row: &StoredRow,
    arrival: u64,
    change: u8,
) -> Result<bool, StoreFault>
    requires device { S.needs store.old ≤ D.sectors device.old }
    requires record { length row.now.bytes.items ≡ file.now.spec.record_length }
    ensures keeps { KeepsDevice D.Device (result ≡ Err StoreFault.Device) device.old device.new }
    ensures needs { S.needs store.new ≡ S.needs store.old }
{
    let record = changed_record(alloc, file, row, arrival, change)?;
    match store.replace(device, &file.spec, row.number, &record) {
        Ok(Outcome::Taken) => Ok(false),
        Ok(Outcome::Missing) => Ok(true),
        Ok(Outcome::Done | Outcome::Duplicate) => restore(store, device, &file.spec, row),
        Err(fault) => Err(fault),
    }
}

/// Gives a row its own record again.
fn restore<S: Store, D: Device>(
    store: &mut S,
    device: &mut D,
    file: &FileSpec,
    row: &StoredRow,
) -> Result<bool, StoreFault>
    requires device { S.needs store.old ≤ D.sectors device.old }
    requires record { length row.now.bytes.items ≡ file.now.record_length }
    ensures keeps { KeepsDevice D.Device (result ≡ Err StoreFault.Device) device.old device.new }
    ensures needs { S.needs store.new ≡ S.needs store.old }
{
    match store.replace(device, file, row.number, &row.bytes) {
        Ok(_) => Ok(true),
        Err(fault) => Err(fault),
    }
}

/// A row's record with a changed byte in each key under which it has this arrival.
fn changed_record(
    alloc: Global,
    file: &StoredFile,
    row: &StoredRow,
    arrival: u64,
    change: u8,
) -> Result<Vec<u8>, AllocError>
    ensures { IfOk result (λ made. length made.items ≡ length row.now.bytes.items) }
{
    let mut record = Vec::from_slice(alloc, &row.bytes)?;
    for key in 0..file.spec.alternates.len() {
        if file.spec.alternates[key].duplicates && arrival_under(row, key) == arrival {
            change_key(&mut record, file, row, key, change);
        }
    }
    Ok(record)
}

/// Changes a byte of a key that no earlier key has.
fn change_key(record: &mut [u8], file: &StoredFile, row: &StoredRow, key: usize, change: u8)
    requires { key < length file.now.spec.alternates.items }
{
    let place = file.spec.alternates[key].place;
    let end = place.offset as usize + place.length as usize;
    for byte in place.offset as usize..end {
        if byte < record.len() && byte < row.bytes.len() && is_own_byte(file, row, key, byte) {
            record[byte] = row.bytes[byte] ^ change;
            return;
        }
    }
}

/// Whether a byte of a key is neither in the prime key nor in a key under which the row arrived
/// earlier.
fn is_own_byte(file: &StoredFile, row: &StoredRow, key: usize, byte: usize) -> bool {
    if let Organization::Indexed(prime) = file.spec.organization {
        if has_byte(prime, byte) {
            return false;
        }
    }
    for other in 0..file.spec.alternates.len() {
        let alternate = file.spec.alternates[other];
        if alternate.duplicates
            && has_byte(alternate.place, byte)
            && arrival_under(row, other) < arrival_under(row, key)
        {
            return false;
        }
    }
    true
}

fn has_byte(place: KeyPlace, byte: usize) -> bool {
    place.offset as usize <= byte && byte < place.offset as usize + place.length as usize
}
