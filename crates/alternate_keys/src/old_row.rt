//! A row by its value in the tree of rows: its record, and after it its arrivals.
ghost use Rattle.std.specs.Prelude.{◌≡◌, ◌≤◌, ◌<◌, ◌+◌, ◌*◌, ◌^◌, ◌++◌, length, take, drop, if◌then◌else◌, IfOk, IsOkUnless};
ghost use Rattle.std.specs.List.{flat_map, list_any};
ghost use Rattle.byteorder.specs.Endian.{big_bytes, big_number};
ghost use Rattle.records.specs.Changes.{changes, arrivals_after};
ghost use Rattle.records.specs.Rows.{Row};
ghost use Rattle.records.specs.Stores.{spec_of, IsKey};
ghost use Rattle.file_bytes.specs.Rows.{row_value};
ghost use Rattle.alternate_keys.specs.Moved.{old_key, changes_at, IsRowOf};

use crate::row_bytes::copy_of;
use crate::search_keys::pair_bytes;
use byteorder::{BigEndian, ByteOrder};
use file_bytes::part_of;
use records::{FileSpec, KeyOfReference, StoreFault};
use std::alloc::Global;

/// The bytes of an arrival.
const ARRIVAL_BYTES: usize = 8;

/// Its record.
pub(crate) fn record_in<'a>(file: &FileSpec, old: &'a [u8]) -> &'a [u8]
    requires { file.now.record_length ≤ length old.now }
    ensures is { result.now ≡ take file.now.record_length old.now }
    ensures long { length result.now ≡ file.now.record_length }
{
    &old[..file.record_length as usize]
}

/// Its arrival under an alternate key.
pub(crate) fn arrival_in(file: &FileSpec, key: u8, old: &[u8]) -> u64
    requires key { IsKey (spec_of file.now) (KeyOfReference.Alternate key) }
    requires old { length old.now ≡ file.now.record_length + 8 * length file.now.alternates.items }
    ensures { result ≡ big_number 8 (drop (file.now.record_length + 8 * key) old.now) }
{
    // How many keys there are is needed below.
    let _count = file.alternates.len();
    number_at(
        old,
        file.record_length as usize + ARRIVAL_BYTES * key as usize,
    )
}

/// The number of eight bytes from a place on.
fn number_at(bytes: &[u8], at: usize) -> u64
    requires { at + 8 ≤ length bytes.now }
    ensures { result ≡ big_number 8 (drop at bytes.now) }
{
    BigEndian::read_u64(&bytes[at..])
}

/// The key of its pair in the tree of an alternate key.
pub(crate) fn old_pair(
    alloc: Global,
    file: &FileSpec,
    key: u8,
    old: &[u8],
) -> Result<Vec<u8>, StoreFault>
    requires key { IsKey (spec_of file.now) (KeyOfReference.Alternate key) }
    requires old { length old.now ≡ file.now.record_length + 8 * length file.now.alternates.items }
    ensures key { IfOk result (λ pair. pair.items ≡ old_key (spec_of file.now) key old.now) }
    ensures memory { IsOkUnless result StoreFault.Memory }
{
    let place = file.key_place(KeyOfReference::Alternate(key));
    let arrival = arrival_in(file, key, old);
    pair_bytes(alloc, part_of(place, record_in(file, old)), arrival)
}

/// Whether a new record has another value of an alternate key.
pub(crate) fn is_changed(file: &FileSpec, key: u8, old: &[u8], bytes: &[u8]) -> bool
    requires key { IsKey (spec_of file.now) (KeyOfReference.Alternate key) }
    requires old { file.now.record_length ≤ length old.now }
    requires bytes { length bytes.now ≡ file.now.record_length }
    ensures { result ≡ changes_at (spec_of file.now) key old.now bytes.now }
{
    let place = file.key_place(KeyOfReference::Alternate(key));
    let same = part_of(place, record_in(file, old)) == part_of(place, bytes);
    !same
}

/// Whether a new record has another value of some alternate key.
fn is_any_changed(file: &FileSpec, old: &[u8], bytes: &[u8]) -> bool
    requires old { file.now.record_length ≤ length old.now }
    requires bytes { length bytes.now ≡ file.now.record_length }
    ensures { result ≡ list_any (changes (take file.now.record_length old.now) bytes.now)
        file.now.alternates.items }
{
    let count = file.alternates.len() as u8;
    for key in 0..count {
        if is_changed(file, key, old, bytes) {
            return true;
        }
    }
    false
}

/// Its arrival under an alternate key after another record came: `arrival` where the value has changed.
fn arrival_after(file: &FileSpec, key: u8, old: &[u8], bytes: &[u8], arrival: u64) -> u64
    requires key { IsKey (spec_of file.now) (KeyOfReference.Alternate key) }
    requires old { length old.now ≡ file.now.record_length + 8 * length file.now.alternates.items }
    requires bytes { length bytes.now ≡ file.now.record_length }
    ensures { result ≡ (if changes_at (spec_of file.now) key old.now bytes.now then arrival
        else big_number 8 (drop (file.now.record_length + 8 * key) old.now)) }
{
    if is_changed(file, key, old, bytes) {
        arrival
    } else {
        arrival_in(file, key, old)
    }
}

/// The value of the row after another record came, in the tree of rows.
pub(crate) fn value_after(
    alloc: Global,
    file: &FileSpec,
    old: &[u8],
    bytes: &[u8],
    arrival: u64,
) -> Result<Vec<u8>, StoreFault>
    requires old { length old.now ≡ file.now.record_length + 8 * length file.now.alternates.items }
    requires bytes { length bytes.now ≡ file.now.record_length }
    ensures value { (row : Row) → IsRowOf (spec_of file.now) row → old.now ≡ row_value row →
        IfOk result (λ value. value.items ≡ bytes.now ++ flat_map (big_bytes 8)
        (arrivals_after row.bytes bytes.now arrival file.now.alternates.items row.arrivals)) }
    ensures long { IfOk result (λ value. length value.items
        ≡ file.now.record_length + 8 * length file.now.alternates.items) }
    ensures memory { IsOkUnless result StoreFault.Memory }
{
    let mut out = copy_of(alloc, bytes)?;
    let count = file.alternates.len() as u8;
    for key in 0..count {
        let given = arrival_after(file, key, old, bytes, arrival);
        out.extend_from_slice(&given.to_be_bytes())?;
    }
    Ok(out)
}

/// The arrival that the next WRITE gives after another record came: one more, where the value of some key has changed.
pub(crate) fn arrival_next(file: &FileSpec, old: &[u8], bytes: &[u8], arrival: u64) -> u64
    requires old { file.now.record_length ≤ length old.now }
    requires bytes { length bytes.now ≡ file.now.record_length }
    requires arrival { arrival + 1 < 2 ^ 64 }
    ensures { result ≡ (if list_any (changes (take file.now.record_length old.now) bytes.now)
        file.now.alternates.items then arrival + 1 else arrival) }
{
    if is_any_changed(file, old, bytes) {
        arrival + 1
    } else {
        arrival
    }
}
