//! The keys in a record.
ghost use Rattle.std.specs.Prelude.{◌≡◌, ◌≤◌, length, take, drop};
ghost use Rattle.records.specs.Rows.{part, place_of};
ghost use Rattle.records.specs.Stores.{IsKey, key_length, spec_of};

use records::{FileSpec, KeyOfReference};

/// The first bytes of a key in a record.
pub(crate) fn key_bytes<'a>(
    file: &FileSpec,
    key: KeyOfReference,
    count: u16,
    bytes: &'a [u8],
) -> &'a [u8]
    requires key { IsKey (spec_of file.now) key }
    requires count { count ≤ key_length (spec_of file.now) key }
    requires whole { length bytes.now ≡ file.now.record_length }
    ensures { result.now ≡ take count (drop (place_of (spec_of file.now) key).offset bytes.now) }
{
    let start = file.key_place(key).offset as usize;
    &bytes[start..start + count as usize]
}

/// A key's value in a record.
pub(crate) fn key_value<'a>(file: &FileSpec, key: KeyOfReference, bytes: &'a [u8]) -> &'a [u8]
    requires key { IsKey (spec_of file.now) key }
    requires whole { length bytes.now ≡ file.now.record_length }
    ensures { result.now ≡ part (place_of (spec_of file.now) key) bytes.now }
{
    key_bytes(file, key, file.key_place(key).length, bytes)
}
