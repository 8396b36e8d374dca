//! How a tree is looked into for the first row after a place.
ghost use Rattle.std.specs.Prelude.{◌≡◌, ◌≤◌, ◌+◌, ◌++◌, length, IfOk, IsOkUnless};
ghost use Rattle.byteorder.specs.Endian.{big_bytes};
ghost use Rattle.records.specs.Stores.{spec_of, IsKey, key_length, bound_at};
ghost use Rattle.alternate_keys.specs.Aims.{fill, aim_at, aim_short, aim_number, aim_value, aim_of, aim_key, pair_aim_key};

use crate::search_key::SearchKey;
use crate::search_start::SearchStart;
use records::{FileSpec, KeyOfReference, Organization, Side, StoreFault};
use std::alloc::Global;

/// Numbers of relative files are below this.
const NUMBERS: u64 = 4294967296;

/// The bytes of an arrival.
pub(crate) const ARRIVAL_BYTES: usize = 8;

/// Which entry of a key's tree is looked for.
pub(crate) fn search_start_for(
    file: &FileSpec,
    key: KeyOfReference,
    side: Side,
    value: &[u8],
    number: u64,
) -> SearchStart
    requires { IsKey (spec_of file.now) key }
    ensures { result ≡ aim_of (spec_of file.now) key (bound_at side value.now number) }
{
    let whole = value.len() >= file.key_place(key).length as usize;
    match key {
        KeyOfReference::Prime => match file.organization {
            Organization::Sequential => start_at_number(side),
            Organization::Relative => {
                if number < NUMBERS {
                    start_at_number(side)
                } else {
                    SearchStart::Nothing
                }
            }
            Organization::Indexed(_) => {
                if whole {
                    start_at_value(side, number)
                } else {
                    start_at_part(side)
                }
            }
        },
        KeyOfReference::Alternate(_) => {
            if whole {
                start_at_pair(side)
            } else {
                start_at_part(side)
            }
        }
    }
}

/// A value, and a number in 8 bytes after it.
pub(crate) fn pair_bytes(alloc: Global, value: &[u8], number: u64) -> Result<Vec<u8>, StoreFault>
    ensures bytes { IfOk result (λ bytes. bytes.items ≡ value.now ++ big_bytes 8 number) }
    ensures memory { IsOkUnless result StoreFault.Memory }
{
    let mut out = Vec::with_capacity(alloc, value.len().saturating_add(ARRIVAL_BYTES))?;
    out.extend_from_slice(value)?;
    out.extend_from_slice(&number.to_be_bytes())?;
    Ok(out)
}

/// The number of a row as a key.
pub(crate) fn number_bytes(alloc: Global, number: u64) -> Result<Vec<u8>, StoreFault>
    ensures bytes { IfOk result (λ bytes. bytes.items ≡ big_bytes 4 number) }
    ensures memory { IsOkUnless result StoreFault.Memory }
{
    let mut out = Vec::new(alloc);
    out.extend_from_slice(&number.to_be_bytes()[4..])?;
    Ok(out)
}

/// Sets `at` to the key from which the tree of `key` is searched for a value and a number.
pub(crate) fn put_key(
    at: &mut SearchKey,
    file: &FileSpec,
    key: KeyOfReference,
    side: Side,
    value: &[u8],
    number: u64,
)
    requires key { IsKey (spec_of file.now) key }
    requires value { length value.now ≤ key_length (spec_of file.now) key }
    ensures { at.new ≡ aim_key (spec_of file.now) key (bound_at side value.now number) }
{
    let count = file.key_place(key).length as usize;
    match key {
        KeyOfReference::Prime => match file.organization {
            Organization::Sequential => at.set_pair(&[], number),
            Organization::Relative => at.set_number(number),
            Organization::Indexed(_) => at.set_filled(value, count, fill_byte(side)),
        },
        KeyOfReference::Alternate(_) => {
            let count = count + ARRIVAL_BYTES;
            if value.len() + ARRIVAL_BYTES < count {
                at.set_filled(value, count, fill_byte(side));
            } else {
                put_whole_key(at, count, side, value, number);
            }
        }
    }
}

/// The start of a search for a value with its number.
fn start_at_pair(side: Side) -> SearchStart
    ensures { result ≡ aim_at side }
{
    match side {
        Side::From => SearchStart::From,
        Side::After => SearchStart::After,
        Side::Beyond => SearchStart::After,
    }
}

/// The start of a search for the beginning of a value.
fn start_at_part(side: Side) -> SearchStart
    ensures { result ≡ aim_short side }
{
    match side {
        Side::From => SearchStart::From,
        Side::After => SearchStart::From,
        Side::Beyond => SearchStart::After,
    }
}

/// The start of a search for a number.
fn start_at_number(side: Side) -> SearchStart
    ensures { result ≡ aim_number side }
{
    match side {
        Side::From => SearchStart::From,
        Side::After => SearchStart::After,
        Side::Beyond => SearchStart::Nothing,
    }
}

/// The start of a search for a value of the prime key.
fn start_at_value(side: Side, number: u64) -> SearchStart
    ensures { result ≡ aim_value side number }
{
    match side {
        Side::From => {
            if number == 0 {
                SearchStart::From
            } else {
                SearchStart::After
            }
        }
        Side::After => SearchStart::After,
        Side::Beyond => SearchStart::After,
    }
}

/// The byte with which a value is filled up.
fn fill_byte(side: Side) -> u8
    ensures { result ≡ fill side }
{
    match side {
        Side::From => 0,
        Side::After => 0,
        Side::Beyond => 255,
    }
}

/// Sets `at` to the key of a place under an alternate key whose value has its whole length.
fn put_whole_key(at: &mut SearchKey, count: usize, side: Side, value: &[u8], number: u64)
    requires count { count ≤ 200 }
    requires fits { length value.now + 8 ≤ count }
    ensures { at.new ≡ pair_aim_key count side (record { value = value.now; number = number }) }
{
    match side {
        Side::From => at.set_pair(value, number),
        Side::After => at.set_pair(value, number),
        Side::Beyond => at.set_filled(value, count, 255),
    }
}
