//! What the catalog says of a file, as bytes.
ghost use Rattle.std.specs.Prelude.{◌≡◌, ◌<◌, ◌+◌, ◌*◌, ◌++◌, length, drop, OnOk, IfOk, IsOkUnless};
ghost use Rattle.std.specs.List.{flat_map};
ghost use Rattle.byteorder.specs.Endian.{big_bytes, big_number};
ghost use Rattle.pages.specs.Layout.{version_of};
ghost use Rattle.records.specs.Stores.{spec_of};
ghost use Rattle.volume_format.specs.Catalog.{listing_bytes, catalog_value, value_length};

use byteorder::{BigEndian, ByteOrder};
use file_bytes::{push_description, push_zeros};
use pages::VolumeMark;
use records::{FileSpec, StoreFault};
use std::alloc::Global;

/// The bytes of a listing.
pub const LISTING_BYTES: usize = 83;

/// The bytes of the number of rows, which a value of the catalog has after the listing on a volume with the second mark.
const ROWS_BYTES: usize = 8;

/// Where the page of the root of the tree of rows stands in a value of the catalog, counted from 0.
const PRIME_AT: usize = 43;

/// Where the roots of the trees of alternate keys begin.
const ALTERNATES_AT: usize = 47;

/// Where the next arrival stands.
const ARRIVAL_AT: usize = 75;

const ROOT_BYTES: usize = 4;

const ROOTS_BYTES: usize = 28;

/// How many bytes a value of the catalog has on a volume with this mark.
pub fn value_bytes(mark: VolumeMark) -> usize
    ensures { result ≡ value_length (version_of mark) }
{
    match mark {
        VolumeMark::First => LISTING_BYTES,
        VolumeMark::Second => LISTING_BYTES + ROWS_BYTES,
    }
}

/// A value of the catalog on a volume with this mark. The listing comes first. With the second mark the number of the file's rows
/// is after the listing.
pub fn spell_value(
    alloc: Global,
    mark: VolumeMark,
    listing: &[u8],
    rows: u64,
) -> Result<Vec<u8>, StoreFault>
    ensures bytes { IfOk result
        (λ bytes. bytes.items ≡ catalog_value (version_of mark) listing.now rows) }
    ensures memory { IsOkUnless result StoreFault.Memory }
{
    let mut out = Vec::from_slice(alloc, listing)?;
    match mark {
        VolumeMark::First => Ok(out),
        VolumeMark::Second => {
            out.extend_from_slice(&rows.to_be_bytes())?;
            Ok(out)
        }
    }
}

/// The number of rows in a value of the catalog, 0 on a volume with the first mark.
pub fn stored_rows(mark: VolumeMark, value: &[u8]) -> u64
    requires { length value.now ≡ value_length (version_of mark) }
    ensures first { version_of mark ≡ 0 → result ≡ 0 }
    ensures second { 0 < version_of mark → result ≡ big_number 8 (drop 83 value.now) }
{
    match mark {
        VolumeMark::First => 0,
        VolumeMark::Second => BigEndian::read_u64(&value[LISTING_BYTES..]),
    }
}

/// The 83 bytes of a listing: the pages of its trees' roots, and the arrival that the next WRITE gives.
pub fn spell_listing(
    alloc: Global,
    file: &FileSpec,
    prime: u32,
    alternates: &[u32],
    next_arrival: u64,
) -> Result<Vec<u8>, StoreFault>
    requires { length alternates.now ≡ length file.now.alternates.items }
    ensures bytes { IfOk result (λ bytes. bytes.items ≡ listing_bytes (record {
      spec = spec_of file.now;
      prime = prime;
      alternates = alternates.now;
      next_arrival = next_arrival;
    })) }
    ensures memory { IsOkUnless result StoreFault.Memory }
{
    let mut out = Vec::with_capacity(alloc, LISTING_BYTES)?;
    push_description(&mut out, file)?;
    out.extend_from_slice(&prime.to_be_bytes())?;
    push_roots(&mut out, alternates)?;
    push_zeros(&mut out, ROOTS_BYTES - ROOT_BYTES * alternates.len())?;
    out.extend_from_slice(&next_arrival.to_be_bytes())?;
    Ok(out)
}

/// Pages of roots.
fn push_roots(out: &mut Vec<u8>, roots: &[u32]) -> Result<(), StoreFault>
    ensures bytes { OnOk result
        (out.new.items ≡ out.old.items ++ flat_map (big_bytes 4) roots.now) }
    ensures memory { IsOkUnless result StoreFault.Memory }
{
    for root in roots {
        out.extend_from_slice(&root.to_be_bytes())?;
    }
    Ok(())
}

/// The page of the root of the tree of rows, 0 where it has none.
pub fn prime_root(value: &[u8]) -> u32
    requires { length value.now ≡ 83 }
    ensures { result ≡ big_number 4 (drop 43 value.now) }
{
    BigEndian::read_u32(&value[PRIME_AT..])
}

/// The page of the root of the tree of an alternate key, 0 where it has none.
pub fn alternate_root(value: &[u8], key: u8) -> u32
    requires value { length value.now ≡ 83 }
    requires key { key < 7 }
    ensures { result ≡ big_number 4 (drop (47 + 4 * key) value.now) }
{
    BigEndian::read_u32(&value[ALTERNATES_AT + ROOT_BYTES * key as usize..])
}

/// The arrival that the next WRITE gives.
pub fn next_arrival(value: &[u8]) -> u64
    requires { length value.now ≡ 83 }
    ensures { result ≡ big_number 8 (drop 75 value.now) }
{
    BigEndian::read_u64(&value[ARRIVAL_AT..])
}
