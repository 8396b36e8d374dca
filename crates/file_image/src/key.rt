//! Keys in an image.

ghost use Rattle.std.specs.Prelude.{◌≡◌, ◌++◌, OnOk, length};
ghost use Rattle.std.specs.List.{AllByRecursion};
ghost use Rattle.answers.specs.Answer.{Gives};
ghost use Rattle.data_image.specs.Faults.{fault_of};
ghost use Rattle.data_image.specs.Spelling.{table_bytes, IsCount};
ghost use Rattle.data_image.specs.Reading.{entries_at, table_at};
ghost use Rattle.file_image.specs.Spelling.{key_bytes, place_bytes, alternate_bytes, IsKeySpelled, IsPlaceSpelled, IsAlternateSpelled, key_at, place_at, alternate_at};

use data_image::{
    ImageError, ImageFault, flag_byte, put_byte, put_count, put_small, read_byte, read_count,
    read_flag, read_small,
};
use records::{AlternateKey, KeyOfReference, KeyPlace};
use sqlite_items::Items;
use std::alloc::{AllocError, Global};

// The first byte of a key of reference.
const PRIME: u8 = 0;

const ALTERNATE: u8 = 1;

/// Puts a key of reference.
pub fn put_key(out: &mut Vec<u8>, key: KeyOfReference) -> Result<(), AllocError>
    ensures bytes { OnOk result (out.new.items ≡ out.old.items ++ key_bytes key) }
    ensures fits { IsKeySpelled key }
{
    match key {
        KeyOfReference::Prime => put_byte(out, PRIME),
        KeyOfReference::Alternate(number) => {
            put_byte(out, ALTERNATE)?;
            put_byte(out, number)
        }
    }
}

/// The key of reference in front, and the bytes after it.
#[tactic(auto, unfolding(crate::specs::Spelling::key_at))]
pub fn read_key(bytes: &[u8]) -> Result<(KeyOfReference, &[u8]), ImageError>
    ensures { Gives (λ x. (x.0, x.1.now)) fault_of result (key_at bytes.now) }
{
    let (byte, rest) = read_byte(bytes)?;
    match byte {
        PRIME => Ok((KeyOfReference::Prime, rest)),
        ALTERNATE => {
            let (number, rest) = read_byte(rest)?;
            Ok((KeyOfReference::Alternate(number), rest))
        }
        _ => Err(ImageError::Refused(ImageFault::Value)),
    }
}

/// Puts the place of a key.
pub fn put_place(out: &mut Vec<u8>, place: KeyPlace) -> Result<(), AllocError>
    ensures bytes { OnOk result (out.new.items ≡ out.old.items ++ place_bytes place) }
    ensures fits { IsPlaceSpelled place }
{
    put_small(out, place.offset)?;
    put_small(out, place.length)
}

/// The place in front, and the bytes after it.
#[tactic(auto, unfolding(crate::specs::Spelling::place_at))]
pub fn read_place(bytes: &[u8]) -> Result<(KeyPlace, &[u8]), ImageError>
    ensures { Gives (λ x. (x.0, x.1.now)) fault_of result (place_at bytes.now) }
{
    let (offset, rest) = read_small(bytes)?;
    let (length, rest) = read_small(rest)?;
    Ok((KeyPlace { offset, length }, rest))
}

#[tactic(auto, unfolding(crate::specs::Spelling::alternate_bytes))]
fn put_alternate(out: &mut Vec<u8>, key: AlternateKey) -> Result<(), AllocError>
    ensures bytes { OnOk result (out.new.items ≡ out.old.items ++ alternate_bytes key) }
    ensures fits { IsAlternateSpelled key }
{
    put_place(out, key.place)?;
    put_byte(out, flag_byte(key.duplicates))
}

#[tactic(auto, unfolding(crate::specs::Spelling::alternate_at))]
fn read_alternate(bytes: &[u8]) -> Result<(AlternateKey, &[u8]), ImageError>
    ensures { Gives (λ x. (x.0, x.1.now)) fault_of result (alternate_at bytes.now) }
{
    let (place, rest) = read_place(bytes)?;
    let (duplicates, rest) = read_flag(rest)?;
    Ok((AlternateKey { place, duplicates }, rest))
}

/// Puts the count of the alternate keys, and each of them.
pub fn put_alternates(out: &mut Vec<u8>, keys: &[AlternateKey]) -> Result<(), AllocError>
    ensures bytes { OnOk result
        (out.new.items ≡ out.old.items ++ table_bytes alternate_bytes keys.now) }
    ensures count { OnOk result (IsCount (length keys.now)) }
    ensures fits { OnOk result (AllByRecursion IsAlternateSpelled keys.now) }
{
    put_count(out, keys.len())?;
    for key in keys {
        put_alternate(out, *key)?;
    }
    Ok(())
}

fn read_so_many(
    alloc: Global,
    count: usize,
    bytes: &[u8],
) -> Result<(Items<AlternateKey>, &[u8]), ImageError>
    ensures { Gives (λ x. (x.0, x.1.now)) fault_of result
        (entries_at alternate_at count bytes.now) }
{
    let mut keys = Items::new(alloc);
    let mut rest = bytes;
    for _ in 0..count {
        let (key, after) = read_alternate(rest)?;
        keys.push(key)?;
        rest = after;
    }
    Ok((keys, rest))
}

/// The alternate keys in front, and the bytes after them.
#[tactic(auto, unfolding(data_image::specs::Reading::table_at))]
pub fn read_alternates(
    alloc: Global,
    bytes: &[u8],
) -> Result<(Items<AlternateKey>, &[u8]), ImageError>
    ensures { Gives (λ x. (x.0, x.1.now)) fault_of result (table_at alternate_at bytes.now) }
{
    let (count, rest) = read_count(bytes)?;
    read_so_many(alloc, count, rest)
}
