//! Numbers in an image, the highest byte first.

ghost use Rattle.std.specs.Prelude.{◌≡◌, ◌++◌, ◌∷◌, OnOk};
ghost use Rattle.answers.specs.Answer.{Gives};
ghost use Rattle.data_image.specs.Faults.{fault_of};
ghost use Rattle.data_image.specs.Spelling.{count_bytes, short_bytes, small_bytes, wide_bytes, IsCount, FitsFourBytes, IsSmall, IsWide};
ghost use Rattle.data_image.specs.Reading.{count_at, short_at, small_at, wide_at};

use crate::byte::put_byte;
use crate::fault::{ImageError, ImageFault};
use crate::table::TableEntry;
use byteorder::{BigEndian, ByteOrder};
use std::alloc::{AllocError, Global};

/// The bytes of a count, an address or an index.
const COUNT_WIDTH: usize = 8;
/// The bytes of a number of 32 bits.
const SHORT_WIDTH: usize = 4;
/// The bytes of a number of 16 bits.
const SMALL_WIDTH: usize = 2;
/// What the high half of a number of 128 bits counts.
const HALF_UNIT: u128 = 0x1_0000_0000_0000_0000;

/// Puts a count, an address or an index: eight bytes.
#[tactic(auto, unfolding(crate::specs::Spelling::count_bytes))]
pub fn put_count(out: &mut Vec<u8>, count: usize) -> Result<(), AllocError>
    ensures bytes { OnOk result (out.new.items ≡ out.old.items ++ count_bytes count) }
    ensures fits { IsCount count }
{
    let mut bytes = [0; COUNT_WIDTH];
    BigEndian::write_u64(&mut bytes, count as u64);
    out.extend_from_slice(&bytes)
}

/// The count in front, and the bytes after it. 71 where there are fewer than eight.
#[tactic(auto, unfolding(crate::specs::Reading::count_at))]
pub fn read_count(bytes: &[u8]) -> Result<(usize, &[u8]), ImageError>
    ensures { Gives (λ x. (x.0, x.1.now)) fault_of result (count_at bytes.now) }
{
    if bytes.len() < COUNT_WIDTH {
        return Err(ImageError::Refused(ImageFault::Length));
    }
    let count = BigEndian::read_u64(bytes) as usize;
    Ok((count, &bytes[COUNT_WIDTH..]))
}

/// Puts a line, a length, an offset or an entry of a table of data: four bytes.
#[tactic(auto, unfolding(crate::specs::Spelling::short_bytes))]
pub fn put_short(out: &mut Vec<u8>, number: u32) -> Result<(), AllocError>
    ensures bytes { OnOk result (out.new.items ≡ out.old.items ++ short_bytes number) }
    ensures fits { FitsFourBytes number }
{
    let mut bytes = [0; SHORT_WIDTH];
    BigEndian::write_u32(&mut bytes, number);
    out.extend_from_slice(&bytes)
}

/// Puts a byte, and a number of four bytes after it.
pub fn put_naming(out: &mut Vec<u8>, first: u8, number: u32) -> Result<(), AllocError>
    ensures bytes { OnOk result (out.new.items ≡ out.old.items ++ (first ∷ short_bytes number)) }
    ensures fits { FitsFourBytes number }
{
    put_byte(out, first)?;
    put_short(out, number)
}

/// The number of four bytes in front, and the bytes after it. 71 where there are fewer.
#[tactic(auto, unfolding(crate::specs::Reading::short_at))]
pub fn read_short(bytes: &[u8]) -> Result<(u32, &[u8]), ImageError>
    ensures { Gives (λ x. (x.0, x.1.now)) fault_of result (short_at bytes.now) }
{
    if bytes.len() < SHORT_WIDTH {
        return Err(ImageError::Refused(ImageFault::Length));
    }
    Ok((BigEndian::read_u32(bytes), &bytes[SHORT_WIDTH..]))
}

/// Puts a number of 16 bits: two bytes.
#[tactic(auto, unfolding(crate::specs::Spelling::small_bytes))]
pub fn put_small(out: &mut Vec<u8>, number: u16) -> Result<(), AllocError>
    ensures bytes { OnOk result (out.new.items ≡ out.old.items ++ small_bytes number) }
    ensures fits { IsSmall number }
{
    let mut bytes = [0; SMALL_WIDTH];
    BigEndian::write_u16(&mut bytes, number);
    out.extend_from_slice(&bytes)
}

/// The number of two bytes in front, and the bytes after it. 71 where there are fewer.
#[tactic(auto, unfolding(crate::specs::Reading::small_at))]
pub fn read_small(bytes: &[u8]) -> Result<(u16, &[u8]), ImageError>
    ensures { Gives (λ x. (x.0, x.1.now)) fault_of result (small_at bytes.now) }
{
    if bytes.len() < SMALL_WIDTH {
        return Err(ImageError::Refused(ImageFault::Length));
    }
    Ok((BigEndian::read_u16(bytes), &bytes[SMALL_WIDTH..]))
}

#[tactic(auto, unfolding(crate::specs::Spelling::wide_bytes))]
pub(crate) fn put_wide(out: &mut Vec<u8>, number: u128) -> Result<(), AllocError>
    ensures bytes { OnOk result (out.new.items ≡ out.old.items ++ wide_bytes number) }
    ensures fits { IsWide number }
{
    put_count(out, (number / HALF_UNIT) as usize)?;
    put_count(out, (number % HALF_UNIT) as usize)
}

#[tactic(auto, unfolding(crate::specs::Reading::wide_at))]
pub(crate) fn read_wide(bytes: &[u8]) -> Result<(u128, &[u8]), ImageError>
    ensures { Gives (λ x. (x.0, x.1.now)) fault_of result (wide_at bytes.now) }
{
    let (high, rest) = read_count(bytes)?;
    let (low, rest) = read_count(rest)?;
    Ok((high as u128 * HALF_UNIT + low as u128, rest))
}

/// A number of 32 bits.
impl TableEntry for u32 {
    ghost spelled = { short_bytes };

    ghost read_from = { short_at };

    ghost fits = { FitsFourBytes };

    fn put(&self, out: &mut Vec<u8>) -> Result<(), AllocError> {
        put_short(out, *self)
    }

    fn read(_alloc: Global, bytes: &[u8]) -> Result<(u32, &[u8]), ImageError> {
        read_short(bytes)
    }
}

/// An address.
impl TableEntry for usize {
    ghost spelled = { count_bytes };

    ghost read_from = { count_at };

    ghost fits = { IsCount };

    fn put(&self, out: &mut Vec<u8>) -> Result<(), AllocError> {
        put_count(out, *self)
    }

    fn read(_alloc: Global, bytes: &[u8]) -> Result<(usize, &[u8]), ImageError> {
        read_count(bytes)
    }
}
