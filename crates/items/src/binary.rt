//! Numbers in binary usage.

ghost use Rattle.std.specs.Prelude.{◌≡◌, ◌<◌, ◌≤◌, ◌^◌, length, unsigned_abs};
ghost use Rattle.decimal18.specs.Fraction.{is_negative};
ghost use Rattle.items.specs.Numbers as numbers;
ghost use Rattle.items.specs.Binary as spec;

use byteorder::{BigEndian, ByteOrder};

/// Most digits of an item of two bytes.
pub const HALFWORD_DIGITS: u8 = 4;

/// Most digits of an item of four bytes.
pub const FULLWORD_DIGITS: u8 = 9;

/// The integer that the bytes of a binary number of so many digits are.
pub fn binary_integer(digits: u8, bytes: &[u8]) -> i64
    requires { length bytes.now ≡ numbers.binary_length digits }
    ensures { result ≡ spec.binary_integer bytes.now }
{
    if digits <= HALFWORD_DIGITS {
        i64::from(BigEndian::read_i16(bytes))
    } else if digits <= FULLWORD_DIGITS {
        i64::from(BigEndian::read_i32(bytes))
    } else {
        BigEndian::read_i64(bytes)
    }
}

/// Writes an integer of at most so many digits.
pub fn put_binary(digits: u8, integer: i64, bytes: &mut [u8])
    requires length { length bytes.old ≡ numbers.binary_length digits }
    requires most { digits ≤ 18 }
    requires bound { unsigned_abs integer < 10 ^ digits }
    ensures { bytes.new
        ≡ spec.binary_bytes (length bytes.old) (is_negative integer) (unsigned_abs integer) }
{
    if digits <= HALFWORD_DIGITS {
        BigEndian::write_i16(bytes, integer as i16);
    } else if digits <= FULLWORD_DIGITS {
        BigEndian::write_i32(bytes, integer as i32);
    } else {
        BigEndian::write_i64(bytes, integer);
    }
}
