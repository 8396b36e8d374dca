//! Eight ASCII digits at a time, as one number of 64 bits whose bytes are the characters.

ghost use Rattle.std.specs.Prelude.{◌≡◌, ◌<◌, ◌^◌, length, IfSome};
ghost use Rattle.decimal18.specs.Digits.{number_after};

use byteorder::{ByteOrder, LittleEndian};

/// A character `0` in each byte.
const ZEROS: u64 = 0x3030_3030_3030_3030;

/// The high half of each byte.
const HIGH_HALVES: u64 = 0xF0F0_F0F0_F0F0_F0F0;

/// What makes a half of a byte that is above 9 run over into the high half.
const SIXES: u64 = 0x0606_0606_0606_0606;

/// Every second byte, and every second pair of bytes.
const SECOND_BYTES: u64 = 0x00FF_00FF_00FF_00FF;

const SECOND_PAIRS: u64 = 0x0000_FFFF_0000_FFFF;

/// The places of the second byte, of the third and of the fifth.
const BYTE: u64 = 0x100;

const PAIR: u64 = 0x1_0000;

const FOUR: u64 = 0x1_0000_0000;

/// The number that eight bytes are, if they are ASCII digits. One test covers all eight. The digits are joined to pairs,
/// these to fours, and these to the number, in all places together.
#[inline]
pub fn eight_digits(bytes: &[u8]) -> Option<u64>
    requires { length bytes.now ≡ 8 }
    ensures value { result ≡ number_after 0 bytes.now }
    ensures bound { IfSome result (λ number. number < 10 ^ 8) }
{
    let word = LittleEndian::read_u64(bytes);
    let digits = word ^ ZEROS;
    if (digits | digits.wrapping_add(SIXES)) & HIGH_HALVES != 0 {
        return None;
    }
    let pairs = (10 * digits + digits / BYTE) & SECOND_BYTES;
    let fours = (100 * pairs + pairs / PAIR) & SECOND_PAIRS;
    Some((10_000 * fours + fours / FOUR) % FOUR)
}
