//! Digits of numbers.

ghost use Rattle.std.specs.Prelude.{◌≡◌, ◌<◌, ◌≤◌, ◌^◌, length, unsigned_abs};
ghost use Rattle.decimal18.specs.Digits.{digit_text};

use decimal18::Dec;
use itoa::write_digits;

/// The most digits of a number (COBOL-85, Nucleus, the PICTURE clause).
pub const MOST_DIGITS: usize = 18;

/// Writes all the digits of a number, with zeros in front up to as many as there are bytes.
pub fn put_all_digits(x: Dec, bytes: &mut [u8])
    requires some { 1 ≤ length bytes.old }
    requires most { length bytes.old ≤ 18 }
    requires room { unsigned_abs x.coefficient < 10 ^ length bytes.old }
    ensures { bytes.new ≡ digit_text (length bytes.old) (unsigned_abs x.coefficient) }
{
    let end = bytes.len();
    bytes.fill(b'0');
    write_digits(x.magnitude() as u64, bytes, end);
}
