//! The numbers that runs of ASCII digits stand for, in 64 bits.

ghost use Rattle.std.specs.Prelude.{◌≡◌, ◌<◌, ◌≤◌, ◌+◌, ◌*◌, ◌^◌, length, IfSome};
ghost use Rattle.decimal18.specs.Digits as spec;

use crate::eight_digits::eight_digits;

/// The radix of decimal digits.
const RADIX: u64 = 10;

/// Digits that are taken at once, and what a number grows by before them.
const EIGHT: usize = 8;

const EIGHT_ZEROS: u64 = 100_000_000;

/// The number that bytes stand for after the digits of a number, if they are ASCII digits; all together are at most 18
/// digits.
pub fn number_after(front: u64, digits: &[u8]) -> Option<u64>
    requires { (front + 1) * 10 ^ length digits.now ≤ 10 ^ 18 }
    ensures value { result ≡ spec.number_after front digits.now }
    ensures bound { IfSome result (λ number. number < (front + 1) * 10 ^ length digits.now) }
{
    if digits.len() < EIGHT {
        return after_by_one(front, digits);
    }
    let (first, rest) = digits.split_at(EIGHT);
    let Some(eight) = eight_digits(first) else {
        return None;
    };
    after_by_eight(EIGHT_ZEROS * front + eight, rest)
}

/// The same, a digit at a time.
fn after_by_one(front: u64, digits: &[u8]) -> Option<u64>
    requires { (front + 1) * 10 ^ length digits.now ≤ 10 ^ 18 }
    ensures value { result ≡ spec.number_after front digits.now }
    ensures bound { IfSome result (λ number. number < (front + 1) * 10 ^ length digits.now) }
{
    let mut number = front;
    for digit in digits {
        if !digit.is_ascii_digit() {
            return None;
        }
        number = RADIX * number + u64::from(*digit - b'0');
    }
    Some(number)
}

/// The same, where eight digits are taken at most once. It is kept out of its caller, which needs few registers then.
#[inline(never)]
fn after_by_eight(front: u64, digits: &[u8]) -> Option<u64>
    requires { (front + 1) * 10 ^ length digits.now ≤ 10 ^ 18 }
    ensures value { result ≡ spec.number_after front digits.now }
    ensures bound { IfSome result (λ number. number < (front + 1) * 10 ^ length digits.now) }
{
    if digits.len() < EIGHT {
        return after_by_one(front, digits);
    }
    let (first, rest) = digits.split_at(EIGHT);
    let Some(eight) = eight_digits(first) else {
        return None;
    };
    after_by_one(EIGHT_ZEROS * front + eight, rest)
}
