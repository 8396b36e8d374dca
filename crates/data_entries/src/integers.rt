//! Unsigned integers of entries.

ghost use Rattle.std.specs.Prelude.{◌≡◌, ◌+◌, ◌-◌, ◌*◌, min, nat_le, if◌then◌else◌, Some, None};
ghost use Rattle.decimal18.specs.Digits.{digits_after};
ghost use Rattle.source_tree.specs.Clauses as clauses;
ghost use Rattle.source_tree.specs.Integers.{number_of};

use source_tree::{Integer, ItemEntry};

/// Above each level number and each number of occurrences that the rules permit.
pub const MOST: u32 = 100_000;

/// The integer that the digits write; a greater one than `MOST` is told as that.
pub fn number(integer: &Integer) -> u32
    ensures { result ≡ min (number_of integer.now) MOST }
{
    number_within(integer, MOST).unwrap_or(MOST)
}

/// The integer that the digits write, if it is at most this one.
pub fn number_within(integer: &Integer, most: u32) -> Option<u32>
    ensures { result ≡ (if nat_le (number_of integer.now) most
        then Some (number_of integer.now) else None) }
{
    within(integer.digits.as_slice(), most)
}

/// How often the item occurs, up to `MOST`; without OCCURS once.
pub fn occurrences(entry: &ItemEntry) -> u32
    ensures { result ≡ min (clauses.occurrences entry.now) MOST }
{
    match &entry.occurs {
        Some(count) => number(count),
        None => 1,
    }
}

/// The number with one more digit, if it is at most this one.
fn next_within(number: u32, digit: u8, most: u32) -> Option<u32>
    ensures { result ≡ (if nat_le (10 * number + (digit - 48)) most
        then Some (10 * number + (digit - 48)) else None) }
{
    let next = 10 * u64::from(number) + u64::from(digit.saturating_sub(b'0'));
    if next <= u64::from(most) {
        Some(next as u32)
    } else {
        None
    }
}

/// The number that the digits write, if it is at most this one.
fn within(digits: &[u8], most: u32) -> Option<u32>
    ensures { result ≡ (if nat_le (digits_after 0 digits.now) most
        then Some (digits_after 0 digits.now) else None) }
{
    let mut number = 0;
    for digit in digits {
        number = next_within(number, *digit, most)?;
    }
    Some(number)
}
