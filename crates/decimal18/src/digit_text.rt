//! Digits as ASCII text.

ghost use Rattle.std.specs.Prelude.{◌≡◌, ◌<◌, ◌^◌, length, unsigned_abs};
ghost use Rattle.decimal18.specs.Digits.{digit_text};

use crate::decimal::Dec;
use crate::power::power_of_ten;

/// The radix of decimal digits.
const RADIX: u64 = 10;

/// The digits that a number of 64 bits can have, whatever they are.
const LOW_DIGITS: u8 = 19;

/// Numbers of two digits, of four and of eight.
const TWO_DIGITS: u64 = 100;

const FOUR_DIGITS: u64 = 10_000;

const EIGHT_DIGITS: u64 = 100_000_000;

/// Digits that are written at once.
const TWO: usize = 2;

const FOUR: usize = 4;

const EIGHT: usize = 8;

/// Pairs of digits.
const COUNT: usize = 100;

static PAIRS: [[u8; 2]; COUNT] = [
    *b"00", *b"01", *b"02", *b"03", *b"04", *b"05", *b"06", *b"07", *b"08", *b"09", *b"10", *b"11",
    *b"12", *b"13", *b"14", *b"15", *b"16", *b"17", *b"18", *b"19", *b"20", *b"21", *b"22", *b"23",
    *b"24", *b"25", *b"26", *b"27", *b"28", *b"29", *b"30", *b"31", *b"32", *b"33", *b"34", *b"35",
    *b"36", *b"37", *b"38", *b"39", *b"40", *b"41", *b"42", *b"43", *b"44", *b"45", *b"46", *b"47",
    *b"48", *b"49", *b"50", *b"51", *b"52", *b"53", *b"54", *b"55", *b"56", *b"57", *b"58", *b"59",
    *b"60", *b"61", *b"62", *b"63", *b"64", *b"65", *b"66", *b"67", *b"68", *b"69", *b"70", *b"71",
    *b"72", *b"73", *b"74", *b"75", *b"76", *b"77", *b"78", *b"79", *b"80", *b"81", *b"82", *b"83",
    *b"84", *b"85", *b"86", *b"87", *b"88", *b"89", *b"90", *b"91", *b"92", *b"93", *b"94", *b"95",
    *b"96", *b"97", *b"98", *b"99",
];

/// Writes the last digits of a number, as many as there are bytes, in ASCII: each byte has the digit with as many places to
/// its right as bytes follow it.
pub fn put_digits(number: u64, bytes: &mut [u8])
    ensures { bytes.new ≡ digit_text (length bytes.old) number }
{
    let count = bytes.len();
    if count < EIGHT {
        return put_by_four(number, bytes);
    }
    let (front, back) = bytes.split_at_mut(count - EIGHT);
    put_by_eight(number / EIGHT_DIGITS, front);
    put_eight(number % EIGHT_DIGITS, back);
}

/// Writes two digits.
#[inline]
fn put_two(number: u64, bytes: &mut [u8])
    requires number { number < 100 }
    requires length { length bytes.old ≡ 2 }
    ensures { bytes.new ≡ digit_text 2 number }
{
    let pair = PAIRS[number as usize];
    bytes[0] = pair[0];
    bytes[1] = pair[1];
}

/// Writes four digits.
#[inline]
fn put_four(number: u64, bytes: &mut [u8])
    requires number { number < 10 ^ 4 }
    requires length { length bytes.old ≡ 4 }
    ensures { bytes.new ≡ digit_text 4 number }
{
    let (front, back) = bytes.split_at_mut(2);
    put_two(number / TWO_DIGITS, front);
    put_two(number % TWO_DIGITS, back);
}

/// Writes eight digits.
#[inline]
fn put_eight(number: u64, bytes: &mut [u8])
    requires number { number < 10 ^ 8 }
    requires length { length bytes.old ≡ 8 }
    ensures { bytes.new ≡ digit_text 8 number }
{
    let (front, back) = bytes.split_at_mut(4);
    put_four(number / FOUR_DIGITS, front);
    put_four(number % FOUR_DIGITS, back);
}

/// Writes the last digits of a number, one at a time.
#[inline(never)]
#[tactic(auto, using(crate::proofs::DigitTexts::none_written, crate::proofs::DigitTexts::all_written))]
fn put_by_one(number: u64, bytes: &mut [u8])
    ensures { bytes.new ≡ digit_text (length bytes.old) number }
{
    let count = bytes.len();
    let mut rest = number;
    for place in 0..count {
        bytes[count - 1 - place] = b'0' + (rest % RADIX) as u8;
        rest /= RADIX;
    }
}

/// The same, mostly at most one.
#[inline]
#[tactic(auto, using(crate::proofs::DigitTexts::empty_text, crate::proofs::DigitTexts::last_text))]
fn put_last(number: u64, bytes: &mut [u8])
    ensures { bytes.new ≡ digit_text (length bytes.old) number }
{
    let count = bytes.len();
    if count > 1 {
        return put_by_one(number, bytes);
    }
    if count == 1 {
        bytes[0] = b'0' + (number % RADIX) as u8;
    }
}

/// The same, mostly at most three.
#[inline]
fn put_by_two(number: u64, bytes: &mut [u8])
    ensures { bytes.new ≡ digit_text (length bytes.old) number }
{
    let count = bytes.len();
    if count < TWO {
        return put_last(number, bytes);
    }
    let (front, back) = bytes.split_at_mut(count - TWO);
    put_last(number / TWO_DIGITS, front);
    put_two(number % TWO_DIGITS, back);
}

/// The same, mostly at most seven.
#[inline]
fn put_by_four(number: u64, bytes: &mut [u8])
    ensures { bytes.new ≡ digit_text (length bytes.old) number }
{
    let count = bytes.len();
    if count < FOUR {
        return put_by_two(number, bytes);
    }
    let (front, back) = bytes.split_at_mut(count - FOUR);
    put_by_two(number / FOUR_DIGITS, front);
    put_four(number % FOUR_DIGITS, back);
}

/// The same, where eight are written at most once.
fn put_by_eight(number: u64, bytes: &mut [u8])
    ensures { bytes.new ≡ digit_text (length bytes.old) number }
{
    let count = bytes.len();
    if count < EIGHT {
        return put_by_four(number, bytes);
    }
    let (front, back) = bytes.split_at_mut(count - EIGHT);
    put_by_four(number / EIGHT_DIGITS, front);
    put_eight(number % EIGHT_DIGITS, back);
}

impl Dec {
    /// Writes the last digits of the coefficient, as many as there are bytes, in ASCII: each byte has the digit with as
    /// many places to its right as bytes follow it. Nothing tells a sign or digits in front of these.
    pub fn digits_into(self, bytes: &mut [u8])
        ensures { bytes.new ≡ digit_text (length bytes.old) (unsigned_abs self.coefficient) }
    {
        let magnitude = self.magnitude();
        if magnitude <= u64::MAX as u128 {
            return put_digits(magnitude as u64, bytes);
        }
        let unit = power_of_ten(LOW_DIGITS);
        let high = magnitude / unit;
        let low = magnitude - high * unit;
        let split = bytes.len().saturating_sub(LOW_DIGITS as usize);
        let (front, back) = bytes.split_at_mut(split);
        put_digits(high as u64, front);
        put_digits(low as u64, back);
    }
}
