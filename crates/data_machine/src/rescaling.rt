//! Coefficients of 64 bits at a receiver's scale.

ghost use Rattle.std.specs.Prelude.{◌≡◌, ◌+◌, ◌*◌, ◌/◌, ◌<◌, ◌≤◌, ◌^◌, unsigned_abs, IfSome, Ok};
ghost use Rattle.decimal18.specs.Fraction.{signed_integer};
ghost use Rattle.decimal18.specs.Receiver.{carry, digits_at, fitted_decimal};

use decimal18::{Rounding, short_power};

/// The coefficient that a receiver of so many digits, `scale` of them decimals, keeps of a number that fits.
#[inline(never)]
pub(crate) fn rescaled(
    coefficient: i64,
    from: u8,
    digits: u8,
    scale: u8,
    rounding: Rounding,
) -> Option<i64>
    requires from { from ≤ 18 }
    requires digits { digits ≤ 18 }
    requires decimals { scale ≤ digits }
    ensures fits { IfSome result
        (λ n. fitted_decimal (record { coefficient = coefficient; scale = from }) digits scale
        rounding ≡ Ok (record { coefficient = n; scale = scale })) }
    ensures digits { IfSome result (λ n. unsigned_abs n < 10 ^ digits) }
{
    match rescaled_digits(coefficient.unsigned_abs(), from, digits, scale, rounding) {
        Some(kept) => Some(signed(coefficient < 0, kept)),
        None => None,
    }
}

/// The integer with this sign and absolute value.
#[inline(always)]
pub(crate) fn signed(negative: bool, magnitude: u64) -> i64
    requires { magnitude < 10 ^ 18 }
    ensures { result ≡ signed_integer negative magnitude }
{
    let value = magnitude as i64;
    if negative { -value } else { value }
}

/// The digits at another scale, if they are at most so many.
#[inline(always)]
fn rescaled_digits(
    magnitude: u64,
    from: u8,
    digits: u8,
    scale: u8,
    rounding: Rounding,
) -> Option<u64>
    requires magnitude { magnitude ≤ 2 ^ 63 }
    requires from { from ≤ 18 }
    requires digits { digits ≤ 18 }
    requires decimals { scale ≤ digits }
    ensures value { IfSome result (λ kept. kept ≡ digits_at magnitude from scale rounding) }
    ensures bound { IfSome result (λ kept. kept < 10 ^ digits) }
{
    if from <= scale {
        return lengthened(magnitude, scale - from, digits);
    }
    let kept = shortened(magnitude, from - scale, rounding);
    if kept < short_power(digits) {
        Some(kept)
    } else {
        None
    }
}

/// A number with zeros after it, if it has at most so many digits then.
#[inline(always)]
fn lengthened(magnitude: u64, zeros: u8, digits: u8) -> Option<u64>
    requires zeros { zeros ≤ digits }
    requires digits { digits ≤ 18 }
    ensures value { IfSome result (λ long. long ≡ magnitude * 10 ^ zeros) }
    ensures bound { IfSome result (λ long. long < 10 ^ digits) }
{
    if magnitude < short_power(digits - zeros) {
        Some(magnitude * short_power(zeros))
    } else {
        None
    }
}

/// A number without its last digits, `dropped` of them.
#[inline(always)]
#[tactic(auto, using(crate::proofs::HalfUnits::rounded_by))]
fn shortened(magnitude: u64, dropped: u8, rounding: Rounding) -> u64
    requires magnitude { magnitude ≤ 2 ^ 63 }
    requires some { 0 < dropped }
    requires most { dropped ≤ 18 }
    ensures { result ≡ magnitude / 10 ^ dropped + carry rounding magnitude dropped }
{
    let unit = short_power(dropped);
    match rounding {
        Rounding::Truncated => magnitude / unit,
        Rounding::Rounded => (magnitude + unit / 2) / unit,
    }
}
