//! What receivers of at most 18 digits keep of a coefficient of 64 bits, in 64 bits.
ghost use Rattle.std.specs.Prelude.{◌≡◌, ◌<◌, ◌≤◌, ◌+◌, ◌*◌, ◌/◌, ◌%◌, ◌^◌, nat_lt, IfSome, if◌then◌else◌};
ghost use Rattle.decimal18.specs.Fraction.{of_parts};
ghost use Rattle.decimal18.specs.Receiver.{carry, digits_at, fitted_decimal, low_digits};

use crate::decimal::Dec;
use crate::power::short_power;
use crate::receiver::Rounding;
use crate::size_error::Size;

/// Digits whose number fits 64 bits with its sign, whatever they are.
pub const SHORT_DIGITS: u8 = 18;

/// The first of the dropped digits from which on a number is rounded up.
const ROUNDED_UP: u64 = 5;

/// The number with this scale whose coefficient has this sign and absolute value.
#[tactic(auto, using(crate::proofs::Powers::power_le))]
pub fn short_parts(negative: bool, magnitude: u64, digits: u8, scale: u8) -> Dec
    requires digits { digits ≤ 18 }
    requires magnitude { magnitude < 10 ^ digits }
    requires scale { scale ≤ 18 }
    ensures { result ≡ of_parts negative magnitude scale }
{
    let positive = magnitude as i64;
    Dec::short(if negative { -positive } else { positive }, scale)
}

/// What is left of a number whose last digits, `dropped` of them, are dropped.
#[tactic(auto, using(crate::proofs::Rounds::shortened_up, crate::proofs::Rounds::shortened_same, crate::proofs::Powers::short_half))]
fn shortened(magnitude: u64, dropped: u8, rounding: Rounding) -> u64
    requires some { 0 < dropped }
    requires most { dropped ≤ 18 }
    requires magnitude { magnitude ≤ 2 ^ 63 }
    ensures { result ≡ magnitude / 10 ^ dropped + carry rounding magnitude dropped }
{
    let unit = short_power(dropped);
    let kept = magnitude / unit;
    let rest = magnitude - kept * unit;
    let half = ROUNDED_UP * short_power(dropped - 1);
    let up = rest >= half;
    match rounding {
        Rounding::Rounded if up => kept + 1,
        _ => kept,
    }
}

/// A number with zeros after it, where that has at most so many digits.
fn lengthened(magnitude: u64, zeros: u8, digits: u8) -> Option<u64>
    requires zeros { zeros ≤ digits }
    requires digits { digits ≤ 18 }
    ensures value { result ≡ (if nat_lt (magnitude * 10 ^ zeros) (10 ^ digits)
        then Some (magnitude * 10 ^ zeros) else None) }
    ensures bound { IfSome result (λ long. long < 10 ^ digits) }
{
    if magnitude < short_power(digits - zeros) {
        Some(magnitude * short_power(zeros))
    } else {
        None
    }
}

/// The number, if it has at most so many digits.
fn limited(magnitude: u64, digits: u8) -> Option<u64>
    requires { digits ≤ 18 }
    ensures value { result ≡ (if nat_lt magnitude (10 ^ digits) then Some magnitude else None) }
    ensures bound { IfSome result (λ kept. kept < 10 ^ digits) }
{
    if magnitude < short_power(digits) {
        Some(magnitude)
    } else {
        None
    }
}

/// The low digits of a number.
fn low(magnitude: u64, digits: u8) -> u64
    requires { digits ≤ 18 }
    ensures value { result ≡ magnitude % 10 ^ digits }
    ensures bound { result < 10 ^ digits }
{
    let limit = short_power(digits);
    if magnitude < limit {
        magnitude
    } else {
        magnitude % limit
    }
}

/// The digits that a number has at a receiver's scale, where they are at most so many.
fn fitted_digits(magnitude: u64, from: u8, digits: u8, scale: u8, rounding: Rounding) -> Option<u64>
    requires magnitude { magnitude ≤ 2 ^ 63 }
    requires from { from ≤ 18 }
    requires digits { digits ≤ 18 }
    requires decimals { scale ≤ digits }
    ensures value { result ≡ (if nat_lt (digits_at magnitude from scale rounding) (10 ^ digits)
        then Some (digits_at magnitude from scale rounding) else None) }
    ensures bound { IfSome result (λ kept. kept < 10 ^ digits) }
{
    if from <= scale {
        return lengthened(magnitude, scale - from, digits);
    }
    limited(shortened(magnitude, from - scale, rounding), digits)
}

/// The low digits of those that a number has at a receiver's scale.
fn low_part(magnitude: u64, from: u8, digits: u8, scale: u8, rounding: Rounding) -> u64
    requires magnitude { magnitude ≤ 2 ^ 63 }
    requires from { from ≤ 18 }
    requires digits { digits ≤ 18 }
    requires decimals { scale ≤ digits }
    ensures value { result ≡ digits_at magnitude from scale rounding % 10 ^ digits }
    ensures bound { result < 10 ^ digits }
{
    if from <= scale {
        let zeros = scale - from;
        low(magnitude, digits - zeros) * short_power(zeros)
    } else {
        low(shortened(magnitude, from - scale, rounding), digits)
    }
}

impl Dec {
    /// What a receiver holds of this number, whose coefficient is known to fit 64 bits.
    #[tactic(auto, using(crate::proofs::Receivers::fitted_by))]
    pub(crate) fn short_fit(
        self,
        coefficient: i64,
        digits: u8,
        scale: u8,
        rounding: Rounding,
    ) -> Result<Dec, Size>
        requires same { coefficient ≡ self.coefficient }
        requires digits { digits ≤ 18 }
        requires decimals { scale ≤ digits }
        ensures { result ≡ fitted_decimal self digits scale rounding }
    {
        let magnitude = coefficient.unsigned_abs();
        match fitted_digits(magnitude, self.scale(), digits, scale, rounding) {
            Some(kept) => Ok(short_parts(coefficient < 0, kept, digits, scale)),
            None => Err(Size),
        }
    }

    /// The low digits that fit, of this number, whose coefficient is known to fit 64 bits.
    pub(crate) fn short_cut(
        self,
        coefficient: i64,
        digits: u8,
        scale: u8,
        rounding: Rounding,
    ) -> Dec
        requires same { coefficient ≡ self.coefficient }
        requires digits { digits ≤ 18 }
        requires decimals { scale ≤ digits }
        ensures { result ≡ low_digits self digits scale rounding }
    {
        let magnitude = coefficient.unsigned_abs();
        let kept = low_part(magnitude, self.scale(), digits, scale, rounding);
        short_parts(coefficient < 0, kept, digits, scale)
    }
}
