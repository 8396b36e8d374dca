ghost use Rattle.std.specs.Prelude.{◌≡◌, ◌<◌, ◌≤◌, ◌+◌, ◌*◌, ◌/◌, ◌%◌, ◌^◌, nat_lt, IfSome, IfOk, unsigned_abs, if◌then◌else◌};
ghost use Rattle.decimal18.specs.Receiver.{carry, digits_at, fitted_decimal, low_digits, truncated_decimal};

use crate::arithmetic::divided;
use crate::decimal::Dec;
use crate::power::power_of_ten;
use crate::short_receiver::SHORT_DIGITS;
use crate::size_error::Size;

/// What becomes of the digits that a receiver has no places for (COBOL-85, Nucleus, the ROUNDED phrase).
#[derive(Clone, Copy, PartialEq, Eq)]
pub enum Rounding {
    /// They are dropped.
    Truncated,
    /// The last digit kept grows by one, in absolute value, where the first of them is 5 or more.
    Rounded,
}

/// The first of the dropped digits from which on a number is rounded up.
const ROUNDED_UP: u128 = 5;

/// What is left of a number whose last digits, `dropped` of them, are dropped.
#[tactic(auto, using(crate::proofs::Rounds::shortened_up, crate::proofs::Rounds::shortened_same))]
fn shortened(magnitude: u128, dropped: u8, rounding: Rounding) -> u128
    requires some { 0 < dropped }
    requires most { dropped ≤ 18 }
    requires magnitude { magnitude < 10 ^ 38 }
    ensures value { result ≡ magnitude / 10 ^ dropped + carry rounding magnitude dropped }
    ensures bound { result < 10 ^ 38 }
{
    let unit = power_of_ten(dropped);
    let kept = divided(magnitude, unit);
    let rest = magnitude - kept * unit;
    let half = ROUNDED_UP * power_of_ten(dropped - 1);
    let up = rest >= half;
    match rounding {
        Rounding::Rounded if up => kept + 1,
        _ => kept,
    }
}

/// A number with zeros after it, where that has at most so many digits.
fn lengthened(magnitude: u128, zeros: u8, digits: u8) -> Option<u128>
    requires zeros { zeros ≤ digits }
    requires digits { digits ≤ 38 }
    ensures value { result ≡ (if nat_lt (magnitude * 10 ^ zeros) (10 ^ digits)
        then Some (magnitude * 10 ^ zeros) else None) }
    ensures bound { IfSome result (λ long. long < 10 ^ digits) }
{
    if magnitude < power_of_ten(digits - zeros) {
        Some(magnitude * power_of_ten(zeros))
    } else {
        None
    }
}

/// The low digits of a number.
fn low(magnitude: u128, digits: u8) -> u128
    requires { digits ≤ 38 }
    ensures value { result ≡ magnitude % 10 ^ digits }
    ensures bound { result < 10 ^ digits }
{
    let limit = power_of_ten(digits);
    if magnitude < limit {
        magnitude
    } else {
        magnitude % limit
    }
}

/// The digits that a number has at a receiver's scale, where they are at most so many.
#[tactic(auto, using(crate::proofs::Powers::power_le))]
fn fitted_digits(
    magnitude: u128,
    from: u8,
    digits: u8,
    scale: u8,
    rounding: Rounding,
) -> Option<u128>
    requires magnitude { magnitude < 10 ^ 38 }
    requires from { from ≤ 18 }
    requires digits { digits ≤ 38 }
    requires scale { scale ≤ 18 }
    requires decimals { scale ≤ digits }
    ensures value { result ≡ (if nat_lt (digits_at magnitude from scale rounding) (10 ^ digits)
        then Some (digits_at magnitude from scale rounding) else None) }
    ensures bound { IfSome result (λ kept. kept < 10 ^ 38) }
{
    if from <= scale {
        return lengthened(magnitude, scale - from, digits);
    }
    let kept = shortened(magnitude, from - scale, rounding);
    if kept < power_of_ten(digits) {
        Some(kept)
    } else {
        None
    }
}

/// The low digits of those that a number has at a receiver's scale.
fn low_part(magnitude: u128, from: u8, digits: u8, scale: u8, rounding: Rounding) -> u128
    requires magnitude { magnitude < 10 ^ 38 }
    requires from { from ≤ 18 }
    requires digits { digits ≤ 38 }
    requires scale { scale ≤ 18 }
    requires decimals { scale ≤ digits }
    ensures value { result ≡ digits_at magnitude from scale rounding % 10 ^ digits }
    ensures bound { result < 10 ^ digits }
{
    if from <= scale {
        let zeros = scale - from;
        low(magnitude, digits - zeros) * power_of_ten(zeros)
    } else {
        low(shortened(magnitude, from - scale, rounding), digits)
    }
}

impl Dec {
    /// What a receiver holds, in 128 bits.
    #[cold]
    #[inline(never)]
    #[tactic(auto, using(crate::proofs::Receivers::fitted_by))]
    fn long_fit(self, digits: u8, scale: u8, rounding: Rounding) -> Result<Dec, Size>
        requires digits { digits ≤ 38 }
        requires scale { scale ≤ 18 }
        requires decimals { scale ≤ digits }
        ensures { result ≡ fitted_decimal self digits scale rounding }
    {
        match fitted_digits(self.magnitude(), self.scale(), digits, scale, rounding) {
            Some(kept) => Ok(Dec::from_parts(self.is_negative(), kept, scale)),
            None => Err(Size),
        }
    }

    /// The low digits that fit, in 128 bits.
    #[cold]
    #[inline(never)]
    fn long_cut(self, digits: u8, scale: u8, rounding: Rounding) -> Dec
        requires digits { digits ≤ 38 }
        requires scale { scale ≤ 18 }
        requires decimals { scale ≤ digits }
        ensures { result ≡ low_digits self digits scale rounding }
    {
        let kept = low_part(self.magnitude(), self.scale(), digits, scale, rounding);
        Dec::from_parts(self.is_negative(), kept, scale)
    }

    /// What a receiver of `digits` digits (at most 38), `scale` of them decimals (at most 18), holds of the number: a size
    /// error where it would have more whole digits than that.
    #[inline]
    pub fn fit(self, digits: u8, scale: u8, rounding: Rounding) -> Result<Dec, Size>
        requires digits { digits ≤ 38 }
        requires scale { scale ≤ 18 }
        requires decimals { scale ≤ digits }
        ensures value { result ≡ fitted_decimal self digits scale rounding }
        ensures bound { IfOk result (λ kept. unsigned_abs kept.coefficient < 10 ^ digits) }
        ensures at { IfOk result (λ kept. kept.scale ≡ scale) }
    {
        if digits <= SHORT_DIGITS {
            if let Some(coefficient) = self.short_coefficient() {
                return self.short_fit(coefficient, digits, scale, rounding);
            }
        }
        self.long_fit(digits, scale, rounding)
    }

    /// What such a receiver holds where no size error is told: the low digits that fit.
    #[inline]
    pub fn cut(self, digits: u8, scale: u8, rounding: Rounding) -> Dec
        requires digits { digits ≤ 38 }
        requires scale { scale ≤ 18 }
        requires decimals { scale ≤ digits }
        ensures value { result ≡ low_digits self digits scale rounding }
        ensures bound { unsigned_abs result.coefficient < 10 ^ digits }
        ensures at { result.scale ≡ scale }
    {
        if digits <= SHORT_DIGITS {
            if let Some(coefficient) = self.short_coefficient() {
                return self.short_cut(coefficient, digits, scale, rounding);
            }
        }
        self.long_cut(digits, scale, rounding)
    }

    /// The number cut towards zero at a scale, with its sign and all its whole digits: the number itself where it has no
    /// more decimals than that (COBOL-85, Nucleus, the REMAINDER phrase).
    #[tactic(auto, using(crate::proofs::Receivers::truncated_by, crate::proofs::Receivers::truncated_same))]
    pub fn truncated(self, scale: u8) -> Dec
        ensures { result ≡ truncated_decimal self scale }
    {
        if self.scale() <= scale {
            return self;
        }
        let kept = divided(self.magnitude(), power_of_ten(self.scale() - scale));
        Dec::from_parts(self.is_negative(), kept, scale)
    }
}
