ghost use Rattle.std.specs.Prelude.{◌≡◌, ◌≤◌, ◌<◌, ◌/◌, ◌^◌, ◌+◌, ◌-◌, ◌+ℤ◌, ◌*ℤ◌, pos, if◌then◌else◌, unsigned_abs};
ghost use Rattle.decimal18.specs.Fraction.{aligned_coefficient, signed_integer, is_negative};
ghost use Rattle.decimal18.specs.Arithmetic.{size_error, is_within, intermediate, sum, difference, product, opposite_of};

use crate::decimal::{COEFFICIENT_DIGITS, Dec, MOST_SCALE};
use crate::power::power_of_ten;
use crate::size_error::Size;
use std::ops::Neg;

/// n / d, by a division of 64 bits where both fit.
pub fn divided(n: u128, d: u128) -> u128
    requires { 0 < d }
    ensures { result ≡ n / d }
{
    if n <= u64::MAX as u128 && d <= u64::MAX as u128 {
        (n as u64 / d as u64) as u128
    } else {
        n / d
    }
}

/// The number with this sign and absolute value.
pub fn with_sign(negative: bool, magnitude: u128) -> i128
    requires { magnitude < 10 ^ 38 }
    ensures { result ≡ signed_integer negative magnitude }
{
    let positive = magnitude as i128;
    if negative { -positive } else { positive }
}

/// The number as an intermediate result.
#[cold]
#[inline(never)]
fn limited(negative: bool, magnitude: u128, scale: u8) -> Result<Dec, Size>
    requires { scale ≤ 36 }
    ensures { result ≡ intermediate (signed_integer negative magnitude) scale }
{
    if magnitude >= power_of_ten(COEFFICIENT_DIGITS) {
        return Err(Size);
    }
    if scale <= MOST_SCALE {
        return Ok(Dec::new(with_sign(negative, magnitude), scale));
    }
    let kept = divided(magnitude, power_of_ten(scale - MOST_SCALE));
    Ok(Dec::new(with_sign(negative, kept), MOST_SCALE))
}

/// `coefficient * 10^shift`, where that is within the limit of a coefficient.
#[cold]
#[inline(never)]
fn raised(coefficient: i128, shift: u8) -> Option<i128>
    requires coefficient { unsigned_abs coefficient < 10 ^ 38 }
    requires shift { shift ≤ 18 }
    ensures { result ≡ (if is_within (coefficient *ℤ pos (10 ^ shift))
        then Some (coefficient *ℤ pos (10 ^ shift)) else None) }
{
    if shift == 0 {
        return Some(coefficient);
    }
    let magnitude = coefficient.unsigned_abs();
    if magnitude >= power_of_ten(COEFFICIENT_DIGITS - shift) {
        return None;
    }
    Some(with_sign(coefficient < 0, magnitude * power_of_ten(shift)))
}

/// The sum of two aligned coefficients as an intermediate result.
#[cold]
#[inline(never)]
fn total(left: i128, right: i128, scale: u8) -> Result<Dec, Size>
    requires { scale ≤ 18 }
    ensures { result ≡ intermediate (left +ℤ right) scale }
{
    match left.checked_add(right) {
        Some(sum) => limited(sum < 0, sum.unsigned_abs(), scale),
        None => Err(Size),
    }
}

impl Dec {
    /// The coefficient at a scale that is not less.
    #[inline]
    fn aligned(self, scale: u8) -> Option<i128>
        requires above { self.scale ≤ scale }
        requires most { scale ≤ 18 }
        ensures { result ≡ (if is_within (aligned_coefficient self scale)
            then Some (aligned_coefficient self scale) else None) }
    {
        raised(self.coefficient(), scale - self.scale())
    }

    /// The sum in 128 bits.
    #[inline]
    #[tactic(auto, unfolding(crate::specs::Arithmetic::sum))]
    fn long_sum(self, other: Dec) -> Result<Dec, Size>
        ensures { result ≡ sum self other }
    {
        let scale = self.scale().max(other.scale());
        let Some(left) = self.aligned(scale) else {
            return Err(Size);
        };
        let Some(right) = other.aligned(scale) else {
            return Err(Size);
        };
        total(left, right, scale)
    }

    /// The product in 128 bits.
    #[inline]
    #[tactic(auto, unfolding(crate::specs::Arithmetic::product))]
    fn long_product(self, other: Dec) -> Result<Dec, Size>
        ensures { result ≡ product self other }
    {
        let negative = self.is_negative() != other.is_negative();
        match self.magnitude().checked_mul(other.magnitude()) {
            Some(magnitude) => limited(negative, magnitude, self.scale() + other.scale()),
            None => Err(Size),
        }
    }

    /// The exact sum, or a size error where an aligned coefficient or that of the sum has more than 38 digits.
    #[inline]
    pub fn add(self, other: Dec) -> Result<Dec, Size>
        ensures { result ≡ sum self other }
    {
        match self.short_sum(other) {
            Some(sum) => Ok(sum),
            None => self.long_sum(other),
        }
    }

    /// The exact difference, or a size error where an aligned coefficient or that of the difference has more than 38
    /// digits.
    #[inline]
    #[tactic(auto, using(crate::proofs::Difference::as_sum))]
    pub fn sub(self, other: Dec) -> Result<Dec, Size>
        ensures { result ≡ difference self other }
    {
        match self.short_difference(other) {
            Some(difference) => Ok(difference),
            None => self.long_sum(-other),
        }
    }

    /// The exact product, cut towards zero to 18 decimals, or a size error where its coefficient has more than 38 digits.
    #[inline]
    pub fn mul(self, other: Dec) -> Result<Dec, Size>
        ensures { result ≡ product self other }
    {
        match self.short_product(other) {
            Some(product) => Ok(product),
            None => self.long_product(other),
        }
    }
}

impl Neg for Dec {
    type Output = Dec;

    ghost neg_gives = { λ x r. r ≡ opposite_of x };

    fn neg(self) -> Dec {
        Dec::new(-self.coefficient(), self.scale())
    }
}
