ghost use Rattle.std.specs.Prelude.{◌≡◌, ◌<◌, ◌≤◌, ◌^◌, ◌↔◌, IsTrue, IfSome, pos, unsigned_abs};
ghost use Rattle.std.specs.Ordering.{int_eq};
ghost use Rattle.decimal18.specs.Fraction.{is_negative, of_parts, absolute};
ghost use Rattle.decimal18.specs.Halves.{high_part};

use crate::arithmetic::with_sign;
use std::marker::Model;

/// Decimal digits that a coefficient may have.
pub const COEFFICIENT_DIGITS: u8 = 38;

/// The greatest scale.
pub const MOST_SCALE: u8 = 18;

/// What the high part of a coefficient counts: multiples of 2^64.
const HIGH_UNIT: i128 = 0x1_0000_0000_0000_0000;

/// Half of that. The low part of a coefficient is below it, and not below its negation.
const HALF_UNIT: i128 = 0x8000_0000_0000_0000;

/// An exact decimal number, `coefficient / 10^scale`: a coefficient below 10^38 in absolute value, and a scale from 0
/// to 18. Those limits are this project's own choice. The scale takes 64 bits, so that no byte is padding: copies of padding
/// cost more than what they stand beside.
#[derive(Clone, Copy)]
pub struct Dec {
    low: i64,
    high: i64,
    scale: u64,
}

impl Model for Dec {
    ghost use Rattle.std.specs.Prelude.{◌<◌, ◌≤◌, ◌^◌, unsigned_abs, FitsSigned};
    ghost use Rattle.std.specs.Int.{w64};
    ghost use Rattle.decimal18.specs.Fraction.{Fraction};
    ghost use Rattle.decimal18.specs.Halves.{number_of_halves, low_part, high_part, parts_of};

    ghost Value = { Fraction };

    ghost view = { λ d. record { coefficient = number_of_halves d.low d.high; scale = d.scale } };

    ghost invariant = { λ d. (unsigned_abs (number_of_halves d.low d.high) < 10 ^ 38)
        × (d.scale ≤ 18) × FitsSigned w64 d.low };

    ghost inverse = { λ x.
        record { low = low_part x.coefficient; high = high_part x.coefficient; scale = x.scale } };

    ghost inverse_ok = { λ d h.
        parts_of (λ l u. record { low = l; high = u; scale = d.scale }) d.low d.high h.2 };
}

/// The high part of a coefficient: the nearest multiple of 2^64.
#[tactic(auto, using(crate::proofs::Halves::high_by, crate::proofs::Halves::units_fit))]
fn high_part(coefficient: i128) -> i64
    requires { unsigned_abs coefficient < 10 ^ 38 }
    ensures { result ≡ high_part coefficient }
{
    let negative = coefficient < 0;
    let magnitude = coefficient.unsigned_abs();
    let from_zero = if negative { magnitude - 1 } else { magnitude };
    let units = ((from_zero + HALF_UNIT as u128) / HIGH_UNIT as u128) as i64;
    if negative { -units } else { units }
}

impl Dec {
    /// The number with this coefficient and scale.
    pub fn new(coefficient: i128, scale: u8) -> Dec
        requires coefficient { unsigned_abs coefficient < 10 ^ 38 }
        requires scale { scale ≤ 18 }
        ensures { result ≡ record { coefficient = coefficient; scale = scale } }
    {
        if coefficient < HALF_UNIT && coefficient >= -HALF_UNIT {
            return Dec::short(coefficient as i64, scale);
        }
        let high = high_part(coefficient);
        let low = coefficient - high as i128 * HIGH_UNIT;
        Dec {
            low: low as i64,
            high,
            scale: scale as u64,
        }
    }

    /// The number with this coefficient of 64 bits.
    #[inline]
    #[tactic(auto, using(crate::specs::Halves::short_joined))]
    pub fn short(coefficient: i64, scale: u8) -> Dec
        requires { scale ≤ 18 }
        ensures { result ≡ record { coefficient = coefficient; scale = scale } }
    {
        Dec {
            low: coefficient,
            high: 0,
            scale: scale as u64,
        }
    }

    /// The coefficient, where it fits 64 bits.
    #[inline]
    #[tactic(auto, using(crate::specs::Halves::short_joined))]
    pub(crate) fn short_coefficient(self) -> Option<i64>
        ensures { IfSome result (λ coefficient. coefficient ≡ self.coefficient) }
    {
        if self.high == 0 { Some(self.low) } else { None }
    }

    /// The number with this scale whose coefficient has this sign and absolute value; zero has no sign.
    pub fn from_parts(negative: bool, magnitude: u128, scale: u8) -> Dec
        requires magnitude { magnitude < 10 ^ 38 }
        requires scale { scale ≤ 18 }
        ensures { result ≡ of_parts negative magnitude scale }
    {
        Dec::new(with_sign(negative, magnitude), scale)
    }

    /// The number without its sign.
    pub fn abs(self) -> Dec
        ensures { result ≡ absolute self }
    {
        if self.high == 0 && self.low >= 0 {
            return self;
        }
        Dec::from_parts(false, self.magnitude(), self.scale())
    }

    #[inline]
    pub fn coefficient(self) -> i128
        ensures value { result ≡ self.coefficient }
        ensures bound { unsigned_abs result < 10 ^ 38 }
    {
        self.low as i128 + self.high as i128 * HIGH_UNIT
    }

    /// Decimals, 0 to 18.
    #[inline]
    pub fn scale(self) -> u8
        ensures value { result ≡ self.scale }
        ensures bound { result ≤ 18 }
    {
        self.scale as u8
    }

    /// The coefficient without its sign.
    #[inline]
    pub fn magnitude(self) -> u128
        ensures value { result ≡ unsigned_abs self.coefficient }
        ensures bound { result < 10 ^ 38 }
    {
        self.coefficient().unsigned_abs()
    }

    #[inline]
    pub fn is_zero(self) -> bool
        ensures zero { IsTrue result ↔ (self.coefficient ≡ pos 0) }
        ensures test { result ≡ int_eq self.coefficient (pos 0) }
    {
        self.coefficient() == 0
    }

    #[inline]
    pub fn is_negative(self) -> bool
        ensures { result ≡ is_negative self.coefficient }
    {
        self.coefficient() < 0
    }
}
