//! Numbers in 64 bits. Those of items are such numbers, and so is nearly each literal.

ghost use Rattle.std.specs.Prelude.{◌≡◌, ◌<◌, ◌≤◌, ◌^◌, unsigned_abs, IfSome};
ghost use Rattle.items.specs.Numbers.{IsNumeric, CanHold};

use decimal18::Dec;
use items::Numeric;
use std::marker::Model;

/// A number whose coefficient 64 bits hold. The scale takes 64 bits too, so that no byte is padding.
#[derive(Clone, Copy)]
pub(crate) struct Short {
    coefficient: i64,
    scale: u64,
}

impl Model for Short {
    ghost use Rattle.std.specs.Prelude.{◌≤◌, refl};
    ghost use Rattle.decimal18.specs.Fraction.{Fraction};

    ghost Value = { Fraction };

    ghost view = { λ s. record { coefficient = s.coefficient; scale = s.scale } };

    ghost invariant = { λ s. s.scale ≤ 18 };

    ghost inverse = { λ x. record { coefficient = x.coefficient; scale = x.scale } };

    ghost inverse_ok = { λ s h. refl };
}

/// The coefficient of a number that has at most 18 digits.
#[inline(always)]
pub(crate) fn short_coefficient(x: Dec) -> i64
    requires { unsigned_abs x.coefficient < 10 ^ 18 }
    ensures { result ≡ x.coefficient }
{
    x.coefficient() as i64
}

impl Short {
    /// The number with this coefficient and scale.
    #[inline(always)]
    pub(crate) fn new(coefficient: i64, scale: u8) -> Short
        requires { scale ≤ 18 }
        ensures { result ≡ record { coefficient = coefficient; scale = scale } }
    {
        Short {
            coefficient,
            scale: scale as u64,
        }
    }

    /// The same number, where 64 bits hold its coefficient.
    #[inline(always)]
    pub(crate) fn of(x: Dec) -> Option<Short>
        ensures { IfSome result (λ s. s ≡ x) }
    {
        match i64::try_from(x.coefficient()) {
            Ok(coefficient) => Some(Short::new(coefficient, x.scale())),
            Err(_) => None,
        }
    }

    /// The same number, which an item can hold.
    #[inline(always)]
    pub(crate) fn held(item: Numeric, x: Dec) -> Short
        requires item { IsNumeric item }
        requires holds { CanHold item x }
        ensures { result ≡ x }
    {
        Short::new(short_coefficient(x), item.scale)
    }

    /// The same number.
    #[inline(always)]
    pub(crate) fn decimal(self) -> Dec
        ensures { result ≡ self }
    {
        Dec::short(self.coefficient, self.scale())
    }

    #[inline(always)]
    pub(crate) fn coefficient(self) -> i64
        ensures { result ≡ self.coefficient }
    {
        self.coefficient
    }

    /// Decimals, 0 to 18.
    #[inline(always)]
    pub(crate) fn scale(self) -> u8
        ensures value { result ≡ self.scale }
        ensures bound { result ≤ 18 }
    {
        self.scale as u8
    }
}
