//! Sums, differences and products in 64 bits, where the coefficients that they take fit these.
ghost use Rattle.std.specs.Prelude.{◌≡◌, ◌≤◌, IfSome, Ok};
ghost use Rattle.decimal18.specs.Fraction.{aligned_coefficient};
ghost use Rattle.decimal18.specs.Arithmetic.{sum, difference, product};

use crate::decimal::{Dec, MOST_SCALE};
use crate::power::signed_power;

impl Dec {
    /// The coefficient at a scale that is not less.
    #[inline]
    #[tactic(auto, using(crate::proofs::ShortArithmetic::aligned_same, crate::proofs::ShortArithmetic::aligned_by))]
    fn short_aligned(self, scale: u8) -> Option<i64>
        requires above { self.scale ≤ scale }
        requires most { scale ≤ 18 }
        ensures { IfSome result (λ coefficient. coefficient ≡ aligned_coefficient self scale) }
    {
        let Some(coefficient) = self.short_coefficient() else {
            return None;
        };
        let zeros = scale - self.scale();
        if zeros == 0 {
            return Some(coefficient);
        }
        coefficient.checked_mul(signed_power(zeros))
    }

    /// The exact sum.
    #[inline]
    pub(crate) fn short_sum(self, other: Dec) -> Option<Dec>
        ensures { IfSome result (λ total. Ok total ≡ sum self other) }
    {
        let scale = self.scale().max(other.scale());
        let Some(left) = self.short_aligned(scale) else {
            return None;
        };
        let Some(right) = other.short_aligned(scale) else {
            return None;
        };
        match left.checked_add(right) {
            Some(total) => Some(Dec::short(total, scale)),
            None => None,
        }
    }

    /// The exact difference.
    #[inline]
    pub(crate) fn short_difference(self, other: Dec) -> Option<Dec>
        ensures { IfSome result (λ rest. Ok rest ≡ difference self other) }
    {
        let scale = self.scale().max(other.scale());
        let Some(left) = self.short_aligned(scale) else {
            return None;
        };
        let Some(right) = other.short_aligned(scale) else {
            return None;
        };
        match left.checked_sub(right) {
            Some(rest) => Some(Dec::short(rest, scale)),
            None => None,
        }
    }

    /// The exact product, where it has at most 18 decimals.
    #[inline]
    pub(crate) fn short_product(self, other: Dec) -> Option<Dec>
        ensures { IfSome result (λ times. Ok times ≡ product self other) }
    {
        let scale = self.scale() + other.scale();
        if scale > MOST_SCALE {
            return None;
        }
        let Some(left) = self.short_coefficient() else {
            return None;
        };
        let Some(right) = other.short_coefficient() else {
            return None;
        };
        match left.checked_mul(right) {
            Some(times) => Some(Dec::short(times, scale)),
            None => None,
        }
    }
}
