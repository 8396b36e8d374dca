//! What the definitions come to, in the words of fractions. Each law holds of all numbers.
ghost use Rattle.std.specs.Prelude.{◌≡◌, ◌≢◌, ◌<ℤ◌, ◌≤◌, ◌+◌, ◌-◌, ◌/◌, ◌^◌, ◌*ℤ◌, ℕ, min, false, pos, unsigned_abs, Ok};
ghost use Rattle.std.specs.Bool.{Decides};
ghost use Rattle.std.specs.Ordering.{MatchOrdering};
ghost use Rattle.decimal18.specs.Fraction.{Fraction, signed_integer, is_negative};
ghost use Rattle.decimal18.specs.Arithmetic.{sum, difference, product, size_error};
ghost use Rattle.decimal18.specs.Quotient.{admits, quotient};
ghost use Rattle.decimal18.specs.Laws.{IsSum, IsDifference, IsProduct, IsQuotient, IsTruncation, IsKept, times, HasLowDigits};
ghost use Rattle.decimal18.specs.Receiver.{at_scale, fitted_decimal, low_digits, truncated_decimal};
ghost use Rattle.decimal18.specs.Order.{order, equals};
ghost use Rattle.decimal18.specs.declared.receiver.Rounding.{Rounding};

/// A sum and a difference of numbers of at most 18 decimals are exact, and so is a product where no more decimals arise; else
/// a product is the exact one cut towards zero to 18 decimals.
#[tactic(auto, using(crate::proofs::SumLaws::sum_exact, crate::proofs::SumLaws::difference_exact, crate::proofs::SumLaws::product_exact))]
pub fn exact()
    ensures sum { (x y z : Fraction) → x.scale ≤ 18 → y.scale ≤ 18 → sum x y ≡ Ok z → IsSum x y z }
    ensures difference { (x y z : Fraction) → x.scale ≤ 18 → y.scale ≤ 18 → difference x y ≡ Ok z
        → IsDifference x y z }
    ensures product { (x y z : Fraction) → x.scale + y.scale ≤ 18 → product x y ≡ Ok z
        → IsProduct x y z }
    ensures cut { (x y z : Fraction) → product x y ≡ Ok z → (z.scale ≡ min (x.scale + y.scale) 18)
        × IsTruncation (times x y) z }
{}

/// Sums and products don't depend on the order of their operands.
#[tactic(auto, using(crate::proofs::SumLaws::sum_commutes, crate::proofs::SumLaws::product_commutes))]
pub fn either_order()
    ensures sum { (x y : Fraction) → sum x y ≡ sum y x }
    ensures product { (x y : Fraction) → product x y ≡ product y x }
{}

/// A quotient is cut towards zero, with the sign of the product, at the greatest scale that is admitted. Only a divisor of
/// zero and no admitted scale are size errors.
#[tactic(auto, using(crate::proofs::QuotientLaws::quotient_cut, crate::proofs::QuotientLaws::quotient_refused))]
pub fn cut_quotient()
    ensures close { (x y z : Fraction) → quotient x y ≡ Ok z → IsQuotient x y z }
    ensures refused { (x y : Fraction) → quotient x y ≡ size_error → y.coefficient ≢ pos 0 → (q : ℕ)
        → q ≤ 18 → admits x y q ≡ false }
{}

/// What a receiver holds is the number truncated, or the nearest to it with a half away from zero. There is a size error exactly where
/// that has more whole digits than the receiver.
pub fn receivers()
    ensures kept { (x z : Fraction) (digits scale : ℕ) (rounding : Rounding)
        → fitted_decimal x digits scale rounding ≡ Ok z → (z.scale ≡ scale) × IsKept rounding x z }
    ensures size { (x : Fraction) (digits scale : ℕ) (rounding : Rounding)
        → scale ≤ digits → (fitted_decimal x digits scale rounding ≡ size_error
        → 10 ^ (digits - scale) ≤ unsigned_abs (at_scale x scale rounding) / 10 ^ scale)
        × (10 ^ (digits - scale) ≤ unsigned_abs (at_scale x scale rounding) / 10 ^ scale
        → fitted_decimal x digits scale rounding ≡ size_error) }
{}

/// The low digits that a receiver keeps after a size error are those of the number that it would hold, with its sign.
pub fn kept_digits()
    ensures low { (x : Fraction) (digits scale : ℕ) (rounding : Rounding) → HasLowDigits digits
        (at_scale x scale rounding) (low_digits x digits scale rounding).coefficient }
    ensures sign { (x : Fraction) (digits scale : ℕ) (rounding : Rounding)
        → (low_digits x digits scale rounding).coefficient ≡ signed_integer (is_negative
        x.coefficient) (unsigned_abs (low_digits x digits scale rounding).coefficient) }
{}

/// A number that is cut at a scale is itself where it has no more decimals, and else is cut towards zero there, with its sign
/// and all its whole digits.
pub fn truncations()
    ensures same { (x : Fraction) (scale : ℕ) → x.scale ≤ scale → truncated_decimal x scale ≡ x }
    ensures cut { (x : Fraction) (scale : ℕ)
        → ((truncated_decimal x scale).scale ≡ min x.scale scale)
        × IsTruncation x (truncated_decimal x scale) }
    ensures whole { (x : Fraction) (scale : ℕ)
        → unsigned_abs (truncated_decimal x scale).coefficient / 10 ^
        (truncated_decimal x scale).scale ≡ unsigned_abs x.coefficient / 10 ^ x.scale }
{}

/// Numbers are ordered as their values, whatever their scales, and equal exactly where their values are.
pub fn values()
    ensures order { (x y : Fraction) → MatchOrdering (order x y)
        ((x.coefficient *ℤ pos (10 ^ y.scale)) <ℤ (y.coefficient *ℤ pos (10 ^ x.scale)))
        (x.coefficient *ℤ pos (10 ^ y.scale) ≡ y.coefficient *ℤ pos (10 ^ x.scale))
        ((y.coefficient *ℤ pos (10 ^ x.scale)) <ℤ (x.coefficient *ℤ pos (10 ^ y.scale))) }
    ensures equal { (x y : Fraction) → Decides (equals x y)
        (x.coefficient *ℤ pos (10 ^ y.scale) ≡ y.coefficient *ℤ pos (10 ^ x.scale)) }
{}
