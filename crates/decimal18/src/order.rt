ghost use Rattle.std.specs.Prelude.{◌≡◌, ◌<◌, ◌≤◌, ◌^◌, pos, ◌*ℤ◌, unsigned_abs};
ghost use Rattle.std.specs.Ordering.{int_cmp};
ghost use Rattle.decimal18.specs.Order.{order};

use crate::decimal::Dec;
use crate::power::{power_of_ten, signed_power};
use std::cmp::Ordering;

impl Ord for Dec {
    ghost use Rattle.std.specs.Prelude.{refl};
    ghost use Rattle.decimal18.specs.Order.{order};
    ghost use Rattle.decimal18.specs.TotalOrder.{order_total};

    ghost cmp = { order };

    ghost total = { order_total };

    ghost matches_partial_cmp = { λ x y. refl };

    ghost matches_eq = { λ x y. refl };

    #[inline]
    fn cmp(&self, other: &Dec) -> Ordering {
        let (left, right) = (*self, *other);
        let (left_scale, right_scale) = (left.scale(), right.scale());
        if left_scale == right_scale {
            order_at_scale(left, right)
        } else if left_scale < right_scale {
            order_of(left, right)
        } else {
            order_of(right, left).reverse()
        }
    }
}

impl PartialOrd for Dec {
    ghost use Rattle.std.specs.Prelude.{Some, refl};
    ghost use Rattle.std.specs.Cmp.{partial_order_from_agreeing_total};
    ghost use Rattle.decimal18.specs.Order.{order};
    ghost use Rattle.decimal18.specs.TotalOrder.{order_total};

    ghost partial_cmp = { λ x y. Some (order x y) };

    ghost laws = { partial_order_from_agreeing_total order order_total (λ x y. refl)
        (λ x y. refl) };

    #[inline]
    fn partial_cmp(&self, other: &Dec) -> Option<Ordering> {
        Some(self.cmp(other))
    }
}

impl PartialEq for Dec {
    ghost use Rattle.decimal18.specs.Order.{equals};
    ghost use Rattle.std.specs.Cmp.{partial_equiv_from_equiv};
    ghost use Rattle.decimal18.specs.TotalOrder.{equals_equiv};

    ghost eq = { equals };

    ghost laws = { partial_equiv_from_equiv equals_equiv };

    #[inline]
    fn eq(&self, other: &Dec) -> bool {
        self.cmp(other) == Ordering::Equal
    }
}

impl Eq for Dec {
    ghost use Rattle.decimal18.specs.TotalOrder.{equals_equiv};

    ghost laws = { equals_equiv };
}

/// The order of `left * 10^shift` and `right`.
#[cold]
#[inline(never)]
fn raised_order(left: i128, shift: u8, right: i128) -> Ordering
    requires shift { shift ≤ 18 }
    requires right { unsigned_abs right < 10 ^ 38 }
    ensures { result ≡ int_cmp (left *ℤ pos (10 ^ shift)) right }
{
    match left.checked_mul(power_of_ten(shift) as i128) {
        Some(raised) => raised.cmp(&right),
        None if left < 0 => Ordering::Less,
        None => Ordering::Greater,
    }
}

/// The same in 64 bits.
#[inline]
fn short_raised_order(left: i64, shift: u8, right: i64) -> Ordering
    requires { shift ≤ 18 }
    ensures { result ≡ int_cmp (left *ℤ pos (10 ^ shift)) right }
{
    match left.checked_mul(signed_power(shift)) {
        Some(raised) => raised.cmp(&right),
        None if left < 0 => Ordering::Less,
        None => Ordering::Greater,
    }
}

/// The order of two numbers, the first of which has no more decimals.
#[inline]
fn order_of(left: Dec, right: Dec) -> Ordering
    requires { left.scale ≤ right.scale }
    ensures { result ≡ order left right }
{
    let shift = right.scale() - left.scale();
    if let Some(one) = left.short_coefficient() {
        if let Some(two) = right.short_coefficient() {
            return short_raised_order(one, shift, two);
        }
    }
    raised_order(left.coefficient(), shift, right.coefficient())
}

/// The order of two numbers with as many decimals.
#[inline]
fn order_at_scale(left: Dec, right: Dec) -> Ordering
    requires { left.scale ≡ right.scale }
    ensures { result ≡ order left right }
{
    if let Some(one) = left.short_coefficient() {
        if let Some(two) = right.short_coefficient() {
            return one.cmp(&two);
        }
    }
    raised_order(left.coefficient(), 0, right.coefficient())
}
