ghost use Rattle.std.specs.Prelude.{◌≡◌, ◌≢◌, ◌≤◌, pos, true, int_div, IfSome};
ghost use Rattle.decimal18.specs.Quotient.{admits, extended_dividend, greatest, quotient};

use crate::arithmetic::{divided, with_sign};
use crate::decimal::{COEFFICIENT_DIGITS, Dec, MOST_SCALE};
use crate::digit_count::digit_count;
use crate::power::power_of_ten;
use crate::size_error::Size;

impl Dec {
    /// The greatest scale that the quotient may have: the dividend's coefficient takes as many zeros as leave it at most
    /// 38 digits. Nearly always that is 18, and one comparison tells.
    #[inline]
    fn quotient_scale(self, divisor: Dec) -> Option<u8>
        ensures value { result ≡ greatest (admits self divisor) 18 }
        ensures admitted { IfSome result (λ q. (q ≤ 18) × (admits self divisor q ≡ true)) }
    {
        let magnitude = self.magnitude();
        let room = COEFFICIENT_DIGITS + self.scale() - MOST_SCALE - divisor.scale();
        if magnitude < power_of_ten(room) {
            return Some(MOST_SCALE);
        }
        let most = COEFFICIENT_DIGITS - digit_count(magnitude) + self.scale();
        if most < divisor.scale() {
            return None;
        }
        Some((most - divisor.scale()).min(MOST_SCALE))
    }

    fn quotient_with(self, divisor: Dec, scale: u8) -> Dec
        requires divisor { divisor.coefficient ≢ pos 0 }
        requires scale { scale ≤ 18 }
        requires admitted { admits self divisor scale ≡ true }
        ensures { result ≡ record {
          coefficient = int_div (extended_dividend self divisor scale) divisor.coefficient;
          scale = scale;
        } }
    {
        let zeros = scale + divisor.scale() - self.scale();
        let dividend = self.magnitude() * power_of_ten(zeros);
        let negative = self.is_negative() != divisor.is_negative();
        let magnitude = divided(dividend, divisor.magnitude());
        Dec::new(with_sign(negative, magnitude), scale)
    }

    /// The quotient, cut towards zero at the greatest scale from 0 to 18 at which the dividend's coefficient, with the
    /// zeros that this takes, has at most 38 digits; a size error where there is none, or the divisor is zero.
    #[tactic(auto, unfolding(crate::specs::Quotient::quotient))]
    pub fn div(self, divisor: Dec) -> Result<Dec, Size>
        ensures { result ≡ quotient self divisor }
    {
        if divisor.is_zero() {
            return Err(Size);
        }
        let Some(scale) = self.quotient_scale(divisor) else {
            return Err(Size);
        };
        Ok(self.quotient_with(divisor, scale))
    }
}
