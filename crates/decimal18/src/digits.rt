ghost use Rattle.std.specs.Prelude.{length, ◌≡◌, ◌<◌, ◌≤◌, ◌^◌, All, nat_lt, IfSome, if◌then◌else◌, unsigned_abs, Ok};
ghost use Rattle.std.specs.Char.{IsAsciiDigit};
ghost use Rattle.decimal18.specs.Arithmetic.{is_within, size_error};
ghost use Rattle.decimal18.specs.Digits.{digits_after, decimal_of_digits, digit_of, integer_of};

use crate::arithmetic::{divided, with_sign};
use crate::decimal::{COEFFICIENT_DIGITS, Dec};
use crate::digit_run::number_after;
use crate::power::power_of_ten;
use crate::short_receiver::{SHORT_DIGITS, short_parts};
use crate::size_error::Size;

/// The radix of decimal digits.
const RADIX: u128 = 10;

impl Dec {
    /// The integer, or a size error where it has more than 38 digits.
    pub fn integer(value: i128) -> Result<Dec, Size>
        ensures { result ≡ (if is_within value then Ok (record { coefficient = value; scale = 0 })
            else size_error) }
    {
        if value.unsigned_abs() < power_of_ten(COEFFICIENT_DIGITS) {
            Ok(Dec::new(value, 0))
        } else {
            Err(Size)
        }
    }

    /// The number with these ASCII digits, the last `scale` of them (at most 18) decimals: a size error where it has more
    /// than 38 digits, zeros in front not counted.
    #[tactic(auto, using(crate::proofs::Intermediates::spelled_short), unfolding(crate::specs::Digits::decimal_of_digits))]
    pub fn from_digits(negative: bool, digits: &[u8], scale: u8) -> Result<Dec, Size>
        requires digits { All IsAsciiDigit digits.now }
        requires scale { scale ≤ 18 }
        ensures { result ≡ decimal_of_digits negative digits.now scale }
    {
        if digits.len() <= usize::from(SHORT_DIGITS) {
            if let Some(magnitude) = number_after(0, digits) {
                return Ok(short_parts(negative, magnitude, SHORT_DIGITS, scale));
            }
        }
        match long_number_after(0, digits) {
            Some(magnitude) => Ok(Dec::from_parts(negative, magnitude, scale)),
            None => Err(Size),
        }
    }

    /// The digit of the coefficient with `place` digits (at most 38) to its right, as a number.
    pub fn digit(self, place: u8) -> u8
        requires { place ≤ 38 }
        ensures value { result ≡ digit_of (unsigned_abs self.coefficient) place }
        ensures bound { result < 10 }
    {
        (divided(self.magnitude(), power_of_ten(place)) % RADIX) as u8
    }

    /// The integer that the number is, if it is one.
    pub fn to_integer(self) -> Option<i128>
        ensures { result ≡ integer_of self }
    {
        let unit = power_of_ten(self.scale());
        let magnitude = self.magnitude();
        let integer = divided(magnitude, unit);
        if magnitude - integer * unit == 0 {
            Some(with_sign(self.is_negative(), integer))
        } else {
            None
        }
    }
}

/// The number that ASCII digits stand for after those of `front`, if it has at most 38 digits.
fn long_number_after(front: u128, digits: &[u8]) -> Option<u128>
    requires front { front < 10 ^ 38 }
    requires digits { All IsAsciiDigit digits.now }
    ensures value { result ≡ (if nat_lt (digits_after front digits.now) (10 ^ 38)
        then Some (digits_after front digits.now) else None) }
    ensures bound { IfSome result (λ number. number < 10 ^ 38) }
{
    let most = power_of_ten(COEFFICIENT_DIGITS - 1);
    let mut number = front;
    for digit in digits {
        if number >= most {
            return None;
        }
        number = RADIX * number + (*digit - b'0') as u128;
    }
    Some(number)
}
