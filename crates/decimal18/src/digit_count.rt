ghost use Rattle.std.specs.Prelude.{◌≡◌, ◌<◌, ◌≤◌, ◌-◌, ◌^◌};

use crate::decimal::COEFFICIENT_DIGITS;
use crate::power::power_of_ten;

/// How many digits a number has; zero has none. They are found by halves.
#[cold]
#[inline(never)]
pub fn digit_count(magnitude: u128) -> u8
    requires { magnitude < 10 ^ 38 }
    ensures below { magnitude < 10 ^ result }
    ensures least { 0 < result → 10 ^ (result - 1) ≤ magnitude }
    ensures most { result ≤ 38 }
{
    let mut least = 0;
    let mut most = COEFFICIENT_DIGITS;
    while least < most {
        let middle = (least + most) / 2;
        if magnitude < power_of_ten(middle) {
            most = middle;
        } else {
            least = middle + 1;
        }
    }
    most
}
