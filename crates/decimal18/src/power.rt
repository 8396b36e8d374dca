ghost use Rattle.std.specs.Prelude.{◌≡◌, ◌<◌, ◌≤◌, ◌^◌, pos};

/// Powers of ten in the table.
const COUNT: usize = 39;

static POWERS: [u128; COUNT] = [
    1,
    10,
    100,
    1_000,
    10_000,
    100_000,
    1_000_000,
    10_000_000,
    100_000_000,
    1_000_000_000,
    10_000_000_000,
    100_000_000_000,
    1_000_000_000_000,
    10_000_000_000_000,
    100_000_000_000_000,
    1_000_000_000_000_000,
    10_000_000_000_000_000,
    100_000_000_000_000_000,
    1_000_000_000_000_000_000,
    10_000_000_000_000_000_000,
    100_000_000_000_000_000_000,
    1_000_000_000_000_000_000_000,
    10_000_000_000_000_000_000_000,
    100_000_000_000_000_000_000_000,
    1_000_000_000_000_000_000_000_000,
    10_000_000_000_000_000_000_000_000,
    100_000_000_000_000_000_000_000_000,
    1_000_000_000_000_000_000_000_000_000,
    10_000_000_000_000_000_000_000_000_000,
    100_000_000_000_000_000_000_000_000_000,
    1_000_000_000_000_000_000_000_000_000_000,
    10_000_000_000_000_000_000_000_000_000_000,
    100_000_000_000_000_000_000_000_000_000_000,
    1_000_000_000_000_000_000_000_000_000_000_000,
    10_000_000_000_000_000_000_000_000_000_000_000,
    100_000_000_000_000_000_000_000_000_000_000_000,
    1_000_000_000_000_000_000_000_000_000_000_000_000,
    10_000_000_000_000_000_000_000_000_000_000_000_000,
    100_000_000_000_000_000_000_000_000_000_000_000_000,
];

/// 10 to an exponent of at most 38.
#[inline]
pub fn power_of_ten(exponent: u8) -> u128
    requires { exponent ≤ 38 }
    ensures value { result ≡ 10 ^ exponent }
    ensures positive { 0 < result }
{
    POWERS[exponent as usize]
}

/// 10 to an exponent of at most 19, in 64 bits.
#[inline]
#[tactic(auto, using(crate::proofs::Powers::power_le))]
pub fn short_power(exponent: u8) -> u64
    requires { exponent ≤ 19 }
    ensures value { result ≡ 10 ^ exponent }
    ensures positive { 0 < result }
{
    power_of_ten(exponent) as u64
}

/// 10 to an exponent of at most 18, in 64 bits with a sign.
#[inline]
#[tactic(auto, using(crate::proofs::Powers::power_le))]
pub fn signed_power(exponent: u8) -> i64
    requires { exponent ≤ 18 }
    ensures { result ≡ pos (10 ^ exponent) }
{
    short_power(exponent) as i64
}
