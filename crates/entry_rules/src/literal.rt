//! The form of literals, and their numbers (COBOL-85, Nucleus, "Literals").

ghost use Rattle.std.specs.Prelude.{◌≡◌, ◌+◌, ◌≤◌, ◌<◌, ◌^◌, ◌&&◌, ◌++◌, length, Some, None, IfSome, if◌then◌else◌};
ghost use Rattle.std.specs.Char.{is_ascii_digit};
ghost use Rattle.std.specs.List.{list_all};
ghost use Rattle.decimal18.specs.Digits.{digits_after};
ghost use Rattle.source_tree.specs.Literals as literals;
ghost use Rattle.source_tree.specs.NameRules as names;
ghost use Rattle.source_tree.specs.ValueRules as spec;
ghost use Rattle.source_tree.specs.declared.literal.LiteralValue.TheVariants as literal;

use decimal18::{Dec, number_after};
use source_tree::{Integer, LiteralValue, NumericLiteral, Sign};

/// The most digits of a numeric literal.
const MOST_DIGITS: usize = 18;

/// The most characters of a nonnumeric literal (own choice).
const MOST_CHARACTERS: usize = 160;

/// The number of a literal that has the form of one.
pub fn literal_number(one: &NumericLiteral) -> Option<Dec>
    ensures { result ≡ (if spec.has_form (literal.Numeric one.now)
        then Some (literals.literal_number one.now) else None) }
{
    let (whole, decimals) = (one.whole.as_slice(), one.decimals.as_slice());
    if !is_digit_count(whole.len(), decimals.len()) {
        return None;
    }
    let magnitude = digits_number(whole, decimals)?;
    let negative = matches!(one.sign, Sign::Minus);
    Some(Dec::from_parts(negative, u128::from(magnitude), decimals.len() as u8))
}

/// A text has 1 to 160 characters.
pub fn is_text(bytes: &[u8]) -> bool
    ensures { result ≡ spec.are_some spec.most_literal_characters (length bytes.now) }
{
    1 <= bytes.len() && bytes.len() <= MOST_CHARACTERS
}

/// A literal has its form: a numeric one 1 to 18 digits, a nonnumeric one, and that of ALL, 1 to 160 characters.
pub fn has_form(value: &LiteralValue) -> bool
    ensures { result ≡ spec.has_form value.now }
{
    match value {
        LiteralValue::Numeric(one) => literal_number(one).is_some(),
        LiteralValue::Nonnumeric(bytes) => is_text(bytes.as_slice()),
        LiteralValue::Figurative(_) => true,
        LiteralValue::All(bytes) => is_text(bytes.as_slice()),
    }
}

/// An integer has its form: 1 to 18 digits.
pub fn is_integer(one: &Integer) -> bool
    ensures { result ≡ names.is_integer one.now }
{
    let digits = one.digits.as_slice();
    are_digits(digits) && 1 <= digits.len() && digits.len() <= MOST_DIGITS
}

/// The number that 1 to 18 digits write, if they are digits.
fn digits_number(whole: &[u8], decimals: &[u8]) -> Option<u64>
    requires { length whole.now + length decimals.now ≤ 18 }
    ensures value { result ≡ (if list_all is_ascii_digit whole.now && list_all is_ascii_digit
        decimals.now then Some (digits_after 0 (whole.now ++ decimals.now)) else None) }
    ensures bound { IfSome result (λ n. n < 10 ^ 18) }
{
    let front = number_after(0, whole)?;
    number_after(front, decimals)
}

/// There are 1 to 18 digits.
fn is_digit_count(whole: usize, decimals: usize) -> bool
    ensures { result ≡ spec.are_some spec.most_literal_digits (whole + decimals) }
{
    whole <= MOST_DIGITS
        && decimals <= MOST_DIGITS
        && 0 < whole + decimals
        && whole + decimals <= MOST_DIGITS
}

fn are_digits(bytes: &[u8]) -> bool
    ensures { result ≡ list_all is_ascii_digit bytes.now }
{
    bytes.iter().all(|byte| byte.is_ascii_digit())
}
