//! Numeric literals (COBOL-85, Nucleus, "Literals").

ghost use Rattle.std.specs.Prelude.{◌≡◌, true};
ghost use Rattle.items.specs.Numbers.{IsNumeric, CanHold};
ghost use Rattle.source_tree.specs.Literals as spec;
ghost use Rattle.source_tree.specs.ValueRules.{has_form};
ghost use Rattle.source_tree.specs.declared.literal.LiteralValue.TheVariants as literals;

use decimal18::{Dec, number_after};
use items::{Numeric, OperationalSign, Usage};
use lexical::{NumericLiteral, Sign};

/// The DISPLAY item of the digits with which the literal is written.
pub fn numeric(literal: &NumericLiteral) -> Numeric
    requires { has_form (literals.Numeric literal.now) ≡ true }
    ensures value { result ≡ spec.literal_numeric literal.now }
    ensures form { IsNumeric result }
{
    let scale = literal.decimals.len() as u8;
    Numeric {
        digits: literal.whole.len() as u8 + scale,
        scale,
        usage: Usage::Display(operational_sign(literal.sign)),
    }
}

/// The number that the literal is.
pub fn number(literal: &NumericLiteral) -> Dec
    requires { has_form (literals.Numeric literal.now) ≡ true }
    ensures value { result ≡ spec.literal_number literal.now }
    ensures holds { CanHold (spec.literal_numeric literal.now) result }
{
    let Some(whole) = number_after(0, literal.whole.as_slice()) else {
        unreachable!()
    };
    let Some(magnitude) = number_after(whole, literal.decimals.as_slice()) else {
        unreachable!()
    };
    let scale = literal.decimals.len() as u8;
    Dec::from_parts(is_minus(literal.sign), u128::from(magnitude), scale)
}

/// A written sign is held with the last digit.
fn operational_sign(sign: Sign) -> OperationalSign
    ensures { result ≡ spec.literal_sign sign }
{
    match sign {
        Sign::Unsigned => OperationalSign::Unsigned,
        Sign::Plus | Sign::Minus => OperationalSign::Trailing,
    }
}

fn is_minus(sign: Sign) -> bool
    ensures { result ≡ spec.is_minus sign }
{
    matches!(sign, Sign::Minus)
}
