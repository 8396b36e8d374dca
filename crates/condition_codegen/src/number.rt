//! The numbers of literals (COBOL-85, Nucleus, "Literals").

ghost use Rattle.std.specs.Prelude.{◌≡◌, true};
ghost use Rattle.source_tree.specs.Computed as computed;
ghost use Rattle.source_tree.specs.Literals as spec;
ghost use Rattle.source_tree.specs.ValueRules.{has_form};
ghost use Rattle.source_tree.specs.declared.literal.LiteralValue.TheVariants as literals;
ghost use Rattle.condition_codegen.specs.ArithmeticCode.{or_zero};

use decimal18::{Dec, number_after};
use source_tree::{LiteralValue, NumericLiteral, Sign};

/// The number that a literal is: of ZERO, and of one that is none, 0.
pub(crate) fn number_of_literal(value: &LiteralValue) -> Dec
    requires { has_form value.now ≡ true }
    ensures { result ≡ or_zero (computed.number_of_literal value.now) }
{
    match value {
        LiteralValue::Numeric(one) => number_written(one),
        LiteralValue::Figurative(_) | LiteralValue::Nonnumeric(_) | LiteralValue::All(_) => {
            Dec::short(0, 0)
        }
    }
}

fn is_minus(sign: Sign) -> bool
    ensures { result ≡ spec.is_minus sign }
{
    matches!(sign, Sign::Minus)
}

/// The number that digits with a sign and decimals are.
fn number_written(one: &NumericLiteral) -> Dec
    requires { has_form (literals.Numeric one.now) ≡ true }
    ensures { result ≡ spec.literal_number one.now }
{
    let Some(whole) = number_after(0, one.whole.as_slice()) else {
        unreachable!()
    };
    let Some(magnitude) = number_after(whole, one.decimals.as_slice()) else {
        unreachable!()
    };
    let scale = one.decimals.len() as u8;
    Dec::from_parts(is_minus(one.sign), u128::from(magnitude), scale)
}
