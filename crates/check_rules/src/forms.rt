//! The form of literals and integers: 17 and 18 (COBOL-85, Nucleus, "Literals").

ghost use Rattle.std.specs.Prelude.{◌≡◌};
ghost use Rattle.entry_rules.specs.Checks.{IsFirstBreach, number_of};
ghost use Rattle.source_tree.specs.NameRules as spec;

use entry_rules::{BrokenRule, Rule, has_form, is_integer};
use source_tree::{Adjustment, Integer, Literal, LiteralValue};

/// A literal has its form.
pub fn literal_rules(one: &Literal) -> Result<(), BrokenRule>
    ensures { IsFirstBreach result (spec.literal_rules one.now) }
{
    form_rule(&one.value).broken_if(!has_form(&one.value), one.place)
}

/// An integer has 1 to 18 digits.
pub fn integer_rules(one: &Integer) -> Result<(), BrokenRule>
    ensures { IsFirstBreach result (spec.integer_rules one.now) }
{
    Rule::NumericLiteral.broken_if(!is_integer(one), one.place)
}

/// The integer that a subscript adds or subtracts.
pub fn adjustment_rules(one: &Adjustment) -> Result<(), BrokenRule>
    ensures { IsFirstBreach result (spec.adjustment_rules one.now) }
{
    match one {
        Adjustment::Nothing => Ok(()),
        Adjustment::Plus(integer) => integer_rules(integer),
        Adjustment::Minus(integer) => integer_rules(integer),
    }
}

/// The rule that a literal of another form breaks.
fn form_rule(value: &LiteralValue) -> Rule
    ensures { number_of result ≡ spec.form_rule value.now }
{
    match value {
        LiteralValue::Numeric(_) => Rule::NumericLiteral,
        _ => Rule::NonnumericLiteral,
    }
}
