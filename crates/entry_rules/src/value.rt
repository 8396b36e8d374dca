//! Rule 47: a VALUE that its item can't hold as it is (COBOL-85, Nucleus, "The VALUE clause").

ghost use Rattle.std.specs.Prelude.{◌≡◌, ◌||◌, not};
ghost use Rattle.items.specs.Numbers.{IsNumeric};
ghost use Rattle.source_tree.specs.declared.literal.LiteralValue.TheVariants as literal;
ghost use Rattle.source_tree.specs.ValueRules as spec;
ghost use Rattle.data_entries.specs.Forms.{IsKind};
ghost use Rattle.entry_rules.specs.Checks.{IsFirstBreach};

use crate::literal::{is_text, literal_number};
use crate::rule::{BrokenRule, Rule};
use decimal18::{Dec, Rounding};
use items::{Item, Kind, Numeric};
use source_tree::{Figurative, Literal, LiteralValue, NumericLiteral};

/// An item can't hold a literal as it is.
pub fn wrong_value(item: Item, value: &LiteralValue) -> bool
    requires { IsKind item.kind }
    ensures { result ≡ spec.wrong_value item.kind item.length value.now }
{
    match item.kind {
        Kind::Numeric(numeric) => wrong_number(numeric, value),
        _ => wrong_text(item.length, value),
    }
}

/// VALUE of an entry, which may stand under REDEFINES or in a group with VALUE.
pub fn value_rules(forbidden: bool, item: Item, value: &Option<Literal>) -> Result<(), BrokenRule>
    requires { IsKind item.kind }
    ensures { IsFirstBreach result (spec.value_rules forbidden item value.now) }
{
    match value {
        Some(one) => {
            let wrong = forbidden || wrong_value(item, &one.value);
            Rule::Value.broken_if(wrong, one.place)
        }
        None => Ok(()),
    }
}

/// Zeros in front of the digits that the item keeps, and after them, aren't cut.
fn is_cut(numeric: Numeric, x: Dec) -> bool
    requires { IsNumeric numeric }
    ensures { result ≡ spec.is_cut numeric x }
{
    x.cut(numeric.digits, numeric.scale, Rounding::Truncated) != x
}

/// A numeric literal has no form, or the item can't hold its number.
fn wrong_numeral(numeric: Numeric, one: &NumericLiteral) -> bool
    requires { IsNumeric numeric }
    ensures { result ≡ (not (spec.has_form (literal.Numeric one.now))
        || spec.wrong_number numeric (literal.Numeric one.now)) }
{
    match literal_number(one) {
        Some(x) => is_cut(numeric, x) || (!numeric.is_signed() && x.is_negative()),
        None => true,
    }
}

/// A numeric item has a numeric literal or ZERO.
fn wrong_number(numeric: Numeric, value: &LiteralValue) -> bool
    requires { IsNumeric numeric }
    ensures { result ≡ (not (spec.has_form value.now) || spec.wrong_number numeric value.now) }
{
    match value {
        LiteralValue::Numeric(one) => wrong_numeral(numeric, one),
        LiteralValue::Figurative(Figurative::Zero) => false,
        _ => true,
    }
}

/// Others have a nonnumeric literal or a figurative constant.
fn wrong_text(size: u32, value: &LiteralValue) -> bool
    ensures { result ≡ (not (spec.has_form value.now) || spec.wrong_text size value.now) }
{
    match value {
        LiteralValue::Numeric(_) => true,
        LiteralValue::Nonnumeric(bytes) => {
            let text = bytes.as_slice();
            !is_text(text) || text.len() > size as usize
        }
        LiteralValue::Figurative(_) => false,
        LiteralValue::All(bytes) => !is_text(bytes.as_slice()),
    }
}
