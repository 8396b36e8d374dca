//! Rules 47 and 55 of condition names: their values, and ranges of values that are backwards (COBOL-85, Nucleus, "The
//! VALUE clause").

ghost use Rattle.std.specs.Prelude.{◌≡◌, ◌≤◌, ◌∷◌, [], length, false};
ghost use Rattle.std.specs.Option.{option_copied};
ghost use Rattle.items.specs.Items.{IsTaken};
ghost use Rattle.items.specs.Texts.{character_of};
ghost use Rattle.text_ops.specs.Compare.{comparison_of};
ghost use Rattle.source_tree.specs.Broken.{each};
ghost use Rattle.source_tree.specs.Levels.{leading_conditions};
ghost use Rattle.source_tree.specs.Literals as literals;
ghost use Rattle.source_tree.specs.ValueRules as spec;
ghost use Rattle.data_entries.specs.Forms.{IsKind};
ghost use Rattle.entry_rules.specs.Checks.{IsFirstBreach};
ghost use Rattle.entry_rules.specs.Ranges as ranges;
ghost use Rattle.entry_rules.specs.Ranges.{IsNumeral, IsText};

use crate::literal::literal_number;
use crate::rule::{BrokenRule, Rule};
use crate::value::wrong_value;
use decimal18::Dec;
use items::{Item, Kind, Taken};
use source_tree::{Entry, Figurative, LiteralValue, ValueRange};
use std::cmp::Ordering;
use text_ops::compare;

/// The values of an item's condition names, which stand at the front of the entries after it.
pub fn conditions_rules(item: Item, entries: &[Entry]) -> Result<(), BrokenRule>
    requires { IsKind item.kind }
    ensures { IsFirstBreach result
        (each (spec.condition_rules item) (leading_conditions entries.now)) }
{
    let mut rest = entries;
    'conditions: while let [Entry::Condition(one), more @ ..] = rest {
        condition_rules(item, one.values.as_slice())?;
        rest = more;
    }
    Ok(())
}

/// The number of a numeric literal, or of ZERO.
fn number(value: &LiteralValue) -> Dec
    requires { IsNumeral value.now }
    ensures { result ≡ ranges.number_of_literal value.now }
{
    match value {
        LiteralValue::Numeric(one) => literal_number(one).unwrap_or(Dec::new(0, 0)),
        _ => Dec::new(0, 0),
    }
}

/// A number is greater than another one.
fn is_greater_number(first: &LiteralValue, last: &LiteralValue) -> bool
    requires first { IsNumeral first.now }
    requires last { IsNumeral last.now }
    ensures { result ≡ spec.is_greater (spec.literals_order (literals.literal_sender first.now)
        (literals.literal_sender last.now)) }
{
    items::numbers_come_back();
    number(first) > number(last)
}

/// A text is greater than another one, as in a relation.
fn is_greater_text(one: Taken, ones: &[u8], other: Taken, others: &[u8]) -> bool
    requires one { IsTaken one ones.now }
    requires other { IsTaken other others.now }
    ensures { result ≡ spec.is_greater (comparison_of one ones.now other others.now) }
{
    matches!(compare(one, ones, other, others), Ok(Ordering::Greater))
}

fn constant_of(constant: Figurative) -> items::Figurative
    ensures { result ≡ literals.constant_of constant }
{
    match constant {
        Figurative::Zero => items::Figurative::Zero,
        Figurative::Space => items::Figurative::Space,
        Figurative::HighValue => items::Figurative::HighValue,
        Figurative::LowValue => items::Figurative::LowValue,
        Figurative::Quote => items::Figurative::Quote,
    }
}

/// The character of a figurative constant, once.
fn character(constant: Figurative) -> &'static [u8]
    ensures { result.now ≡ character_of (literals.constant_of constant) ∷ [] }
{
    match constant {
        Figurative::Zero => b"0",
        Figurative::Space => b" ",
        Figurative::HighValue => b"\xff",
        Figurative::LowValue => b"\0",
        Figurative::Quote => b"\"",
    }
}

/// The characters of a literal that is repeated, where nothing says how often.
fn once(value: &LiteralValue) -> Option<&[u8]>
    ensures { ranges.IsOnce value.now (option_copied result) }
{
    match value {
        LiteralValue::Figurative(constant) => Some(character(*constant)),
        LiteralValue::All(bytes) => Some(bytes.as_slice()),
        _ => None,
    }
}

/// A text as an operand of a relation.
fn text(bytes: &[u8]) -> Taken
    requires { length bytes.now ≤ 160 }
    ensures { result ≡ ranges.text_taken bytes.now }
{
    Taken::Item(Item {
        kind: Kind::Alphanumeric { justified: false },
        length: bytes.len() as u32,
    })
}

/// A literal that is no number as an operand of a relation, by its bytes.
fn operand(value: &LiteralValue) -> (Taken, &[u8])
    requires { IsText value.now }
    ensures taken { result.0 ≡ (literals.literal_sender value.now).taken }
    ensures bytes { result.1.now ≡ (literals.literal_sender value.now).bytes }
{
    match value {
        LiteralValue::Nonnumeric(bytes) => (text(bytes.as_slice()), bytes.as_slice()),
        LiteralValue::Figurative(constant) => (Taken::Figurative(constant_of(*constant)), &[]),
        LiteralValue::All(bytes) => (Taken::All, bytes.as_slice()),
        LiteralValue::Numeric(_) => unreachable!(),
    }
}

/// A literal that is no number is greater than another one.
fn is_greater_literal(first: &LiteralValue, last: &LiteralValue) -> bool
    requires first { IsText first.now }
    requires last { IsText last.now }
    ensures { result ≡ spec.is_greater (spec.literals_order (literals.literal_sender first.now)
        (literals.literal_sender last.now)) }
{
    if let (Some(ones), Some(others)) = (once(first), once(last)) {
        return is_greater_text(text(ones), ones, text(others), others);
    }
    let (one, ones) = operand(first);
    let (other, others) = operand(last);
    is_greater_text(one, ones, other, others)
}

/// The first literal of a range is greater than the last one; an item can hold both.
fn is_backwards(item: Item, first: &LiteralValue, last: &LiteralValue) -> bool
    requires first { spec.wrong_value item.kind item.length first.now ≡ false }
    requires last { spec.wrong_value item.kind item.length last.now ≡ false }
    ensures { result ≡ spec.is_greater (spec.literals_order (literals.literal_sender first.now)
        (literals.literal_sender last.now)) }
{
    match item.kind {
        Kind::Numeric(_) => is_greater_number(first, last),
        _ => is_greater_literal(first, last),
    }
}

/// The values of a range.
fn range_rules(item: Item, one: &ValueRange) -> Result<(), BrokenRule>
    requires { IsKind item.kind }
    ensures { IsFirstBreach result (spec.range_rules item one.now) }
{
    let first = &one.first;
    let wrong_first = wrong_value(item, &first.value);
    Rule::Value.broken_if(wrong_first, first.place)?;
    let Some(last) = &one.last else {
        return Ok(());
    };
    let wrong_last = wrong_value(item, &last.value);
    Rule::Value.broken_if(wrong_last, last.place)?;
    Rule::Range.broken_if(is_backwards(item, &first.value, &last.value), first.place)
}

/// The values of a condition name.
fn condition_rules(item: Item, ranges: &[ValueRange]) -> Result<(), BrokenRule>
    requires { IsKind item.kind }
    ensures { IsFirstBreach result (each (spec.range_rules item) ranges.now) }
{
    for range in ranges {
        range_rules(item, range)?;
    }
    Ok(())
}
