//! Rule 44: OCCURS, JUSTIFIED, BLANK WHEN ZERO, SIGN and USAGE (COBOL-85, Nucleus, "Data description entry").

ghost use Rattle.std.specs.Prelude.{◌≡◌, Some};
ghost use Rattle.source_tree.specs.ClauseRules as spec;
ghost use Rattle.source_tree.specs.Clauses.{picture_in};
ghost use Rattle.entry_rules.specs.Walk.{is_outermost};

use crate::described::Described;
use crate::position::Position;
use data_entries::{occurrences, usage};
use items::{Kind, Usage};
use picture::{Category, Picture, Suppression};
use source_tree::{Around, ItemEntry, UsageClause};

/// Dimensions of one table.
const MOST_DIMENSIONS: u32 = 7;

/// A clause is wrong where it stands.
pub fn wrong_clause(at: Position, one: &Described<'_>) -> bool
    requires { one.now.picture ≡ picture_in one.now.entry.now }
    ensures { result
        ≡ spec.wrong_clause (is_outermost at) at.nesting at.around one.now.entry.now one.now.item }
{
    wrong_occurs(at.is_outermost(), at.nesting, one.entry)
        || (one.entry.justified && !may_be_justified(one.item.kind))
        || wrong_blank(at.around, one)
        || wrong_form(at.around, one)
        || another_usage(one.entry.usage, at.around.usage)
}

fn wrong_occurs(is_outermost: bool, nesting: u32, entry: &ItemEntry) -> bool
    ensures { result ≡ spec.wrong_occurs is_outermost nesting entry.now }
{
    entry.occurs.is_some()
        && (is_outermost || nesting >= MOST_DIMENSIONS || occurrences(entry) == 0)
}

/// An elementary alphabetic or alphanumeric item.
fn may_be_justified(kind: Kind) -> bool
    ensures { result ≡ spec.may_be_justified kind }
{
    matches!(kind, Kind::Alphabetic { .. } | Kind::Alphanumeric { .. })
}

fn is_display(usage: UsageClause) -> bool
    ensures { result ≡ spec.is_display usage }
{
    matches!(usage, UsageClause::Display)
}

fn has_asterisks(picture: &Picture) -> bool
    ensures { result ≡ spec.has_asterisks picture.now.region }
{
    match picture.region() {
        Some(region) => matches!(region.by, Suppression::Asterisks),
        None => false,
    }
}

/// A numeric edited item without `*`, or an unsigned DISPLAY one.
fn may_be_blank(usage: UsageClause, picture: &Picture) -> bool
    ensures { result ≡ spec.may_be_blank picture.now.category usage picture.now }
{
    match picture.category() {
        Category::NumericEdited => !has_asterisks(picture),
        Category::Numeric => !picture.is_signed() && is_display(usage),
        _ => false,
    }
}

fn wrong_blank(around: Around, one: &Described<'_>) -> bool
    ensures { result ≡ spec.wrong_blank around one.now.entry.now one.now.picture }
{
    let Some(picture) = &one.picture else {
        return one.entry.blank_when_zero;
    };
    one.entry.blank_when_zero && !may_be_blank(usage(around, one.entry), picture)
}

/// SIGN is of a DISPLAY item with S.
fn may_have_sign(kind: Kind) -> bool
    ensures { result ≡ spec.may_have_sign kind }
{
    match kind {
        Kind::Numeric(numeric) => matches!(numeric.usage, Usage::Display(_)) && numeric.is_signed(),
        _ => false,
    }
}

/// SIGN and USAGE of an elementary item.
fn wrong_form(around: Around, one: &Described<'_>) -> bool
    ensures { result ≡ spec.wrong_form around one.now.entry.now one.now.item one.now.picture }
{
    if one.picture.is_none() {
        return false;
    }
    let wrong_sign = one.entry.sign.is_some() && !may_have_sign(one.item.kind);
    let is_number = matches!(one.item.kind, Kind::Numeric(_));
    wrong_sign || (!is_display(usage(around, one.entry)) && !is_number)
}

/// USAGE other than that of a group around the entry.
fn another_usage(own: Option<UsageClause>, other: Option<UsageClause>) -> bool
    ensures { result ≡ spec.another_usage own other }
{
    match (own, other) {
        (Some(one), Some(two)) => one != two,
        _ => false,
    }
}
