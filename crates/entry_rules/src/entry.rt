//! The rules of one entry by itself, except for its sizes.

ghost use Rattle.std.specs.Prelude.{◌≡◌, ◌≤◌, ◌<◌};
ghost use Rattle.source_tree.specs.Clauses.{occurrences, picture_in};
ghost use Rattle.source_tree.specs.ClauseRules.{most_item_bytes, most_occurrences, wrong_picture};
ghost use Rattle.source_tree.specs.Integers.{number_of};
ghost use Rattle.source_tree.specs.Levels.{leading_conditions, forest_of};
ghost use Rattle.data_entries.specs.Forms.{IsKind};
ghost use Rattle.entry_rules.specs.Checks.{IsFirstBreach};
ghost use Rattle.entry_rules.specs.Walk.{HasLevelLast, redefinable_of};
ghost use Rattle.entry_rules.specs.Own as spec;

use crate::clauses::wrong_clause;
use crate::conditions::conditions_rules;
use crate::described::Described;
use crate::position::{Position, has_item};
use crate::redefinition::{Redefinable, redefinition_rules};
use crate::rule::{BrokenRule, Rule};
use crate::value::value_rules;
use data_entries::number;
use source_tree::Entry;

/// The rules of an entry that keeps the limits of sizes, and of its condition names, with the entries in it.
pub fn entry_rules(
    at: Position,
    one: &Described<'_>,
    inner: &[Entry],
    last: Option<Redefinable<'_>>,
) -> Result<(), BrokenRule>
    requires level { number_of one.now.entry.now.level < 100000 }
    requires last { HasLevelLast last }
    requires picture { one.now.picture ≡ picture_in one.now.entry.now }
    requires kind { IsKind one.now.item.kind }
    requires times { occurrences one.now.entry.now ≤ most_occurrences }
    requires bytes { one.now.item.length ≤ most_item_bytes }
    ensures { IsFirstBreach result (spec.entry_rules at one.now.entry.now (leading_conditions
        inner.now) one.now.item (forest_of inner.now) (redefinable_of last.entry)) }
{
    own_rules(at, one, inner, last)?;
    conditions_rules(one.item, inner)
}

/// A group has no picture, and an elementary item has one, with a form.
fn is_wrong_picture(one: &Described<'_>, inner: &[Entry]) -> bool
    requires { one.now.picture ≡ picture_in one.now.entry.now }
    ensures { result ≡ wrong_picture one.now.entry.now (forest_of inner.now) }
{
    if has_item(inner) {
        one.entry.picture.is_some()
    } else {
        one.picture.is_none()
    }
}

/// Level, clauses and picture.
fn form_rules(at: Position, one: &Described<'_>, inner: &[Entry]) -> Result<(), BrokenRule>
    requires level { number_of one.now.entry.now.level < 100000 }
    requires picture { one.now.picture ≡ picture_in one.now.entry.now }
    ensures { IsFirstBreach result
        (spec.form_rules at one.now.entry.now one.now.item (forest_of inner.now)) }
{
    let place = one.entry.level.place;
    let wrong_level = at.is_wrong_level(number(&one.entry.level), inner);
    Rule::LevelOrder.broken_if(wrong_level, place)?;
    Rule::Clause.broken_if(wrong_clause(at, one), place)?;
    Rule::Picture.broken_if(is_wrong_picture(one, inner), place)
}

/// Level, clauses, picture, REDEFINES and VALUE of an entry after the one that may be redefined.
fn own_rules(
    at: Position,
    one: &Described<'_>,
    inner: &[Entry],
    last: Option<Redefinable<'_>>,
) -> Result<(), BrokenRule>
    requires level { number_of one.now.entry.now.level < 100000 }
    requires last { HasLevelLast last }
    requires picture { one.now.picture ≡ picture_in one.now.entry.now }
    requires kind { IsKind one.now.item.kind }
    requires times { occurrences one.now.entry.now ≤ most_occurrences }
    requires bytes { one.now.item.length ≤ most_item_bytes }
    ensures { IsFirstBreach result (spec.later_rules at one.now.entry.now one.now.item
        (forest_of inner.now) (redefinable_of last.entry)) }
{
    form_rules(at, one, inner)?;
    redefinition_rules(at.is_of_record(), one.entry, one.extent(), last)?;
    value_rules(at.forbids_value(one.entry), one.item, &one.entry.value)
}
