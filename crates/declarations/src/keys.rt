//! What the items of a SELECT's clauses are: 58 of keys, 59 of FILE STATUS, 60 of RELATIVE KEY, 69 of the bytes of a key.

ghost use Rattle.std.specs.Prelude.{◌≡◌, IfOk};
ghost use Rattle.entry_rules.specs.Checks.{IsFirstBreach};
ghost use Rattle.source_tree.specs.FileRules as spec;
ghost use Rattle.source_tree.specs.NameRules as names;
ghost use Rattle.source_tree.specs.ProgramFiles.{key_place};
ghost use Rattle.declarations.specs.Found.{AreDeclared, items_of};
ghost use Rattle.declarations.specs.Selecting as selecting;

use crate::declared_items::DeclaredItems;
use crate::item_parts::has_part;
use crate::record_area::RecordArea;
use entry_rules::{BrokenRule, Rule};
use items::{Kind, Usage};
use layout::PlacedItem;
use source_tree::Reference;

/// The most bytes of a key (own choice).
const MOST_KEY_BYTES: u32 = 100;

/// An item without subscripts.
pub fn is_plain(reference: &Reference, one: &PlacedItem) -> bool
    ensures { result ≡ selecting.is_plain reference.now one.now }
{
    reference.subscripts.as_slice().is_empty() && one.dimensions.as_slice().is_empty()
}

/// No part where none may be.
pub fn no_part_rules(one: &Reference) -> Result<(), BrokenRule>
    ensures { IsFirstBreach result (names.no_part_rules one.now) }
{
    Rule::Part.broken_if(has_part(one), one.item.name.place)
}

/// A group, an alphanumeric item, or an unsigned number in DISPLAY usage.
fn is_key_kind(kind: Kind) -> bool
    ensures { result ≡ spec.is_key_kind kind }
{
    match kind {
        Kind::Group | Kind::Alphanumeric { .. } => true,
        Kind::Numeric(numeric) => {
            matches!(numeric.usage, Usage::Display(_)) && !numeric.is_signed()
        }
        _ => false,
    }
}

fn is_unsigned_integer(kind: Kind) -> bool
    ensures { result ≡ spec.is_unsigned_integer kind }
{
    match kind {
        Kind::Numeric(numeric) => !numeric.is_signed() && numeric.scale == 0,
        _ => false,
    }
}

fn is_two_characters(kind: Kind, size: u32) -> bool
    ensures { result ≡ spec.is_two_characters kind size }
{
    matches!(kind, Kind::Alphanumeric { .. }) && size == 2
}

fn is_one_of(offset: u32, before: &[u32]) -> bool
    ensures { result ≡ spec.is_one_of offset before.now }
{
    for one in before {
        if *one == offset {
            return true;
        }
    }
    false
}

/// It is the item of a key of that file, of which these are the first bytes of the keys before it.
fn is_key(there: RecordArea<'_>, before: &[u32], reference: &Reference, one: &PlacedItem) -> bool
    ensures { result ≡ selecting.is_key_item (selecting.described_of there.entry) before.now
        reference.now one.now }
{
    let end = u64::from(one.offset) + u64::from(one.item.length);
    is_plain(reference, one)
        && (one.area == there.area && end <= u64::from(there.bytes))
        && is_key_kind(one.item.kind)
        && !is_one_of(one.offset, before)
}

/// The item of a key of that file, after keys of which these are the first bytes.
fn key_item_rules(
    there: RecordArea<'_>,
    before: &[u32],
    key: &Reference,
    one: &PlacedItem,
) -> Result<(), BrokenRule>
    ensures { IsFirstBreach result (selecting.key_item_rules (selecting.described_of there.entry)
        before.now key.now one.now) }
{
    let place = key.item.name.place;
    Rule::FileKey.broken_if(!is_key(there, before, key, one), place)?;
    let is_short = 1 <= one.item.length && one.item.length <= MOST_KEY_BYTES;
    Rule::Limit.broken_if(!is_short, place)
}

impl<'a> DeclaredItems<'a> {
    /// The item of a key, after keys of which these are the first bytes. Answers its own first byte.
    pub(crate) fn key_rules(
        &self,
        there: RecordArea<'_>,
        before: &[u32],
        key: &Reference,
    ) -> Result<u32, BrokenRule>
        requires { AreDeclared self.now }
        ensures rules { IsFirstBreach result (spec.clause_item (items_of self.now)
            (spec.key_item (selecting.described_of there.entry) before.now) key.now) }
        ensures offset { IfOk result
            (λ offset. offset ≡ (key_place (items_of self.now) key.now).offset) }
    {
        let found = self.item_named(&key.item)?;
        no_part_rules(key)?;
        key_item_rules(there, before, key, found)?;
        Ok(found.offset)
    }

    /// The item of RELATIVE KEY, which stands outside of the record.
    pub(crate) fn relative_key_rules(
        &self,
        there: RecordArea<'_>,
        key: &Reference,
    ) -> Result<(), BrokenRule>
        requires { AreDeclared self.now }
        ensures { IsFirstBreach result (spec.clause_item (items_of self.now)
            (spec.relative_item (selecting.described_of there.entry)) key.now) }
    {
        let found = self.item_named(&key.item)?;
        no_part_rules(key)?;
        let is_number = is_plain(key, found)
            && is_unsigned_integer(found.item.kind)
            && found.area != there.area;
        Rule::RelativeKey.broken_if(!is_number, key.item.name.place)
    }

    /// The item of FILE STATUS, in one of so many areas of working storage.
    pub(crate) fn status_rules(
        &self,
        areas: u32,
        status: &Option<Reference>,
    ) -> Result<(), BrokenRule>
        requires { AreDeclared self.now }
        ensures { IsFirstBreach result (spec.in_clause
            (spec.clause_item (items_of self.now) (spec.status_item areas)) status.now) }
    {
        let Some(one) = status else {
            return Ok(());
        };
        let found = self.item_named(&one.item)?;
        no_part_rules(one)?;
        let is_status = is_plain(one, found)
            && is_two_characters(found.item.kind, found.item.length)
            && found.area < areas;
        Rule::FileStatus.broken_if(!is_status, one.item.name.place)
    }
}
