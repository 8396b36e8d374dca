//! What the rules of an entry look at around it, and its level among the entries there: rule 43.

ghost use Rattle.std.specs.Prelude.{◌≡◌, ◌&&◌, ◌||◌, ◌<◌};
ghost use Rattle.std.specs.Option.{option_copied};
ghost use Rattle.source_tree.specs.EntryRules as rules;
ghost use Rattle.source_tree.specs.Integers.{number_of};
ghost use Rattle.source_tree.specs.Levels.{forest_of};
ghost use Rattle.source_tree.specs.ClauseRules.{has_items};
ghost use Rattle.source_tree.specs.Clauses.{nothing_around};
ghost use Rattle.source_tree.specs.Rooms.{redefines};
ghost use Rattle.entry_rules.specs.Walk as spec;

use data_entries::{inside, number};
use source_tree::{Around, Entry, ItemEntry};

/// The level of a record.
const RECORD: u32 = 1;

/// The level of an item that stands by itself.
const INDEPENDENT: u32 = 77;

/// What the rules of an entry look at around it.
#[derive(Clone, Copy)]
pub struct Position {
    pub around: Around,
    /// The level of this group's items; none for 01 and 77.
    pub level: Option<u32>,
    /// It stands in the records of a file.
    pub in_file: bool,
    /// It stands under REDEFINES or in a group with VALUE.
    pub has_no_value: bool,
    /// How many OCCURS stand around it.
    pub nesting: u32,
}

/// The first item of some entries.
fn first_item(entries: &[Entry]) -> Option<&ItemEntry>
    ensures { spec.IsFirstItem entries.now (option_copied result) }
{
    match entries {
        [Entry::Item(one), ..] => Some(one),
        [Entry::Condition(_), more @ ..] => first_item(more),
        [] => None,
    }
}

/// There is an item among the entries.
pub fn has_item(entries: &[Entry]) -> bool
    ensures { result ≡ has_items (forest_of entries.now) }
{
    first_item(entries).is_some()
}

/// The level of the first item, and 0 where there is none.
fn first_level(entries: &[Entry]) -> u32
    requires { spec.HasFirstLevel (forest_of entries.now) }
    ensures { result ≡ rules.first_level (forest_of entries.now) }
{
    match first_item(entries) {
        Some(one) => number(&one.level),
        None => 0,
    }
}

impl Position {
    /// Of 01 and 77, in working storage or in the records of a file.
    pub fn outermost(in_file: bool) -> Position
        ensures { spec.at_of result ≡ rules.outermost in_file }
    {
        Position {
            around: Around {
                usage: None,
                sign: None,
            },
            level: None,
            in_file,
            has_no_value: false,
            nesting: 0,
        }
    }

    pub fn is_outermost(self) -> bool
        ensures { result ≡ spec.is_outermost self }
    {
        self.level.is_none()
    }

    /// Of a record of a file.
    pub fn is_of_record(self) -> bool
        ensures { result ≡ (spec.is_outermost self && self.in_file) }
    {
        self.is_outermost() && self.in_file
    }

    /// An entry that stands here has no VALUE.
    pub fn forbids_value(self, entry: &ItemEntry) -> bool
        ensures { result ≡ (self.in_file || self.has_no_value || redefines entry.now) }
    {
        self.in_file || self.has_no_value || entry.redefines.is_some()
    }

    /// Of the entries in a group that stands here.
    pub fn below(self, group: &ItemEntry, inner: &[Entry]) -> Position
        requires level { spec.HasFirstLevel (forest_of inner.now) }
        requires nesting { self.nesting < 5000 }
        ensures value { spec.at_of result
            ≡ rules.below (spec.at_of self) group.now (forest_of inner.now) }
        ensures nesting { spec.IsBelow self.nesting result.nesting }
    {
        Position {
            around: inside(self.around, group),
            level: Some(first_level(inner)),
            in_file: self.in_file,
            has_no_value: self.has_no_value || group.redefines.is_some() || group.value.is_some(),
            nesting: self.nesting + u32::from(group.occurs.is_some()),
        }
    }

    /// An entry of this level can't stand here: 01 and 77 stand outermost; 77 is no record of a file, and holds no items; the
    /// items of a group have one level.
    pub fn is_wrong_level(self, level: u32, inner: &[Entry]) -> bool
        ensures { result ≡ rules.wrong_level self.in_file self.level level (forest_of inner.now) }
    {
        match self.level {
            None => {
                let is_independent = level == INDEPENDENT && !self.in_file && !has_item(inner);
                !(level == RECORD || is_independent)
            }
            Some(wanted) => level != wanted,
        }
    }
}
