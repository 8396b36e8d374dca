//! Entries with the items that their clauses describe, and their sizes: rules 48 and 69.

ghost use Rattle.std.specs.Prelude.{◌≡◌, ◌≤◌, ◌*◌, ◌++◌, ◌^◌, ◌<◌, IfOk, OnOk};
ghost use Rattle.source_tree.specs.Broken.{where_so};
ghost use Rattle.source_tree.specs.Clauses as clauses;
ghost use Rattle.source_tree.specs.ClauseRules.{most_item_bytes, most_occurrences, too_many};
ghost use Rattle.data_entries.specs.Forms.{IsKind};
ghost use Rattle.entry_rules.specs.Checks.{IsFirstBreach};
ghost use Rattle.entry_rules.specs.Described as spec;

use crate::rule::{BrokenRule, Rule};
use data_entries::{elementary, elementary_length, occurrences};
use items::{Item, Kind};
use picture::Picture;
use source_tree::{Around, ItemEntry};

/// The most bytes that an item may have (own choice).
const MOST_ITEM_BYTES: u128 = 65_535;

/// The most that an item may occur (own choice).
const MOST_OCCURRENCES: u32 = 65_535;

/// An entry, its picture, and the item that its clauses describe.
#[derive(Drop)]
pub struct Described<'a> {
    pub entry: &'a ItemEntry,
    pub picture: Option<Picture>,
    pub item: Item,
}

/// The bytes of an item with that picture; of a group those of the entries in it.
fn length(around: Around, entry: &ItemEntry, picture: &Option<Picture>, within: u64) -> u128
    ensures { result ≡ (clauses.item_by around entry.now picture.now within).length }
{
    match picture {
        Some(picture) => elementary_length(around, entry, picture),
        None => u128::from(within),
    }
}

/// The item with that picture; of a group with the entries in it. Its length is one that items may have.
fn item(around: Around, entry: &ItemEntry, picture: &Option<Picture>, within: u64) -> Item
    requires { (clauses.item_by around entry.now picture.now within).length ≤ most_item_bytes }
    ensures item { result ≡ clauses.item_by around entry.now picture.now within }
    ensures kind { IsKind result.kind }
{
    match picture {
        Some(picture) => elementary(around, entry, picture),
        None => Item {
            kind: Kind::Group,
            length: within as u32,
        },
    }
}

/// How often an entry occurs, and how many bytes its item has.
fn sizes(entry: &ItemEntry, length: u128) -> Result<(), BrokenRule>
    ensures rules { IsFirstBreach result (where_so (too_many entry.now) 69 entry.now.level.place
        ++ where_so (spec.is_above most_item_bytes length) 48 entry.now.level.place) }
    ensures times { OnOk result (clauses.occurrences entry.now ≤ most_occurrences) }
    ensures bytes { OnOk result (length ≤ most_item_bytes) }
{
    let place = entry.level.place;
    Rule::Limit.broken_if(occurrences(entry) > MOST_OCCURRENCES, place)?;
    Rule::Size.broken_if(length > MOST_ITEM_BYTES, place)
}

impl<'a> Described<'a> {
    /// The item of an entry with that picture, and with so many bytes in the entries within it.
    pub fn of(
        around: Around,
        entry: &'a ItemEntry,
        picture: Option<Picture>,
        within: u64,
    ) -> Result<Described<'a>, BrokenRule>
        ensures rules { IsFirstBreach result
            (spec.size_rules entry.now (clauses.item_by around entry.now picture within)) }
        ensures item { IfOk result (λ one. spec.IsDescribed around entry.now picture within one) }
        ensures times { OnOk result (clauses.occurrences entry.now ≤ most_occurrences) }
        ensures bytes { OnOk result
            ((clauses.item_by around entry.now picture within).length ≤ most_item_bytes) }
    {
        sizes(entry, length(around, entry, &picture, within))?;
        let item = item(around, entry, &picture, within);
        Ok(Described {
            entry,
            picture,
            item,
        })
    }

    /// The bytes of all occurrences.
    pub fn extent(&self) -> u64
        requires times { clauses.occurrences self.now.entry.now ≤ most_occurrences }
        requires bytes { self.now.item.length ≤ most_item_bytes }
        ensures value { result ≡ clauses.occurrences self.now.entry.now * self.now.item.length }
        ensures bound { result ≤ 4294836225 }
    {
        u64::from(occurrences(self.entry)) * u64::from(self.item.length)
    }
}
