//! Where the items of records stand, and how long records are.

ghost use Rattle.std.specs.Prelude.{◌≡◌, ◌+◌, ◌<◌, ◌≤◌, ◌^◌, ◌++◌, [], length, IfOk, OnOk};
ghost use Rattle.source_tree.specs.Levels.{forest_of};
ghost use Rattle.source_tree.specs.Clauses.{inside, nothing_around};
ghost use Rattle.source_tree.specs.EntryRules.{most_entries};
ghost use Rattle.source_tree.specs.FileRules.{description_rules};
ghost use Rattle.source_tree.specs.ProgramFiles.{sent_of};
ghost use Rattle.source_tree.specs.Records as tree;
ghost use Rattle.source_tree.specs.Rooms.{item_with};
ghost use Rattle.layout.specs.Fits.{FitFiles, Fits, FitsEntry};
ghost use Rattle.layout.specs.Placing as spec;

use crate::placed::PlacedItem;
use crate::places::{NOTHING_AROUND, Surroundings, place_item};
use crate::rooms::{describe, extent};
use data_entries::{Sibling, next_item};
use items::{Item, Kind};
use source_tree::{Entry, FileDescription};
use std::alloc::{AllocError, Global};

/// Places the items of the records of files, of which the first has this area.
pub(crate) fn place_files(
    alloc: Global,
    files: &[FileDescription],
    first: u32,
    out: &mut Vec<PlacedItem>,
) -> Result<(), AllocError>
    requires fits { FitFiles files.now }
    requires areas { first + length files.now < 2 ^ 32 }
    ensures { OnOk result (out.new.items ≡ out.old.items ++ spec.file_items first files.now) }
{
    let mut area = first;
    for file in files {
        place_records(alloc, file.entries.as_slice(), area, out)?;
        area += 1;
    }
    Ok(())
}

/// The bytes of a file's longest record, where its description keeps the rules.
pub fn record_length(alloc: Global, file: &FileDescription) -> Result<u32, AllocError>
    requires { description_rules file.now ≡ [] }
    ensures { IfOk result (λ bytes. bytes ≡ tree.record_length file.now.entries) }
{
    longest(alloc, file.entries.as_slice())
}

/// What READ INTO moves of a file whose description keeps the rules: its only record, or where there are several its record area as
/// a group.
pub fn sent_item(alloc: Global, file: &FileDescription) -> Result<Item, AllocError>
    requires { description_rules file.now ≡ [] }
    ensures { IfOk result (λ item. item
        ≡ sent_of (tree.record_length file.now.entries) (forest_of file.now.entries)) }
{
    sent_of(alloc, file.entries.as_slice())
}

/// Places the items of a file's records. Each record begins the area.
fn place_records(
    alloc: Global,
    entries: &[Entry],
    area: u32,
    out: &mut Vec<PlacedItem>,
) -> Result<(), AllocError>
    requires fits { Fits nothing_around (forest_of entries.now) }
    requires most { length entries.now ≤ most_entries }
    ensures { OnOk result
        (out.new.items ≡ out.old.items ++ spec.record_items area (forest_of entries.now)) }
{
    let around = Surroundings {
        around: NOTHING_AROUND,
        area,
        dimensions: &[],
    };
    let mut rest = entries;
    'records: while let Some(one) = next_item(rest) {
        place_item(alloc, around, one, 0, out)?;
        rest = one.next;
    }
    Ok(())
}

/// The item of a record.
fn record_item(alloc: Global, one: Sibling<'_>) -> Result<Item, AllocError>
    requires fits { FitsEntry nothing_around one.entry.now (forest_of one.inner.now) }
    requires within { Fits (inside nothing_around one.entry.now) (forest_of one.inner.now) }
    ensures { IfOk result (λ item. item
        ≡ item_with nothing_around one.entry.entry.now (forest_of one.entry.inner.now)) }
{
    let described = describe(alloc, NOTHING_AROUND, one.entry, one.inner)?;
    Ok(described.item)
}

/// The bytes of the longest of some records.
fn longest(alloc: Global, entries: &[Entry]) -> Result<u32, AllocError>
    requires { Fits nothing_around (forest_of entries.now) }
    ensures { IfOk result (λ bytes. bytes ≡ tree.record_length entries.now) }
{
    let mut most = 0;
    let mut rest = entries;
    'records: while let Some(one) = next_item(rest) {
        let item = record_item(alloc, one)?;
        most = extent(one.entry, item.length).max(most);
        rest = one.next;
    }
    Ok(most)
}

/// The only one of some records, or a group as long as the longest.
fn sent_of(alloc: Global, entries: &[Entry]) -> Result<Item, AllocError>
    requires { Fits nothing_around (forest_of entries.now) }
    ensures { IfOk result
        (λ item. item ≡ sent_of (tree.record_length entries.now) (forest_of entries.now)) }
{
    if let Some(one) = next_item(entries) {
        if next_item(one.next).is_none() {
            return record_item(alloc, one);
        }
    }
    let kind = Kind::Group;
    let length = longest(alloc, entries)?;
    Ok(Item { kind, length })
}
