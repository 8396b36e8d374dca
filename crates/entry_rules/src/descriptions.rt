//! The rules of the entries of the records of files: 69 of their number and of the length of a record, those of each entry, and 48 of the
//! record areas.

ghost use Rattle.std.specs.Prelude.{◌≡◌, ◌≤◌, ◌++◌, [], true, None, length, drop, map, sum, IfOk, OnOk};
ghost use Rattle.source_tree.specs.Broken.{each};
ghost use Rattle.source_tree.specs.Clauses.{nothing_around};
ghost use Rattle.source_tree.specs.EntryRules as rules;
ghost use Rattle.source_tree.specs.FileRules as spec;
ghost use Rattle.source_tree.specs.Levels.{forest_of};
ghost use Rattle.source_tree.specs.Records.{record_length};
ghost use Rattle.source_tree.specs.Rooms.{area_lengths, longest};
ghost use Rattle.entry_rules.specs.Checks.{IsFirstBreach, IsFirstFault};
ghost use Rattle.entry_rules.specs.RecordAreas.{length_of};
ghost use Rattle.entry_rules.specs.Trees.{most_extent};
ghost use Rattle.entry_rules.specs.Walk.{HasLevels};

use crate::levels::{MOST_ENTRIES, count_rules, home_rules, level_rules};
use crate::position::Position;
use crate::record_areas::RecordAreas;
use crate::redefinition::remembered;
use crate::rule::{BrokenRule, CheckError, Rule};
use crate::walk::check_item;
use data_entries::next_item;
use source_tree::{Entry, FileDescription};
use std::alloc::Global;

/// The most bytes of a record (own choice).
const MOST_RECORD_BYTES: u64 = 16_000;

/// Whether the entries of the records of files keep the rules of entries, after those of working storage, which keep theirs and take so
/// many bytes: 43 to 48, 55 and 69. Otherwise the answer is the first that they break, in the order of the definition: the number of
/// entries, each file's records, and the bytes of all areas. The answer of entries that are accepted is the bytes of each file's record
/// area.
pub fn check_descriptions(
    alloc: Global,
    storage: &[Entry],
    bytes: u64,
    descriptions: &[FileDescription],
) -> Result<Vec<u32>, CheckError>
    requires kept { rules.entry_rules storage.now ≡ [] }
    requires bytes { bytes ≡ sum (area_lengths (forest_of storage.now)) }
    // The answer is the definition's: none is broken, or this is the first, unless memory runs out.
    ensures rules { IsFirstFault result (spec.descriptions_rules storage.now descriptions.now) }
    ensures lengths { IfOk result (λ lengths. lengths.items ≡ map length_of descriptions.now) }
{
    let most = MOST_ENTRIES.saturating_sub(storage.len());
    excess_rules(most, descriptions)?;
    check_files(alloc, bytes, descriptions)
}

/// There are no more entries than may be, those of all files together.
fn excess_rules(most: usize, descriptions: &[FileDescription]) -> Result<(), BrokenRule>
    ensures rules { IsFirstBreach result
        (each rules.excess (drop most (spec.file_entries descriptions.now))) }
    ensures few { OnOk result (length (spec.file_entries descriptions.now) ≤ most) }
{
    let mut left = most;
    for one in descriptions {
        let entries = one.entries.as_slice();
        count_rules(left, entries)?;
        left -= entries.len();
    }
    Ok(())
}

/// The entries of a file's records. Answers the bytes of the longest record.
fn check_records(alloc: Global, entries: &[Entry]) -> Result<u64, CheckError>
    requires levels { HasLevels (forest_of entries.now) }
    requires few { length entries.now ≤ rules.most_entries }
    ensures rules { IsFirstFault result
        (rules.forest_rules (rules.outermost true) None (forest_of entries.now)) }
    ensures bytes { IfOk result (λ bytes. bytes ≡ longest nothing_around (forest_of entries.now)) }
    ensures bound { IfOk result (λ bytes. bytes ≤ most_extent) }
{
    let mut longest = 0;
    let mut last = None;
    let mut rest = entries;
    'items: while let Some(one) = next_item(rest) {
        let bytes = check_item(alloc, Position::outermost(true), one, last)?;
        longest = bytes.max(longest);
        last = remembered(one.entry, bytes, last);
        rest = one.next;
    }
    Ok(longest)
}

/// The records of one file. Answers the bytes of its record area.
fn check_description(alloc: Global, one: &FileDescription) -> Result<u32, CheckError>
    requires few { length one.now.entries ≤ rules.most_entries }
    ensures rules { IsFirstFault result (spec.description_rules one.now) }
    ensures bytes { IfOk result (λ bytes. bytes ≡ record_length one.now.entries) }
{
    let entries = one.entries.as_slice();
    level_rules(entries)?;
    home_rules(entries)?;
    let bytes = check_records(alloc, entries)?;
    let is_record = 1 <= bytes && bytes <= MOST_RECORD_BYTES;
    Rule::Limit.broken_if(!is_record, one.name.place)?;
    Ok(bytes as u32)
}

/// The records of each file, and then their areas together, after so many bytes of working storage. Answers the bytes of each record area.
fn check_files(
    alloc: Global,
    storage: u64,
    descriptions: &[FileDescription],
) -> Result<Vec<u32>, CheckError>
    requires few { length (spec.file_entries descriptions.now) ≤ rules.most_entries }
    requires within { storage ≤ rules.most_storage }
    ensures rules { IsFirstFault result (each spec.description_rules descriptions.now
        ++ spec.record_storage_rules storage descriptions.now) }
    ensures lengths { IfOk result (λ lengths. lengths.items ≡ map length_of descriptions.now) }
{
    let mut areas = RecordAreas::after(storage);
    let mut lengths = Vec::new(alloc);
    for one in descriptions {
        let bytes = check_description(alloc, one)?;
        areas = areas.with(one.name.place, bytes);
        lengths.push(bytes)?;
    }
    areas.rules()?;
    Ok(lengths)
}
