//! The areas of working storage and of records.

ghost use Rattle.std.specs.Prelude.{◌≡◌, ◌++◌, [], length, map, IfOk, OnOk};
ghost use Rattle.std.specs.List.{AllByRecursion};
ghost use Rattle.items.specs.Texts.{padded_text};
ghost use Rattle.source_tree.specs.Levels.{forest_of, leading_conditions};
ghost use Rattle.source_tree.specs.Clauses.{nothing_around};
ghost use Rattle.source_tree.specs.Clauses as clauses;
ghost use Rattle.source_tree.specs.Rooms.{leading_redefinitions, longest, area_length};
ghost use Rattle.source_tree.specs.EntryRules.{entry_rules};
ghost use Rattle.source_tree.specs.FileRules.{descriptions_rules};
ghost use Rattle.source_tree.specs.Records.{record_length, record_areas, program_areas};
ghost use Rattle.source_tree.specs.Starts.{areas_from};
ghost use Rattle.data_entries.specs.Nesting.{HasLevel};
ghost use Rattle.initial_storage.specs.Fits.{Fits, FitsEntry, FitsFile};
ghost use Rattle.initial_storage.specs.Occurrences as spec;
ghost use Rattle.initial_storage.specs.Reach.{program_area_lengths};

use crate::occurrences::put_item;
use data_entries::{Sibling, levels_are_told, next_item, record_levels_are_told};
use source_tree::{Around, Entry, FileDescription, Program};
use sqlite_items::Items;
use std::alloc::{AllocError, Global};

pub(crate) const NOTHING_AROUND: Around = Around {
    usage: None,
    sign: None,
};

/// What the areas of a program hold at the start of a run.
#[derive(Drop)]
pub struct InitialStorage {
    /// The bytes of each area: those of working storage, in the order of the 01 and 77 that begin them, and then the record area of
    /// each file, in the order of the FDs.
    pub areas: Items<Items<u8>>,
}

/// The first item, where it redefines.
fn next_redefinition(entries: &[Entry]) -> Option<Sibling<'_>>
    requires { HasLevel (forest_of entries.now) }
    ensures { spec.IsNextRedefinition entries.now result }
{
    let one = next_item(entries)?;
    if one.entry.redefines.is_none() {
        return None;
    }
    Some(one)
}

/// The bytes of the longest of the 01 at the front that redefine.
fn longest_redefinition(alloc: Global, entries: &[Entry]) -> Result<usize, AllocError>
    requires { Fits nothing_around (forest_of entries.now) }
    ensures { IfOk result
        (λ bytes. bytes ≡ longest nothing_around (leading_redefinitions (forest_of entries.now))) }
{
    let mut bytes: usize = 0;
    let mut rest = entries;
    'records: while let Some(one) = next_redefinition(rest) {
        let mut record = Vec::new(alloc);
        put_item(alloc, NOTHING_AROUND, one, &mut record)?;
        bytes = bytes.max(record.len());
        rest = one.next;
    }
    Ok(bytes)
}

/// The area that a 01 or 77 begins, as long as the longest of it and those after it that redefine it.
fn area(alloc: Global, one: Sibling<'_>) -> Result<Items<u8>, AllocError>
    requires fits { FitsEntry nothing_around one.entry.now (forest_of one.inner.now) }
    requires within { Fits (clauses.inside nothing_around one.entry.now) (forest_of one.inner.now) }
    requires next { Fits nothing_around (forest_of one.next.now) }
    ensures { IfOk result (λ area.
        area ≡ padded_text (area_length one.entry.entry.now (leading_conditions one.entry.inner.now)
        (forest_of one.entry.inner.now) (forest_of one.entry.next.now))
        (spec.all_occurrences nothing_around one.entry.entry.now (forest_of one.entry.inner.now))) }
{
    let mut bytes = Vec::new(alloc);
    put_item(alloc, NOTHING_AROUND, one, &mut bytes)?;
    let length = bytes.len().max(longest_redefinition(alloc, one.next)?);
    bytes.resize(length, b' ')?;
    Ok(Items::from_vec(bytes))
}

/// Puts the area of each 01 and 77 that redefines nothing.
fn put_areas(alloc: Global, entries: &[Entry], out: &mut Vec<Items<u8>>) -> Result<(), AllocError>
    requires { Fits nothing_around (forest_of entries.now) }
    ensures { OnOk result (out.new.items ≡ out.old.items ++ areas_from (forest_of entries.now)) }
{
    let mut rest = entries;
    'records: while let Some(one) = next_item(rest) {
        if one.entry.redefines.is_none() {
            out.push(area(alloc, one)?)?;
        }
        rest = one.next;
    }
    Ok(())
}

/// The bytes of the longest of some records.
fn longest_record(alloc: Global, entries: &[Entry]) -> Result<usize, AllocError>
    requires { Fits nothing_around (forest_of entries.now) }
    ensures { IfOk result (λ bytes. bytes ≡ record_length entries.now) }
{
    let mut bytes: usize = 0;
    let mut rest = entries;
    'records: while let Some(one) = next_item(rest) {
        let mut record = Vec::new(alloc);
        put_item(alloc, NOTHING_AROUND, one, &mut record)?;
        bytes = bytes.max(record.len());
        rest = one.next;
    }
    Ok(bytes)
}

/// The area of a file's records, as long as the longest.
fn record_area(alloc: Global, entries: &[Entry]) -> Result<Items<u8>, AllocError>
    requires { Fits nothing_around (forest_of entries.now) }
    ensures { IfOk result (λ area. area ≡ padded_text (record_length entries.now) []) }
{
    let length = longest_record(alloc, entries)?;
    let mut bytes = Vec::new(alloc);
    bytes.resize(length, b' ')?;
    Ok(Items::from_vec(bytes))
}

/// Puts the record area of each file.
fn put_record_areas(
    alloc: Global,
    files: &[FileDescription],
    out: &mut Vec<Items<u8>>,
) -> Result<(), AllocError>
    requires { AllByRecursion FitsFile files.now }
    ensures { OnOk result (out.new.items ≡ out.old.items ++ record_areas files.now) }
{
    for file in files {
        out.push(record_area(alloc, file.entries.as_slice())?)?;
    }
    Ok(())
}

impl InitialStorage {
    /// What the areas of a program hold at the start of a run (COBOL-85, Nucleus, "The VALUE clause"), where its entries and its
    /// files' descriptions keep the rules.
    pub fn of(alloc: Global, program: &Program) -> Result<InitialStorage, AllocError>
        requires storage { entry_rules program.now.storage ≡ [] }
        requires files { descriptions_rules program.now.storage program.now.files ≡ [] }
        ensures areas { IfOk result (λ storage. storage.areas ≡ program_areas program.now) }
        ensures lengths { IfOk result
            (λ storage. map length storage.areas ≡ program_area_lengths program.now) }
    {
        levels_are_told();
        record_levels_are_told();
        let mut areas = Vec::new(alloc);
        put_areas(alloc, program.storage.as_slice(), &mut areas)?;
        put_record_areas(alloc, program.files.as_slice(), &mut areas)?;
        Ok(InitialStorage {
            areas: Items::from_vec(areas),
        })
    }
}
