//! What INITIALIZE puts into a named item (COBOL-85, Nucleus, "The INITIALIZE statement").

ghost use Rattle.std.specs.Prelude.{◌≡◌, ◌++◌, [], slice_get, IfOk, OnOk};
ghost use Rattle.source_tree.specs.EntryRules.{entry_rules};
ghost use Rattle.source_tree.specs.FileRules.{descriptions_rules};
ghost use Rattle.source_tree.specs.Levels.{forest_of};
ghost use Rattle.initial_storage.specs.Patterns as spec;
ghost use Rattle.initial_storage.specs.Patterns.{IsWellFormedEntry, bytes_of_pattern, items_with, marks_of_pattern};

use crate::outlines::{Found, program_item_at};
use crate::patterns::{put_initialized, put_within};
use data_entries::{
    editing, elementary, inside, levels_are_told, picture_of, record_levels_are_told,
};
use source_tree::{Entry, FileDescription};
use sqlite_items::Items;
use std::alloc::{AllocError, Global};

/// Bytes that a statement puts into an item, and where.
#[derive(Drop)]
pub struct NewBytes {
    /// As many as the item has; 0 where one stays.
    pub bytes: Items<u8>,
    /// 1 where a byte is new, and 0 where it stays.
    pub marks: Items<u8>,
}

/// The new bytes, 0 where one stays.
fn bytes_of(alloc: Global, pattern: &[Option<u8>]) -> Result<Items<u8>, AllocError>
    ensures { IfOk result (λ all. all ≡ bytes_of_pattern pattern.now) }
{
    let mut all = Vec::new(alloc);
    for one in pattern {
        all.push(one.unwrap_or(0))?;
    }
    Ok(Items::from_vec(all))
}

/// 1 where a byte is new, 0 where it stays.
fn marks_of(alloc: Global, pattern: &[Option<u8>]) -> Result<Items<u8>, AllocError>
    ensures { IfOk result (λ all. all ≡ marks_of_pattern pattern.now) }
{
    let mut all = Vec::new(alloc);
    for one in pattern {
        all.push(if one.is_some() { 1 } else { 0 })?;
    }
    Ok(Items::from_vec(all))
}

/// Puts the item that is named: an elementary one as MOVE moves zero or spaces into it, FILLER or not, and of a group its items.
fn put_named(alloc: Global, found: Found<'_>, out: &mut Vec<Option<u8>>) -> Result<(), AllocError>
    requires { IsWellFormedEntry found.around found.one.entry.now (forest_of found.one.inner.now) }
    ensures { OnOk result (out.new.items ≡ out.old.items ++ spec.outline_pattern (spec.outline
        found.entry.around found.entry.one.entry.now (forest_of found.entry.one.inner.now))) }
{
    let Found { around, one } = found;
    match picture_of(alloc, one.entry)? {
        Some(picture) => {
            let item = elementary(around, one.entry, &picture);
            put_initialized(alloc, item, &editing(around, one.entry, picture), out)
        }
        None => put_within(alloc, inside(around, one.entry), one.inner, out),
    }
}

/// What comes in the place of each byte of the item of that number; of none where there is no such item.
fn pattern_at(
    alloc: Global,
    storage: &[Entry],
    files: &[FileDescription],
    number: usize,
) -> Result<Vec<Option<u8>>, AllocError>
    requires storage { entry_rules storage.now ≡ [] }
    requires files { descriptions_rules storage.now files.now ≡ [] }
    ensures { IfOk result (λ pattern. pattern.items
        ≡ spec.pattern_at (slice_get (items_with storage.now files.now) number)) }
{
    levels_are_told();
    record_levels_are_told();
    let mut pattern = Vec::new(alloc);
    match program_item_at(storage, files, number) {
        None => Ok(pattern),
        Some(found) => {
            put_named(alloc, found, &mut pattern)?;
            Ok(pattern)
        }
    }
}

/// What INITIALIZE puts into the item of that number, where the entries of working storage and the descriptions of files keep the rules. Numbers count
/// from 0, those of records after those of working storage; where there is no such item there are no bytes.
pub fn initialized_item(
    alloc: Global,
    storage: &[Entry],
    files: &[FileDescription],
    number: usize,
) -> Result<NewBytes, AllocError>
    requires storage { entry_rules storage.now ≡ [] }
    requires files { descriptions_rules storage.now files.now ≡ [] }
    ensures bytes { IfOk result (λ new. new.bytes ≡ bytes_of_pattern
        (spec.pattern_at (slice_get (items_with storage.now files.now) number))) }
    ensures marks { IfOk result (λ new. new.marks ≡ marks_of_pattern
        (spec.pattern_at (slice_get (items_with storage.now files.now) number))) }
{
    let pattern = pattern_at(alloc, storage, files, number)?;
    let bytes = bytes_of(alloc, &pattern)?;
    let marks = marks_of(alloc, &pattern)?;
    Ok(NewBytes { bytes, marks })
}
