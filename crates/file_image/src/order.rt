//! Files in order.

ghost use Rattle.std.specs.Prelude.{◌≡◌, ◌↔◌, IsTrue, IfOk, IfSome};
ghost use Rattle.records.specs.FileStep.{Suits};
ghost use Rattle.records.specs.Stores as stores;
ghost use Rattle.records.specs.Stores.{IsKey};
ghost use Rattle.source_tree.specs.FileRules as rules;
ghost use Rattle.source_tree.specs.SoundFiles.{IsRelativeKey};
ghost use Rattle.data_instructions.specs.declared.tables.DataTables.{DataTables};
ghost use Rattle.file_image.specs.Files.{place_at, spec_of, entry_of, IsItemIndex, NamesPlaces, HasRecord, IsTwoCharacters, IsCodeFile};

use crate::file::CodeFile;
use crate::selecting::file_spec;
use data_instructions::{DataTables, ItemIndex};
use items::Kind;
use records::{KeyOfReference, Organization, Verb};
use std::alloc::{AllocError, Global};

/// The characters of FILE STATUS.
const STATUS_LENGTH: u32 = 2;

/// The file's area and its items stand in their tables.
pub fn names_places(tables: &DataTables, file: &CodeFile) -> bool
    ensures { IsTrue result ↔ NamesPlaces tables.now file.now }
{
    (file.area as usize) < tables.areas.len()
        && is_item_index(tables, file.relative_key)
        && is_item_index(tables, file.status)
}

/// The name and the keys are those of a file, the area is as long as a record, RELATIVE KEY is an unsigned integer in another area, and
/// FILE STATUS has two characters.
pub fn is_code_file(alloc: Global, tables: &DataTables, file: &CodeFile) -> Result<bool, AllocError>
    ensures { IfOk result (λ sound. IsTrue sound ↔ IsCodeFile tables.now file.now) }
{
    if !has_record(tables, file) || !has_relative_key(tables, file) || !has_status(tables, file) {
        return Ok(false);
    }
    Ok(file_spec(alloc, file)?.is_some())
}

/// A verb names a key of the file, and no more of it than there is.
pub fn suits(file: &CodeFile, verb: Verb) -> bool
    ensures { (tables : DataTables) → IsTrue result ↔ Suits (entry_of tables file.now) verb }
{
    match verb {
        Verb::Read(key) => is_key(file, key),
        Verb::Start(_, key, count) => {
            is_key(file, key) && u16::from(count) <= key_length(file, key)
        }
        Verb::Open(_) | Verb::Close | Verb::ReadNext | Verb::Write | Verb::Rewrite | Verb::Delete =>
            true,
    }
}

fn is_item_index(tables: &DataTables, item: Option<ItemIndex>) -> bool
    ensures { IsTrue result ↔ IfSome item (IsItemIndex tables.now) }
{
    match item {
        None => true,
        Some(item) => (item.number as usize) < tables.items.len(),
    }
}

fn has_record(tables: &DataTables, file: &CodeFile) -> bool
    ensures { IsTrue result ↔ HasRecord tables.now file.now }
{
    let Some(area) = tables.areas.get(file.area as usize) else {
        return false;
    };
    area.len() == file.record_length as usize
}

fn is_unsigned_integer(kind: Kind) -> bool
    ensures { result ≡ rules.is_unsigned_integer kind }
{
    match kind {
        Kind::Numeric(numeric) => !numeric.is_signed() && numeric.scale == 0,
        _ => false,
    }
}

fn has_relative_key(tables: &DataTables, file: &CodeFile) -> bool
    ensures { IsTrue result
        ↔ IfSome (place_at tables.now file.now.relative_key) (IsRelativeKey file.now.area) }
{
    let Some(index) = file.relative_key else {
        return true;
    };
    let Some(one) = tables.items.get(index.number as usize) else {
        return true;
    };
    is_unsigned_integer(one.item.kind) && one.area != file.area
}

fn is_two_characters(kind: Kind, length: u32) -> bool
    ensures { result ≡ rules.is_two_characters kind length }
{
    match kind {
        Kind::Alphanumeric { .. } => length == STATUS_LENGTH,
        _ => false,
    }
}

fn has_status(tables: &DataTables, file: &CodeFile) -> bool
    ensures { IsTrue result ↔ IfSome (place_at tables.now file.now.status) IsTwoCharacters }
{
    let Some(index) = file.status else {
        return true;
    };
    let Some(one) = tables.items.get(index.number as usize) else {
        return true;
    };
    is_two_characters(one.item.kind, one.item.length)
}

fn is_key(file: &CodeFile, key: KeyOfReference) -> bool
    ensures { IsTrue result ↔ IsKey (spec_of file.now) key }
{
    match key {
        KeyOfReference::Prime => true,
        KeyOfReference::Alternate(number) => (number as usize) < file.alternates.len(),
    }
}

/// The bytes of a value of a key; numbers are no values.
fn key_length(file: &CodeFile, key: KeyOfReference) -> u16
    ensures { result ≡ stores.key_length (spec_of file.now) key }
{
    match key {
        KeyOfReference::Prime => match file.organization {
            Organization::Indexed(place) => place.length,
            _ => 0,
        },
        KeyOfReference::Alternate(number) => match file.alternates.get(number as usize) {
            Some(key) => key.place.length,
            None => 0,
        },
    }
}
