//! From the files that code names to what connectors take.

ghost use Rattle.std.specs.Prelude.{◌≡◌, ◌&&◌, IfOk, IfSome, is_some};
ghost use Rattle.records.specs.Spec.{is_name, is_spec};
ghost use Rattle.records.specs.Stores as stores;
ghost use Rattle.records.specs.Connector as connector;
ghost use Rattle.source_tree.specs.ProgramFiles as meaning;
ghost use Rattle.file_image.specs.Files.{place_at, spec_of, entry_of, IsCodeFile};

use crate::file::CodeFile;
use data_instructions::{DataTables, ItemIndex};
use items::Kind;
use records::{FileSpec, Select};
use std::alloc::{AllocError, Global};

/// Its name and its keys, where they are those of a file.
pub(crate) fn file_spec(alloc: Global, file: &CodeFile) -> Result<Option<FileSpec>, AllocError>
    ensures some { IfOk result
        (λ spec. is_some spec ≡ (is_name file.now.name && is_spec (spec_of file.now))) }
    ensures file { IfOk result (λ spec. IfSome spec
        (λ one. (one.name.items ≡ file.now.name) × (stores.spec_of one ≡ spec_of file.now))) }
{
    let name = Vec::from_slice(alloc, file.name.as_slice())?;
    let alternates = Vec::from_slice(alloc, file.alternates.as_slice())?;
    Ok(FileSpec::new(name, file.organization, file.record_length, alternates))
}

fn digits_in(kind: Kind) -> u8
    ensures { result ≡ meaning.digits_in kind }
{
    match kind {
        Kind::Numeric(numeric) => numeric.digits,
        _ => 0,
    }
}

/// The digits of an item, where there is one.
fn digits_at(tables: &DataTables, item: Option<ItemIndex>) -> Option<u8>
    ensures { result ≡ meaning.digits_at (place_at tables.now item) }
{
    let one = tables.items.get(item?.number as usize)?;
    Some(digits_in(one.item.kind))
}

/// What a connector to a file goes by.
pub fn select_of(alloc: Global, tables: &DataTables, file: &CodeFile) -> Result<Select, AllocError>
    requires { IsCodeFile tables.now file.now }
    ensures { IfOk result (λ select. connector.entry_of select ≡ entry_of tables.now file.now) }
{
    let spec = file_spec(alloc, file)?.unwrap();
    Ok(Select {
        file: spec,
        access: file.access,
        optional: file.optional,
        key_digits: digits_at(tables, file.relative_key),
    })
}
