//! What code has before the first statement: the bytes of all areas at the start, the items, and what READ INTO sends of each file.

ghost use Rattle.std.specs.Prelude.{◌≡◌, [], map, IfOk, OnOk};
ghost use Rattle.data_instructions.specs.Codes.{data_item};
ghost use Rattle.file_descriptions.specs.Files.{file_in};
ghost use Rattle.declarations.specs.Named.{items_in, files_in};
ghost use Rattle.condition_codegen.specs.Fragments.{empty_code, no_tables};
ghost use Rattle.statement_codegen.specs.FileCode as files;
ghost use Rattle.codegen.specs.Layout as spec;
ghost use Rattle.codegen.specs.Sent.{edits, first_editing};

use crate::file_table::put_files;
use code_image::Code;
use data_instructions::{DataItem, DataTables};
use declarations::Declarations;
use file_descriptions::ProgramFile;
use items::Kind;
use layout::PlacedItem;
use picture::Picture;
use sqlite_items::Items;
use std::alloc::{AllocError, Global};

/// Code that has these areas, and nothing else yet.
pub(crate) fn code_with(alloc: Global, areas: Items<Items<u8>>) -> Code
    ensures { result ≡ record empty_code { tables = record no_tables { areas = areas } } }
{
    Code {
        tables: DataTables {
            areas,
            items: Items::new(alloc),
            numbers: Items::new(alloc),
            senders: Items::new(alloc),
            texts: Items::new(alloc),
            inspections: Items::new(alloc),
        },
        files: Items::new(alloc),
        starts: Items::new(alloc),
        instructions: Items::new(alloc),
    }
}

/// The items and the files, where the code has none yet.
pub(crate) fn put_storage(
    alloc: Global,
    declarations: &Declarations<'_>,
    code: &mut Code,
) -> Result<(), AllocError>
    requires items { code.old.tables.items ≡ [] }
    requires files { code.old.files ≡ [] }
    ensures { OnOk result (code.new ≡ record code.old {
      tables = record code.old.tables {
        items = spec.storage_items (items_in declarations.now) (files_in declarations.now);
      };
      files = files.code_files (items_in declarations.now) declarations.now.selects.now
          (files_in declarations.now);
    }) }
{
    put_items(declarations, &mut code.tables.items)?;
    put_files(alloc, declarations, &mut code.files)
}

fn editing_of(one: &PlacedItem) -> Result<Option<Picture>, AllocError>
    ensures { IfOk result (λ editing. editing ≡ one.now.editing) }
{
    match &one.editing {
        Some(picture) => Ok(Some(picture.clone()?)),
        None => Ok(None),
    }
}

/// What code has of an item.
fn data_item(one: &PlacedItem) -> Result<DataItem, AllocError>
    ensures { IfOk result (λ item. item ≡ record {
      item = one.now.item;
      editing = one.now.editing;
      area = one.now.area;
      offset = one.now.offset;
    }) }
{
    Ok(DataItem {
        item: one.item,
        editing: editing_of(one)?,
        area: one.area,
        offset: one.offset,
    })
}

/// The items of working storage and of records.
fn put_data(declarations: &Declarations<'_>, items: &mut Items<DataItem>) -> Result<(), AllocError>
    requires { items.old ≡ [] }
    ensures { OnOk result (items.new ≡ map data_item (items_in declarations.now)) }
{
    for one in declarations.layout.items.as_slice() {
        items.push(data_item(one)?)?;
    }
    Ok(())
}

/// Both are edited, in the same way.
fn are_edited_alike(one: Kind, other: Kind) -> bool
    ensures { result ≡ files.edited_alike one other }
{
    match (one, other) {
        (Kind::AlphanumericEdited, Kind::AlphanumericEdited) => true,
        (
            Kind::NumericEdited {
                blank_when_zero: one,
            },
            Kind::NumericEdited {
                blank_when_zero: other,
            },
        ) => one == other,
        _ => false,
    }
}

/// An item of the file's record area that is edited, as what is sent is.
fn is_edited_in(file: &ProgramFile<'_>, one: &PlacedItem) -> bool
    ensures { result ≡ edits file.now one.now }
{
    let item = one.item;
    one.area == file.area
        && are_edited_alike(item.kind, file.sent.kind)
        && item.length == file.sent.length
}

/// The picture of the first of these items that edits the file's record.
fn sent_editing(items: &[PlacedItem], file: &ProgramFile<'_>) -> Result<Option<Picture>, AllocError>
    ensures { IfOk result (λ editing. editing ≡ first_editing (edits file.now) items.now) }
{
    for one in items {
        if is_edited_in(file, one) {
            return editing_of(one);
        }
    }
    Ok(None)
}

/// What READ INTO sends of a file.
fn sent_entry(
    declarations: &Declarations<'_>,
    file: &ProgramFile<'_>,
) -> Result<DataItem, AllocError>
    ensures { IfOk result (λ entry. entry ≡ files.sent_entry (items_in declarations.now)
        (file_in (items_in declarations.now) file.now)) }
{
    Ok(DataItem {
        item: file.sent,
        editing: sent_editing(declarations.layout.items.as_slice(), file)?,
        area: file.area,
        offset: 0,
    })
}

/// The items, and after them what READ INTO sends of each file.
fn put_items(declarations: &Declarations<'_>, items: &mut Items<DataItem>) -> Result<(), AllocError>
    requires { items.old ≡ [] }
    ensures { OnOk result (items.new
        ≡ spec.storage_items (items_in declarations.now) (files_in declarations.now)) }
{
    put_data(declarations, items)?;
    for file in declarations.files.files.as_slice() {
        items.push(sent_entry(declarations, file)?)?;
    }
    Ok(())
}
