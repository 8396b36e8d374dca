//! The table of the items and files of a program.

ghost use Rattle.std.specs.Prelude.{◌≡◌, ◌++◌, List, IfOk, OnOk};
ghost use Rattle.std.specs.List.{flat_map};
ghost use Rattle.source_tree.specs.declared.program.Program.{Program};
ghost use Rattle.source_tree.specs.Places.{LocatedItem};
ghost use Rattle.source_tree.specs.ProgramFiles.{files_of};
ghost use Rattle.file_descriptions.specs.Files.{AreFiles, found_in};
ghost use Rattle.declarations.specs.Entries.{items_among};
ghost use Rattle.source_commands.specs.Layout as spec;

use crate::file_line::push_file;
use crate::item_line::push_item;
use declarations::Declarations;
use file_descriptions::ProgramFiles;
use layout::PlacedItem;
use source_tree::{Entry, FileDescription};
use std::alloc::{AllocError, Global};

/// The columns of the table.
const HEADING: &[u8] = b"level name                            offset  length  usage    picture\n";

/// The items and files that are declared: those of working storage, and those of each FD after a line for its file.
pub fn layout_text(alloc: Global, declared: &Declarations<'_>) -> Result<Vec<u8>, AllocError>
    ensures { IfOk result (λ text. text.items ≡ spec.data_text declared.now.selects.now
        declared.now.descriptions.now declared.now.storage.now) }
{
    let mut out = Vec::from_slice(alloc, HEADING)?;
    let items = declared.layout.items.as_slice();
    let rest = push_entries(&mut out, declared.storage, items)?;
    push_files(&mut out, &declared.files, declared.descriptions, rest)?;
    Ok(out)
}

/// Adds a line for each item of some entries, the first of these items. The answer are the items after them.
fn push_entries<'a>(
    out: &mut Vec<u8>,
    entries: &[Entry],
    items: &'a [PlacedItem],
) -> Result<&'a [PlacedItem], AllocError>
    ensures lines { OnOk result (out.new.items
        ≡ out.old.items ++ spec.item_lines items.entry.now (items_among entries.now)) }
    ensures rest { IfOk result
        (λ rest. rest.now ≡ spec.items_after items.entry.now (items_among entries.now)) }
{
    let mut rest = items;
    for entry in entries {
        if let (Entry::Item(entry), [item, more @ ..]) = (entry, rest) {
            push_item(out, item, entry)?;
            rest = more;
        }
    }
    Ok(rest)
}

/// Adds the line of each FD's file and the lines of its items, which these begin with.
fn push_files(
    out: &mut Vec<u8>,
    files: &ProgramFiles<'_>,
    descriptions: &[FileDescription],
    items: &[PlacedItem],
) -> Result<(), AllocError>
    ensures { (all : List LocatedItem) (program : Program) → AreFiles all program files.now
        → OnOk result (out.new.items
        ≡ out.old.items ++ spec.file_lines (files_of all program) items.now descriptions.now) }
{
    let mut rest = items;
    for one in descriptions {
        push_file(out, &one.name, files.file_named(&one.name))?;
        rest = push_entries(out, one.entries.as_slice(), rest)?;
    }
    Ok(())
}
