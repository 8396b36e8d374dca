//! The records of a file, by its FD.

ghost use Rattle.std.specs.Prelude.{◌≡◌, ◌+◌, ◌<◌, ◌^◌, [], length, IfOk};
ghost use Rattle.source_tree.specs.Broken.{each};
ghost use Rattle.source_tree.specs.FileRules.{description_rules};
ghost use Rattle.source_tree.specs.ProgramFiles as meaning;
ghost use Rattle.file_descriptions.specs.Descriptions as spec;
ghost use Rattle.file_descriptions.specs.Descriptions.{AreRecords, IsDescribed, KeepsDescriptions};

use items::{Item, Kind};
use layout::{record_length, sent_item, storage_areas};
use source_tree::{Entry, FileDescription, Name};
use std::alloc::{AllocError, Global};

/// The records of a file: their area, the bytes of the longest, and what READ INTO moves.
#[derive(Clone, Copy)]
pub struct FileRecords {
    pub area: u32,
    pub record_length: u16,
    pub sent: Item,
}

/// The first FD of that name, and its area; the first of all has this one. Without an FD it is the area after all.
fn described<'a>(
    files: &'a [FileDescription],
    first: u32,
    name: &Name,
) -> (u32, Option<&'a FileDescription>)
    requires areas { first + length files.now < 2 ^ 32 }
    requires rules { each description_rules files.now ≡ [] }
    ensures { IsDescribed (meaning.described_file first name.now files.now) result.0 result.1 }
{
    let mut area = first;
    for file in files {
        if name.characters.as_slice() == file.name.characters.as_slice() {
            return (area, Some(file));
        }
        area += 1;
    }
    (area, None)
}

/// The bytes of a file's longest record, which are few where its description keeps the rules.
fn short_length(alloc: Global, file: &FileDescription) -> Result<u16, AllocError>
    requires { description_rules file.now ≡ [] }
    ensures { IfOk result (λ bytes. bytes ≡ spec.record_length file.now.entries) }
{
    let bytes = record_length(alloc, file)?;
    Ok(bytes as u16)
}

/// The records of the file of that name. Without an FD there are none.
pub fn file_records(
    alloc: Global,
    storage: &[Entry],
    files: &[FileDescription],
    name: &Name,
) -> Result<FileRecords, AllocError>
    requires { KeepsDescriptions (spec.data_with storage.now files.now) }
    ensures { IfOk result
        (AreRecords (spec.described_in (spec.data_with storage.now files.now) name.now)) }
{
    let first = storage_areas(storage);
    match described(files, first, name) {
        (area, Some(file)) => Ok(FileRecords {
            area,
            record_length: short_length(alloc, file)?,
            sent: sent_item(alloc, file)?,
        }),
        (area, None) => Ok(FileRecords {
            area,
            record_length: 0,
            sent: Item {
                kind: Kind::Group,
                length: 0,
            },
        }),
    }
}
