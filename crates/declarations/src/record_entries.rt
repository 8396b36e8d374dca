//! The entries of items, by their numbers: whether an item is a record.

ghost use Rattle.std.specs.Prelude.{◌≡◌, ◌==◌, Some, slice_get};
ghost use Rattle.source_tree.specs.Levels.{level_of};
ghost use Rattle.source_tree.specs.Places.{LocatedItem};
ghost use Rattle.declarations.specs.Entries as spec;
ghost use Rattle.declarations.specs.Named.{items_in};

use crate::declarations::Declarations;
use data_entries::number;
use source_tree::{Entry, FileDescription, ItemEntry};

/// The level of a record.
const RECORD: u32 = 1;

/// The level of an item that stands by itself.
const INDEPENDENT: u32 = 77;

impl<'a> Declarations<'a> {
    /// The item of that number is a record of a file, or one that stands by itself.
    pub fn is_record(&self, number: usize) -> bool
        ensures { (one : LocatedItem) → slice_get (items_in self.now) number ≡ Some one
            → result ≡ (level_of one.entry == 1) }
    {
        let behind = match item_among(self.storage, number) {
            Ok(one) => return is_outermost(one),
            Err(behind) => behind,
        };
        match record_among(self.descriptions, behind) {
            Ok(one) => is_outermost(one),
            Err(_) => false,
        }
    }
}

/// The level is that of a record, or of an item that stands by itself.
fn is_outermost(one: &ItemEntry) -> bool
    ensures { result ≡ (level_of one.now == 1) }
{
    let level = number(&one.level);
    level == RECORD || level == INDEPENDENT
}

/// The item of that number among these entries; where they have fewer, the number after them.
fn item_among(entries: &[Entry], number: usize) -> Result<&ItemEntry, usize>
    ensures { spec.IsAmong (spec.items_among entries.now) number (spec.result_now result) }
{
    let mut left = number;
    for entry in entries {
        if let Entry::Item(one) = entry {
            if left == 0 {
                return Ok(one);
            }
            left -= 1;
        }
    }
    Err(left)
}

/// The item of that number among the records of files.
fn record_among(files: &[FileDescription], number: usize) -> Result<&ItemEntry, usize>
    ensures { spec.IsAmong (spec.items_of_files files.now) number (spec.result_now result) }
{
    let mut left = number;
    for file in files {
        match item_among(file.entries.as_slice(), left) {
            Ok(one) => return Ok(one),
            Err(behind) => left = behind,
        }
    }
    Err(left)
}
