//! Items by their numbers in the order of the entries.

ghost use Rattle.std.specs.Prelude.{◌≡◌, length};
ghost use Rattle.std.specs.List.{AllByRecursion};
ghost use Rattle.source_tree.specs.declared.entry.Around as surrounding;
ghost use Rattle.source_tree.specs.Levels.{forest_of};
ghost use Rattle.source_tree.specs.Clauses.{nothing_around};
ghost use Rattle.initial_storage.specs.Fits.{Fits, FitsFile};
ghost use Rattle.initial_storage.specs.Formed.{AreFormed, FormsFile};
ghost use Rattle.initial_storage.specs.Patterns.{IsFoundAt, outlines, file_outlines, outlines_with};

use crate::storage::NOTHING_AROUND;
use data_entries::{Sibling, inside, next_item};
use source_tree::{Around, Entry, FileDescription};

/// An item, and what the groups around it say of it.
#[derive(Clone, Copy)]
pub struct Found<'a> {
    pub around: Around,
    pub one: Sibling<'a>,
}

/// How many of the entries are items.
fn count_items(entries: &[Entry]) -> usize
    ensures { (around : surrounding.Around)
        → result ≡ length (outlines around (forest_of entries.now)) }
{
    let mut count = 0;
    for entry in entries {
        if matches!(entry, Entry::Item(_)) {
            count += 1;
        }
    }
    count
}

/// The item of that number, which counts from 0, with what stands around it. Each entry is looked at once for each group around it.
fn item_at(entries: &[Entry], number: usize) -> Option<Found<'_>>
    requires fits { Fits nothing_around (forest_of entries.now) }
    requires formed { AreFormed nothing_around (forest_of entries.now) }
    ensures { IsFoundAt (outlines nothing_around (forest_of entries.now)) number result }
{
    let mut around = NOTHING_AROUND;
    let mut rest = entries;
    let mut left = number;
    'items: while let Some(one) = next_item(rest) {
        if left == 0 {
            return Some(Found { around, one });
        }
        left -= 1;
        let within = count_items(one.inner);
        if left < within {
            around = inside(around, one.entry);
            rest = one.inner;
        } else {
            left -= within;
            rest = one.next;
        }
    }
    None
}

/// The item of that number among those of the records of files.
fn record_item_at(files: &[FileDescription], number: usize) -> Option<Found<'_>>
    requires fits { AllByRecursion FitsFile files.now }
    requires formed { AllByRecursion FormsFile files.now }
    ensures { IsFoundAt (file_outlines files.now) number result }
{
    let mut left = number;
    for file in files {
        let entries = file.entries.as_slice();
        let within = count_items(entries);
        if left < within {
            return item_at(entries, left);
        }
        left -= within;
    }
    None
}

/// The item of that number: those of working storage come first, and then those of the records of files.
pub fn program_item_at<'a>(
    storage: &'a [Entry],
    files: &'a [FileDescription],
    number: usize,
) -> Option<Found<'a>>
    requires fits { Fits nothing_around (forest_of storage.now) }
    requires formed { AreFormed nothing_around (forest_of storage.now) }
    requires files_fit { AllByRecursion FitsFile files.now }
    requires files_formed { AllByRecursion FormsFile files.now }
    ensures { IsFoundAt (outlines_with storage.now files.now) number result }
{
    let within = count_items(storage);
    if number < within {
        return item_at(storage, number);
    }
    record_item_at(files, number - within)
}
