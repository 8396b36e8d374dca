//! Pictures that have no form.

ghost use Rattle.std.specs.Prelude.{◌≡◌, ◌++◌, IfOk};
ghost use Rattle.data_division.specs.Forms as spec;

use data_entries::picture_of;
use lexical::Place;
use source_tree::{Entry, FileDescription};
use std::alloc::{AllocError, Global};

/// Where the first picture stands that has no form (COBOL-85, Nucleus, the PICTURE clause), among the entries of files and,
/// after them, of working storage.
pub fn first_formless(
    alloc: Global,
    files: &[FileDescription],
    storage: &[Entry],
) -> Result<Option<Place>, AllocError>
    ensures { IfOk result
        (λ place. place ≡ spec.first_formless (spec.file_entries files.now ++ storage.now)) }
{
    match formless_file(alloc, files)? {
        Some(place) => Ok(Some(place)),
        None => formless_entry(alloc, storage),
    }
}

/// Where the entry's picture stands, if it has no form.
fn formless(alloc: Global, entry: &Entry) -> Result<Option<Place>, AllocError>
    ensures { IfOk result (λ place. place ≡ spec.formless_of entry.now) }
{
    let Entry::Item(one) = entry else {
        return Ok(None);
    };
    let Some(text) = &one.picture else {
        return Ok(None);
    };
    match picture_of(alloc, one)? {
        Some(_) => Ok(None),
        None => Ok(Some(text.place)),
    }
}

/// Where the first picture stands that has no form, among these entries.
#[tactic(auto, unfolding(crate::specs::Forms::first_formless))]
fn formless_entry(alloc: Global, entries: &[Entry]) -> Result<Option<Place>, AllocError>
    ensures { IfOk result (λ place. place ≡ spec.first_formless entries.now) }
{
    for entry in entries {
        if let Some(place) = formless(alloc, entry)? {
            return Ok(Some(place));
        }
    }
    Ok(None)
}

/// Where the first picture stands that has no form, among the entries of these files.
fn formless_file(alloc: Global, files: &[FileDescription]) -> Result<Option<Place>, AllocError>
    ensures { IfOk result (λ place. place ≡ spec.first_formless (spec.file_entries files.now)) }
{
    for file in files {
        if let Some(place) = formless_entry(alloc, file.entries.as_slice())? {
            return Ok(Some(place));
        }
    }
    Ok(None)
}
