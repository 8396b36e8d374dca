//! The rows of a file in the order of an alternate key.
ghost use Rattle.std.specs.Prelude.{◌<◌, length};

use crate::write_order::arrival_under;
use file_bytes::part_of;
use file_recovery::StoredFile;
use std::alloc::{AllocError, Global};

/// A row's place in the order of a key: by its value, and by its arrival among equal values.
#[derive(Clone, Copy, PartialEq, Eq, PartialOrd, Ord)]
pub(crate) struct KeyPlaceOfRow<'a> {
    pub value: &'a [u8],
    pub arrival: u64,
    pub row: usize,
}

/// The rows of a file in the order of an alternate key.
pub(crate) fn rows_under<'a>(
    alloc: Global,
    file: &'a StoredFile,
    key: usize,
) -> Result<Vec<KeyPlaceOfRow<'a>>, AllocError>
    requires { key < length file.now.spec.alternates.items }
{
    let mut rows = Vec::new(alloc);
    for row in 0..file.rows.len() {
        rows.push(place_under(file, key, row))?;
    }
    rows.sort_unstable();
    Ok(rows)
}

/// The place of a row in the order of an alternate key.
fn place_under(file: &StoredFile, key: usize, row: usize) -> KeyPlaceOfRow<'_>
    requires key { key < length file.now.spec.alternates.items }
    requires row { row < length file.now.rows.items }
{
    KeyPlaceOfRow {
        value: part_of(file.spec.alternates[key].place, &file.rows[row].bytes),
        arrival: arrival_under(&file.rows[row], key),
        row,
    }
}
