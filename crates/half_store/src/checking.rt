//! Whether files in memory are files of a volume.
ghost use Rattle.std.specs.Prelude.{◌≡◌, ◌≤◌, ◌<◌, ◌+◌, true, false, ℕ, length, map, get_or};
ghost use Rattle.std.specs.List.{AllByRecursion};
ghost use Rattle.std.specs.declared.cmp.Ordering.TheVariants.{Less};
ghost use Rattle.records.specs.Rows.{bytes_cmp, pair_cmp, prime_pair};
ghost use Rattle.records.specs.Files.{IsRow, IsFile, AreFiles};
ghost use Rattle.records.specs.Laws.{RowsAscend};
ghost use Rattle.records.specs.Stores.{spec_of};
ghost use Rattle.half_store.specs.Half.{AreEarly, AreHalfFiles};
ghost use Rattle.file_bytes.specs.Stored.{row_of, file_of, files_of};
ghost use Rattle.file_bytes.specs.declared.stored.StoredRow.{StoredRow};
ghost use Rattle.file_bytes.specs.declared.stored.StoredFile.{StoredFile};

use crate::rows::prime_cmp;
use file_bytes::{StoredFile, StoredRow, are_short, is_row};
use records::{FileSpec, Organization};

/// Whether a half of this generation may hold these files.
pub(crate) fn are_half_files(files: &[StoredFile], generation: u64) -> bool
    ensures yes { result ≡ true → AreHalfFiles generation (files_of files.now) }
    ensures no { result ≡ false → AreHalfFiles generation (files_of files.now) → ⊥ }
{
    if !are_short(files) {
        return false;
    }
    are_files(files, generation)
}

/// Whether files are those of a volume of this generation.
fn are_files(files: &[StoredFile], generation: u64) -> bool
    ensures yes { result ≡ true
        → AreFiles (files_of files.now) × AreEarly generation (files_of files.now) }
    ensures no { result ≡ false → AreFiles (files_of files.now)
        → AreEarly generation (files_of files.now) → ⊥ }
{
    if files.len() > 255 {
        return false;
    }
    for back in 0..files.len() {
        let place = files.len() - 1 - back;
        if !is_file(&files[place], generation) {
            return false;
        }
        if !is_named_before_next(files, place) {
            return false;
        }
    }
    true
}

/// Whether the row after this one, if there is one, follows it under the prime key.
fn is_before_next(organization: Organization, rows: &[StoredRow], place: usize) -> bool
    requires { place < length rows.now }
    ensures yes { result ≡ true → (d : StoredRow) → place + 1 < length rows.now
        → pair_cmp (prime_pair organization (row_of (get_or rows.now place d)))
        (prime_pair organization (row_of (get_or rows.now (place + 1) d))) ≡ Less }
    ensures no { result ≡ false → (d : StoredRow) → (place + 1 < length rows.now)
        × (pair_cmp (prime_pair organization (row_of (get_or rows.now place d)))
        (prime_pair organization (row_of (get_or rows.now (place + 1) d))) ≡ Less → ⊥) }
{
    if place + 1 >= rows.len() {
        return true;
    }
    let next = &rows[place + 1];
    prime_cmp(organization, &rows[place], next.number, &next.bytes).is_lt()
}

/// Whether rows are those of such a file, and ascend.
fn are_rows(spec: &FileSpec, next: u64, rows: &[StoredRow]) -> bool
    ensures yes { result ≡ true → AllByRecursion (IsRow (spec_of spec.now) next)
        (map row_of rows.now) × RowsAscend spec.now.organization (map row_of rows.now) }
    ensures no { result ≡ false → AllByRecursion (IsRow (spec_of spec.now) next)
        (map row_of rows.now) → RowsAscend spec.now.organization (map row_of rows.now) → ⊥ }
{
    for back in 0..rows.len() {
        let place = rows.len() - 1 - back;
        if !is_row(spec, next, &rows[place]) {
            return false;
        }
        if !is_before_next(spec.organization, rows, place) {
            return false;
        }
    }
    true
}

/// Whether a file is one of a volume of this generation.
fn is_file(file: &StoredFile, generation: u64) -> bool
    ensures yes { result ≡ true → IsFile (file_of file.now) × (file.now.next_arrival ≤ generation) }
    ensures no { result ≡ false → IsFile (file_of file.now) → file.now.next_arrival ≤ generation
        → ⊥ }
{
    if file.next_arrival < 1 {
        return false;
    }
    if generation < file.next_arrival {
        return false;
    }
    are_rows(&file.spec, file.next_arrival, &file.rows)
}

/// Whether the file after this one, if there is one, has a greater name.
fn is_named_before_next(files: &[StoredFile], place: usize) -> bool
    requires { place < length files.now }
    ensures yes { result ≡ true → (d : StoredFile)
        → place + 1 < length files.now → bytes_cmp (get_or files.now place d).spec.name.items
        (get_or files.now (place + 1) d).spec.name.items ≡ Less }
    ensures no { result ≡ false → (d : StoredFile)
        → (place + 1 < length files.now) × (bytes_cmp (get_or files.now place d).spec.name.items
        (get_or files.now (place + 1) d).spec.name.items ≡ Less → ⊥) }
{
    if place + 1 >= files.len() {
        return true;
    }
    let next = &files[place + 1];
    files[place]
        .spec
        .name
        .as_slice()
        .cmp(next.spec.name.as_slice())
        .is_lt()
}
