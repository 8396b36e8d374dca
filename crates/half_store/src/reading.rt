//! Files are read from their bytes.
ghost use Rattle.std.specs.Prelude.{◌≡◌, ◌≤◌, ◌<◌, ◌+◌, ◌*◌, ◌^◌, ◌++◌, true, ℕ, List, length, map, drop, Ok, None, IfOk, IfSome, IsOkUnless, Option};
ghost use Rattle.std.specs.List.{AllByRecursion};
ghost use Rattle.records.specs.Stores.{spec_of};
ghost use Rattle.records.specs.Files.{Files, NamedFile, IsNamed};
ghost use Rattle.file_bytes.specs.Stored.{row_of, named_of, files_of};
ghost use Rattle.byteorder.specs.Endian.{big_number};
ghost use Rattle.records.specs.Spec.{Spec, is_spec, is_name};
ghost use Rattle.file_bytes.specs.Description.{padded_name, spec_bytes};
ghost use Rattle.half_store.specs.Spelled.{file_bytes, files_bytes};
ghost use Rattle.half_store.specs.Read as read;
ghost use Rattle.file_bytes.specs.Read.{IfRead};
ghost use Rattle.half_store.specs.Read.{first_row, rows_in};
ghost use Rattle.half_store.specs.Readable.{IsReadable};

use byteorder::{BigEndian, ByteOrder};
use file_bytes::{NAME_BYTES, StoredFile, StoredRow, key_length, read_description, read_row};
use records::{FileSpec, StoreFault};
use std::alloc::Global;

/// The bytes of a file in front of its rows.
const HEAD_BYTES: usize = 121;

/// The files that bytes spell, if they spell any. It may find files that spell other bytes.
pub(crate) fn read_files(alloc: Global, bytes: &[u8]) -> Result<Option<Vec<StoredFile>>, StoreFault>
    ensures files { (files : Files) → AllByRecursion IsReadable files
        → bytes.now ≡ files_bytes files → IfRead result (λ found. files_of found.items ≡ files) }
    ensures memory { IsOkUnless result StoreFault.Memory }
{
    let mut files = Vec::new(alloc);
    let mut at = 0;
    while at < bytes.len() {
        let Some(found) = read_file(alloc, bytes, at)? else {
            return Ok(None);
        };
        files.push(found.file)?;
        at = found.end;
    }
    Ok(Some(files))
}

/// The number of eight bytes from a place on.
fn number_at(bytes: &[u8], at: usize) -> u64
    requires { at + 8 ≤ length bytes.now }
    ensures { result ≡ big_number 8 (drop at bytes.now) }
{
    BigEndian::read_u64(&bytes[at..])
}

/// The bytes of a row.
fn row_size(spec: &FileSpec) -> usize
    requires { length spec.now.alternates.items ≤ 7 }
    ensures size { result ≡ read.row_size (spec_of spec.now) }
    ensures bound { result < 2 ^ 18 }
{
    key_length(spec.organization) + (spec.record_length as usize + 8 * spec.alternates.len())
}

/// The row at the front of the bytes.
fn read_first_row(alloc: Global, bytes: &[u8], spec: &FileSpec) -> Result<StoredRow, StoreFault>
    requires { read.row_size (spec_of spec.now) ≤ length bytes.now }
    ensures row { IfOk result (λ row. row_of row ≡ first_row (spec_of spec.now) bytes.now) }
    ensures memory { IsOkUnless result StoreFault.Memory }
{
    read_row(alloc, spec, bytes, &bytes[key_length(spec.organization)..])
}

/// The row from a place on.
fn row_at(alloc: Global, bytes: &[u8], at: usize, spec: &FileSpec) -> Result<StoredRow, StoreFault>
    requires { at + read.row_size (spec_of spec.now) ≤ length bytes.now }
    ensures row { IfOk result
        (λ row. row_of row ≡ first_row (spec_of spec.now) (drop at bytes.now)) }
    ensures memory { IsOkUnless result StoreFault.Memory }
{
    read_first_row(alloc, &bytes[at..], spec)
}

/// Rows, and the place after them.
#[derive(Drop)]
struct FoundRows {
    rows: Vec<StoredRow>,
    end: usize,
}

/// So many rows from a place on, if there are so many bytes.
fn read_rows(
    alloc: Global,
    bytes: &[u8],
    at: usize,
    spec: &FileSpec,
    count: u64,
) -> Result<Option<FoundRows>, StoreFault>
    requires keys { length spec.now.alternates.items ≤ 7 }
    requires at { at ≤ length bytes.now }
    ensures rows { IfOk result (λ found. IfSome found
        (λ r. map row_of r.rows.items ≡ rows_in (spec_of spec.now) count (drop at bytes.now))) }
    ensures end { IfOk result (λ found. IfSome found (λ r.
        (r.end ≡ at + read.row_size (spec_of spec.now) * count) × (r.end ≤ length bytes.now))) }
    ensures none { result ≡ Ok None
        → length bytes.now < at + read.row_size (spec_of spec.now) * count }
    ensures memory { IsOkUnless result StoreFault.Memory }
{
    let size = row_size(spec);
    let mut rows = Vec::new(alloc);
    let mut place = at;
    for _row in 0..count {
        if bytes.len() - place < size {
            return Ok(None);
        }
        let row = row_at(alloc, bytes, place, spec)?;
        rows.push(row)?;
        place += size;
    }
    Ok(Some(FoundRows { rows, end: place }))
}

/// The name of a file and what it is, at the front of its bytes.
fn read_front(alloc: Global, bytes: &[u8]) -> Result<Option<FileSpec>, StoreFault>
    requires { 121 ≤ length bytes.now }
    ensures keys { IfOk result (λ found. IfSome found (λ f. length f.alternates.items ≤ 7)) }
    ensures spec { (name : List ℕ) (spec : Spec) (more : List ℕ) → is_name name ≡ true
        → is_spec spec ≡ true → bytes.now ≡ padded_name name ++ spec_bytes spec ++ more →
        IfRead result (λ f. (f.name.items ≡ name) × (spec_of f ≡ spec)) }
    ensures memory { IsOkUnless result StoreFault.Memory }
{
    read_description(alloc, &bytes[..NAME_BYTES], &bytes[NAME_BYTES..])
}

/// The name of a file and what it is, from a place on.
fn spec_at(alloc: Global, bytes: &[u8], at: usize) -> Result<Option<FileSpec>, StoreFault>
    requires { at + 121 ≤ length bytes.now }
    ensures keys { IfOk result (λ found. IfSome found (λ f. length f.alternates.items ≤ 7)) }
    ensures spec { (name : List ℕ) (spec : Spec) (more : List ℕ) → is_name name ≡ true
        → is_spec spec ≡ true → drop at bytes.now ≡ padded_name name ++ spec_bytes spec ++ more →
        IfRead result (λ f. (f.name.items ≡ name) × (spec_of f ≡ spec)) }
    ensures memory { IsOkUnless result StoreFault.Memory }
{
    read_front(alloc, &bytes[at..])
}

/// A file, and the place after it.
#[derive(Drop)]
struct FoundFile {
    file: StoredFile,
    end: usize,
}

/// The file from a place on.
fn read_file(alloc: Global, bytes: &[u8], at: usize) -> Result<Option<FoundFile>, StoreFault>
    requires { at ≤ length bytes.now }
    ensures end { IfOk result
        (λ found. IfSome found (λ f. (at < f.end) × (f.end ≤ length bytes.now))) }
    ensures file { (one : NamedFile) (more : List ℕ) → IsReadable one
        → drop at bytes.now ≡ file_bytes one ++ more →
        IfRead result (λ f. (named_of f.file ≡ one) × (drop f.end bytes.now ≡ more)) }
    ensures memory { IsOkUnless result StoreFault.Memory }
{
    if bytes.len() - at < HEAD_BYTES {
        return Ok(None);
    }
    let Some(spec) = spec_at(alloc, bytes, at)? else {
        return Ok(None);
    };
    let next_arrival = number_at(bytes, at + 105);
    let count = number_at(bytes, at + 113);
    let Some(found) = read_rows(alloc, bytes, at + HEAD_BYTES, &spec, count)? else {
        return Ok(None);
    };
    Ok(Some(FoundFile {
        file: StoredFile {
            spec,
            rows: found.rows,
            next_arrival,
        },
        end: found.end,
    }))
}
