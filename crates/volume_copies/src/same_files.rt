//! Whether two volumes hold the same files, so that no program can distinguish them.
ghost use Rattle.std.specs.Prelude.{◌≡◌, ◌<◌, true, length, IfOk};
ghost use Rattle.std.specs.List.{AllZip};
ghost use Rattle.records.specs.Stores.{spec_of};
ghost use Rattle.file_bytes.specs.Stored.{row_of, rows_of, named_of, files_of};
ghost use Rattle.volume_copies.specs.Same.{IsSameRow, IsSameNamed, AreSameFiles};

use crate::same_order::is_same_order;
use file_recovery::{StoredFile, StoredRow};
use records::{AlternateKey, FileSpec, Organization};
use std::alloc::{AllocError, Global};

/// Whether two lists of files are the same: names, descriptions, records and relative numbers, and
/// the order of the rows under each alternate key.
pub(crate) fn are_same_files(
    alloc: Global,
    one: &[StoredFile],
    two: &[StoredFile],
) -> Result<bool, AllocError>
    ensures { IfOk result (λ same. same ≡ true
        → AreSameFiles (files_of one.now) (files_of two.now)) }
{
    if one.len() != two.len() {
        return Ok(false);
    }
    for place in 0..one.len() {
        if !is_same_file(alloc, &one[place], &two[place])? {
            return Ok(false);
        }
    }
    Ok(true)
}

fn is_same_file(alloc: Global, one: &StoredFile, two: &StoredFile) -> Result<bool, AllocError>
    ensures { IfOk result
        (λ same. same ≡ true → IsSameNamed (named_of one.now) (named_of two.now)) }
{
    if !is_same_spec(&one.spec, &two.spec)
        || !are_same_rows(one.spec.organization, &one.rows, &two.rows)
    {
        return Ok(false);
    }
    for key in 0..one.spec.alternates.len() {
        if !is_same_order(alloc, one, two, key)? {
            return Ok(false);
        }
    }
    Ok(true)
}

fn is_same_spec(one: &FileSpec, two: &FileSpec) -> bool
    ensures name { result ≡ true → one.now.name.items ≡ two.now.name.items }
    ensures spec { result ≡ true → spec_of one.now ≡ spec_of two.now }
{
    one.name.as_slice() == two.name.as_slice()
        && one.organization == two.organization
        && one.record_length == two.record_length
        && are_same_keys(&one.alternates, &two.alternates)
}

fn are_same_keys(one: &[AlternateKey], two: &[AlternateKey]) -> bool
    ensures { result ≡ true → one.now ≡ two.now }
{
    if one.len() != two.len() {
        return false;
    }
    for place in 0..one.len() {
        if one[place] != two[place] {
            return false;
        }
    }
    true
}

/// Whether two lists of rows have the same records, and the same relative numbers.
fn are_same_rows(organization: Organization, one: &[StoredRow], two: &[StoredRow]) -> bool
    ensures { result ≡ true
        → AllZip (IsSameRow organization) (rows_of one.now) (rows_of two.now) }
{
    if one.len() != two.len() {
        return false;
    }
    for place in 0..one.len() {
        if !is_same_row(organization, &one[place], &two[place]) {
            return false;
        }
    }
    true
}

fn is_same_row(organization: Organization, one: &StoredRow, two: &StoredRow) -> bool
    ensures { result ≡ true → IsSameRow organization (row_of one.now) (row_of two.now) }
{
    if one.bytes.as_slice() != two.bytes.as_slice() {
        return false;
    }
    match organization {
        Organization::Relative => one.number == two.number,
        _ => true,
    }
}
