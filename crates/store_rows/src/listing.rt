//! The files of a volume as text, a line for each file and each row.
//!
//! A file is `NAME ORGANIZATION LENGTH ROWS next NUMBER`. A row begins with a space; it is its number in a file without keys, its
//! record without the dashes at its end, and its arrivals.
use file_recovery::{StoredFile, StoredRow};
use records::Organization;
use row_scripts::escape;
use std::alloc::{AllocError, Global};

/// These files as text.
pub fn list(alloc: Global, files: &[StoredFile]) -> Result<Vec<u8>, AllocError> {
    let mut text = Vec::new(alloc);
    for file in files.iter() {
        put_file(alloc, &mut text, file)?;
    }
    Ok(text)
}

/// The sum of a text: FNV-1a of 64 bits.
pub fn sum_of(text: &[u8]) -> u64 {
    let mut sum = 0xcbf2_9ce4_8422_2325u64;
    for byte in text.iter() {
        sum = (sum ^ u64::from(*byte)).wrapping_mul(0x0000_0100_0000_01b3);
    }
    sum
}

fn kind(organization: Organization) -> &'static str {
    match organization {
        Organization::Sequential => "sequential",
        Organization::Relative => "relative",
        Organization::Indexed(_) => "indexed",
    }
}

/// A record without the dashes at its end.
fn shortened(record: &[u8]) -> &[u8] {
    let dashes = record
        .iter()
        .rev()
        .take_while(|byte| **byte == b'-')
        .count();
    match record.get(..record.len().saturating_sub(dashes)) {
        Some(front) => front,
        None => record,
    }
}

fn put_number(alloc: Global, text: &mut Vec<u8>, number: u64) -> Result<(), AllocError> {
    text.extend_from_slice(format!(in alloc; " {number}")?.as_bytes())?;
    Ok(())
}

fn put_row(
    alloc: Global,
    text: &mut Vec<u8>,
    has_keys: bool,
    row: &StoredRow,
) -> Result<(), AllocError> {
    if !has_keys {
        put_number(alloc, text, row.number)?;
    }
    put_record(alloc, text, row)
}

fn put_record(alloc: Global, text: &mut Vec<u8>, row: &StoredRow) -> Result<(), AllocError> {
    text.extend_from_slice(b" \"")?;
    escape(shortened(&row.bytes), text)?;
    text.push(b'"')?;
    for arrival in row.arrivals.iter() {
        put_number(alloc, text, *arrival)?;
    }
    text.push(b'\n')?;
    Ok(())
}

fn put_file(alloc: Global, text: &mut Vec<u8>, file: &StoredFile) -> Result<(), AllocError> {
    let organization = file.spec.organization;
    escape(&file.spec.name, text)?;
    let kind = kind(organization);
    let length = file.spec.record_length;
    let rows = file.rows.len();
    let next = file.next_arrival;
    let line = format!(in alloc; " {kind} {length} {rows} next {next}\n")?;
    text.extend_from_slice(line.as_bytes())?;
    let has_keys = matches!(organization, Organization::Indexed(_));
    for row in file.rows.iter() {
        put_row(alloc, text, has_keys, row)?;
    }
    Ok(())
}
