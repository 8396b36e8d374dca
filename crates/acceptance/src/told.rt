//! Statuses and files in the words of a row.

use file_recovery::{StoredFile, StoredRow, recover};
use records::Organization;
use station::{MemoryStation, Note};
use std::alloc::{AllocError, Global};

/// How files are put into words.
#[derive(Clone, Copy)]
pub struct Form {
    before_row: &'static [u8],
    after_row: &'static [u8],
    after_refusal: &'static [u8],
    is_one_line: bool,
}

/// A line for each file, `NAME indexed LENGTH ROWS`, and one for each row, with a space in front, of a relative file after its number.
pub const LINES: Form = Form {
    before_row: b" ",
    after_row: b"\n",
    after_refusal: b"\n",
    is_one_line: false,
};

/// All files in one line: `NAME indexed LENGTH`, and the rows in order, each in brackets and without spaces at its end. In front of a row of a
/// relative file is its number, and after a row for each alternate key how many rows have had their value of it for longer.
pub const ONE_LINE: Form = Form {
    before_row: b"[",
    after_row: b"]",
    after_refusal: b"",
    is_one_line: true,
};

/// The statuses that a program received, one a line: the file's place among the SELECTs, and the status.
pub fn noted(alloc: Global, station: &MemoryStation) -> Result<Vec<u8>, AllocError> {
    let mut text = Vec::new(alloc);
    for note in station.notes()?.as_slice() {
        tell_note(alloc, &mut text, *note)?;
    }
    Ok(text)
}

/// The files that recovery finds, by name. Where none can be recovered that is said.
pub fn files_left(
    alloc: Global,
    station: &mut MemoryStation,
    form: &Form,
) -> Result<Vec<u8>, AllocError> {
    let mut text = Vec::new(alloc);
    tell_files(alloc, &mut text, form, station)?;
    Ok(text)
}

fn tell_note(alloc: Global, text: &mut Vec<u8>, note: Note) -> Result<(), AllocError> {
    tell_number(alloc, text, u64::from(note.file))?;
    text.push(b' ')?;
    text.extend_from_slice(&note.status)?;
    text.push(b'\n')?;
    Ok(())
}

fn tell_files(
    alloc: Global,
    text: &mut Vec<u8>,
    form: &Form,
    station: &mut MemoryStation,
) -> Result<(), AllocError> {
    match recover(alloc, station) {
        Ok(files) => tell_all(alloc, text, form, files.as_slice()),
        Err(fault) => tell_refusal(alloc, text, form, fault.number()),
    }
}

fn tell_refusal(
    alloc: Global,
    text: &mut Vec<u8>,
    form: &Form,
    number: u8,
) -> Result<(), AllocError> {
    text.extend_from_slice(b"refused ")?;
    tell_number(alloc, text, u64::from(number))?;
    text.extend_from_slice(form.after_refusal)
}

fn tell_all(
    alloc: Global,
    text: &mut Vec<u8>,
    form: &Form,
    files: &[StoredFile],
) -> Result<(), AllocError> {
    for file in files {
        if form.is_one_line && !text.is_empty() {
            text.extend_from_slice(b"; ")?;
        }
        tell_file(alloc, text, form, file)?;
    }
    Ok(())
}

fn tell_file(
    alloc: Global,
    text: &mut Vec<u8>,
    form: &Form,
    file: &StoredFile,
) -> Result<(), AllocError> {
    text.extend_from_slice(&file.spec.name)?;
    text.extend_from_slice(kind(file.spec.organization))?;
    tell_number(alloc, text, u64::from(file.spec.record_length))?;
    tell_count(alloc, text, form, file.rows.len())?;
    for row in file.rows.as_slice() {
        tell_row(alloc, text, form, file, row)?;
    }
    Ok(())
}

fn kind(organization: Organization) -> &'static [u8] {
    match organization {
        Organization::Sequential => b" sequential ",
        Organization::Relative => b" relative ",
        Organization::Indexed(_) => b" indexed ",
    }
}

/// How many rows follow, if they are in lines of their own.
fn tell_count(
    alloc: Global,
    text: &mut Vec<u8>,
    form: &Form,
    count: usize,
) -> Result<(), AllocError> {
    if !form.is_one_line {
        text.push(b' ')?;
        tell_number(alloc, text, count as u64)?;
        text.push(b'\n')?;
    } else if count > 0 {
        text.push(b' ')?;
    }
    Ok(())
}

fn tell_row(
    alloc: Global,
    text: &mut Vec<u8>,
    form: &Form,
    file: &StoredFile,
    row: &StoredRow,
) -> Result<(), AllocError> {
    text.extend_from_slice(form.before_row)?;
    if file.spec.organization == Organization::Relative {
        tell_number(alloc, text, row.number)?;
        text.push(b' ')?;
    }
    if form.is_one_line {
        text.extend_from_slice(row.bytes.trim_ascii_end())?;
        tell_ranks(alloc, text, file.rows.as_slice(), row)?;
    } else {
        text.extend_from_slice(&row.bytes)?;
    }
    text.extend_from_slice(form.after_row)
}

fn tell_ranks(
    alloc: Global,
    text: &mut Vec<u8>,
    rows: &[StoredRow],
    row: &StoredRow,
) -> Result<(), AllocError> {
    for (key, arrival) in row.arrivals.as_slice().iter().enumerate() {
        text.push(b' ')?;
        tell_number(alloc, text, rank(rows, key, *arrival))?;
    }
    Ok(())
}

/// How many rows came to have their value of an alternate key before that arrival.
fn rank(rows: &[StoredRow], key: usize, arrival: u64) -> u64 {
    let mut count = 0u64;
    for row in rows {
        count = count.saturating_add(u64::from(is_before(row, key, arrival)));
    }
    count
}

fn is_before(row: &StoredRow, key: usize, arrival: u64) -> bool {
    match row.arrivals.get(key) {
        Some(other) => *other < arrival,
        None => false,
    }
}

fn tell_number(alloc: Global, text: &mut Vec<u8>, number: u64) -> Result<(), AllocError> {
    let digits = format!(in alloc; "{number}")?;
    text.extend_from_slice(digits.as_bytes())
}
