//! Running a row in each way that there is.

use crate::disturbed_runs::check_calls;
use crate::row::{Expected, Row};
use crate::told::{LINES, files_left, noted};
use crate::volume::{Volume, first_volume};
use crate::way::{BY_SOURCE, WAYS, Way};
use std::alloc::{AllocError, Global};

/// How a row differs from what its files say, or how a way of running it differs from another one, if any does.
pub fn check_row(alloc: Global, row: &Row) -> Result<Option<String>, AllocError> {
    if let Some(fault) = row.fault() {
        return Ok(Some(fault.to_string(alloc)?));
    }
    match check_ways(alloc, row)? {
        Some(difference) => Ok(Some(difference)),
        None => check_calls(alloc, row),
    }
}

/// The first way is compared with the files of the row, and each other one with the first.
fn check_ways(alloc: Global, row: &Row) -> Result<Option<String>, AllocError> {
    let by_source = see(alloc, row, &BY_SOURCE)?;
    match by_source.difference(row.expected()) {
        Some(difference) => described(alloc, &BY_SOURCE, difference, &by_source),
        None => check_others(alloc, row, by_source.expected()),
    }
}

fn check_others(
    alloc: Global,
    row: &Row,
    expected: Expected<'_>,
) -> Result<Option<String>, AllocError> {
    let count = if row.has_volume() { WAYS.len() } else { 1 };
    for way in &WAYS[..count] {
        if let Some(difference) = check_way(alloc, row, way, expected)? {
            return Ok(Some(difference));
        }
    }
    Ok(None)
}

fn check_way(
    alloc: Global,
    row: &Row,
    way: &Way,
    expected: Expected<'_>,
) -> Result<Option<String>, AllocError> {
    let seen = see(alloc, row, way)?;
    match seen.difference(expected) {
        Some(difference) => described(alloc, way, difference, &seen),
        None => Ok(None),
    }
}

/// A difference in words, with what was seen of the run.
fn described(
    alloc: Global,
    way: &Way,
    difference: &str,
    seen: &Seen,
) -> Result<Option<String>, AllocError> {
    let way = way.name;
    let end = seen.end.as_str();
    let count = seen.shown.len();
    let text = format!(in alloc;
        "{way}: {difference}; it ended as {end}, and showed {count} bytes"
    )?;
    Ok(Some(text))
}

/// What is seen of a run, and why its volume isn't that of the row, if it isn't.
#[derive(Drop)]
struct Seen {
    fault: Option<&'static str>,
    shown: Vec<u8>,
    end: String,
    notes: Vec<u8>,
    files: Vec<u8>,
}

impl Seen {
    fn expected(&self) -> Expected<'_> {
        Expected {
            shown: self.shown.as_slice(),
            end: self.end.as_bytes(),
            notes: Some(self.notes.as_slice()),
            files: Some(self.files.as_slice()),
        }
    }

    /// What is other than expected, if something is.
    fn difference(&self, expected: Expected<'_>) -> Option<&'static str> {
        if self.fault.is_some() {
            return self.fault;
        }
        if self.end.as_bytes() != expected.end {
            return Some("another end");
        }
        if self.shown.as_slice() != expected.shown {
            return Some("other bytes shown");
        }
        if differs(expected.notes, &self.notes) {
            return Some("other statuses received");
        }
        if differs(expected.files, &self.files) {
            return Some("other files left");
        }
        None
    }
}

/// What is seen isn't what is expected, if something is.
fn differs(expected: Option<&[u8]>, seen: &Vec<u8>) -> bool {
    match expected {
        Some(expected) => expected != seen.as_slice(),
        None => false,
    }
}

fn see(alloc: Global, row: &Row, way: &Way) -> Result<Seen, AllocError> {
    let volume = first_volume(alloc, row, way.layout)?;
    see_over(alloc, row, way, &volume)
}

fn see_over(alloc: Global, row: &Row, way: &Way, volume: &Volume) -> Result<Seen, AllocError> {
    let mut station = volume.station(alloc, row)?;
    let ending = way.run(alloc, row, &mut station);
    station.crash(&[]);
    // Without a volume none are found, whichever way it is.
    let files = files_left(alloc, &mut station, &LINES)?;
    Ok(Seen {
        fault: volume.fault,
        shown: station.shown()?,
        end: ending.in_words(alloc)?,
        notes: noted(alloc, &station)?,
        files,
    })
}
