//! The volume that a run of a row begins with.

use crate::row::{BUDGET, DAY, Part, Row, number};
use run_unit::{Ended, run_source};
use station::{Device, MemoryStation};
use std::alloc::{AllocError, Global};

/// How many sectors a volume has.
const SECTORS: usize = 1024;

/// Which store a volume is made for.
#[derive(Clone, Copy, PartialEq, Eq)]
pub enum Layout {
    Halves,
    Trees,
}

impl Layout {
    pub fn name(self) -> &'static str {
        match self {
            Layout::Halves => "halves",
            Layout::Trees => "trees",
        }
    }
}

/// The sectors that a run begins with, all of them durable, and why they aren't those of the row, if they aren't.
#[derive(Drop)]
pub struct Volume {
    sectors: Vec<[u8; 4096]>,
    pub fault: Option<&'static str>,
}

impl Volume {
    /// A station with these sectors and the row's console lines, on which nothing has been done.
    pub fn station(&self, alloc: Global, row: &Row) -> Result<MemoryStation, AllocError> {
        let lines = row.lines(alloc)?;
        let mut sectors = Vec::from_slice(alloc, self.sectors.as_slice())?;
        // There are no more, and a station has fewer than 2^32.
        sectors.truncate(SECTORS);
        MemoryStation::new(alloc, sectors, lines)
    }
}

/// The volume of a row: a new one, with the files of the program before, and then with zeros in the sectors that are cleared. A row without notes
/// and files has no sectors.
pub fn first_volume(alloc: Global, row: &Row, layout: Layout) -> Result<Volume, AllocError> {
    if !row.has_volume() {
        return Ok(Volume {
            sectors: Vec::new(alloc),
            fault: None,
        });
    }
    let mut station = new_volume(alloc, layout)?;
    let has_stopped = run_before(alloc, row.part(Part::Before), &mut station);
    station.crash(&[]);
    let mut sectors = sectors_of(alloc, &mut station)?;
    let is_cleared = clear(row.part(Part::Cleared), sectors.as_mut_slice());
    Ok(Volume {
        sectors,
        fault: fault(has_stopped, is_cleared),
    })
}

fn fault(has_stopped: bool, is_cleared: bool) -> Option<&'static str> {
    if !has_stopped {
        return Some("another end of the program before");
    }
    if !is_cleared {
        return Some("cleared sectors that are none");
    }
    None
}

/// A station with a new volume, and no console lines.
fn new_volume(alloc: Global, layout: Layout) -> Result<MemoryStation, AllocError> {
    let sectors = vec![in alloc; [0; 4096]; 1024]?;
    let mut station = MemoryStation::new(alloc, sectors, Vec::new(alloc))?;
    let count = station.count();
    if 1024 <= count && count <= 921600 {
        // The run of a row whose volume isn't made is refused.
        let _ = match layout {
            Layout::Halves => half_store::format(&mut station),
            Layout::Trees => alternate_keys::format(&mut station),
        };
    }
    Ok(station)
}

/// Runs the program before, if there is one, and answers whether it stopped as it should.
fn run_before(alloc: Global, before: Option<&[u8]>, station: &mut MemoryStation) -> bool {
    match before {
        Some(source) => {
            let ended = run_source(alloc, source, station, DAY, BUDGET);
            matches!(ended, Ok(Ended::Stopped))
        }
        None => true,
    }
}

fn sectors_of(alloc: Global, station: &mut MemoryStation) -> Result<Vec<[u8; 4096]>, AllocError> {
    let mut sectors = Vec::new(alloc);
    for sector in 0..station.count() {
        sectors.push(read_sector(station, sector))?;
    }
    Ok(sectors)
}

fn read_sector(station: &mut MemoryStation, sector: u32) -> [u8; 4096] {
    let mut bytes = [0; 4096];
    if sector < station.count() {
        let _ = station.read(sector, &mut bytes);
    }
    bytes
}

/// Puts zeros into the sectors of these numbers, which are one a line. Answers whether there are such sectors.
fn clear(numbers: Option<&[u8]>, sectors: &mut [[u8; 4096]]) -> bool {
    let Some(numbers) = numbers else {
        return true;
    };
    let mut are_there = true;
    for digits in numbers.trim_ascii_end().split(|byte| *byte == b'\n') {
        are_there = clear_sector(digits, sectors) && are_there;
    }
    are_there
}

fn clear_sector(digits: &[u8], sectors: &mut [[u8; 4096]]) -> bool {
    let Some(sector) = number(digits) else {
        return false;
    };
    match sectors.get_mut(sector as usize) {
        Some(bytes) => {
            *bytes = [0; 4096];
            true
        }
        None => false,
    }
}
