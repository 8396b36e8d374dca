//! The commands that print what a volume holds: how they end, and what they print.
use crate::asserted::{holds, same_in};
use crate::narrow_writer::NarrowWriter;
use crate::volume::{FileRows, blank_station, volume_of};
use station::MemoryStation;
use std::alloc::Global;
use std::process::Abort;
use volume_commands::{FileDump, VolumeError, dump_volume, list_volume, stat_volume};

/// A command that prints, and only reads the volume.
#[derive(Clone, Copy)]
pub enum Printing {
    List,
    Stat,
    Dump(&'static [u8]),
}

/// How a command ends that has printed all.
pub const PRINTED: Result<FileDump, VolumeError> = Ok(FileDump::Written);

/// How a command ends, and what it prints.
pub type PrintRow = (Printing, Result<FileDump, VolumeError>, &'static [u8]);

impl Printing {
    /// Prints to a writer.
    pub fn print(
        self,
        alloc: Global,
        station: &mut MemoryStation,
        out: &mut NarrowWriter,
    ) -> Result<FileDump, VolumeError> {
        let done = match self {
            Printing::List => list_volume(alloc, station, out),
            Printing::Stat => stat_volume(alloc, station, out),
            Printing::Dump(name) => return dump_volume(alloc, station, name, out),
        };
        match done {
            Ok(()) => PRINTED,
            Err(error) => Err(error),
        }
    }
}

/// Asserts how commands on a volume of files end, and what they print.
pub fn print_rows(rt: &impl Abort, alloc: Global, files: &[FileRows], rows: &[PrintRow]) {
    let mut station = volume_of(rt, alloc, files);
    for (printing, answer, text) in rows {
        prints(rt, alloc, &mut station, *printing, *answer, text);
    }
}

/// Asserts that a command finds a device of zeros damaged.
pub fn finds_damage(rt: &impl Abort, alloc: Global, printing: Printing) {
    let mut blank = blank_station(rt, alloc);
    let damaged = Err(VolumeError::Damaged);
    prints(rt, alloc, &mut blank, printing, damaged, b"");
}

/// Asserts how a command ends, what it prints to a writer, and that it doesn't write to the volume.
pub fn prints_to(
    rt: &impl Abort,
    alloc: Global,
    station: &mut MemoryStation,
    printing: Printing,
    mut out: NarrowWriter,
    answer: Result<FileDump, VolumeError>,
    text: &[u8],
) {
    let writes = station.writes();
    holds(rt, printing.print(alloc, station, &mut out) == answer);
    same_in(rt, &text.len(), out.taken.as_slice(), text);
    same_in(rt, &text.len(), station.writes(), writes);
}

/// The same with a writer that takes all.
pub fn prints(
    rt: &impl Abort,
    alloc: Global,
    station: &mut MemoryStation,
    printing: Printing,
    answer: Result<FileDump, VolumeError>,
    text: &[u8],
) {
    let out = NarrowWriter::new(alloc, usize::MAX);
    prints_to(rt, alloc, station, printing, out, answer, text);
}

/// Asserts that writers with these rooms, which fail once they are full, take a beginning of the text, or all of it.
pub fn fills_writers(
    rt: &impl Abort,
    alloc: Global,
    files: &[FileRows],
    printing: Printing,
    text: &[u8],
    rooms: &[usize],
) {
    let mut station = volume_of(rt, alloc, files);
    for room in rooms {
        let out = NarrowWriter::new(alloc, *room);
        if *room < text.len() {
            let error = Err(VolumeError::Output);
            prints_to(
                rt,
                alloc,
                &mut station,
                printing,
                out,
                error,
                &text[..*room],
            );
        } else {
            prints_to(rt, alloc, &mut station, printing, out, PRINTED, text);
        }
    }
}

/// Asserts that a writer that fails when it is flushed has taken the whole text.
pub fn fails_at_flush(
    rt: &impl Abort,
    alloc: Global,
    files: &[FileRows],
    printing: Printing,
    text: &[u8],
) {
    let mut station = volume_of(rt, alloc, files);
    let out = NarrowWriter::that_fails_at_flush(alloc);
    let error = Err(VolumeError::Output);
    prints_to(rt, alloc, &mut station, printing, out, error, text);
}

/// Asserts that nothing is printed if one of the first three calls on the device fails: the sync, and the reads of the roots.
pub fn fails_with_device(rt: &impl Abort, alloc: Global, files: &[FileRows], printing: Printing) {
    for call in 1..=3 {
        let mut station = volume_of(rt, alloc, files);
        station.fail_at(call);
        let error = Err(VolumeError::Device);
        prints(rt, alloc, &mut station, printing, error, b"");
    }
}
