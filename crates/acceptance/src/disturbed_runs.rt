//! Runs of a row that are disturbed at each of their calls on the station, or in which a call fails, over volumes of both layouts. Each image that
//! a crash may leave is tried.

use crate::calls::{Progress, calls_over, number_of};
use crate::disturbance::{Crash, Disturbance};
use crate::ending::Ending;
use crate::moments::{first_lines, line_after};
use crate::row::{DAY, Part, Row};
use crate::told::{ONE_LINE, files_left, noted};
use crate::volume::{Layout, Volume, first_volume};
use compiler::compile;
use run_unit::{Ended, Refusal, run_image};
use station::MemoryStation;
use std::alloc::{AllocError, Global};

/// How each call is disturbed. A failed sync of a root may have left it on the disk. A later stop, before the first sync of an opening, leaves the
/// files with the change or without it.
const DISTURBANCES: [Disturbance; 3] = [
    Disturbance::Stop,
    Disturbance::Failure,
    Disturbance::FailureAndStop,
];

/// How a run ends whose call is disturbed.
const DISTURBED: &[u8] = b"refused 80";

/// How a disturbed run of a row differs from what its calls, notes, output and moments say, if it has calls and one does.
pub fn check_calls(alloc: Global, row: &Row) -> Result<Option<String>, AllocError> {
    if row.part(Part::Calls).is_none() {
        return Ok(None);
    }
    match compile(alloc, row.bytes(Part::Source)) {
        Ok(image) => check_image(alloc, row, image.as_slice()),
        Err(_) => Ok(Some("it has calls, and isn't compiled".to_string(alloc)?)),
    }
}

/// A row over a volume, with the image of its program and its calls.
#[derive(Clone, Copy)]
struct Trial<'a> {
    row: &'a Row,
    volume: &'a Volume,
    image: &'a [u8],
    calls: &'a [u8],
}

/// A crash, and what is other than the row says there.
#[derive(Clone, Copy)]
struct Difference {
    crash: Crash,
    what: &'static str,
}

fn check_image(alloc: Global, row: &Row, image: &[u8]) -> Result<Option<String>, AllocError> {
    match check_over(alloc, row, image, Layout::Halves)? {
        Some(difference) => Ok(Some(difference)),
        None => check_over(alloc, row, image, Layout::Trees),
    }
}

fn check_over(
    alloc: Global,
    row: &Row,
    image: &[u8],
    layout: Layout,
) -> Result<Option<String>, AllocError> {
    let volume = first_volume(alloc, row, layout)?;
    let trial = Trial {
        row,
        volume: &volume,
        image,
        calls: calls_over(row.bytes(Part::Calls), layout).unwrap_or(b""),
    };
    match trial.difference(alloc)? {
        Some(difference) => described(alloc, layout, &difference),
        None => Ok(None),
    }
}

/// A difference in words. Image 0 is the volume as it was at the last sync.
fn described(
    alloc: Global,
    layout: Layout,
    difference: &Difference,
) -> Result<Option<String>, AllocError> {
    let layout = layout.name();
    let how = difference.crash.how.name();
    let call = difference.crash.call;
    let image = difference.crash.image;
    let what = difference.what;
    let text = format!(in alloc; "over {layout}, {how} at call {call}, image {image}: {what}")?;
    Ok(Some(text))
}

impl<'a> Trial<'a> {
    fn difference(&self, alloc: Global) -> Result<Option<Difference>, AllocError> {
        for how in &DISTURBANCES {
            if let Some(difference) = self.at_each_call(alloc, *how)? {
                return Ok(Some(difference));
            }
        }
        Ok(None)
    }

    /// Each call is disturbed in turn, and at last none.
    fn at_each_call(
        &self,
        alloc: Global,
        how: Disturbance,
    ) -> Result<Option<Difference>, AllocError> {
        let calls = number_of(self.calls);
        for call in 1..=calls.saturating_add(1) {
            if let Some(difference) = self.at_call(alloc, how, call)? {
                return Ok(Some(difference));
            }
        }
        Ok(None)
    }

    /// Whatever a crash leaves, the run and what is left are what the row says.
    fn at_call(
        &self,
        alloc: Global,
        how: Disturbance,
        call: u64,
    ) -> Result<Option<Difference>, AllocError> {
        let progress = Progress::at(self.calls, call);
        for image in 0..progress.images() {
            let crash = Crash { how, call, image };
            if let Some(what) = self.at_crash(alloc, &crash, &progress)? {
                return Ok(Some(Difference { crash, what }));
            }
        }
        Ok(None)
    }

    fn at_crash(
        &self,
        alloc: Global,
        crash: &Crash,
        progress: &Progress,
    ) -> Result<Option<&'static str>, AllocError> {
        let mut station = self.volume.station(alloc, self.row)?;
        match self.run_difference(alloc, &mut station, crash, progress)? {
            Some(what) => Ok(Some(what)),
            None => self.crash_difference(alloc, &mut station, crash, progress),
        }
    }

    /// The call that is disturbed ends the run and is its last one: the run has made the calls up to that one and no others.
    fn run_difference(
        &self,
        alloc: Global,
        station: &mut MemoryStation,
        crash: &Crash,
        progress: &Progress,
    ) -> Result<Option<&'static str>, AllocError> {
        crash.disturb(station);
        let ended = self.run(alloc, station);
        if !is_end(alloc, ended, self.end(crash.call))? {
            return Ok(Some("another end"));
        }
        if !progress.is_of(station) {
            return Ok(Some("other numbers of reads, writes and syncs"));
        }
        Ok(None)
    }

    /// What a run received and showed and what a crash left is what the row says.
    fn crash_difference(
        &self,
        alloc: Global,
        station: &mut MemoryStation,
        crash: &Crash,
        progress: &Progress,
    ) -> Result<Option<&'static str>, AllocError> {
        if matches!(crash.how, Disturbance::FailureAndStop) && !self.is_not_opened(alloc, station) {
            return Ok(Some("opened again on a device that has stopped"));
        }
        station.crash(&crash.choices());
        if !self.has_received(alloc, station, progress.notes)? {
            return Ok(Some("other statuses received"));
        }
        if !self.has_shown(station, progress.texts)? {
            return Ok(Some("other bytes shown"));
        }
        if !self.is_moment(alloc, station, progress.statements_on_disk(crash.image))? {
            return Ok(Some("other files left"));
        }
        Ok(None)
    }

    fn run(&self, alloc: Global, station: &mut MemoryStation) -> Ended {
        run_image(alloc, self.image, station, DAY, self.row.steps())
    }

    /// How a run ends of which this call is disturbed.
    fn end(&self, call: u64) -> &[u8] {
        if call <= number_of(self.calls) {
            DISTURBED
        } else {
            self.row.expected().end
        }
    }

    /// The volume is to be opened again by the same program, but the device has stopped.
    fn is_not_opened(&self, alloc: Global, station: &mut MemoryStation) -> bool {
        station.stop_at(1);
        self.run(alloc, station) == Ended::Refused(Refusal::Device)
    }

    /// Whether the first notes, as many as these, and no others were received.
    fn has_received(
        &self,
        alloc: Global,
        station: &MemoryStation,
        count: usize,
    ) -> Result<bool, AllocError> {
        let expected = first_lines(self.row.bytes(Part::Notes), count);
        Ok(noted(alloc, station)?.as_slice() == expected)
    }

    /// Whether the first lines of the output, as many as these, and no others were shown.
    fn has_shown(&self, station: &MemoryStation, count: usize) -> Result<bool, AllocError> {
        let expected = first_lines(self.row.bytes(Part::Shown), count);
        Ok(station.shown()?.as_slice() == expected)
    }

    /// Whether the volume holds the files after so many file statements.
    fn is_moment(
        &self,
        alloc: Global,
        station: &mut MemoryStation,
        count: usize,
    ) -> Result<bool, AllocError> {
        match line_after(self.row.bytes(Part::Moments), count) {
            Some(expected) => Ok(files_left(alloc, station, &ONE_LINE)?.as_slice() == expected),
            None => Ok(false),
        }
    }
}

fn is_end(alloc: Global, ended: Ended, expected: &[u8]) -> Result<bool, AllocError> {
    Ok(Ending::Run(ended).in_words(alloc)?.as_bytes() == expected)
}
