//! How far `format`, `copy` and `load` are.

use std::io::{IsTerminal, Stderr, Write};
use std::time::{Clock, Instant};

/// How many seconds pass before anything is printed.
const SECONDS: u64 = 2;

/// A writer of reasons, on which progress may be printed too.
pub trait Reasons: Write {
    /// Whether a person may watch it, so that progress is printed.
    fn is_watched(&self) -> bool;
}

impl Reasons for Stderr {
    fn is_watched(&self) -> bool {
        self.is_terminal()
    }
}

/// The percentage of a volume that is written, in one line that is printed again and again.
#[derive(Drop)]
pub struct Progress {
    /// When it began, if it is watched.
    start: Option<Instant>,
    sectors: u32,
    /// What was printed last.
    percent: Option<u64>,
}

impl Progress {
    /// Nothing is written so far, of so many sectors. Nothing is printed of it unless `err` is watched and the clock can be read.
    pub fn new<R: Clock, E: Reasons>(rt: &R, err: &E, sectors: u32) -> Progress {
        let start = if err.is_watched() {
            Instant::now(rt).ok()
        } else {
            None
        };
        Progress {
            start,
            sectors,
            percent: None,
        }
    }

    /// So many sectors are written. The percentage is printed after two seconds, if it is another one than before.
    pub fn report<R: Clock, E: Reasons>(&mut self, rt: &R, err: &mut E, written: u32) {
        let percent = u64::from(written) * 100 / u64::from(self.sectors.max(1));
        if self.is_late(rt) && self.percent != Some(percent) {
            let _ = write!(err, "\r{percent} %");
            self.percent = Some(percent);
        }
    }

    /// Ends the line, if there is one.
    pub fn end<E: Reasons>(self, err: &mut E) {
        if self.percent.is_some() {
            let _ = err.write_all(b"\n");
        }
    }

    /// Whether it is watched and has taken so long that a person wonders.
    fn is_late<R: Clock>(&self, rt: &R) -> bool {
        let Some(start) = self.start else {
            return false;
        };
        match start.elapsed(rt) {
            Ok(time) => time.as_secs() >= SECONDS,
            Err(_) => false,
        }
    }
}
