//! The progress of `copy` and `load`, where it is printed.

use host::{Progress, Reasons};
use std::time::Clock;

/// The progress of a command on files, over the place where it is printed.
#[derive(Drop)]
pub struct Watched<'a, R, E> {
    pub rt: &'a R,
    pub progress: Progress,
    pub err: &'a mut E,
}

impl<'a, R: Clock, E: Reasons> Watched<'a, R, E> {
    /// Ends the line, if there is one.
    pub fn end(self) {
        self.progress.end(self.err);
    }
}

impl<'a, R: Clock, E: Reasons> volume_copies::Progress for Watched<'a, R, E> {
    fn report(&mut self, done: u64, all: u64) {
        let percent = u128::from(done) * 100 / u128::from(all.max(1));
        self.progress
            .report(self.rt, self.err, percent.min(100) as u32);
    }
}
