//! A statement of which each call on the device fails in turn. One that changes files is stopped at each call too.
//!
//! After a failure the area is as before. If the statement cannot change a file, its second attempt answers as its row says, and so do all
//! rows after it. Otherwise the store is spent, and a crash leaves the files before the statement or those after it.
//! After a stop each image that it may leave has the files before, or those after; those after if the statement was answered.
//!
//! `migrate` is disturbed too. It keeps the files in any case, and can be done again.
use crate::answer::{Answer, DEVICE, SPENT};
use crate::case::Case;
use crate::connectors::Kind;
use crate::effect::Effect;
use crate::images::Images;
use crate::run::Run;
use crate::statement::{FileCall, Statement, is_statement};
use crate::volume::Volume;
use records::{OpenMode, Verb};
use row_scripts::Fault;
use std::alloc::Global;

/// More calls than any statement makes.
const MOST_CALLS: u64 = 200;

/// The images of a stop of `migrate` that are tried: all, where up to two sectors wait for a sync.
const CHOICES: [[u32; 2]; 4] = [[0, 0], [1, 0], [0, 1], [1, 1]];

/// A statement of a case, with the files before it and after it.
#[derive(Drop)]
pub struct Disturbance<'a> {
    pub alloc: Global,
    pub case: &'a Case,
    /// The sectors at the row `disturbed`, where no file is open, and that row's place.
    pub sectors: &'a [[u8; 4096]],
    pub start: usize,
    /// The statement's place.
    pub place: usize,
    pub row: &'a [u8],
    pub before: Vec<u8>,
    pub after: Vec<u8>,
}

/// Two runs of a case, begun again for each disturbance. So their stations keep their memory.
#[derive(Drop)]
pub struct Replays<'a> {
    /// The place after the row `disturbed`.
    pub start: usize,
    one: Run<'a>,
    other: Run<'a>,
}

impl<'a> Replays<'a> {
    /// Over the sectors that the row `disturbed` saved.
    pub fn of(run: &Run<'a>, kind: Kind, start: usize) -> Result<Replays<'a>, Fault> {
        let sectors = run.saved_sectors();
        let one = Run::closed(run.alloc, run.case, kind, sectors)?;
        match Run::closed(run.alloc, run.case, kind, sectors) {
            Ok(other) => Ok(Replays { start, one, other }),
            Err(fault) => {
                drop(one);
                Err(fault)
            }
        }
    }
}

/// Whether a failed statement spends the store. `None`: it may.
fn spends(verb: Verb) -> Option<bool> {
    match verb {
        Verb::Write | Verb::Rewrite | Verb::Delete | Verb::Open(OpenMode::Output) => Some(true),
        Verb::Open(OpenMode::InputOutput) | Verb::Open(OpenMode::Extend) => None,
        _ => Some(false),
    }
}

fn is_migration(row: &[u8]) -> bool {
    row.starts_with(b"migrate")
}

/// Whether a row is disturbed.
pub fn is_disturbed(row: &[u8]) -> bool {
    is_statement(row) || is_migration(row)
}

/// Whether `migrate` ended before the call that is disturbed.
fn is_migrated(volume: &mut Volume) -> Result<bool, Fault> {
    match volume.migrate() {
        Ok(()) => Ok(true),
        Err(Fault::Refused(80)) => Ok(false),
        Err(fault) => Err(fault),
    }
}

fn is_needed(row: &[u8]) -> bool {
    is_disturbed(row) || row.starts_with(b"reopen") || row.starts_with(b"put ")
}

impl<'a> Disturbance<'a> {
    /// Brings a run to the place before the statement.
    fn replay(&self, run: &mut Run<'_>) -> Result<(), Fault> {
        run.restart(self.sectors)?;
        for row in self.case.rows.iter().take(self.place).skip(self.start) {
            if is_needed(&row.text) {
                run.row(&row.text)?;
            }
        }
        Ok(())
    }

    /// The statement, disturbed at a call. The answer is whether it ended before that call.
    fn perform_disturbed(
        &self,
        run: &mut Run<'_>,
        statement: &Statement,
        n: u64,
        is_stop: bool,
    ) -> Result<bool, Fault> {
        self.replay(run)?;
        run.volume.disturb(n, is_stop);
        let effect = run.perform(statement)?;
        if effect.is_same_as(&statement.expected) {
            return Ok(true);
        }
        let checked = self.check_refusal(&effect, statement, DEVICE);
        drop(effect);
        checked?;
        Ok(false)
    }

    fn check_refusal(
        &self,
        effect: &Effect,
        statement: &Statement,
        answer: Answer,
    ) -> Result<(), Fault> {
        if effect.answer == answer && effect.leaves(&statement.record, statement.number) {
            return Ok(());
        }
        Err(effect.difference(self.alloc))
    }

    /// A volume has the files before, or those after.
    fn check_files(&self, volume: &mut Volume, is_done: bool) -> Result<(), Fault> {
        let files = volume.files()?;
        let is_after = files.as_slice() == self.after.as_slice();
        let is_before = files.as_slice() == self.before.as_slice();
        drop(files);
        if is_after || !is_done && is_before {
            return Ok(());
        }
        Err(Fault::Spelling("the files are neither those before nor those after"))
    }

    /// A stop at a call, and each image that it may leave.
    fn check_stop(
        &self,
        replays: &mut Replays<'_>,
        statement: &Statement,
        n: u64,
    ) -> Result<(), Fault> {
        let is_done = self.perform_disturbed(&mut replays.one, statement, n, true)?;
        self.perform_disturbed(&mut replays.other, statement, n, true)?;
        let stable = &mut replays.one.volume;
        let last = &mut replays.other.volume;
        stable.crash(&[]);
        last.crash(&[u32::MAX; 64]);
        let images = Images::of(self.alloc, stable, last)?;
        self.check_images(&images, stable, is_done)
    }

    fn check_images(
        &self,
        images: &Images,
        volume: &mut Volume,
        is_done: bool,
    ) -> Result<(), Fault> {
        for image in 0..images.count() {
            images.leave(volume, image)?;
            self.check_files(volume, is_done)?;
        }
        Ok(())
    }

    /// A failure at a call. The answer is whether the statement ended before that call.
    fn check_failure(
        &self,
        run: &mut Run<'_>,
        statement: &Statement,
        n: u64,
    ) -> Result<bool, Fault> {
        if self.perform_disturbed(run, statement, n, false)? {
            return Ok(true);
        }
        if !self.perform_again(run, statement)? {
            let choice = u32::try_from(n % 3).unwrap_or(0);
            run.volume.crash(&[choice; 64]);
            self.check_files(&mut run.volume, false)?;
        }
        Ok(false)
    }

    /// The second attempt after a failure. The answer is whether the statement was done, and all rows after it.
    fn perform_again(&self, run: &mut Run<'_>, statement: &Statement) -> Result<bool, Fault> {
        let effect = run.perform(statement)?;
        let is_spent = effect.answer == SPENT;
        let is_spent = spends(statement.call.verb).unwrap_or(is_spent);
        let checked = self.check_second(&effect, statement, is_spent);
        drop(effect);
        checked?;
        if is_spent {
            self.check_spent(run, statement)?;
        } else {
            self.do_later_rows(run)?;
        }
        Ok(!is_spent)
    }

    /// The effect of the second attempt.
    fn check_second(
        &self,
        effect: &Effect,
        statement: &Statement,
        is_spent: bool,
    ) -> Result<(), Fault> {
        if is_spent {
            self.check_refusal(effect, statement, SPENT)
        } else {
            effect.compare(self.alloc, &statement.expected)
        }
    }

    fn do_later_rows(&self, run: &mut Run<'_>) -> Result<(), Fault> {
        for row in self.case.rows.iter().skip(self.place.saturating_add(1)) {
            run.row(&row.text)?;
        }
        Ok(())
    }

    /// The connector is as before: the status of CLOSE shows whether it is open.
    fn check_spent(&self, run: &mut Run<'_>, statement: &Statement) -> Result<(), Fault> {
        let status = match statement.call.verb {
            Verb::Open(_) => Answer::Status(*b"42"),
            _ => Answer::Status(*b"00"),
        };
        let close = FileCall {
            verb: Verb::Close,
            ..statement.call
        };
        let effect = run.perform_on(close, &statement.record, statement.number)?;
        self.check_refusal(&effect, statement, status)
    }

    /// `migrate`, disturbed at a call, and a crash. Then the files are there, a second `migrate` ends, and a third one writes nothing.
    /// The answer is whether the first one ended before that call.
    fn migrate_disturbed(
        &self,
        run: &mut Run<'_>,
        n: u64,
        is_stop: bool,
        choices: &[u32],
    ) -> Result<bool, Fault> {
        self.replay(run)?;
        let volume = &mut run.volume;
        volume.disturb(n, is_stop);
        let is_done = is_migrated(volume)?;
        volume.crash(choices);
        self.check_files(volume, true)?;
        volume.migrate()?;
        self.check_files(volume, true)?;
        let writes = volume.writes();
        volume.migrate()?;
        if volume.writes() != writes {
            return Err(Fault::Spelling("a migrated volume is written"));
        }
        Ok(is_done)
    }

    /// `migrate`, stopped and failed at a call. The answer is whether it ended before that call.
    fn migrate_to_call(&self, run: &mut Run<'_>, n: u64) -> Result<bool, Fault> {
        let mut is_done = false;
        for choices in CHOICES {
            self.migrate_disturbed(run, n, true, &choices)?;
            is_done = self.migrate_disturbed(run, n, false, &choices)?;
        }
        Ok(is_done)
    }

    fn migrate_to_each_call(&self, run: &mut Run<'_>) -> Result<(), Fault> {
        for n in 1..MOST_CALLS {
            if self.migrate_to_call(run, n)? {
                return Ok(());
            }
        }
        Err(Fault::Spelling("`migrate` has no end"))
    }

    /// Disturbs the statement at each of its calls.
    pub fn at_each_call(&self, replays: &mut Replays<'_>) -> Result<(), Fault> {
        if is_migration(self.row) {
            return self.migrate_to_each_call(&mut replays.one);
        }
        let statement = replays.one.statement(self.row)?;
        self.perform_at_each_call(replays, &statement)
    }

    fn perform_at_each_call(
        &self,
        replays: &mut Replays<'_>,
        statement: &Statement,
    ) -> Result<(), Fault> {
        for n in 1..MOST_CALLS {
            let is_done = self.check_failure(&mut replays.one, statement, n)?;
            if self.before != self.after {
                self.check_stop(replays, statement, n)?;
            }
            if is_done {
                return Ok(());
            }
        }
        Err(Fault::Spelling("a statement has no end"))
    }
}
