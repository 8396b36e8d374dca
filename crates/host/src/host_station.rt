//! A station on the host: console lines come from a reader, shown bytes go to a writer, and the sectors are those of a device.
//!
//! It counts its failures and claims nothing more. It may print each file statement to a third writer, whose failures don't count.

ghost use Rattle.std.specs.Prelude.{◌≡◌, ◌<◌, ◌≤◌, [], length, IfOk, IfSome, OnOk};
ghost use Rattle.std.specs.Io.Buffered.{writer_buffer, writer_contents};
ghost use Rattle.std.specs.Io.KnownBytes.{Appends, Keeps};
ghost use Rattle.station.specs.Disk.{sector_at};
ghost use Rattle.station.specs.Failures.{CountsFailure};
ghost use Rattle.station.specs.State.{wrote, state_after_sync};
ghost use Rattle.host.specs.Unknown.{nothing_known};
ghost use Rattle.host.specs.Traced.{Tells, traced_line};

use crate::console::take_line;
use crate::file_trace::trace_statement;
use station::{Device, DeviceError, Note, Station, TracedStatement};
use std::alloc::Global;
use std::io;
use std::io::{BufRead, BufWriter, Write};

/// What a program shows may wait in `out` until the next console line, note, write or sync, or the end of the run.
#[derive(Drop)]
pub struct HostStation<C, O: Write + Drop, E, D> {
    alloc: Global,
    console: C,
    out: BufWriter<O>,
    /// Whether something was shown since `out` was flushed.
    has_shown: bool,
    /// Where file statements are printed, if anywhere.
    trace: Option<E>,
    failures: u64,
    volume: D,
}

impl<C, O, E, D> HostStation<C, O, E, D>
where
    C: BufRead + Drop,
    O: Write + Drop,
    E: Write + Drop,
    D: Device + Drop,
{
    /// A station over this volume, which hasn't failed yet.
    pub fn new(
        alloc: Global,
        console: C,
        out: O,
        trace: Option<E>,
        volume: D,
    ) -> io::Result<HostStation<C, O, E, D>>
        ensures volume { IfOk result (λ station. station.volume ≡ volume) }
        ensures trace { IfOk result (λ station. station.trace ≡ trace) }
    {
        Ok(HostStation {
            alloc,
            console,
            out: BufWriter::new(alloc, out)?,
            has_shown: false,
            trace,
            failures: 0,
            volume,
        })
    }

    /// Hands what was shown on to the writer, and flushes that, if something was shown since the last flush.
    pub fn flush(&mut self) -> Result<(), DeviceError>
        ensures failures { CountsFailure result self.old.failures self.new.failures }
        ensures volume { self.new.volume ≡ self.old.volume }
        ensures shown { OnOk result (writer_buffer self.new.out ≡ []) }
        ensures kept { let contents = writer_contents O.contents in
            Keeps (contents self.old.out) (contents self.new.out) }
    {
        if !self.has_shown && self.out.buffer().is_empty() {
            return Ok(());
        }
        let done = self.out.flush();
        self.has_shown = done.is_err();
        self.count_failure(done)
    }

    /// Counts a call that failed.
    fn count_failure<T: Drop, F: Drop>(&mut self, done: Result<T, F>) -> Result<T, DeviceError>
        ensures failures { CountsFailure result self.old.failures self.new.failures }
        ensures volume { self.new.volume ≡ self.old.volume }
        ensures out { self.new.out ≡ self.old.out }
        ensures value { IfOk result (λ value. done ≡ Ok value) }
    {
        match done {
            Ok(value) => Ok(value),
            Err(_) => {
                self.failures = self.failures.saturating_add(1);
                Err(DeviceError::Failed)
            }
        }
    }
}

impl<C, O, E, D> Device for HostStation<C, O, E, D>
where
    C: BufRead + Drop,
    O: Write + Drop,
    E: Write + Drop,
    D: Device + Drop,
{
    ghost is_honest = { λ _. ⊥ };

    ghost state = { λ _. nothing_known };

    ghost history = { λ _. [] };

    ghost failures = { λ station. station.failures };

    ghost sectors = { λ station. D.sectors station.volume };

    ghost all_present = { λ _ honest. absurd honest };

    ghost all_stable = { λ _ honest. absurd honest };

    ghost newest = { λ _ honest. absurd honest };

    ghost possible = { λ _ honest. absurd honest };

    fn count(&self) -> u32 {
        self.volume.count()
    }

    fn read(&mut self, sector: u32, bytes: &mut [u8; 4096]) -> Result<(), DeviceError>
        requires { sector < D.sectors self.old.volume }
        ensures sectors { D.sectors self.new.volume ≡ D.sectors self.old.volume }
        ensures failures { CountsFailure result self.old.failures self.new.failures }
        ensures bytes { D.is_honest self.old.volume →
            OnOk result (bytes.new ≡ sector_at (D.state self.old.volume).disk.present sector) }
    {
        let done = self.volume.read(sector, bytes);
        self.count_failure(done)
    }

    fn write(&mut self, sector: u32, bytes: &[u8; 4096]) -> Result<(), DeviceError>
        requires { sector < D.sectors self.old.volume }
        ensures sectors { D.sectors self.new.volume ≡ D.sectors self.old.volume }
        ensures failures { CountsFailure result self.old.failures self.new.failures }
        ensures shown { OnOk result (writer_buffer self.new.out ≡ []) }
        ensures wrote { D.is_honest self.old.volume →
            OnOk result
            (D.state self.new.volume ≡ wrote (D.state self.old.volume) sector bytes.now) }
    {
        self.flush()?;
        let done = self.volume.write(sector, bytes);
        self.count_failure(done)
    }

    fn sync(&mut self) -> Result<(), DeviceError>
        ensures sectors { D.sectors self.new.volume ≡ D.sectors self.old.volume }
        ensures failures { CountsFailure result self.old.failures self.new.failures }
        ensures shown { OnOk result (writer_buffer self.new.out ≡ []) }
        ensures synced { D.is_honest self.old.volume →
            OnOk result (D.state self.new.volume ≡ state_after_sync (D.state self.old.volume)) }
    {
        self.flush()?;
        let done = self.volume.sync();
        self.count_failure(done)
    }
}

impl<C, O, E, D> Station for HostStation<C, O, E, D>
where
    C: BufRead + Drop,
    O: Write + Drop,
    E: Write + Drop,
    D: Device + Drop,
{
    fn line(&mut self, into: &mut [u8]) -> Result<Option<usize>, DeviceError>
        ensures volume { self.new.volume ≡ self.old.volume }
        ensures failures { CountsFailure result self.old.failures self.new.failures }
        ensures shown { OnOk result (writer_buffer self.new.out ≡ []) }
        ensures bound { IfOk result (λ taken. IfSome taken (λ n. n ≤ length into.old)) }
    {
        self.flush()?;
        let taken = take_line(&mut self.console, into);
        self.count_failure(taken)
    }

    fn show(&mut self, bytes: &[u8]) -> Result<(), DeviceError>
        ensures volume { self.new.volume ≡ self.old.volume }
        ensures failures { CountsFailure result self.old.failures self.new.failures }
        ensures appended { let contents = writer_contents O.contents in
            OnOk result (Appends (contents self.old.out) (contents self.new.out) bytes.now) }
    {
        self.has_shown = true;
        let done = self.out.write_all(bytes);
        self.count_failure(done)
    }

    fn note(&mut self, _note: Note) -> Result<(), DeviceError>
        ensures volume { self.new.volume ≡ self.old.volume }
        ensures failures { CountsFailure result self.old.failures self.new.failures }
        ensures shown { OnOk result (writer_buffer self.new.out ≡ []) }
    {
        self.flush() // No status overtakes what was shown before it.
    }

    fn trace(&mut self, statement: &TracedStatement)
        ensures volume { self.new.volume ≡ self.old.volume }
        ensures failures { self.new.failures ≡ self.old.failures }
        ensures out { self.new.out ≡ self.old.out }
        ensures told { Tells E.contents self.old.trace self.new.trace (traced_line statement.now) }
    {
        if let Some(trace) = &mut self.trace {
            trace_statement(self.alloc, trace, statement);
        }
    }
}
