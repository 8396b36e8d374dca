//! A station in memory, which can be made to fail, to stop and to crash.
ghost use Rattle.std.specs.Prelude.{◌≡◌, ◌<◌, ◌≤◌, ◌^◌, [], ◌∷◌, length, IfOk, IfSome, IsOk, IsErr, OnOk, OnErr, ℕ, take};
ghost use Rattle.station.specs.Replay.{made_of, state_after_calls, since};
ghost use Rattle.station.specs.Disk.{IsCrashImage, sector_at};
ghost use Rattle.station.specs.State.{wrote, state_after_failed_write, state_after_sync, state_after_note, MayHaveWritten, TakesLine, bytes_of, notes_of};
ghost use Rattle.station.specs.History.{EachImage, Moves, Shows};
ghost use Rattle.station.specs.Failures.{CountsFailure};
ghost use Rattle.station.specs.Choice.{state_after_crash};
ghost use Rattle.station.specs.Plan.{fate_of, saturated_successor};
ghost use Rattle.station.specs.Sectors.{all_present_after, all_stable_after};
ghost use Rattle.station.specs.Possible.{all_possible_after};
ghost use Rattle.station.specs.Newest.{since_ends};

use crate::call::Call;
use crate::journal::Journal;
use crate::plan::{Fate, Plan};
use crate::{Device, DeviceError, Note, Station};
use std::alloc::{AllocError, Global};

/// It keeps a record of its calls. A call for which that can't grow fails and does nothing.
#[derive(Drop)]
pub struct MemoryStation {
    journal: Journal,
    plan: Plan,
    failures: u64,
    refused: u64,
    reads: u64,
    writes: u64,
    syncs: u64,
}

impl MemoryStation {
    ghost use Rattle.station.specs.Memory.{Memory, memory, memory_after_failure};

    /// A station with these sectors, all of them durable, and these console lines.
    pub fn new(
        alloc: Global,
        sectors: Vec<[u8; 4096]>,
        lines: Vec<Vec<u8>>,
    ) -> Result<Self, AllocError>
        requires { length sectors.items < 2 ^ 32 }
        ensures { let start = made_of sectors.items lines.items in
            IfOk result (λ m. memory m ≡ record {
              sectors = length sectors.items;
              state = start;
              history = start ∷ [];
              plan = Plan.Works;
              failures = 0;
              refused = 0;
              reads = 0;
              writes = 0;
              syncs = 0;
            }) }
    {
        Ok(MemoryStation {
            journal: Journal::new(alloc, sectors, lines)?,
            plan: Plan::Works,
            failures: 0,
            refused: 0,
            reads: 0,
            writes: 0,
            syncs: 0,
        })
    }

    /// Makes the n-th call from now on fail, counted from 1; 0 is taken as 1. `count` is no such call. A write keeps the sector's value, and a crash may yet leave the new one.
    pub fn fail_at(&mut self, n: u64)
        ensures { memory self.new ≡ record (memory self.old) { plan = Plan.FailsAt n } }
    {
        self.plan = Plan::FailsAt(n);
    }

    /// The same, and makes all later calls fail and do nothing.
    pub fn stop_at(&mut self, n: u64)
        ensures { memory self.new ≡ record (memory self.old) { plan = Plan.StopsAt n } }
    {
        self.plan = Plan::StopsAt(n);
    }

    /// Ends a stop. The i-th sector with writes since the last sync, in order of number, is left at its stable value
    /// where the i-th choice is 0, and else at the value of that write. A missing choice is 0, a greater one the last.
    pub fn crash(&mut self, choose: &[u32])
        ensures memory { let left = state_after_crash (memory self.old).state choose.now in
            memory self.new
            ≡ record (memory self.old) { state = left; history = left ∷ []; plan = Plan.Works } }
        ensures image { IsCrashImage (memory self.old).state.disk
            (memory self.new).state.disk.present }
        ensures alone { EachImage (λ image. image ≡ (memory self.new).state.disk.present)
            (memory self.new).state }
    {
        self.journal.crash(choose);
        self.plan = Plan::Works;
    }

    /// The bytes that were shown.
    pub fn shown(&self) -> Result<Vec<u8>, AllocError>
        ensures { IfOk result (λ shown. shown.items ≡ bytes_of (memory self.now).state.events) }
    {
        self.journal.shown()
    }

    /// The statuses that were received.
    pub fn notes(&self) -> Result<Vec<Note>, AllocError>
        ensures { IfOk result (λ notes. notes.items ≡ notes_of (memory self.now).state.events) }
    {
        self.journal.notes()
    }

    /// How often a sector was to be read.
    pub fn reads(&self) -> u64
        ensures { result ≡ (memory self.now).reads }
    {
        self.reads
    }

    /// How often a sector was to be written.
    pub fn writes(&self) -> u64
        ensures { result ≡ (memory self.now).writes }
    {
        self.writes
    }

    /// How often a sync was asked for.
    pub fn syncs(&self) -> u64
        ensures { result ≡ (memory self.now).syncs }
    {
        self.syncs
    }

    /// How often the record of calls couldn't grow.
    pub fn refused(&self) -> u64
        ensures { result ≡ (memory self.now).refused }
    {
        self.refused
    }

    /// Fails, and counts that.
    fn fail<T>(&mut self) -> Result<T, DeviceError>
        ensures err { result ≡ Err DeviceError.Failed }
        ensures failures { CountsFailure result self.old.failures self.new.failures }
        ensures memory { memory self.new ≡ memory_after_failure (memory self.old) }
        ensures journal { self.new.journal ≡ self.old.journal }
    {
        self.failures = self.failures.saturating_add(1);
        Err(DeviceError::Failed)
    }

    /// Answers as a call does whose record grew, or couldn't.
    fn grown<T>(&mut self, grown: Result<T, AllocError>) -> Result<T, DeviceError>
        ensures ok { (x : T) → grown ≡ Ok x → result ≡ Ok x }
        ensures err { (e : _) → grown ≡ Err e → result ≡ Err DeviceError.Failed }
        ensures failures { CountsFailure result self.old.failures self.new.failures }
        ensures same { IsOk grown → memory self.new ≡ memory self.old }
        ensures refused { IsErr grown → memory self.new ≡ memory_after_failure
            (record (memory self.old) { refused = saturated_successor (memory self.old).refused }) }
        ensures journal { self.new.journal ≡ self.old.journal }
    {
        match grown {
            Ok(value) => Ok(value),
            Err(_) => {
                self.refused = self.refused.saturating_add(1);
                self.fail()
            }
        }
    }
}

impl Device for MemoryStation {
    ghost use Rattle.station.specs.Journal.{journal_state, journal_history, journal_sectors};
    ghost use Rattle.station.specs.Memory.{memory, memory_after_read, memory_after_write, memory_after_sync, with_state, Obeys, Follows};

    ghost is_honest = { λ _. Unit {0} };

    ghost state = { λ m. journal_state m.journal };

    ghost history = { λ m. journal_history m.journal };

    ghost failures = { λ m. m.failures };

    ghost sectors = { λ m. journal_sectors m.journal };

    ghost all_present = { λ m _.
        all_present_after m.journal.start.items m.journal.lines.items m.journal.calls.items };

    ghost all_stable = { λ m _.
        all_stable_after m.journal.start.items m.journal.lines.items m.journal.calls.items };

    ghost newest = { λ m _. since_ends (made_of m.journal.start.items m.journal.lines.items)
        m.journal.calls.items m.journal.before };

    ghost possible = { λ m _.
        all_possible_after m.journal.start.items m.journal.lines.items m.journal.calls.items };

    fn count(&self) -> u32 {
        self.journal.count()
    }

    fn read(&mut self, sector: u32, bytes: &mut [u8; 4096]) -> Result<(), DeviceError>
        requires { sector < (memory self.old).sectors }
        ensures sectors { (memory self.new).sectors ≡ (memory self.old).sectors }
        ensures failures { CountsFailure result (memory self.old).failures
            (memory self.new).failures }
        ensures state { (memory self.new).state ≡ (memory self.old).state }
        ensures history { (memory self.new).history ≡ (memory self.old).history }
        ensures memory { Obeys (fate_of (memory self.old).plan)
            (memory_after_read (memory self.old)) result (memory self.new) }
        ensures bytes { OnOk result
            (bytes.new ≡ sector_at (memory self.old).state.disk.present sector) }
    {
        let fate = self.plan.step();
        fate.count(&mut self.reads);
        if fate != Fate::Works {
            return self.fail();
        }
        self.journal.read(sector, bytes);
        Ok(())
    }

    fn write(&mut self, sector: u32, bytes: &[u8; 4096]) -> Result<(), DeviceError>
        requires { sector < (memory self.old).sectors }
        ensures sectors { (memory self.new).sectors ≡ (memory self.old).sectors }
        ensures failures { CountsFailure result (memory self.old).failures
            (memory self.new).failures }
        ensures wrote { OnOk result
            ((memory self.new).state ≡ wrote (memory self.old).state sector bytes.now) }
        ensures perhaps { MayHaveWritten (memory self.old).state sector bytes.now
            (memory self.new).state }
        ensures moves { Moves (memory self.old).history (memory self.old).state
            (memory self.new).history (memory self.new).state }
        ensures memory { let m = memory self.old in let begun = memory_after_write m in
            Follows (fate_of m.plan) begun (with_state begun (wrote m.state sector bytes.now))
            (with_state begun
            (state_after_failed_write m.state sector bytes.now)) result (memory self.new) }
    {
        let fate = self.plan.step();
        fate.count(&mut self.writes);
        match fate {
            Fate::Works => {
                let grown = self.journal.write(sector, bytes);
                self.grown(grown)
            }
            Fate::Fails => {
                let grown = self.journal.keep(sector, bytes);
                self.grown(grown)?;
                self.fail()
            }
            Fate::Stopped => self.fail(),
        }
    }

    fn sync(&mut self) -> Result<(), DeviceError>
        ensures sectors { (memory self.new).sectors ≡ (memory self.old).sectors }
        ensures failures { CountsFailure result (memory self.old).failures
            (memory self.new).failures }
        ensures synced { OnOk result
            ((memory self.new).state ≡ state_after_sync (memory self.old).state) }
        ensures unsynced { OnErr result ((memory self.new).state ≡ (memory self.old).state) }
        ensures moves { Moves (memory self.old).history (memory self.old).state
            (memory self.new).history (memory self.new).state }
        ensures memory { let m = memory self.old in let begun = memory_after_sync m in
            Follows (fate_of m.plan) begun (with_state begun (state_after_sync m.state)) begun
            result
            (memory self.new) }
    {
        let fate = self.plan.step();
        fate.count(&mut self.syncs);
        if fate != Fate::Works {
            return self.fail();
        }
        let grown = self.journal.add(Call::Sync);
        self.grown(grown)
    }
}

impl Station for MemoryStation {
    ghost use Rattle.station.specs.Memory.{memory, memory_after_call, with_state, memory_after_show, memory_after_line, Follows};

    fn line(&mut self, into: &mut [u8]) -> Result<Option<usize>, DeviceError>
        ensures sectors { (memory self.new).sectors ≡ (memory self.old).sectors }
        ensures failures { CountsFailure result (memory self.old).failures
            (memory self.new).failures }
        ensures untaken { OnErr result ((memory self.new).state ≡ (memory self.old).state) }
        ensures moves { Moves (memory self.old).history (memory self.old).state
            (memory self.new).history (memory self.new).state }
        ensures bound { IfOk result (λ taken. IfSome taken (λ n. n ≤ length into.old)) }
        ensures taken { IfOk result (λ taken.
            TakesLine (memory self.old).state into.old taken into.new (memory self.new).state) }
        ensures memory { let m = memory self.old in let begun = memory_after_call m in
            Follows (fate_of m.plan) begun (memory_after_line begun) begun result
            (memory self.new) }
    {
        let takes = self.plan.step() == Fate::Works;
        if !takes {
            return self.fail();
        }
        let grown = self.journal.line(into);
        self.grown(grown)
    }

    fn show(&mut self, bytes: &[u8]) -> Result<(), DeviceError>
        ensures sectors { (memory self.new).sectors ≡ (memory self.old).sectors }
        ensures failures { CountsFailure result (memory self.old).failures
            (memory self.new).failures }
        ensures shown { OnOk result (Shows (memory self.old).history (memory self.old).state
            bytes.now (memory self.new).history (memory self.new).state) }
        ensures cut { (n : ℕ) × Shows (memory self.old).history (memory self.old).state
            (take n bytes.now) (memory self.new).history (memory self.new).state }
        ensures memory { let m = memory self.old in let begun = memory_after_call m in
            Follows (fate_of m.plan) begun (memory_after_show begun bytes.now) begun result
            (memory self.new) }
    {
        let shows = self.plan.step() == Fate::Works;
        if !shows {
            return self.fail();
        }
        let grown = self.journal.show(bytes);
        self.grown(grown)
    }

    fn note(&mut self, note: Note) -> Result<(), DeviceError>
        ensures sectors { (memory self.new).sectors ≡ (memory self.old).sectors }
        ensures failures { CountsFailure result (memory self.old).failures
            (memory self.new).failures }
        ensures noted { OnOk result
            ((memory self.new).state ≡ state_after_note (memory self.old).state note) }
        ensures unheard { OnErr result ((memory self.new).state ≡ (memory self.old).state) }
        ensures moves { Moves (memory self.old).history (memory self.old).state
            (memory self.new).history (memory self.new).state }
        ensures memory { let m = memory self.old in let begun = memory_after_call m in
            Follows (fate_of m.plan) begun (with_state begun (state_after_note m.state note)) begun
            result
            (memory self.new) }
    {
        let hears = self.plan.step() == Fate::Works;
        if !hears {
            return self.fail();
        }
        let grown = self.journal.add(Call::Hear(note));
        self.grown(grown)
    }
}
