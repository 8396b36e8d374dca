//! The record of the calls on a station in memory.
ghost use Rattle.std.specs.Prelude.{◌≡◌, ◌≤◌, ◌<◌, ◌^◌, length, IsFalse, IfOk, IfSome, OnOk, OnErr, ◌++◌, ◌∷◌, []};
ghost use Rattle.station.specs.Replay.{made_of, state_after_calls, next, passes, is_write};
ghost use Rattle.station.specs.Disk.{sector_at};
ghost use Rattle.station.specs.Choice.{state_after_crash};
ghost use Rattle.station.specs.State.{wrote, state_after_failed_write, state_after_show, states_while_showing, states_after_line, TakesLine, bytes_of, notes_of};

use crate::Note;
use crate::call::Call;
use crate::console::{overlay, taken_lines};
use crate::heard::{heard_notes, shown_bytes};
use crate::image::leave_image;
use std::alloc::{AllocError, Global};

/// What a station was made with, each call since that changed it, and the sectors as they are now.
#[derive(Drop)]
pub struct Journal {
    alloc: Global,
    start: Vec<[u8; 4096]>,
    present: Vec<[u8; 4096]>,
    lines: Vec<Vec<u8>>,
    calls: Vec<Call>,
    /// How many of the calls came before the last crash.
    before: usize,
    ghost few_sectors: { length start.items < 2 ^ 32 },
    ghost current: { present.items
        ≡ (state_after_calls (made_of start.items lines.items) calls.items).disk.present },
    ghost before_within: { before ≤ length calls.items },
}

impl Journal {
    ghost use Rattle.station.specs.Journal.{journal_state, journal_history, journal_sectors};

    /// No call yet, on these sectors, all of them durable, and with these console lines.
    pub fn new(
        alloc: Global,
        sectors: Vec<[u8; 4096]>,
        lines: Vec<Vec<u8>>,
    ) -> Result<Journal, AllocError>
        requires { length sectors.items < 2 ^ 32 }
        ensures sectors { IfOk result (λ j. journal_sectors j ≡ length sectors.items) }
        ensures state { IfOk result (λ j. journal_state j ≡ made_of sectors.items lines.items) }
        ensures history { IfOk result
            (λ j. journal_history j ≡ made_of sectors.items lines.items ∷ []) }
    {
        let mut present = Vec::new(alloc);
        present.extend_from_slice(&sectors)?;
        Ok(Journal {
            alloc,
            start: sectors,
            present,
            lines,
            calls: Vec::new(alloc),
            before: 0,
        })
    }

    /// The number of sectors.
    pub fn count(&self) -> u32
        ensures { result ≡ journal_sectors self.now }
    {
        self.start.len() as u32
    }

    /// Copies the present bytes of a sector.
    pub fn read(&self, sector: u32, bytes: &mut [u8; 4096])
        requires { sector < journal_sectors self.now }
        ensures { bytes.new ≡ sector_at (journal_state self.now).disk.present sector }
    {
        *bytes = self.present[sector as usize];
    }

    /// Adds a call that writes no sector.
    pub fn add(&mut self, call: Call) -> Result<(), AllocError>
        requires { IsFalse (is_write call) }
        ensures lines { self.new.lines ≡ self.old.lines }
        ensures sectors { journal_sectors self.new ≡ journal_sectors self.old }
        ensures state { OnOk result (journal_state self.new ≡ next (journal_state self.old) call) }
        ensures history { OnOk result (journal_history self.new
            ≡ journal_history self.old ++ passes (journal_state self.old) call) }
        ensures same_state { OnErr result (journal_state self.new ≡ journal_state self.old) }
        ensures same_history { OnErr result (journal_history self.new ≡ journal_history self.old) }
    {
        self.calls.push(call)?;
        Ok(())
    }

    /// Adds a write.
    pub fn write(&mut self, sector: u32, bytes: &[u8; 4096]) -> Result<(), AllocError>
        requires { sector < journal_sectors self.old }
        ensures sectors { journal_sectors self.new ≡ journal_sectors self.old }
        ensures state { OnOk result
            (journal_state self.new ≡ wrote (journal_state self.old) sector bytes.now) }
        ensures history { OnOk result (journal_history self.new
            ≡ journal_history self.old ++ wrote (journal_state self.old) sector bytes.now ∷ []) }
        ensures same_state { OnErr result (journal_state self.new ≡ journal_state self.old) }
        ensures same_history { OnErr result (journal_history self.new ≡ journal_history self.old) }
    {
        let block = Box::new(self.alloc, *bytes)?;
        self.calls.push(Call::Write(sector, block))?;
        self.present[sector as usize] = *bytes;
        Ok(())
    }

    /// Adds a write that failed.
    pub fn keep(&mut self, sector: u32, bytes: &[u8; 4096]) -> Result<(), AllocError>
        ensures sectors { journal_sectors self.new ≡ journal_sectors self.old }
        ensures state { OnOk result (journal_state self.new
            ≡ state_after_failed_write (journal_state self.old) sector bytes.now) }
        ensures history { OnOk result (journal_history self.new ≡ journal_history self.old
            ++ state_after_failed_write (journal_state self.old) sector bytes.now ∷ []) }
        ensures same_state { OnErr result (journal_state self.new ≡ journal_state self.old) }
        ensures same_history { OnErr result (journal_history self.new ≡ journal_history self.old) }
    {
        let block = Box::new(self.alloc, *bytes)?;
        self.add(Call::Keep(sector, block))
    }

    /// Adds bytes that were shown.
    pub fn show(&mut self, bytes: &[u8]) -> Result<(), AllocError>
        ensures sectors { journal_sectors self.new ≡ journal_sectors self.old }
        ensures state { OnOk result
            (journal_state self.new ≡ state_after_show (journal_state self.old) bytes.now) }
        ensures history { OnOk result (journal_history self.new
            ≡ journal_history self.old ++ states_while_showing (journal_state self.old) bytes.now) }
        ensures same_state { OnErr result (journal_state self.new ≡ journal_state self.old) }
        ensures same_history { OnErr result (journal_history self.new ≡ journal_history self.old) }
    {
        let shown = bytes.to_vec(self.alloc)?;
        self.add(Call::Show(shown))
    }

    /// Puts the front of the next line into a buffer, as much as fits. `None` means that there is no other.
    pub fn line(&mut self, into: &mut [u8]) -> Result<Option<usize>, AllocError>
        ensures sectors { journal_sectors self.new ≡ journal_sectors self.old }
        ensures bound { IfOk result (λ taken. IfSome taken (λ n. n ≤ length into.old)) }
        ensures taken { IfOk result (λ taken.
            TakesLine (journal_state self.old) into.old taken into.new (journal_state self.new)) }
        ensures history { OnOk result (journal_history self.new
            ≡ journal_history self.old ++ states_after_line (journal_state self.old)) }
        ensures same_state { OnErr result (journal_state self.new ≡ journal_state self.old) }
        ensures same_history { OnErr result (journal_history self.new ≡ journal_history self.old) }
    {
        let taken = taken_lines(&self.calls);
        if taken >= self.lines.len() {
            return Ok(None);
        }
        self.add(Call::Take)?;
        Ok(Some(overlay(into, &self.lines[taken])))
    }

    /// Leaves an image of a crash, and begins anew with it. Console calls stay.
    pub fn crash(&mut self, choose: &[u32])
        ensures sectors { journal_sectors self.new ≡ journal_sectors self.old }
        ensures state { journal_state self.new
            ≡ state_after_crash (journal_state self.old) choose.now }
        ensures history { journal_history self.new
            ≡ state_after_crash (journal_state self.old) choose.now ∷ [] }
    {
        leave_image(&mut self.start, &self.calls, choose);
        self.calls.retain(|call| call.is_of_console());
        self.present.copy_from_slice(&self.start);
        self.before = self.calls.len();
    }

    /// The bytes that were shown.
    pub fn shown(&self) -> Result<Vec<u8>, AllocError>
        ensures { IfOk result (λ shown. shown.items ≡ bytes_of (journal_state self.now).events) }
    {
        shown_bytes(self.alloc, &self.calls)
    }

    /// The statuses that were received.
    pub fn notes(&self) -> Result<Vec<Note>, AllocError>
        ensures { IfOk result (λ notes. notes.items ≡ notes_of (journal_state self.now).events) }
    {
        heard_notes(self.alloc, &self.calls)
    }
}
