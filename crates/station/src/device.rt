//! A disk of sectors of 4,096 bytes, and a station: a disk with a console.
//!
//! On a device that isn't honest each call still returns, and says nothing more than that it counts its failures.
ghost use Rattle.std.specs.Prelude.{◌≡◌, ◌<◌, ◌≤◌, ◌↔◌, ℕ, List, length, take, OnOk, OnErr, IfOk, IfSome};
ghost use Rattle.station.specs.Disk.{sector_at, IsCrashImage};
ghost use Rattle.station.specs.State.{State, wrote, state_after_sync, state_after_note, MayHaveWritten, TakesLine};
ghost use Rattle.station.specs.History.{Moves, Shows, EndsIn};
ghost use Rattle.station.specs.Failures.{CountsFailure};

use crate::{Note, TracedStatement};
use thiserror::Error;

/// Why a call on a device failed.
#[derive(Clone, Copy, Debug, PartialEq, Eq, Error)]
pub enum DeviceError {
    #[error("the device failed")]
    Failed,
}

/// The number of each error of a device.
const DEVICE: u8 = 1;

impl DeviceError {
    /// The number by which a refusal is told.
    pub fn number(self) -> u8
        ensures { result ≡ 1 }
    {
        DEVICE
    }
}

/// A disk of sectors, from sector 0 on.
pub trait Device {
    /// It does what the clauses say. Each call keeps that, in both directions.
    ghost is_honest: { Self → Type 0 };

    /// What there is of it now.
    ghost state: { Self → State };

    /// Each state so far, the first of them first.
    ghost history: { Self → List State };

    /// How often it has failed.
    ghost failures: { Self → ℕ };

    /// How many sectors it has.
    ghost sectors: { Self → ℕ };

    fn count(&self) -> u32
        ensures { result ≡ sectors self.now };

    /// Reads a sector.
    fn read(&mut self, sector: u32, bytes: &mut [u8; 4096]) -> Result<(), DeviceError>
        requires { sector < sectors self.old }
        ensures honest { is_honest self.old ↔ is_honest self.new }
        ensures sectors { sectors self.new ≡ sectors self.old }
        ensures failures { CountsFailure result (failures self.old) (failures self.new) }
        ensures bytes { is_honest self.old
            → OnOk result (bytes.new ≡ sector_at (state self.old).disk.present sector) }
        ensures state { is_honest self.old → state self.new ≡ state self.old }
        ensures history { is_honest self.old → history self.new ≡ history self.old };

    /// Writes a sector. Until a sync, a crash may leave what it held before.
    fn write(&mut self, sector: u32, bytes: &[u8; 4096]) -> Result<(), DeviceError>
        requires { sector < sectors self.old }
        ensures honest { is_honest self.old ↔ is_honest self.new }
        ensures sectors { sectors self.new ≡ sectors self.old }
        ensures failures { CountsFailure result (failures self.old) (failures self.new) }
        ensures wrote { is_honest self.old
            → OnOk result (state self.new ≡ wrote (state self.old) sector bytes.now) }
        ensures perhaps { is_honest self.old
            → MayHaveWritten (state self.old) sector bytes.now (state self.new) }
        ensures moves { is_honest self.old
            → Moves (history self.old) (state self.old) (history self.new) (state self.new) };

    /// After it, a crash leaves what a read gives.
    fn sync(&mut self) -> Result<(), DeviceError>
        ensures honest { is_honest self.old ↔ is_honest self.new }
        ensures sectors { sectors self.new ≡ sectors self.old }
        ensures failures { CountsFailure result (failures self.old) (failures self.new) }
        ensures synced { is_honest self.old
            → OnOk result (state self.new ≡ state_after_sync (state self.old)) }
        ensures unsynced { is_honest self.old → OnErr result (state self.new ≡ state self.old) }
        ensures moves { is_honest self.old
            → Moves (history self.old) (state self.old) (history self.new) (state self.new) };

    /// An honest disk has a value for each sector.
    ghost all_present: { (device : Self) → is_honest device
        → length (state device).disk.present ≡ sectors device };

    ghost all_stable: { (device : Self) → is_honest device
        → length (state device).disk.stable ≡ sectors device };

    /// The newest state of its history is the one that it is in.
    ghost newest: { (device : Self) → is_honest device → EndsIn (history device) (state device) };

    /// What a read gives is possible after a crash.
    ghost possible: { (device : Self) → is_honest device
        → IsCrashImage (state device).disk (state device).disk.present };
}

/// A disk with a console, on one clock.
pub trait Station: Device {
    /// Takes the next console line. What doesn't fit is dropped. `None` means that there is no other.
    fn line(&mut self, into: &mut [u8]) -> Result<Option<usize>, DeviceError>
        ensures honest { Self.is_honest self.old ↔ Self.is_honest self.new }
        ensures sectors { Self.sectors self.new ≡ Self.sectors self.old }
        ensures failures { CountsFailure result (Self.failures self.old) (Self.failures self.new) }
        ensures bound { IfOk result (λ taken. IfSome taken (λ n. n ≤ length into.old)) }
        ensures taken { Self.is_honest self.old → IfOk result (λ taken.
            TakesLine (Self.state self.old) into.old taken into.new (Self.state self.new)) }
        ensures untaken { Self.is_honest self.old
            → OnErr result (Self.state self.new ≡ Self.state self.old) }
        ensures moves { Self.is_honest self.old → Moves (Self.history self.old)
            (Self.state self.old) (Self.history self.new) (Self.state self.new) };

    /// Shows bytes. Where it fails, it may have shown any beginning of them.
    fn show(&mut self, bytes: &[u8]) -> Result<(), DeviceError>
        ensures honest { Self.is_honest self.old ↔ Self.is_honest self.new }
        ensures sectors { Self.sectors self.new ≡ Self.sectors self.old }
        ensures failures { CountsFailure result (Self.failures self.old) (Self.failures self.new) }
        ensures shown { Self.is_honest self.old → OnOk result (Shows (Self.history self.old)
            (Self.state self.old) bytes.now (Self.history self.new) (Self.state self.new)) }
        ensures cut { Self.is_honest self.old
            → (n : ℕ) × Shows (Self.history self.old) (Self.state self.old) (take n bytes.now)
            (Self.history self.new) (Self.state self.new) };

    /// Hears of a status that the program received. A failed note isn't heard.
    fn note(&mut self, note: Note) -> Result<(), DeviceError>
        ensures honest { Self.is_honest self.old ↔ Self.is_honest self.new }
        ensures sectors { Self.sectors self.new ≡ Self.sectors self.old }
        ensures failures { CountsFailure result (Self.failures self.old) (Self.failures self.new) }
        ensures noted { Self.is_honest self.old
            → OnOk result (Self.state self.new ≡ state_after_note (Self.state self.old) note) }
        ensures unheard { Self.is_honest self.old
            → OnErr result (Self.state self.new ≡ Self.state self.old) }
        ensures moves { Self.is_honest self.old → Moves (Self.history self.old)
            (Self.state self.old) (Self.history self.new) (Self.state self.new) };

    /// May tell a person of a file statement. Nothing changes by it, and no failure of the telling counts.
    fn trace(&mut self, _statement: &TracedStatement)
        ensures honest { Self.is_honest self.old ↔ Self.is_honest self.new }
        ensures sectors { Self.sectors self.new ≡ Self.sectors self.old }
        ensures failures { Self.failures self.new ≡ Self.failures self.old }
        ensures state { Self.is_honest self.old → Self.state self.new ≡ Self.state self.old }
        ensures history { Self.is_honest self.old → Self.history self.new ≡ Self.history self.old }
    {}
}
