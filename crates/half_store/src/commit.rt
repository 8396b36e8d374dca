//! What is in memory is written.
ghost use Rattle.std.specs.Prelude.{◌≡◌, ◌≤◌, ◌<◌, ◌+◌, true, false, ℕ, List, length, Err, OnOk, OnErr, IfOk, IfErr};
ghost use Rattle.station.specs.History.{Through};
ghost use Rattle.station.specs.Blocks.{CrashLeaves};
ghost use Rattle.station.specs.Calls.{OnlyWrites};
ghost use Rattle.records.specs.Files.{Files};
ghost use Rattle.records.specs.Stores.{is_change, Either};
ghost use Rattle.half_store.specs.Spelled.{files_bytes};
ghost use Rattle.file_bytes.specs.Stored.{files_of};
ghost use Rattle.half_store.specs.Half.{Holds, Rests, AreHalfFiles};
ghost use Rattle.half_store.specs.Write.{IsFull, IsCause};
ghost use Rattle.half_store.specs.Settled.{CommitsFiles};

use crate::halves::write_half;
use crate::spelling::spell;
use crate::store::HalfStore;
use records::{Outcome, StoreFault};
use station::Device;

impl HalfStore {
    /// Writes the files in memory.
    fn write<D: Device>(&mut self, device: &mut D) -> Result<(), StoreFault>
        requires device { self.old.sectors ≤ D.sectors device.old }
        ensures only { OnlyWrites D.Device (result ≡ Err StoreFault.Device) device.old device.new }
        ensures rest { self.new ≡ record self.old { generation = self.new.generation } }
        ensures cause { IfErr result IsCause }
        ensures full { result ≡ Err StoreFault.Full → IsFull self.old.sectors self.old.generation
            (length (files_bytes (files_of self.old.files.items))) }
        ensures unwritten { result ≡ Err StoreFault.Full → D.is_honest device.old
            → D.state device.new ≡ D.state device.old }
        ensures moments { D.is_honest device.old → (before : Files)
            → Rests self.old.sectors self.old.generation (D.state device.old).disk before
            → AreHalfFiles (self.old.generation + 1) (files_of self.old.files.items) →
            Through (D.history device.old) (D.history device.new) (D.state device.new) (CrashLeaves
            (D.state device.old).events (Either Holds before (files_of self.old.files.items))) }
        ensures rests { D.is_honest device.old → (before : Files)
            → Rests self.old.sectors self.old.generation (D.state device.old).disk before
            → AreHalfFiles (self.old.generation + 1) (files_of self.old.files.items) →
            OnOk result (Rests self.new.sectors self.new.generation (D.state device.new).disk
            (files_of self.old.files.items)) }
    {
        let mut bytes = spell(self.alloc, &self.files)?;
        write_half(
            self.alloc,
            device,
            self.sectors,
            self.generation,
            &mut bytes,
        )?;
        self.generation += 1;
        Ok(())
    }

    /// Writes the files in memory where an outcome tells of a change. The store, which is spent meanwhile, is so no longer after `Ok`.
    pub(crate) fn commit_files<D: Device>(
        &mut self,
        device: &mut D,
        outcome: Outcome,
    ) -> Result<Outcome, StoreFault>
        requires device { self.old.sectors ≤ D.sectors device.old }
        ensures only { OnlyWrites D.Device (result ≡ Err StoreFault.Device) device.old device.new }
        ensures sectors { self.new.sectors ≡ self.old.sectors }
        ensures outcome { IfOk result (λ told. told ≡ outcome) }
        ensures unspent { OnOk result (self.new.spent ≡ false) }
        ensures spent { OnErr result (self.new.spent ≡ self.old.spent) }
        ensures cause { IfErr result IsCause }
        ensures idle { is_change outcome ≡ false → D.is_honest device.old
            → D.state device.new ≡ D.state device.old }
        ensures changes { result ≡ Err StoreFault.Full → is_change outcome ≡ true }
        ensures unwritten { result ≡ Err StoreFault.Full → D.is_honest device.old
            → D.state device.new ≡ D.state device.old }
        ensures settles { (before after : Files) → D.is_honest device.old
            → Rests self.old.sectors self.old.generation (D.state device.old).disk before
            → files_of self.old.files.items ≡ after
            → AreHalfFiles (self.old.generation + 1) after
            → (is_change outcome ≡ false → after ≡ before)
            → CommitsFiles D.Device result self.old.sectors self.old.generation before after
            device.old self.new device.new }
    {
        if !is_done(outcome) {
            self.spent = false;
            return Ok(outcome);
        }
        self.write(device)?;
        self.spent = false;
        Ok(outcome)
    }
}

fn is_done(outcome: Outcome) -> bool
    ensures { result ≡ is_change outcome }
{
    match outcome {
        Outcome::Done => true,
        Outcome::Duplicate => true,
        _ => false,
    }
}
