//! The call of the store that changes a row.
ghost use Rattle.std.specs.Prelude.{◌≡◌, ◌≢◌, ◌≤◌, true, false, Err, IfOk};
ghost use Rattle.records.specs.Files.{File, Files};
ghost use Rattle.records.specs.Stores.{spec_of, Has, is_change, files_after};
ghost use Rattle.records.specs.Calls.{Represents, Changes, Spends, ChangesFiles};
ghost use Rattle.alternate_keys.specs.Moved.{IsAsked, changed_by};

use crate::changing::change_in;
use crate::row_verb::RowVerb;
use crate::store::PagedStore;
use records::{FileSpec, Keeps, Outcome, StoreFault};
use station::Device;

impl PagedStore {
    /// Changes a row of a file. The bytes are a record, or the prime key of a row that leaves.
    pub(crate) fn change<D: Device>(
        &mut self,
        device: &mut D,
        file: &FileSpec,
        verb: RowVerb,
        number: u64,
        bytes: &[u8],
    ) -> Result<Outcome, StoreFault>
        requires device { ⟦<PagedStore as Keeps>⟧.needs self.old ≤ D.sectors device.old }
        requires asked { IsAsked verb (spec_of file.now) number bytes.now }
        ensures changes { Changes ⟦<PagedStore as Keeps>⟧ D.Device result self.old device.old
            self.new device.new }
        ensures spends { Spends ⟦<PagedStore as Keeps>⟧ result self.old self.new }
        ensures outcome { (files : Files) (held : File)
            → Represents ⟦<PagedStore as Keeps>⟧ D.Device self.old device.old files
            → Has files file.now held →
            IfOk result (λ outcome. outcome
            ≡ (changed_by verb file.now.organization number bytes.now held).outcome) }
        ensures turns { (files : Files) (held : File)
            → Represents ⟦<PagedStore as Keeps>⟧ D.Device self.old device.old files
            → Has files file.now held →
            ChangesFiles ⟦<PagedStore as Keeps>⟧ D.Device result false file.now.name.items files
            (files_after file.now.name.items files (changed_by verb file.now.organization number
            bytes.now held)) self.old device.old self.new device.new }
        ensures full { (files : Files) (held : File)
            → Represents ⟦<PagedStore as Keeps>⟧ D.Device self.old device.old files
            → Has files file.now held →
            result ≡ Err StoreFault.Full → is_change
            (changed_by verb file.now.organization number bytes.now held).outcome ≡ true }
        ensures makes_none { result ≢ Err StoreFault.Old }
        ensures idle { D.is_honest device.old → IfOk result (λ outcome. is_change outcome ≡ false
            → D.state device.new ≡ D.state device.old) }
    {
        if self.spent {
            return Err(StoreFault::Spent);
        }
        self.notes.clear();
        match change_in(
            self.alloc,
            &mut self.pages,
            device,
            file,
            verb,
            number,
            bytes,
        ) {
            Ok(outcome) => Ok(outcome),
            Err(fault) => {
                self.spent = true;
                Err(fault)
            }
        }
    }
}
