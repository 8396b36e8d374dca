//! A volume is made, and opened.
ghost use Rattle.std.specs.Prelude.{◌≡◌, ◌≤◌, ◌↔◌, false, [], IfOk, OnOk};
ghost use Rattle.station.specs.History.{EachImage};
ghost use Rattle.station.specs.Failures.{CountsFailure};
ghost use Rattle.pages.specs.Pages.{sectors_of, committed_of};
ghost use Rattle.pages.specs.Use.{free_count};
ghost use Rattle.volume_format.specs.Volume.{Holds};
ghost use Rattle.pages.specs.Opens.{LeavesPossible};
ghost use Rattle.alternate_keys.specs.Opened.{BlamesDevice, IsSynced, IsAtMostSynced, IsReadyOn, OpensMap, RefusesForImage, OpensWhatHolds, FailsIfForeign};
ghost use Rattle.alternate_keys.specs.Stands.{StandsForFiles};

use crate::notes::SearchNotes;
use crate::store::PagedStore;
use pages::PageMap;
use records::StoreFault;
use station::{Device, DeviceError};
use std::alloc::Global;
use volume_format::{empty_holds, to_fault};

/// Makes a volume of the device's size without files. What the device held before is gone.
pub fn format<D: Device>(device: &mut D) -> Result<(), DeviceError>
    requires least { 1024 ≤ D.sectors device.old }
    requires most { D.sectors device.old ≤ 921600 }
    ensures honest { D.is_honest device.old ↔ D.is_honest device.new }
    ensures sectors { D.sectors device.new ≡ D.sectors device.old }
    ensures failures { CountsFailure result (D.failures device.old) (D.failures device.new) }

    // After `Ok` a crash leaves no files.
    ensures empty { D.is_honest device.old
        → OnOk result (EachImage (λ image. Holds image []) (D.state device.new)) }
{
    empty_holds();
    pages::format(device)
}

impl PagedStore {
    /// Opens the volume of a device. It syncs first, and writes nothing; whether the trees are whole it doesn't look at. At most
    /// `capacity` pages are kept in memory, from 1 to 4,096, besides those that a change takes.
    pub fn open<D: Device>(
        alloc: Global,
        device: &mut D,
        capacity: usize,
    ) -> Result<PagedStore, StoreFault>
        requires least { 1 ≤ capacity }
        requires most { capacity ≤ 4096 }
        ensures honest { D.is_honest device.old ↔ D.is_honest device.new }
        ensures sectors { D.sectors device.new ≡ D.sectors device.old }
        ensures failures { BlamesDevice D.Device device.old device.new result }

        // Until it has succeeded, a crash leaves what was possible before.
        ensures moments { LeavesPossible D.Device device.old device.new }
        ensures state { IsSynced D.Device result device.old device.new }
        ensures unwritten { IsAtMostSynced D.Device result device.old device.new }

        // The store stands for the files that the disk holds, where it holds some.
        ensures stands { StandsForFiles D.Device result device.old device.new }
        ensures ready { IfOk result (IsReadyOn (D.sectors device.old)) }

        // Only a disk that holds a map is opened. Where it holds files, the device and memory alone refuse. `Layout` is returned exactly where
        // the newest root is the other store's, and `Damaged` only where the disk holds no files.
        ensures map { OpensMap D.Device result device.old }
        ensures refused { RefusesForImage D.Device result device.old }
        ensures opens { OpensWhatHolds D.Device result device.old }
        ensures foreign { FailsIfForeign D.Device result device.old }
    {
        match PageMap::open(alloc, device, capacity) {
            Ok(pages) => Ok(PagedStore {
                alloc,
                pages,
                spent: false,
                notes: SearchNotes::new(alloc),
            }),
            Err(error) => Err(to_fault(error)),
        }
    }

    /// How many sectors the volume has.
    pub fn sectors(&self) -> u32
        ensures { result ≡ sectors_of self.now.pages }
    {
        self.pages.sectors()
    }

    /// How many sectors neither the root of the last commit nor its maps use.
    pub fn free_sectors(&self) -> u32
        ensures { self.now.spent ≡ false → result ≡ free_count (committed_of self.now.pages) }
    {
        self.pages.free_sectors()
    }
}
