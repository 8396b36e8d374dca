//! A device on which a volume is being made.
ghost use Rattle.std.specs.Prelude.{◌≡◌, ◌≤◌, ◌+◌, false};
ghost use Rattle.station.specs.History.{Through, EachImage};
ghost use Rattle.unfinished_volume.specs.Hidden.{HidesRoot, IsRootHidden, IsHiddenSince};

use crate::beginning::Beginning;
use crate::inverting::{hides_root, inverted_sector};
use station::{Device, DeviceError};
use std::marker::PhantomData;

/// A device whose sector 0 is stored with an inverted first byte, so that no reader finds a root
/// there. A sector 0 that would be stored as zeros or with a mark's first byte is refused.
///
/// Each state of this device is that of the device below with sector 0 inverted. So it is honest
/// whenever that one is, and needs no memory for a root.
pub struct UnfinishedVolume<B: Beginning, D: Device> {
    device: D,
    refused: bool,
    of: PhantomData<B>,
    ghost hidden: { D.is_honest device → IsHiddenSince B.history (D.history device) },
    ghost counts: { B.failures ≤ D.failures device },
}

impl<B: Beginning, D: Device> UnfinishedVolume<B, D> {
    /// A device whose sector 0 is no root, as `hide_root` leaves it.
    pub fn new(device: D) -> UnfinishedVolume<B, D>
        requires history { B.history ≡ D.history device }
        requires failures { B.failures ≡ D.failures device }
        requires hidden { D.is_honest device → HidesRoot (D.state device).disk }
        ensures device { result.device ≡ device }
        ensures refused { result.refused ≡ false }
    {
        UnfinishedVolume {
            device,
            refused: false,
            of: PhantomData,
        }
    }

    /// Whether a write was refused that would have shown a root.
    pub fn was_refused(&self) -> bool
        ensures { result ≡ self.now.refused }
    {
        self.refused
    }

    /// The device below. At each moment since the beginning a crash leaves no root in sector 0.
    pub fn into_device(self) -> D
        ensures device { result ≡ self.device }
        ensures failures { B.failures ≤ D.failures result }
        ensures hidden { D.is_honest result → HidesRoot (D.state result).disk }
        ensures moments { D.is_honest result → Through B.history (D.history result)
            (D.state result) (EachImage IsRootHidden) }
    {
        let UnfinishedVolume {
            device,
            refused: _,
            of: _,
        } = self;
        device
    }
}

impl<B: Beginning, D: Device> Device for UnfinishedVolume<B, D> {
    ghost use Rattle.std.specs.Prelude.{map};
    ghost use Rattle.unfinished_volume.specs.Inverted.{inverted_state};
    ghost use Rattle.unfinished_volume.specs.Refusals.{refusals};
    ghost use Rattle.unfinished_volume.specs.DeviceLaws.{inverted_present, inverted_stable, inverted_ends, inverted_possible};

    ghost is_honest = { λ volume. D.is_honest volume.device };

    ghost state = { λ volume. inverted_state (D.state volume.device) };

    ghost history = { λ volume. map inverted_state (D.history volume.device) };

    ghost failures = { λ volume. D.failures volume.device + refusals volume.refused };

    ghost sectors = { λ volume. D.sectors volume.device };

    ghost all_present = { λ volume honest. inverted_present (D.state volume.device).disk
        (D.sectors volume.device) (D.all_present volume.device honest) };

    ghost all_stable = { λ volume honest. inverted_stable (D.state volume.device).disk
        (D.sectors volume.device) (D.all_stable volume.device honest) };

    ghost newest = { λ volume honest. inverted_ends (D.history volume.device)
        (D.state volume.device) (D.newest volume.device honest) };

    ghost possible = { λ volume honest. inverted_possible (D.state volume.device).disk
        (D.state volume.device).disk.present (D.possible volume.device honest) };

    fn count(&self) -> u32 {
        self.device.count()
    }

    fn read(&mut self, sector: u32, bytes: &mut [u8; 4096]) -> Result<(), DeviceError> {
        self.device.read(sector, bytes)?;
        if sector == 0 {
            *bytes = inverted_sector(bytes);
        }
        Ok(())
    }

    fn write(&mut self, sector: u32, bytes: &[u8; 4096]) -> Result<(), DeviceError> {
        if sector != 0 {
            return self.device.write(sector, bytes);
        }
        let stored = inverted_sector(bytes);
        if !hides_root(&stored) {
            self.refused = true;
            return Err(DeviceError::Failed);
        }
        self.device.write(0, &stored)
    }

    fn sync(&mut self) -> Result<(), DeviceError> {
        self.device.sync()
    }
}
