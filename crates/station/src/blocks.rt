//! Sectors that are to be written.
ghost use Rattle.std.specs.Prelude.{◌≡◌, ◌<◌, OnOk, IsErr};
ghost use Rattle.station.specs.Disk.{IsSettled};
ghost use Rattle.station.specs.History.{Through};
ghost use Rattle.station.specs.Calls.{OnlyWrites};
ghost use Rattle.station.specs.Blocks.{SectorsAre, IsWriting, wrote_all};

use crate::sector_bytes::SectorBytes;
use crate::{Device, DeviceError};

/// A sector's new bytes.
#[derive(Drop)]
pub struct Block<'a> {
    pub sector: u32,
    pub bytes: SectorBytes<'a>,
}

/// Writes each block. None of them is durable yet.
pub fn write_blocks<D: Device>(device: &mut D, blocks: &[Block]) -> Result<(), DeviceError>
    requires { SectorsAre (λ s. s < D.sectors device.old) blocks.now }
    ensures only { OnlyWrites D.Device (IsErr result) device.old device.new }
    ensures wrote { D.is_honest device.old
        → OnOk result (D.state device.new ≡ wrote_all (D.state device.old) blocks.now) }

    // At each moment all that waits is writes to the blocks' sectors.
    ensures moments { D.is_honest device.old → IsSettled (D.state device.old).disk →
        Through (D.history device.old) (D.history device.new) (D.state device.new)
        (IsWriting (D.state device.old).events (D.state device.old).disk.present blocks.now) }
{
    for block in blocks {
        device.write(block.sector, block.bytes.view())?;
    }
    Ok(())
}
