//! Blocks and a root that names them, put on the disk so that a crash leaves the old root or all of them.
ghost use Rattle.std.specs.Prelude.{◌≡◌, ◌<◌, slice_set, OnOk, IsErr};
ghost use Rattle.station.specs.Disk.{idle_disk, IsSettled};
ghost use Rattle.station.specs.History.{Through, EachImage};
ghost use Rattle.station.specs.Calls.{OnlyWrites};
ghost use Rattle.station.specs.Blocks.{SectorsAre, SameOutside, WithOrWithout, OldOrNew, CrashLeaves, with_all};

use crate::blocks::{Block, write_blocks};
use crate::{Device, DeviceError};

/// Writes blocks, which are durable at `Ok`.
pub fn write_blocks_through<D: Device>(device: &mut D, blocks: &[Block]) -> Result<(), DeviceError>
    requires { SectorsAre (λ s. s < D.sectors device.old) blocks.now }
    ensures only { OnlyWrites D.Device (IsErr result) device.old device.new }
    ensures durable { D.is_honest device.old → OnOk result ((D.state device.new).disk
        ≡ idle_disk (with_all (D.state device.old).disk.present blocks.now)) }

    // At each moment a crash leaves all other sectors as they were.
    ensures moments { D.is_honest device.old → IsSettled (D.state device.old).disk →
        Through (D.history device.old) (D.history device.new) (D.state device.new)
        (CrashLeaves (D.state device.old).events
        (SameOutside (D.state device.old).disk.present blocks.now)) }
{
    write_blocks(device, blocks)?;
    device.sync()
}

/// Writes a sector, which is durable at `Ok`.
pub fn write_through<D: Device>(
    device: &mut D,
    sector: u32,
    bytes: &[u8; 4096],
) -> Result<(), DeviceError>
    requires { sector < D.sectors device.old }
    ensures only { OnlyWrites D.Device (IsErr result) device.old device.new }
    ensures durable { D.is_honest device.old → OnOk result ((D.state device.new).disk
        ≡ idle_disk (slice_set (D.state device.old).disk.present sector bytes.now)) }

    // At each moment a crash leaves all as it was, or with that sector written.
    ensures moments { D.is_honest device.old → IsSettled (D.state device.old).disk →
        Through (D.history device.old) (D.history device.new) (D.state device.new)
        (CrashLeaves (D.state device.old).events
        (WithOrWithout (D.state device.old).disk.present sector bytes.now)) }
{
    device.write(sector, bytes)?;
    device.sync()
}

/// Writes blocks, and then the root. After `Ok` all is durable.
pub fn two_phase_write<D: Device>(
    device: &mut D,
    blocks: &[Block],
    root: u32,
    bytes: &[u8; 4096],
) -> Result<(), DeviceError>
    requires blocks { SectorsAre (λ s. s < D.sectors device.old) blocks.now }
    requires root { root < D.sectors device.old }
    ensures only { OnlyWrites D.Device (IsErr result) device.old device.new }
    ensures durable { D.is_honest device.old → OnOk result ((D.state device.new).disk ≡ idle_disk
        (slice_set (with_all (D.state device.old).disk.present blocks.now) root bytes.now)) }

    // At each moment a crash leaves the old root and all sectors but the blocks', or the new root and all blocks.
    ensures moments { D.is_honest device.old → IsSettled (D.state device.old).disk →
        Through (D.history device.old) (D.history device.new) (D.state device.new)
        (CrashLeaves (D.state device.old).events
        (OldOrNew (D.state device.old).disk.present blocks.now root bytes.now)) }

    // After `Ok` a crash leaves the new root and all blocks.
    ensures new { D.is_honest device.old → OnOk result (EachImage
        (λ image. image ≡ slice_set (with_all (D.state device.old).disk.present blocks.now) root
        bytes.now) (D.state device.new)) }
{
    write_blocks_through(device, blocks)?;
    write_through(device, root, bytes)
}
