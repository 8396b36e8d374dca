//! Bytes are written to the half that isn't active, and then a root that names them.
ghost use Rattle.std.specs.Prelude.{◌≡◌, ◌≢◌, ◌≤◌, ◌<◌, ◌+◌, ◌*◌, ◌^◌, length, Err, OnOk, IfOk, IfErr};
ghost use Rattle.station.specs.History.{Through};
ghost use Rattle.station.specs.Blocks.{CrashLeaves};
ghost use Rattle.station.specs.Calls.{OnlyWrites};
ghost use Rattle.records.specs.Files.{Files};
ghost use Rattle.records.specs.Stores.{Either};
ghost use Rattle.half_store.specs.Spelled.{files_bytes};
ghost use Rattle.half_store.specs.Half.{half, start, count, Holds, Rests, AreHalfFiles};
ghost use Rattle.half_store.specs.Write.{IsDraft, IsFull, IsCause};

use crate::blocks::blocks_of;
use crate::root::root_bytes;
use records::StoreFault;
use roots::GENERATIONS;
use station::{Block, Device, two_phase_write};
use std::alloc::Global;

/// The sectors of a half.
#[tactic(auto, unfolding(crate::specs::Half::half))]
pub(crate) fn half_of(sectors: u32) -> u32
    requires { 2 ≤ sectors }
    ensures { result ≡ half sectors }
{
    (sectors - 2) / 2
}

/// The first sector of the half of a generation.
#[tactic(auto, unfolding(crate::specs::Half::start, crate::specs::Half::half))]
pub(crate) fn start_of(sectors: u32, generation: u64) -> u32
    requires least { 2 ≤ sectors }
    requires most { sectors ≤ 921600 }
    ensures { result ≡ start sectors generation }
{
    2 + (generation % 2) as u32 * half_of(sectors)
}

/// The sectors of so many bytes.
#[tactic(auto, unfolding(crate::specs::Half::count))]
pub(crate) fn count_of(bytes: usize) -> u32
    requires { bytes ≤ 2 ^ 40 }
    ensures { result ≡ count bytes }
{
    ((bytes + 4095) / 4096) as u32
}

/// What is to be written.
#[derive(Drop)]
struct Draft {
    blocks: Vec<Block<'static>>,
    root: [u8; 4096],
}

/// The blocks and the root by which bytes come to the half of the next generation.
fn draft_half(
    alloc: Global,
    sectors: u32,
    generation: u64,
    bytes: &mut Vec<u8>,
) -> Result<Draft, StoreFault>
    requires least { 1024 ≤ sectors }
    requires most { sectors ≤ 921600 }
    ensures draft { IfOk result
        (λ draft. IsDraft sectors generation bytes.old.items draft.blocks.items draft.root) }
    ensures cause { IfErr result IsCause }
    ensures device { result ≢ Err StoreFault.Device }
    ensures full { result ≡ Err StoreFault.Full
        → IsFull sectors generation (length bytes.old.items) }
    ensures generation { OnOk result (generation + 1 < 2 ^ 63) }
{
    let length = bytes.len();
    if length > 4096 * half_of(sectors) as usize {
        return Err(StoreFault::Full);
    }
    if generation >= GENERATIONS - 1 {
        return Err(StoreFault::Full);
    }
    let next = generation + 1;
    bytes.extend_from_slice(&[0; 4096])?;
    let blocks = blocks_of(alloc, start_of(sectors, next), bytes, count_of(length))?;
    Ok(Draft {
        blocks,
        root: root_bytes(sectors, next, length as u64),
    })
}

/// Writes these bytes to the half of the next generation, and then its root.
pub(crate) fn write_half<D: Device>(
    alloc: Global,
    device: &mut D,
    sectors: u32,
    generation: u64,
    bytes: &mut Vec<u8>,
) -> Result<(), StoreFault>
    requires device { sectors ≤ D.sectors device.old }
    requires least { 1024 ≤ sectors }
    requires most { sectors ≤ 921600 }
    ensures only { OnlyWrites D.Device (result ≡ Err StoreFault.Device) device.old device.new }
    ensures cause { IfErr result IsCause }
    ensures full { result ≡ Err StoreFault.Full
        → IsFull sectors generation (length bytes.old.items) }
    ensures unwritten { result ≡ Err StoreFault.Full → D.is_honest device.old
        → D.state device.new ≡ D.state device.old }

    // At each moment a crash leaves the files before, or those that the bytes spell.
    ensures moments { D.is_honest device.old → (before after : Files)
        → Rests sectors generation (D.state device.old).disk before
        → bytes.old.items ≡ files_bytes after → AreHalfFiles (generation + 1) after →
        Through (D.history device.old) (D.history device.new) (D.state device.new)
        (CrashLeaves (D.state device.old).events (Either Holds before after)) }
    ensures rests { D.is_honest device.old → (before after : Files)
        → Rests sectors generation (D.state device.old).disk before
        → bytes.old.items ≡ files_bytes after → AreHalfFiles (generation + 1) after
        → OnOk result (Rests sectors (generation + 1) (D.state device.new).disk after) }
    ensures generation { OnOk result (generation + 1 < 2 ^ 63) }
{
    let draft = draft_half(alloc, sectors, generation, bytes)?;
    two_phase_write(
        device,
        &draft.blocks,
        ((generation + 1) % 2) as u32,
        &draft.root,
    )?;
    Ok(())
}
