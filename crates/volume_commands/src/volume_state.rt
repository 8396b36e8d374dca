//! The state of a volume that holds files, without the files.
ghost use Rattle.std.specs.Prelude.{◌≡◌, ◌⊎◌, ◌≤◌, ◌-◌, ◌↔◌, map, Ok, Err, IfOk, IfErr};
ghost use Rattle.station.specs.Calls.{OnlyReads, OnlyWrites};
ghost use Rattle.station.specs.History.{Through};
ghost use Rattle.station.specs.Opening.{IsOpening};
ghost use Rattle.station.specs.State.{state_after_sync};
ghost use Rattle.roots.specs.declared.root.Root.{Root};
ghost use Rattle.roots.specs.declared.pair.Roots.{Roots};
ghost use Rattle.roots.specs.Reading.{roots_in};
ghost use Rattle.roots.specs.Root.{IsWithinVolume};
ghost use Rattle.pages.specs.Layout.{known_families as page_families};
ghost use Rattle.half_store.specs.Half.{known_families as half_families, half, count, named_length};
ghost use Rattle.records.specs.Files.{Files};
ghost use Rattle.file_recovery.specs.Recovered.{HoldsFiles};
ghost use Rattle.volume_commands.specs.Faults.{IsReadFailure, IsReadError};
ghost use Rattle.volume_commands.specs.State.{IsStateOf, IsNewest, HasRoot, IsStateOfHalves};

use crate::volume_error::VolumeError;
use alternate_keys::PagedStore;
use byteorder::{BigEndian, ByteOrder};
use pages::{HALF_MARKS, PAGE_MARKS};
use records::StoreFault;
use roots::{Root, RootsError, read_roots};
use station::Device;
use std::alloc::Global;

/// How a volume keeps its files.
#[derive(Clone, Copy, PartialEq, Eq)]
pub enum Layout {
    /// In trees of pages.
    Trees,
    /// In one of two halves.
    Halves,
}

/// What a volume is, except for its files.
#[derive(Clone, Copy, PartialEq, Eq)]
pub struct VolumeState {
    pub layout: Layout,
    /// Which of the layout's marks the newest root has, counted from 0.
    pub version: usize,
    /// How many commits there were.
    pub generation: u64,
    pub sectors: u32,
    /// The sectors that no root or map names; in a volume of halves, those of a half that the files
    /// leave.
    pub free: u32,
}

const SECTOR_BYTES: u64 = 4096;

/// The state of a volume. It syncs first, and writes nothing.
pub(crate) fn read_state<D: Device>(
    alloc: Global,
    device: &mut D,
) -> Result<VolumeState, VolumeError>
    ensures only { OnlyWrites D.Device (result ≡ Err VolumeError.Device) device.old device.new }
    ensures moments { D.is_honest device.old → Through (D.history device.old) (D.history device.new)
        (D.state device.new) (IsOpening (D.state device.old)) }
    ensures unwritten { D.is_honest device.old → (D.state device.new ≡ D.state device.old)
        ⊎ (D.state device.new ≡ state_after_sync (D.state device.old)) }
    ensures state { D.is_honest device.old → (files : Files) →
        HoldsFiles (D.state device.old).disk.present files →
        IfOk result (IsStateOf (D.state device.old).disk.present) }

    // Of a volume that holds files only the device and memory refuse.
    ensures opens { D.is_honest device.old → (files : Files) →
        HoldsFiles (D.state device.old).disk.present files → IfErr result IsReadFailure }
    ensures cause { IfErr result IsReadError }
{
    match PagedStore::open(alloc, device, 1) {
        Ok(store) => read_trees(device, store.free_sectors()),
        Err(fault) => match fault {
            StoreFault::Layout => read_halves(device),
            other => Err(VolumeError::of(other)),
        },
    }
}

/// The state of a volume of trees with so many free sectors.
fn read_trees<D: Device>(device: &mut D, free: u32) -> Result<VolumeState, VolumeError>
    ensures only { OnlyReads D.Device (result ≡ Err VolumeError.Device) device.old device.new }
    ensures state { D.is_honest device.old → IfOk result
        (λ state. (state.layout ≡ Layout.Trees) × (state.free ≡ free) × ((root : Root)
        × HasRoot page_families (D.state device.old).disk.present state root)) }
    ensures opens { D.is_honest device.old → (roots : Roots) →
        roots_in page_families (D.state device.old).disk.present ≡ Ok roots
        → IfErr result IsReadFailure }
    ensures cause { IfErr result IsReadError }
{
    let root = read_root(device, &[&PAGE_MARKS, &HALF_MARKS])?;
    Ok(VolumeState {
        layout: Layout::Trees,
        version: root.mark.version,
        generation: root.generation,
        sectors: root.sectors,
        free,
    })
}

/// The state of a volume of halves.
fn read_halves<D: Device>(device: &mut D) -> Result<VolumeState, VolumeError>
    ensures only { OnlyReads D.Device (result ≡ Err VolumeError.Device) device.old device.new }
    ensures state { D.is_honest device.old → IfOk result
        (λ state. (state.layout ≡ Layout.Halves) × IsStateOfHalves
        (D.state device.old).disk.present state) }
    ensures opens { D.is_honest device.old → (roots : Roots) →
        roots_in half_families (D.state device.old).disk.present ≡ Ok roots
        → IfErr result IsReadFailure }
    ensures cause { IfErr result IsReadError }
{
    let root = read_root(device, &[&HALF_MARKS, &PAGE_MARKS])?;
    Ok(VolumeState {
        layout: Layout::Halves,
        version: root.mark.version,
        generation: root.generation,
        sectors: root.sectors,
        free: free_in_half(&root),
    })
}

/// The newest root, which has a mark of the first of these families.
fn read_root<D: Device>(device: &mut D, known: &[&[[u8; 8]]]) -> Result<Root, VolumeError>
    ensures only { OnlyReads D.Device (result ≡ Err VolumeError.Device) device.old device.new }
    ensures root { D.is_honest device.old
        → IfOk result (IsNewest (map (λ family. family.now) known.now)
        (D.state device.old).disk.present) }
    ensures within { IfOk result (IsWithinVolume (D.sectors device.old)) }
    ensures opens { D.is_honest device.old → (roots : Roots) →
        roots_in (map (λ family. family.now) known.now) (D.state device.old).disk.present ≡ Ok roots
        → IfErr result IsReadFailure }
    ensures cause { IfErr result IsReadError }
{
    match read_roots(device, known) {
        Ok(roots) => Ok(roots.newest),
        Err(RootsError::Device) => Err(VolumeError::Device),
        Err(RootsError::Roots(_)) => Err(VolumeError::Damaged),
    }
}

/// How many sectors of its half a root doesn't name.
#[tactic(auto, unfolding(half_store::specs::Half::half, half_store::specs::Half::count))]
fn free_in_half(root: &Root) -> u32
    requires least { 1024 ≤ root.now.sectors }
    requires most { root.now.sectors ≤ 921600 }
    ensures { result ≡ half root.now.sectors - count (named_length root.now) }
{
    let sectors = (root.sectors - 2) / 2;
    let used = BigEndian::read_u64(&root.payload).div_ceil(SECTOR_BYTES);
    u64::from(sectors).saturating_sub(used) as u32
}
