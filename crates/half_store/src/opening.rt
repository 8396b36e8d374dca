//! A volume is opened.
ghost use Rattle.std.specs.Prelude.{◌≡◌, ◌⊎◌, ◌≤◌, ◌<◌, ◌+◌, ◌*◌, ◌^◌, ◌==◌, true, false, length, drop, Ok, Err, None, IfOk, IfErr, IsErr, IfSome, IsOkUnless};
ghost use Rattle.std.specs.List.{list_all};
ghost use Rattle.station.specs.Disk.{sector_at};
ghost use Rattle.station.specs.Calls.{OnlyReads, OnlyWrites};
ghost use Rattle.roots.specs.Pair.{EachRoot};
ghost use Rattle.roots.specs.Root.{IsWithinVolume};
ghost use Rattle.roots.specs.Reading.{roots_in};
ghost use Rattle.records.specs.Files.{Files};
ghost use Rattle.records.specs.Rows.{same_bytes};
ghost use Rattle.half_store.specs.Spelled.{files_bytes};
ghost use Rattle.file_bytes.specs.Stored.{files_of};
ghost use Rattle.half_store.specs.Half.{known_families, half, bytes_of_sectors, named_length, named_bytes, IsHalfRoot, AreHalfFiles, HoldsAt, Holds};
ghost use Rattle.half_store.specs.Opened.{IsOpenRefusal, of_roots, IsReadCause, LeavesPossible, IsSynced, WritesNothing, RefusesForImage, OpensWhatHolds, FailsIfForeign};
ghost use Rattle.half_store.specs.Stands.{Represents};

use crate::checking::are_half_files;
use crate::halves::{count_of, half_of, start_of};
use crate::reading::read_files;
use crate::root::{FOREIGN_FAMILY, MARK};
use crate::spelling::spell;
use crate::store::HalfStore;
use byteorder::{BigEndian, ByteOrder};
use file_bytes::StoredFile;
use records::StoreFault;
use roots::{Root, Roots, RootsError, RootsFault, read_roots};
use station::{Device, DeviceError};
use std::alloc::Global;

/// The files that a volume holds. Nothing is written.
pub fn recover<D: Device>(alloc: Global, device: &mut D) -> Result<Vec<StoredFile>, StoreFault>
    ensures only { OnlyWrites D.Device (result ≡ Err StoreFault.Device) device.old device.new }
    ensures moments { LeavesPossible D.Device device.old device.new }
    ensures state { IsSynced D.Device result device.old device.new }
    ensures unwritten { WritesNothing D.Device result device.old device.new }
    ensures holds { D.is_honest device.old
        → IfOk result (λ files. Holds (D.state device.old).disk.present (files_of files.items)) }
    ensures refused { RefusesForImage D.Device result device.old }
    ensures opens { OpensWhatHolds D.Device result device.old }
    ensures foreign { FailsIfForeign D.Device result device.old }
{
    match HalfStore::open(alloc, device) {
        Ok(store) => Ok(store.files),
        Err(fault) => Err(fault),
    }
}

/// What an error of the roots becomes.
fn fault_of(error: RootsError) -> StoreFault
    ensures { result ≡ of_roots error }
{
    match error {
        RootsError::Device => StoreFault::Device,
        RootsError::Roots(RootsFault::Damaged) => StoreFault::Damaged,
        RootsError::Roots(RootsFault::ForeignMark) => StoreFault::Layout,
    }
}

fn are_zeros(bytes: &[u8]) -> bool
    ensures { result ≡ list_all (λ byte. byte == 0) bytes.now }
{
    bytes.iter().all(|byte| *byte == 0)
}

/// Whether the payload of a root has zeros after the length.
fn has_zeros(payload: &[u8; 4076]) -> bool
    ensures { result ≡ list_all (λ byte. byte == 0) (drop 8 payload.now) }
{
    are_zeros(&payload[8..])
}

/// How many bytes of its half a root names.
fn length_in(root: &Root) -> u64
    ensures { result ≡ named_length root.now }
{
    BigEndian::read_u64(&root.payload)
}

/// Whether a root names no more bytes than a half has, and nothing else.
fn is_half_root(root: &Root) -> bool
    requires { 1024 ≤ root.now.sectors }
    ensures yes { result ≡ true → IsHalfRoot root.now }
    ensures no { result ≡ false → IsHalfRoot root.now → ⊥ }
{
    if length_in(root) > 4096 * half_of(root.sectors) as u64 {
        return false;
    }
    has_zeros(&root.payload)
}

/// Whether both roots of a volume are so.
fn are_half_roots(roots: &Roots) -> bool
    requires { EachRoot (λ root. 1024 ≤ root.sectors) roots.now }
    ensures yes { result ≡ true → EachRoot IsHalfRoot roots.now }
    ensures no { result ≡ false → EachRoot IsHalfRoot roots.now → ⊥ }
{
    if !is_half_root(&roots.newest) {
        return false;
    }
    match &roots.older {
        None => true,
        Some(older) => is_half_root(older),
    }
}

/// A sector.
fn read_sector<D: Device>(device: &mut D, sector: u32) -> Result<[u8; 4096], DeviceError>
    requires { sector < D.sectors device.old }
    ensures only { OnlyReads D.Device (IsErr result) device.old device.new }
    ensures bytes { D.is_honest device.old
        → IfOk result (λ bytes. bytes ≡ sector_at (D.state device.old).disk.present sector) }
    ensures long { IfOk result (λ bytes. length bytes ≡ 4096) }
{
    let mut bytes = [0; 4096];
    device.read(sector, &mut bytes)?;
    Ok(bytes)
}

/// The bytes of so many sectors from one on.
fn read_sectors<D: Device>(
    alloc: Global,
    device: &mut D,
    from: u32,
    count: u32,
) -> Result<Vec<u8>, StoreFault>
    requires there { from + count ≤ D.sectors device.old }
    requires bound { from + count < 2 ^ 32 }
    ensures only { OnlyReads D.Device (result ≡ Err StoreFault.Device) device.old device.new }
    ensures bytes { D.is_honest device.old → IfOk result
        (λ bytes. bytes.items ≡ bytes_of_sectors (D.state device.old).disk.present from count) }
    ensures long { IfOk result (λ bytes. length bytes.items ≡ 4096 * count) }
    ensures cause { IfErr result IsReadCause }
    ensures refused { IfErr result
        (λ fault. IsOpenRefusal (D.state device.old).disk.present fault) }
{
    let mut bytes = Vec::new(alloc);
    for sector in 0..count {
        let part = read_sector(device, from + sector)?;
        bytes.extend_from_slice(&part)?;
    }
    Ok(bytes)
}

/// The bytes that a root names.
fn read_half<D: Device>(alloc: Global, device: &mut D, root: &Root) -> Result<Vec<u8>, StoreFault>
    requires least { 1024 ≤ root.now.sectors }
    requires most { root.now.sectors ≤ 921600 }
    requires there { root.now.sectors ≤ D.sectors device.old }
    requires fits { named_length root.now ≤ 4096 * half root.now.sectors }
    ensures only { OnlyReads D.Device (result ≡ Err StoreFault.Device) device.old device.new }
    ensures bytes { D.is_honest device.old → IfOk result
        (λ bytes. bytes.items ≡ named_bytes (D.state device.old).disk.present root.now) }
    ensures long { IfOk result (λ bytes. length bytes.items ≡ named_length root.now) }
    ensures cause { IfErr result IsReadCause }
    ensures refused { IfErr result
        (λ fault. IsOpenRefusal (D.state device.old).disk.present fault) }
{
    let length = length_in(root) as usize;
    let from = start_of(root.sectors, root.generation);
    let mut bytes = read_sectors(alloc, device, from, count_of(length))?;
    bytes.truncate(length);
    Ok(bytes)
}

fn is_same(one: &[u8], two: &[u8]) -> bool
    ensures { result ≡ same_bytes one.now two.now }
{
    one.cmp(two).is_eq()
}

/// The files of a volume of this generation that bytes spell, if they spell any.
fn spelled_files(
    alloc: Global,
    bytes: &[u8],
    generation: u64,
) -> Result<Option<Vec<StoredFile>>, StoreFault>
    requires { generation < 2 ^ 63 }
    ensures some { IfOk result
        (λ found. IfSome found (λ files. (bytes.now ≡ files_bytes (files_of files.items))
        × AreHalfFiles generation (files_of files.items))) }
    ensures none { result ≡ Ok None → (files : Files) → bytes.now ≡ files_bytes files
        → AreHalfFiles generation files → ⊥ }
    ensures memory { IsOkUnless result StoreFault.Memory }
{
    let Some(files) = read_files(alloc, bytes)? else {
        return Ok(None);
    };
    if !are_half_files(&files, generation) {
        return Ok(None);
    }
    let again = spell(alloc, &files)?;
    if !is_same(&again, bytes) {
        return Ok(None);
    }
    Ok(Some(files))
}

/// The roots of a volume of halves.
fn own_roots<D: Device>(device: &mut D) -> Result<Roots, StoreFault>
    ensures only { OnlyReads D.Device (result ≡ Err StoreFault.Device) device.old device.new }
    ensures roots { D.is_honest device.old → IfOk result
        (λ roots. roots_in known_families (D.state device.old).disk.present ≡ Ok roots) }
    ensures within { IfOk result (λ roots. EachRoot (IsWithinVolume (D.sectors device.old)) roots) }
    ensures refused { RefusesForImage D.Device result device.old }
    ensures foreign { FailsIfForeign D.Device result device.old }
{
    match read_roots(device, &[&[MARK], &FOREIGN_FAMILY]) {
        Ok(roots) => Ok(roots),
        Err(error) => Err(fault_of(error)),
    }
}

/// The store of the volume that a device has. Nothing is written.
fn read_volume<D: Device>(alloc: Global, device: &mut D) -> Result<HalfStore, StoreFault>
    ensures only { OnlyReads D.Device (result ≡ Err StoreFault.Device) device.old device.new }
    ensures holds { D.is_honest device.old → IfOk result (λ store. HoldsAt store.sectors
        store.generation (D.state device.old).disk.present (files_of store.files.items)) }
    ensures there { IfOk result
        (λ store. (store.sectors ≤ D.sectors device.old) × (store.spent ≡ false)) }
    ensures refused { RefusesForImage D.Device result device.old }
    ensures foreign { FailsIfForeign D.Device result device.old }
{
    let roots = own_roots(device)?;
    if !are_half_roots(&roots) {
        return Err(StoreFault::Damaged);
    }
    let root = &roots.newest;
    let bytes = read_half(alloc, device, root)?;
    let Some(files) = spelled_files(alloc, &bytes, root.generation)? else {
        return Err(StoreFault::Damaged);
    };
    Ok(HalfStore {
        alloc,
        files,
        sectors: root.sectors,
        generation: root.generation,
        spent: false,
    })
}

impl HalfStore {
    /// Opens a volume. What waits becomes durable first, and nothing is written.
    ///
    /// `Damaged` means that the present image holds no files, `Layout` that its newest root has the other format's mark.
    pub fn open<D: Device>(alloc: Global, device: &mut D) -> Result<HalfStore, StoreFault>
        ensures only { OnlyWrites D.Device (result ≡ Err StoreFault.Device) device.old device.new }

        // Until the first sync has succeeded, a crash leaves what was possible before.
        ensures moments { LeavesPossible D.Device device.old device.new }
        ensures state { IsSynced D.Device result device.old device.new }
        ensures unwritten { WritesNothing D.Device result device.old device.new }

        // It stands for the files of the image, and isn't spent.
        ensures stands { D.is_honest device.old → IfOk result
            (λ store. Represents store (D.state device.new).disk (files_of store.files.items)) }
        ensures holds { D.is_honest device.old → IfOk result
            (λ store. Holds (D.state device.old).disk.present (files_of store.files.items)) }
        ensures there { IfOk result
            (λ store. (store.sectors ≤ D.sectors device.old) × (store.spent ≡ false)) }
        ensures refused { RefusesForImage D.Device result device.old }

        // Where it holds files, only the device and memory refuse. `Layout` comes exactly where its newest root has the other format's mark.
        ensures opens { OpensWhatHolds D.Device result device.old }
        ensures foreign { FailsIfForeign D.Device result device.old }
    {
        device.sync()?;
        read_volume(alloc, device)
    }
}
