//! The newest root of a volume of pages.
ghost use Rattle.std.specs.Prelude.{◌≡◌, ◌≤◌, ◌↔◌, ◌==◌, Err, length, IfOk, IfErr, option_map, IfSome, Option, Some, None, if◌then◌else◌};
ghost use Rattle.std.specs.List.{list_all};
ghost use Rattle.station.specs.Calls.{OnlyReads};
ghost use Rattle.pages.specs.Layout.{words, map_count, newest, volume_root, beside, VolumeRoot};
ghost use Rattle.pages.specs.Found.{found_root, IsFoundWithin};
ghost use Rattle.pages.specs.Errors.{RefusesImage, IsOpenError};

use crate::error::PagesError;
use crate::volume_mark::{HALF_MARKS, PAGE_MARKS};
use byteorder::{BigEndian, ByteOrder};
use roots::{Root, read_roots};
use station::Device;
use std::alloc::{AllocError, Global};

/// A root that was read.
#[derive(Drop)]
pub(crate) struct FoundRoot {
    /// The index of its mark.
    pub mark: usize,
    pub generation: u64,
    pub sectors: u32,
    pub catalog: u32,
    pub maps: Vec<u32>,
}

/// The numbers of a payload.
fn payload_words_of(payload: &[u8; 4076]) -> [u32; 1019]
    ensures { result ≡ words payload.now }
{
    let mut numbers = [0; 1019];
    BigEndian::read_u32_into(payload, &mut numbers);
    numbers
}

/// How many map sectors a volume of so many sectors has.
pub(crate) fn map_count_of(sectors: u32) -> usize
    ensures { result ≡ map_count sectors }
{
    (sectors as usize + 1023) / 1024
}

/// What a root's payload spells, if it is one of a volume of pages.
pub(crate) fn payload_root(alloc: Global, root: &Root) -> Result<Option<FoundRoot>, AllocError>
    requires { root.now.sectors ≤ 921600 }
    ensures found { IfOk result (λ found. option_map found_root found ≡ volume_root root.now) }
    ensures same { IfOk result (λ found. IfSome found (λ r. (r.mark ≡ root.now.mark.version)
        × (r.generation ≡ root.now.generation) × (r.sectors ≡ root.now.sectors)
        × (length r.maps.items ≡ map_count root.now.sectors))) }
{
    let numbers = payload_words_of(&root.payload);
    let count = map_count_of(root.sectors);
    if numbers[1] as usize != count {
        return Ok(None);
    }
    if !is_zeros(&numbers[2 + count..]) {
        return Ok(None);
    }
    let maps = Vec::from_slice(alloc, &numbers[2..2 + count])?;
    Ok(Some(FoundRoot {
        mark: root.mark.version,
        generation: root.generation,
        sectors: root.sectors,
        catalog: numbers[0],
        maps,
    }))
}

/// Whether all numbers are zero.
fn is_zeros(numbers: &[u32]) -> bool
    ensures { result ≡ list_all (λ word. word == 0) numbers.now }
{
    numbers.iter().all(|word| *word == 0)
}

/// Whether the payload of an older root, if there is one, is that of a volume of pages.
fn is_sound_beside(alloc: Global, older: &Option<Root>) -> Result<bool, AllocError>
    requires { IfSome older.now (λ root. root.sectors ≤ 921600) }
    ensures { IfOk result (λ sound. (root : Option VolumeRoot)
        → beside older.now root ≡ (if sound then root else None)) }
{
    match older {
        Some(root) => Ok(payload_root(alloc, root)?.is_some()),
        None => Ok(true),
    }
}

/// The newest root of a device.
pub(crate) fn read_root<D: Device>(alloc: Global, device: &mut D) -> Result<FoundRoot, PagesError>
    ensures only { OnlyReads D.Device (result ≡ Err PagesError.Device) device.old device.new }
    ensures root { D.is_honest device.old
        → IfOk result (λ root. newest (D.state device.old).disk.present ≡ Some (found_root root)) }
    ensures within { IfOk result (λ root. IsFoundWithin (D.sectors device.old) root) }
    ensures refused { D.is_honest device.old
        → IfErr result (λ error. RefusesImage (D.state device.old).disk.present error) }
    ensures cause { IsOpenError result }
{
    let roots = read_roots(device, &[&PAGE_MARKS, &HALF_MARKS])?;
    if !is_sound_beside(alloc, &roots.older)? {
        return Err(PagesError::Damaged);
    }
    match payload_root(alloc, &roots.newest)? {
        Some(root) => Ok(root),
        None => Err(PagesError::Damaged),
    }
}
