//! The maps of a volume are read.
ghost use Rattle.std.specs.Prelude.{◌≡◌, ◌<◌, ◌*◌, ◌↔◌, if◌then◌else◌, ℕ, Err, length, slice_index, slice_index_or, Option, true, false, Some, None, Ok, IfOk, OnErr};
ghost use Rattle.std.specs.List.{All};
ghost use Rattle.station.specs.Calls.{OnlyReads};
ghost use Rattle.pages.specs.Image.{map_at, map_part, pages_in};
ghost use Rattle.pages.specs.Errors.{IsReadError};

use crate::error::PagesError;
use crate::numbers::numbers_in;
use station::Device;
use std::alloc::Global;

/// The entries of one map sector.
pub(crate) fn read_map<D: Device>(device: &mut D, sector: u32) -> Result<[u32; 1024], PagesError>
    requires { sector < D.sectors device.old }
    ensures only { OnlyReads D.Device (result ≡ Err PagesError.Device) device.old device.new }
    ensures count { IfOk result (λ entries. length entries ≡ 1024) }
    ensures entries { D.is_honest device.old
        → IfOk result (λ entries. entries ≡ map_at (D.state device.old).disk.present sector) }
    ensures cause { IsReadError result }
{
    if sector == 0 {
        return Ok([0; 1024]);
    }
    let mut bytes = [0; 4096];
    device.read(sector, &mut bytes)?;
    Ok(numbers_in(&bytes))
}

/// The sector of each page.
pub(crate) fn read_table<D: Device>(
    alloc: Global,
    device: &mut D,
    maps: &[u32],
) -> Result<Vec<u32>, PagesError>
    requires { All (λ m. m < D.sectors device.old) maps.now }
    ensures only { OnlyReads D.Device (result ≡ Err PagesError.Device) device.old device.new }
    ensures count { IfOk result (λ table. length table.items ≡ 1024 * length maps.now) }
    ensures entries { D.is_honest device.old
        → IfOk result (λ table. (i : ℕ) → i < length maps.now → map_at
        (D.state device.old).disk.present (slice_index maps.now i) ≡ map_part table.items i) }
    ensures cause { IsReadError result }
{
    let mut table = Vec::new(alloc);
    for map in maps {
        let entries = read_map(device, *map)?;
        table.extend_from_slice(&entries)?;
    }
    Ok(table)
}

/// The sector of a page in a table, 0 for none.
pub(crate) fn sector_of(table: &[u32], page: u32) -> u32
    ensures { result ≡ slice_index_or table.now page 0 }
{
    table.get(page as usize).copied().unwrap_or(0)
}

/// The page of a number in a table, or none.
pub(crate) fn read_page<D: Device>(
    table: &[u32],
    device: &mut D,
    page: u32,
) -> Result<Option<[u8; 4096]>, PagesError>
    requires { All (λ s. s < D.sectors device.old) table.now }
    ensures only { OnlyReads D.Device (result ≡ Err PagesError.Device) device.old device.new }
    ensures page { D.is_honest device.old → IfOk result (λ bytes. bytes
        ≡ slice_index_or (pages_in (D.state device.old).disk.present table.now) page None) }
    ensures absent { result ≡ Ok None → device.new ≡ device.old }
    ensures cause { OnErr result (result ≡ Err PagesError.Device) }
{
    let sector = sector_of(table, page);
    if sector == 0 {
        return Ok(None);
    }
    let mut bytes = [0; 4096];
    device.read(sector, &mut bytes)?;
    Ok(Some(bytes))
}

/// Reads the page of a number in a table into a buffer, and returns whether the table has it. The buffer stays if the table hasn't.
pub(crate) fn fill_page<D: Device>(
    table: &[u32],
    device: &mut D,
    page: u32,
    bytes: &mut [u8; 4096],
) -> Result<bool, PagesError>
    requires { All (λ s. s < D.sectors device.old) table.now }
    ensures only { OnlyReads D.Device (result ≡ Err PagesError.Device) device.old device.new }
    ensures page { D.is_honest device.old → IfOk result (λ is_there.
        slice_index_or (pages_in (D.state device.old).disk.present table.now) page None
        ≡ (if is_there then Some bytes.new else None)) }
    ensures absent { result ≡ Ok false → (device.new ≡ device.old) × (bytes.new ≡ bytes.old) }
    ensures cause { OnErr result (result ≡ Err PagesError.Device) }
{
    let sector = sector_of(table, page);
    if sector == 0 {
        return Ok(false);
    }
    device.read(sector, bytes)?;
    Ok(true)
}
