//! The root sector of a volume of pages.
ghost use Rattle.std.specs.Prelude.{◌≡◌, ◌<◌, ◌≤◌, ◌+◌, ◌*◌, ◌^◌, length, drop};
ghost use Rattle.roots.specs.Root.{put_at};
ghost use Rattle.pages.specs.Layout.{words, number_bytes, map_count, version_of};
ghost use Rattle.pages.specs.Payload.{payload_words, own_bytes, SpellsRoot};
ghost use Rattle.pages.specs.Volumes.{volume_of};

use crate::volume::VolumeMap;
use crate::volume_mark::{PAGE_MARKS, VolumeMark};
use byteorder::{BigEndian, ByteOrder};
use roots::{PAYLOAD_AT, put_head};

/// The bytes of a root sector.
pub(crate) fn root_bytes_with(
    mark: VolumeMark,
    generation: u64,
    sectors: u32,
    catalog: u32,
    maps: &[u32],
) -> [u8; 4096]
    requires generation { generation < 2 ^ 63 }
    requires least { 1024 ≤ sectors }
    requires most { sectors ≤ 921600 }
    requires maps { length maps.now ≡ map_count sectors }
    ensures { SpellsRoot (record {
      mark = version_of mark;
      generation = generation;
      sectors = sectors;
      catalog = catalog;
      maps = maps.now;
    }) result }
{
    let mut bytes = payload_bytes(catalog, maps);
    put_head(&mut bytes, &mark_bytes(mark), generation, sectors);
    bytes
}

/// The bytes of a mark.
fn mark_bytes(mark: VolumeMark) -> [u8; 8]
    ensures { result ≡ own_bytes (version_of mark) }
{
    match mark {
        VolumeMark::First => PAGE_MARKS[0],
        VolumeMark::Second => PAGE_MARKS[1],
    }
}

/// The bytes of the root sector of a volume.
pub(crate) fn root_bytes_of(volume: &VolumeMap) -> [u8; 4096]
    requires generation { volume.now.generation < 2 ^ 63 }
    requires least { 1024 ≤ volume.now.sectors }
    requires most { volume.now.sectors ≤ 921600 }
    requires maps { length volume.now.maps.items ≡ map_count volume.now.sectors }
    ensures { SpellsRoot (volume_of volume.now).root result }
{
    root_bytes_with(
        volume.mark,
        volume.generation,
        volume.sectors,
        volume.catalog,
        &volume.maps,
    )
}

/// Spells numbers from this byte of a root sector on.
fn put_numbers(bytes: &mut [u8; 4096], at: usize, numbers: &[u32])
    requires { at + 4 * length numbers.now ≤ 4096 }
    ensures { bytes.new ≡ put_at at (number_bytes numbers.now) bytes.old }
{
    BigEndian::write_u32_into(numbers, &mut bytes[at..at + 4 * numbers.len()]);
}

/// A sector with a payload after what stands in front of it: the catalog's page, the number of map sectors, these, and zeros.
fn payload_bytes(catalog: u32, maps: &[u32]) -> [u8; 4096]
    requires { length maps.now ≤ 900 }
    ensures { words (drop 20 result) ≡ payload_words catalog maps.now }
{
    let mut bytes = [0; 4096];
    put_numbers(&mut bytes, PAYLOAD_AT, &[catalog, maps.len() as u32]);
    put_numbers(&mut bytes, PAYLOAD_AT + 8, maps);
    bytes
}
