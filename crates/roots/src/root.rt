//! A root sector. Numbers are big-endian; the layout is this project's own.
ghost use Rattle.std.specs.Prelude.{◌≡◌, ◌<◌, ◌≤◌, ◌+◌, ◌++◌, length, drop, map, position, is_some, Option, IfSome};
ghost use Rattle.byteorder.specs.Endian.{big_bytes};
ghost use Rattle.roots.specs.Root.{version_in, mark_in, root_in, root_with, is_blank, is_valid, put_at, root_bytes};

use byteorder::{BigEndian, ByteOrder};

pub const SECTOR_BYTES: usize = 4096;

/// The first bytes of a root sector, which tell the format.
pub const MARK_BYTES: usize = 8;

/// Where the payload begins.
pub const PAYLOAD_AT: usize = 20;

/// A root sector ends in so many bytes that the format of the volume rules.
pub const PAYLOAD_BYTES: usize = 4076;

/// A generation is below this number.
pub const GENERATIONS: u64 = 9_223_372_036_854_775_808;

/// A volume has at least so many sectors.
pub const LEAST_SECTORS: u32 = 1024;

/// A volume has at most so many sectors.
pub const MOST_SECTORS: u32 = 921_600;

/// A mark, by its place among those that a reader knows.
#[derive(Clone, Copy, Debug, PartialEq, Eq)]
pub struct Mark {
    /// The index of its family, from 0.
    pub family: usize,
    /// Its index in the family, from 0.
    pub version: usize,
}

/// What a root sector tells: its mark in bytes 0 to 7, its generation in 8 to 15, the number of sectors in 16 to 19, and the
/// payload.
#[derive(Clone, Copy, PartialEq, Eq)]
pub struct Root {
    pub mark: Mark,
    /// One more than that of the root before it.
    pub generation: u64,
    /// How many sectors the volume has.
    pub sectors: u32,
    /// What the format of the volume has in the other bytes.
    pub payload: [u8; 4076],
}

/// What a root sector is.
#[derive(Clone, Copy, PartialEq, Eq)]
pub enum RootSector {
    /// All zeros.
    Blank,
    /// Neither zeros nor a root.
    Broken,
    Valid(Root),
}

/// The index of the mark of a family at the front of a sector.
fn version_of(family: &[[u8; 8]], bytes: &[u8; 4096]) -> Option<usize>
    ensures { result ≡ version_in family.now bytes.now }
{
    family.iter().position(|mark| bytes.starts_with(mark))
}

/// The index of the first family with a mark at the front of a sector.
fn family_of(known: &[&[[u8; 8]]], bytes: &[u8; 4096]) -> Option<usize>
    ensures family { result
        ≡ position (λ family. is_some (version_in family.now bytes.now)) known.now }
    ensures bound { IfSome result (λ family. family < length known.now) }
{
    known
        .iter()
        .position(|family| version_of(family, bytes).is_some())
}

/// The mark at the front of a sector.
fn known_mark(known: &[&[[u8; 8]]], bytes: &[u8; 4096]) -> Option<Mark>
    ensures { result ≡ mark_in (map (λ family. family.now) known.now) bytes.now }
{
    let family = family_of(known, bytes)?;
    let version = version_of(known[family], bytes)?;
    Some(Mark { family, version })
}

/// The root in a sector whose mark is known.
fn marked_root(mark: Mark, bytes: &[u8; 4096]) -> Root
    ensures { result ≡ root_with bytes.now mark }
{
    let mut payload = [0; 4076];
    payload.copy_from_slice(&bytes[20..]);
    Root {
        mark,
        generation: BigEndian::read_u64(&bytes[8..]),
        sectors: BigEndian::read_u32(&bytes[16..]),
        payload,
    }
}

/// Whether a sector has zeros alone.
fn is_all_zeros(bytes: &[u8; 4096]) -> bool
    ensures { result ≡ is_blank bytes.now }
{
    bytes.iter().all(|byte| *byte == 0)
}

/// Whether a root may stand in the sector of this number, on a device of so many sectors.
fn is_root_of(root: &Root, count: u32, number: u32) -> bool
    ensures { result ≡ is_valid count number root.now }
{
    root.generation < GENERATIONS
        && root.generation % 2 == number as u64
        && LEAST_SECTORS <= root.sectors
        && root.sectors <= MOST_SECTORS
        && root.sectors <= count
}

/// What the root sector of this number is, on a device of so many sectors, to a reader that knows these families of marks. Each
/// family has the marks of one format, in the order of their introduction.
pub fn read_root(known: &[&[[u8; 8]]], count: u32, number: u32, bytes: &[u8; 4096]) -> RootSector
    ensures { result ≡ root_in (map (λ family. family.now) known.now) count number bytes.now }
{
    if is_all_zeros(bytes) {
        return RootSector::Blank;
    }
    let mark = match known_mark(known, bytes) {
        Some(mark) => mark,
        None => return RootSector::Broken,
    };
    let root = marked_root(mark, bytes);
    if is_root_of(&root, count, number) {
        RootSector::Valid(root)
    } else {
        RootSector::Broken
    }
}

/// Puts bytes into a sector from this byte on.
fn put(bytes: &mut [u8; 4096], at: usize, part: &[u8])
    requires { at + length part.now ≤ 4096 }
    ensures { bytes.new ≡ put_at at part.now bytes.old }
{
    bytes[at..at + part.len()].copy_from_slice(part);
}

/// Puts what stands in front of a root's payload into its sector: this mark, its generation and the number of sectors.
pub fn put_head(bytes: &mut [u8; 4096], mark: &[u8; 8], generation: u64, sectors: u32)
    ensures { bytes.new
        ≡ mark.now ++ big_bytes 8 generation ++ big_bytes 4 sectors ++ drop 20 bytes.old }
{
    put(bytes, 0, mark);
    put(bytes, 8, &generation.to_be_bytes());
    put(bytes, 16, &sectors.to_be_bytes());
}

/// The bytes of a root sector with this mark.
pub fn root_sector(mark: &[u8; 8], root: &Root) -> [u8; 4096]
    ensures { result ≡ root_bytes mark.now root.now }
{
    let mut bytes = [0; 4096];
    put_head(&mut bytes, mark, root.generation, root.sectors);
    put(&mut bytes, PAYLOAD_AT, &root.payload);
    bytes
}
