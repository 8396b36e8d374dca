//! A volume, as memory knows it.
ghost use Rattle.std.specs.Prelude.{◌≡◌, ◌<◌, ◌^◌, length};
ghost use Rattle.pages.specs.Runs.{unused_count};

use crate::sector_use::SectorUse;
use crate::table::SectorTable;
use crate::volume_mark::VolumeMark;

/// Pages and map sectors that a map names.
pub(crate) const MAP_ENTRIES: usize = 1024;

/// The newest root, the sector of each page, and which sectors are used.
#[derive(Drop)]
pub(crate) struct VolumeMap {
    pub mark: VolumeMark,
    pub generation: u64,
    pub sectors: u32,
    /// The page of the catalog's root, 0 for none.
    pub catalog: u32,
    /// The sector of each map sector, 0 for a map of zeros.
    pub maps: Vec<u32>,
    /// The sector of each page, 0 for none.
    pub table: SectorTable,
    /// Whether a sector is a root or is named.
    pub used: SectorUse,
    /// How many aren't.
    pub free: u32,
    /// The sector around which the next commit looks for adjacent sectors: the first one of the commit before the last. What that one
    /// wrote is what the last one replaced. It is not on the disk, and nothing is claimed of it.
    pub near: u32,
    /// The first sector of the last commit.
    pub last_start: u32,
}

/// How many sectors aren't used.
pub(crate) fn count_free(used: &[bool]) -> u32
    requires { length used.now < 2 ^ 32 }
    ensures { result ≡ unused_count used.now }
{
    used.iter().filter(|used| !**used).count() as u32
}
