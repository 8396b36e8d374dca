//! The sector of each page, beside the bytes of the map sectors that tell it.
ghost use Rattle.std.specs.Prelude.{◌≡◌, ◌<◌, ◌≤◌, ◌+◌, ◌*◌, length, IfOk};
ghost use Rattle.pages.specs.Layout.{words, number_bytes};
ghost use Rattle.pages.specs.Image.{map_part};
ghost use Rattle.pages.specs.Table.{AreSpelled};

use crate::numbers::{put_number, spelled_numbers};
use crate::volume::MAP_ENTRIES;
use std::alloc::{AllocError, Global};
use std::marker::Model;

/// The sector of each page, 0 for none. The bytes of each map sector stand beside it and follow each change, so that a commit copies
/// them and spells none.
#[derive(Drop)]
pub(crate) struct SectorTable {
    sectors: Vec<u32>,
    /// What each map sector spells.
    maps: Vec<[u8; 4096]>,
}

impl Model for SectorTable {
    ghost use Rattle.std.specs.Prelude.{ℕ, List};
    ghost use Rattle.pages.specs.Table.{AreSpelled};

    ghost Value = { List ℕ };

    ghost view = { λ table. table.sectors.items };

    ghost invariant = { λ table. AreSpelled table.sectors.items table.maps.items };
}

/// The entries of one map.
pub(crate) fn map_entries(table: &[u32], map: usize) -> &[u32]
    requires { 1024 * map + 1024 ≤ length table.now }
    ensures entries { result.now ≡ map_part table.now map }
    ensures count { length result.now ≡ 1024 }
{
    let start = MAP_ENTRIES * map;
    &table[start..start + MAP_ENTRIES]
}

/// What each map sector spells.
fn spelled_maps(alloc: Global, sectors: &[u32], count: usize) -> Result<Vec<[u8; 4096]>, AllocError>
    requires { length sectors.now ≡ 1024 * count }
    ensures { IfOk result (λ maps. AreSpelled sectors.now maps.items) }
{
    let mut maps = Vec::new(alloc);
    for map in 0..count {
        maps.push(spelled_numbers(map_entries(sectors, map)))?;
    }
    Ok(maps)
}

impl SectorTable {
    ghost use Rattle.std.specs.Prelude.{slice_set};

    /// The table of these sectors, which are 1,024 for each map.
    pub(crate) fn new(
        alloc: Global,
        sectors: Vec<u32>,
        maps: usize,
    ) -> Result<SectorTable, AllocError>
        requires { length sectors.items ≡ 1024 * maps }
        ensures { IfOk result (λ table. table ≡ sectors.items) }
    {
        let maps = spelled_maps(alloc, &sectors, maps)?;
        Ok(SectorTable { sectors, maps })
    }

    /// The sector of each page.
    pub(crate) fn entries(&self) -> &[u32]
        ensures { result.now ≡ self.now }
    {
        &self.sectors
    }

    /// Gives a page another sector, or none.
    pub(crate) fn set(&mut self, page: usize, sector: u32)
        requires { page < length self.old }
        ensures { self.new ≡ slice_set self.old page sector }
    {
        self.sectors[page] = sector;
        put_number(
            &mut self.maps[page / MAP_ENTRIES],
            page % MAP_ENTRIES,
            sector,
        );
    }

    /// What a map sector spells.
    pub(crate) fn map_bytes(&self, map: usize) -> &[u8; 4096]
        requires { 1024 * map + 1024 ≤ length self.now }
        ensures bytes { result.now ≡ number_bytes (map_part self.now map) }
        ensures reads { words result.now ≡ map_part self.now map }
    {
        &self.maps[map]
    }
}
