//! Writes to adjacent sectors, gathered for one call of the host.

ghost use Rattle.std.specs.Prelude.{◌≡◌, ◌⊎◌, ◌<◌, ◌+◌, ◌*◌, ◌++◌, [], true, length, OnOk, OnErr};

use std::alloc::{AllocError, Global};

/// The bytes of a sector.
const SECTOR: usize = 4096;

/// No more than so many bytes are gathered: 64 sectors.
const MOST_BYTES: usize = 64 * SECTOR;

/// Sectors from the first one on, one after the other. Their bytes wait for the host.
#[derive(Drop)]
pub(crate) struct GatheredWrites {
    pub first: u32,
    pub bytes: Vec<u8>,
}

impl GatheredWrites {
    ghost use Rattle.host_volume.specs.Gathered.{FollowsBytes};

    pub(crate) fn new(alloc: Global) -> GatheredWrites
        ensures { result.bytes.items ≡ [] }
    {
        GatheredWrites {
            first: 0,
            bytes: Vec::new(alloc),
        }
    }

    /// Whether a sector has its place after the others, or is the first one.
    pub(crate) fn has_place_for(&self, sector: u32) -> bool
        ensures { result ≡ true → FollowsBytes self.now.first self.now.bytes.items sector }
    {
        let count = self.bytes.len();
        if count == 0 {
            return true;
        }
        count < MOST_BYTES && sector as usize * SECTOR == self.first as usize * SECTOR + count
    }

    /// Puts a sector after the others.
    pub(crate) fn add(&mut self, sector: u32, bytes: &[u8; 4096]) -> Result<(), AllocError>
        requires { FollowsBytes self.old.first self.old.bytes.items sector }
        ensures bytes { OnOk result (self.new.bytes.items ≡ self.old.bytes.items ++ bytes.now) }
        ensures place { OnOk result
            (sector * 4096 ≡ self.new.first * 4096 + length self.old.bytes.items) }
        ensures refused { OnErr result (self.new.bytes.items ≡ self.old.bytes.items) }
        ensures first { OnErr result (self.new.first ≡ self.old.first) }
    {
        self.bytes.extend_from_slice(bytes)?;
        if self.bytes.len() == SECTOR {
            self.first = sector;
        }
        Ok(())
    }
}
