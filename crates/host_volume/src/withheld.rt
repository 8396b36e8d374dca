//! The roots of a volume that is being made.

ghost use Rattle.std.specs.Prelude.{◌≡◌, ◌<◌, if◌then◌else◌, slice_set, slice_index_or, []};
ghost use Rattle.std.specs.Ordering.{is_lt};
ghost use Rattle.host_volume.specs.Roots.{generation_order};

/// How many roots a volume has: the sectors 0 and 1.
pub(crate) const ROOTS: u32 = 2;

/// The roots as they were written last, zeros before that. They wait for the other sectors.
#[derive(Drop)]
pub(crate) struct WithheldRoots {
    pub sectors: [[u8; 4096]; 2],
}

impl WithheldRoots {
    /// Nothing was written.
    pub(crate) fn new() -> WithheldRoots {
        WithheldRoots {
            sectors: [[0; 4096]; 2],
        }
    }

    /// Takes what is written to a root.
    pub(crate) fn write(&mut self, sector: u32, bytes: &[u8; 4096])
        requires { sector < 2 }
        ensures { self.new.sectors ≡ slice_set self.old.sectors sector bytes.now }
    {
        self.sectors[sector as usize] = *bytes;
    }

    /// The root of the greater generation, and the other one. Its generation is in bytes 8 to 15, the greatest part first.
    pub(crate) fn newest_first(&self) -> (u32, u32)
        ensures order { result ≡ (if is_lt
            (generation_order (slice_index_or self.now.sectors 0 [])
            (slice_index_or self.now.sectors 1 [])) then (1, 0) else (0, 1)) }
        ensures newest { result.0 < 2 }
        ensures other { result.1 < 2 }
    {
        let (first, second) = (&self.sectors[0], &self.sectors[1]);
        if first[8..16].cmp(&second[8..16]).is_lt() {
            (1, 0)
        } else {
            (0, 1)
        }
    }

    /// What was written to a root last.
    pub(crate) fn read(&self, sector: u32) -> &[u8; 4096]
        requires { sector < 2 }
        ensures { result.now ≡ slice_index_or self.now.sectors sector [] }
    {
        &self.sectors[sector as usize]
    }
}
