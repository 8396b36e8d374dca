//! The parts of a record.
ghost use Rattle.std.specs.Prelude.{◌≡◌, ◌⊎◌, ◌<◌, ◌≤◌, ◌+◌, ◌*◌, length, drop};
ghost use Rattle.chains.specs.Chain.{pages_for};
ghost use Rattle.chains.specs.Links.{IsCut};

/// How many bytes of a record a page has room for.
pub(crate) const PART_BYTES: usize = 4080;

/// How many pages a record of so many bytes needs.
pub fn page_count(bytes: usize) -> usize
    ensures { result ≡ pages_for bytes }
{
    bytes.div_ceil(PART_BYTES)
}

/// The end of the part of this number in a record of so many bytes.
pub(crate) fn part_end(place: usize, bytes: usize) -> usize
    requires { place < pages_for bytes }
    ensures low { place * 4080 < result }
    ensures high { result ≤ place * 4080 + 4080 }
    ensures within { result ≤ bytes }
    ensures last { (result ≡ place * 4080 + 4080) ⊎ (result ≡ bytes) }
{
    let from = place * PART_BYTES;
    if bytes - from < PART_BYTES {
        bytes
    } else {
        from + PART_BYTES
    }
}

/// The part of this number of a record.
pub(crate) fn part_of(bytes: &[u8], place: usize) -> &[u8]
    requires { place < pages_for (length bytes.now) }
    ensures { IsCut (drop (place * 4080) bytes.now) result.now
        (drop ((place + 1) * 4080) bytes.now) }
{
    &bytes[place * PART_BYTES..part_end(place, bytes.len())]
}
