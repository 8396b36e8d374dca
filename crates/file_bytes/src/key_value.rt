//! The value of a key in a record.
ghost use Rattle.std.specs.Prelude.{◌≡◌};
ghost use Rattle.records.specs.Rows.{part};

use records::KeyPlace;

/// A key's value in a record. Bytes past the end of the record are left out.
#[tactic(auto, using(crate::proofs::Parts::part_past, crate::proofs::Parts::part_cut))]
pub fn part_of(place: KeyPlace, bytes: &[u8]) -> &[u8]
    ensures { result.now ≡ part place bytes.now }
{
    let start = place.offset as usize;
    let length = place.length as usize;
    if start >= bytes.len() {
        return &bytes[..0];
    }
    let rest = &bytes[start..];
    if length >= rest.len() {
        return rest;
    }
    &rest[..length]
}
