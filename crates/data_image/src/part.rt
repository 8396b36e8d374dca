//! Instructions that make parts, in an image.

ghost use Rattle.std.specs.Prelude.{◌≡◌, ◌++◌, OnOk};
ghost use Rattle.data_image.specs.Parts.{part_bytes, HasSize};

use crate::byte::put_byte;
use crate::number::put_naming;
use data_instructions::Part;
use std::alloc::AllocError;

// The first byte of each in an image.
pub const PART_FIXED: u8 = 70;

pub const PART_COUNTED: u8 = 71;

pub const PART_REST: u8 = 72;

pub fn put_part(out: &mut Vec<u8>, one: Part) -> Result<(), AllocError>
    ensures bytes { OnOk result (out.new.items ≡ out.old.items ++ part_bytes one) }
    ensures fits { HasSize one }
{
    match one {
        Part::Fixed { size } => put_naming(out, PART_FIXED, size),
        Part::Counted => put_byte(out, PART_COUNTED),
        Part::Rest => put_byte(out, PART_REST),
    }
}
