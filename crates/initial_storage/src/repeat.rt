//! Bytes over and over.

ghost use Rattle.std.specs.Prelude.{◌≡◌, ◌≤◌, ◌++◌, length, take, drop, OnOk};
ghost use Rattle.std.specs.List.{repeat};

use std::alloc::AllocError;

/// Copies the bytes from a place to the end, so that they stand there so many times.
pub fn repeat_from(out: &mut Vec<u8>, begin: usize, times: u32) -> Result<(), AllocError>
    requires begin { begin ≤ length out.old.items }
    requires some { 1 ≤ times }
    ensures { OnOk result
        (out.new.items ≡ take begin out.old.items ++ repeat times (drop begin out.old.items)) }
{
    let end = out.len();
    for _turn in 1..times {
        out.extend_from_within(begin..end)?;
    }
    Ok(())
}
