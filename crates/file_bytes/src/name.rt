//! The name of a file, filled with zeros.
ghost use Rattle.std.specs.Prelude.{◌≡◌, ◌≤◌, length, IfOk, IsOkUnless};
ghost use Rattle.file_bytes.specs.Description.{padded_name};
ghost use Rattle.file_bytes.specs.Read.{name_in};

use records::StoreFault;
use std::alloc::Global;

/// The bytes of a name that is filled with zeros.
pub const NAME_BYTES: usize = 30;

/// A name, filled with zeros.
pub fn pad_name(name: &[u8]) -> [u8; 30]
    requires { length name.now ≤ 30 }
    ensures { result ≡ padded_name name.now }
{
    let mut padded = [0; NAME_BYTES];
    padded[..name.len()].copy_from_slice(name);
    padded
}

/// The bytes in front of the first zero.
pub(crate) fn read_name(alloc: Global, bytes: &[u8]) -> Result<Vec<u8>, StoreFault>
    ensures name { IfOk result (λ name. name.items ≡ name_in bytes.now) }
    ensures memory { IsOkUnless result StoreFault.Memory }
{
    let mut name = Vec::new(alloc);
    for byte in bytes {
        if *byte == 0 {
            return Ok(name);
        }
        name.push(*byte)?;
    }
    Ok(name)
}
