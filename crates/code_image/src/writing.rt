//! From code to the bytes of its image.

ghost use Rattle.std.specs.Prelude.{◌≡◌, OnOk, IfOk};
ghost use Rattle.code_image.specs.Spelling.{code_bytes, is_second, HasSpelling};

use crate::code::Code;
use data_image::{put_table, put_tables};
use std::alloc::{AllocError, Global};

/// The first bytes of an image of the first version.
pub(crate) const MARK: [u8; 8] = *b"COBIMG01";

/// The first bytes of an image of the second version, which may have parts and conversions.
pub(crate) const SECOND_MARK: [u8; 8] = *b"COBIMG02";

impl Code {
    /// The image has the mark of the second version, because an instruction isn't in the first.
    pub(crate) fn is_second(&self) -> bool
        ensures { result ≡ is_second self.now }
    {
        self.instructions
            .as_slice()
            .iter()
            .any(|one| one.needs_second())
    }
}

/// The one spelling of code.
pub fn to_bytes(alloc: Global, code: &Code) -> Result<Vec<u8>, AllocError>
    ensures bytes { IfOk result (λ bytes. bytes.items ≡ code_bytes code.now) }
    // So `from_bytes` reads it again.
    ensures has_spelling { OnOk result (HasSpelling code.now) }
{
    let mark = if code.is_second() { SECOND_MARK } else { MARK };
    let mut out = Vec::from_slice(alloc, &mark)?;
    put_tables(&mut out, &code.tables)?;
    put_table(&mut out, code.files.as_slice())?;
    put_table(&mut out, code.starts.as_slice())?;
    put_table(&mut out, code.instructions.as_slice())?;
    Ok(out)
}
