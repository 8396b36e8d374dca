ghost use Rattle.std.specs.Prelude.{◌≡◌};

use thiserror::Error;

/// The size error condition: a result that the limits of an intermediate result or of a receiver can't hold
/// (COBOL-85, Nucleus, the ON SIZE ERROR phrase).
#[derive(Clone, Copy, Debug, PartialEq, Eq, Error)]
#[error("size error")]
pub struct Size;

/// The number of the refusal.
pub const SIZE: u8 = 2;

impl Size {
    pub fn number(self) -> u8
        ensures { result ≡ 2 }
    {
        SIZE
    }
}
