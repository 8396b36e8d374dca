//! The indicator area, column 7.

ghost use Rattle.std.specs.Prelude.{◌≡◌};
ghost use Rattle.source_lines.specs.Indicator as spec;

use crate::fault::FaultKind;
use crate::line::is_in_character_set;

/// What kind of line an indicator makes.
#[derive(Clone, Copy, PartialEq, Eq)]
pub enum Indicator {
    Plain,
    /// A comment line, or a debugging line.
    Comment,
    Continuation,
}

/// The kind of line that this byte makes in column 7.
pub fn indicator_of(byte: u8) -> Result<Indicator, FaultKind>
    ensures { result ≡ spec.indicator_of byte }
{
    match byte {
        b' ' => Ok(Indicator::Plain),
        b'*' | b'/' | b'D' | b'd' => Ok(Indicator::Comment),
        b'-' => Ok(Indicator::Continuation),
        _ if is_in_character_set(byte) => Err(FaultKind::UnknownIndicator),
        _ => Err(FaultKind::ByteOutsideCharacterSet),
    }
}
