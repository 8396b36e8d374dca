//! Nonnumeric literals that are open at the end of a line.

ghost use Rattle.std.specs.Prelude.{◌≡◌, ◌≤◌};
ghost use Rattle.source_lines.specs.Literal as spec;

use crate::line::{Line, PAST_LAST_COLUMN};
use crate::lines::Character;
use lexical::Place;

/// A nonnumeric literal whose second mark hasn't come yet.
#[derive(Clone, Copy)]
pub struct OpenLiteral {
    pub mark: u8,
    /// Where its first mark stands.
    pub opening: Place,
}

/// Whether the byte is a quotation mark or an apostrophe.
pub fn is_mark(byte: u8) -> bool
    ensures { result ≡ spec.is_mark byte }
{
    byte == b'"' || byte == b'\''
}

/// The literal that is open after a character.
pub fn open_after(before: Option<OpenLiteral>, character: Character) -> Option<OpenLiteral>
    ensures { result ≡ spec.open_after before character }
{
    match before {
        Some(literal) if literal.mark == character.byte => None,
        None if is_mark(character.byte) => Some(OpenLiteral {
            mark: character.byte,
            opening: character.place,
        }),
        _ => before,
    }
}

/// The literal that is open at the end of a line, of which the columns count from this one on.
pub fn open_at_end(before: Option<OpenLiteral>, line: &Line, from: u8) -> Option<OpenLiteral>
    requires first { 1 ≤ from }
    requires last { from ≤ 73 }
    ensures { result ≡ spec.open_at_end before line.now from }
{
    let mut literal = before;
    for column in from..PAST_LAST_COLUMN {
        literal = open_after(literal, line.character(column));
    }
    literal
}
