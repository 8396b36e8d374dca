//! A line of a source text as the columns of the reference format.

ghost use Rattle.std.specs.Prelude.{◌≡◌, ◌≤◌, ◌<◌};
ghost use Rattle.source_lines.specs.Line as spec;

use crate::fault::{FaultKind, SourceError, SourceFault};
use crate::lines::Character;
use lexical::Place;

/// How many columns the reference format has. What stands after them is ignored.
pub const COLUMNS: usize = 72;
/// The column after the last one.
pub const PAST_LAST_COLUMN: u8 = 73;
/// The column of the indicator.
pub const INDICATOR_COLUMN: u8 = 7;
/// The first column of area A.
pub const AREA_A: u8 = 8;
/// The first column of area B.
pub const AREA_B: u8 = 12;
/// A tab leads to the next column that follows a multiple of this.
pub const TAB_STOP: usize = 8;

pub const SPACE: u8 = b' ';

pub const TAB: u8 = b'\t';

/// A line of a source text, counted from 1, and the bytes of its columns, with spaces for tabs and after its end.
#[derive(Clone, Copy)]
pub struct Line {
    pub number: u32,
    pub columns: [u8; COLUMNS],
}

/// Whether the byte is of those that a source text may have outside comments.
pub fn is_in_character_set(byte: u8) -> bool
    ensures { result ≡ spec.is_in_character_set byte }
{
    b' ' <= byte && byte <= b'~'
}

impl Line {
    /// The line with this number that has these bytes before its end.
    pub fn new(number: u32, bytes: &[u8]) -> Line
        ensures { result ≡ spec.line number bytes.now }
    {
        let mut columns = [SPACE; COLUMNS];
        let mut filled = 0;
        for byte in bytes {
            if filled == COLUMNS {
                break;
            }
            if *byte == TAB {
                filled += TAB_STOP - filled % TAB_STOP;
            } else {
                columns[filled] = *byte;
                filled += 1;
            }
        }
        Line { number, columns }
    }

    /// The byte in a column.
    pub fn byte(&self, column: u8) -> u8
        requires first { 1 ≤ column }
        requires last { column ≤ 72 }
        ensures { result ≡ spec.byte self.now column }
    {
        self.columns[column as usize - 1]
    }

    /// A column's byte with its place.
    pub fn character(&self, column: u8) -> Character
        requires first { 1 ≤ column }
        requires last { column ≤ 72 }
        ensures { result ≡ spec.character self.now column }
    {
        Character {
            byte: self.byte(column),
            place: self.place(column),
        }
    }

    pub fn place(&self, column: u8) -> Place
        ensures { result ≡ spec.place_in_line self.now column }
    {
        Place {
            line: self.number,
            column,
        }
    }

    /// The first column of areas A and B that isn't blank.
    pub fn first_nonblank(&self) -> Option<u8>
        ensures { result ≡ spec.first_nonblank self.now }
    {
        for column in AREA_A..PAST_LAST_COLUMN {
            if self.byte(column) != SPACE {
                return Some(column);
            }
        }
        None
    }

    /// The first column of areas A and B whose byte is outside the character set.
    pub fn first_outside(&self) -> Option<u8>
        ensures { result ≡ spec.first_outside self.now }
    {
        for column in AREA_A..PAST_LAST_COLUMN {
            if !is_in_character_set(self.byte(column)) {
                return Some(column);
            }
        }
        None
    }

    /// The last column of areas A and B that isn't blank, or the one before them where both are blank.
    pub fn last_nonblank(&self) -> u8
        ensures value { result ≡ spec.last_nonblank self.now }
        ensures bound { result ≤ 72 }
    {
        for column in (AREA_A..PAST_LAST_COLUMN).rev() {
            if self.byte(column) != SPACE {
                return column;
            }
        }
        INDICATOR_COLUMN
    }

    /// The fault of this kind at a column of the line.
    pub fn refuse(&self, kind: FaultKind, column: u8) -> SourceError
        ensures { result ≡ SourceError.Refused (spec.fault self.now kind column) }
    {
        SourceError::Refused(SourceFault {
            kind,
            place: self.place(column),
        })
    }
}
