//! The operands of a row.

ghost use Rattle.std.specs.Prelude.{◌≤◌};

use decimal18::Dec;
use row_scripts::Words;
use std::alloc::{AllocError, Global};

const TEN_TO_38: u128 = 100_000_000_000_000_000_000_000_000_000_000_000_000;

/// The most decimals of a number.
pub const MOST_SCALE: u8 = 18;

/// The operands that are left of a row. An operand that is missing or wrong is taken as zero or as nothing, and the row is wrong.
#[derive(Drop)]
pub struct Operands<'a> {
    pub words: Words<'a>,
    is_wrong: bool,
}

impl<'a> Operands<'a> {
    /// All words of a row.
    pub fn of(row: &'a [u8]) -> Operands<'a> {
        Operands {
            words: Words::of(row),
            is_wrong: false,
        }
    }

    /// Whether the row is wrong.
    pub fn is_wrong(&self) -> bool {
        self.is_wrong
    }

    /// The row is wrong.
    pub fn refuse(&mut self) {
        self.is_wrong = true;
    }

    /// The next word.
    pub fn word(&mut self) -> &'a [u8] {
        let word = self.words.word().unwrap_or(b"");
        if word.is_empty() {
            self.refuse();
        }
        word
    }

    /// The next word as a number, however long.
    pub fn number(&mut self) -> Written {
        match read(self.word()) {
            Some(number) => number,
            None => {
                self.refuse();
                ZERO
            }
        }
    }

    /// The next word as a number of 38 digits and 18 decimals at most.
    pub fn decimal(&mut self) -> Dec {
        let number = self.number();
        if number.magnitude < TEN_TO_38 && number.scale <= MOST_SCALE {
            return Dec::from_parts(number.is_negative, number.magnitude, number.scale);
        }
        self.refuse();
        Dec::short(0, 0)
    }

    /// The next word as an integer.
    pub fn integer(&mut self) -> i128 {
        let number = self.number();
        match i128::try_from(number.magnitude) {
            Ok(magnitude) if number.is_negative && !number.has_point => magnitude.wrapping_neg(),
            Ok(magnitude) if !number.has_point => magnitude,
            _ => {
                self.refuse();
                0
            }
        }
    }

    /// The next word as an integer of 64 bits without a sign.
    pub fn magnitude(&mut self) -> u64 {
        match self.words.number() {
            Some(number) => number,
            None => {
                self.refuse();
                0
            }
        }
    }

    /// The next word as a count or a place, at most this.
    pub fn count(&mut self, most: u8) -> u8
        ensures { result ≤ most }
    {
        let number = self.magnitude();
        if number <= u64::from(most) {
            return number as u8;
        }
        self.refuse();
        0
    }

    /// Bytes: a text in quotation marks, or `x"` and hexadecimal digits.
    pub fn bytes(&mut self, alloc: Global, word: &[u8]) -> Result<Vec<u8>, AllocError> {
        let (is_hexadecimal, word) = match word {
            [b'x', word @ ..] => (true, word),
            _ => (false, word),
        };
        let text = self.inside(word);
        if is_hexadecimal {
            return Ok(self.decoded(alloc, text));
        }
        Vec::from_slice(alloc, text)
    }

    /// What is between quotation marks.
    fn inside<'b>(&mut self, word: &'b [u8]) -> &'b [u8] {
        match word {
            [b'"', text @ .., b'"'] => text,
            _ => {
                self.refuse();
                word
            }
        }
    }

    fn decoded(&mut self, alloc: Global, digits: &[u8]) -> Vec<u8> {
        match hex::decode(alloc, digits) {
            Ok(bytes) => bytes,
            Err(_) => {
                self.refuse();
                Vec::new(alloc)
            }
        }
    }
}

const ZERO: Written = Written {
    is_negative: false,
    magnitude: 0,
    scale: 0,
    has_point: false,
};

/// A number as it is written. Those of its digits that are after a point are its decimals.
#[derive(Clone, Copy)]
pub struct Written {
    pub is_negative: bool,
    pub magnitude: u128,
    pub scale: u8,
    has_point: bool,
}

impl Written {
    /// With a further character.
    fn with(self, byte: u8) -> Option<Written> {
        match byte {
            b'0'..=b'9' => {
                let digit = u128::from(byte.wrapping_sub(b'0'));
                let magnitude = self.magnitude.saturating_mul(10).saturating_add(digit);
                let scale = self.scale.saturating_add(u8::from(self.has_point));
                Some(Written {
                    magnitude,
                    scale,
                    ..self
                })
            }
            b'.' if !self.has_point => Some(Written {
                has_point: true,
                ..self
            }),
            _ => None,
        }
    }
}

/// The number of a word.
fn read(word: &[u8]) -> Option<Written> {
    let (is_negative, digits) = match word {
        [b'-', digits @ ..] => (true, digits),
        digits => (false, digits),
    };
    let mut written = Written {
        is_negative,
        ..ZERO
    };
    for byte in digits.iter() {
        written = written.with(*byte)?;
    }
    if digits.is_empty() {
        None
    } else {
        Some(written)
    }
}
