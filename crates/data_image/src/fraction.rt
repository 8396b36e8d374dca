//! Decimal numbers in an image.

ghost use Rattle.std.specs.Prelude.{◌≡◌, ◌++◌, ◌∷◌, OnOk};
ghost use Rattle.data_image.specs.Fractions as spec;
ghost use Rattle.data_image.specs.Fractions.{fraction_bytes, fraction_at, IsFractionSpelled};

use crate::byte::{flag_byte, put_byte, read_byte, read_flag};
use crate::fault::{ImageError, ImageFault};
use crate::number::{put_wide, read_wide};
use crate::table::TableEntry;
use decimal18::Dec;
use std::alloc::{AllocError, Global};

/// What no coefficient reaches.
const COEFFICIENT_LIMIT: u128 = 100_000_000_000_000_000_000_000_000_000_000_000_000;

/// The greatest scale.
const MOST_SCALE: u8 = 18;

impl TableEntry for Dec {
    ghost spelled = { fraction_bytes };

    ghost read_from = { fraction_at };

    ghost fits = { IsFractionSpelled };

    fn put(&self, out: &mut Vec<u8>) -> Result<(), AllocError> {
        let number = *self;
        put_byte(out, flag_byte(number.is_negative()))?;
        put_wide(out, number.magnitude())?;
        put_byte(out, number.scale())
    }

    #[tactic(auto, unfolding(crate::specs::Fractions::fraction_at))]
    fn read(_alloc: Global, bytes: &[u8]) -> Result<(Dec, &[u8]), ImageError> {
        let (negative, rest) = read_flag(bytes)?;
        let (magnitude, rest) = read_wide(rest)?;
        let (scale, rest) = read_byte(rest)?;
        if !is_fraction(negative, magnitude, scale) {
            return Err(ImageError::Refused(ImageFault::Value));
        }
        Ok((Dec::from_parts(negative, magnitude, scale), rest))
    }
}

/// A number has these parts. Zero isn't negative.
fn is_fraction(negative: bool, magnitude: u128, scale: u8) -> bool
    ensures { result ≡ spec.is_fraction negative magnitude scale }
{
    magnitude < COEFFICIENT_LIMIT && scale <= MOST_SCALE && !(negative && magnitude == 0)
}
