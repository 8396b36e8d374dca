//! Usages and signs in an image.

ghost use Rattle.std.specs.Prelude.{◌≡◌};
ghost use Rattle.data_image.specs.Items as spec;

use items::{OperationalSign, Usage};

// The byte of each usage with its sign.
const UNSIGNED: u8 = 1;

const TRAILING: u8 = 2;

const LEADING: u8 = 3;

const TRAILING_SEPARATE: u8 = 4;

const LEADING_SEPARATE: u8 = 5;

const BINARY: u8 = 6;

const SIGNED_BINARY: u8 = 7;

const PACKED: u8 = 8;

const SIGNED_PACKED: u8 = 9;

/// The byte of a usage with its sign.
pub fn usage_byte(usage: Usage) -> u8
    ensures { result ≡ spec.usage_byte usage }
{
    match usage {
        Usage::Display(OperationalSign::Unsigned) => UNSIGNED,
        Usage::Display(OperationalSign::Trailing) => TRAILING,
        Usage::Display(OperationalSign::Leading) => LEADING,
        Usage::Display(OperationalSign::TrailingSeparate) => TRAILING_SEPARATE,
        Usage::Display(OperationalSign::LeadingSeparate) => LEADING_SEPARATE,
        Usage::Binary { signed: false } => BINARY,
        Usage::Binary { signed: true } => SIGNED_BINARY,
        Usage::Packed { signed: false } => PACKED,
        Usage::Packed { signed: true } => SIGNED_PACKED,
    }
}

/// The usage of a byte, if there is one.
#[tactic(auto, unfolding(crate::specs::Items::usage_of))]
pub fn usage_of(byte: u8) -> Option<Usage>
    ensures { result ≡ spec.usage_of byte }
{
    match byte {
        UNSIGNED => Some(Usage::Display(OperationalSign::Unsigned)),
        TRAILING => Some(Usage::Display(OperationalSign::Trailing)),
        LEADING => Some(Usage::Display(OperationalSign::Leading)),
        TRAILING_SEPARATE => Some(Usage::Display(OperationalSign::TrailingSeparate)),
        LEADING_SEPARATE => Some(Usage::Display(OperationalSign::LeadingSeparate)),
        BINARY => Some(Usage::Binary { signed: false }),
        SIGNED_BINARY => Some(Usage::Binary { signed: true }),
        PACKED => Some(Usage::Packed { signed: false }),
        SIGNED_PACKED => Some(Usage::Packed { signed: true }),
        _ => None,
    }
}
