//! Items in an image.

ghost use Rattle.std.specs.Prelude.{◌≡◌, ◌++◌, OnOk};
ghost use Rattle.answers.specs.Answer.{Gives};
ghost use Rattle.data_image.specs.Faults.{fault_of};
ghost use Rattle.data_image.specs.Items as spec;
ghost use Rattle.data_image.specs.Items.{kind_bytes, kind_at, item_bytes, item_at, numeric_at, HasByteDigits, IsItemSpelled};

use crate::byte::{found, put_byte, read_byte};
use crate::fault::ImageError;
use crate::number::{put_short, read_short};
use crate::usage::{usage_byte, usage_of};
use items::{Item, Kind, Numeric};
use std::alloc::AllocError;

// The first byte of each kind.
const GROUP: u8 = 1;

const ALPHABETIC: u8 = 2;

const JUSTIFIED_ALPHABETIC: u8 = 3;

const ALPHANUMERIC: u8 = 4;

const JUSTIFIED_ALPHANUMERIC: u8 = 5;

const ALPHANUMERIC_EDITED: u8 = 6;

const NUMERIC_EDITED: u8 = 7;

const BLANK_WHEN_ZERO: u8 = 8;

const NUMERIC: u8 = 9;

/// Puts an item: its kind, and its length.
pub fn put_item(out: &mut Vec<u8>, item: Item) -> Result<(), AllocError>
    ensures bytes { OnOk result (out.new.items ≡ out.old.items ++ item_bytes item) }
    ensures fits { IsItemSpelled item }
{
    put_kind(out, item.kind)?;
    put_short(out, item.length)
}

/// The item in front, and the bytes after it.
#[tactic(auto, unfolding(crate::specs::Items::item_at))]
pub fn read_item(bytes: &[u8]) -> Result<(Item, &[u8]), ImageError>
    ensures { Gives (λ x. (x.0, x.1.now)) fault_of result (item_at bytes.now) }
{
    let (kind, rest) = read_kind(bytes)?;
    let (length, rest) = read_short(rest)?;
    Ok((Item { kind, length }, rest))
}

fn put_numeric(out: &mut Vec<u8>, numeric: Numeric) -> Result<(), AllocError>
    ensures bytes { OnOk result
        (out.new.items ≡ out.old.items ++ kind_bytes (spec.numeric numeric)) }
    ensures fits { HasByteDigits (spec.numeric numeric) }
{
    let usage = usage_byte(numeric.usage);
    out.extend_from_slice(&[NUMERIC, numeric.digits, numeric.scale, usage])
}

fn put_kind(out: &mut Vec<u8>, kind: Kind) -> Result<(), AllocError>
    ensures bytes { OnOk result (out.new.items ≡ out.old.items ++ kind_bytes kind) }
    ensures fits { HasByteDigits kind }
{
    match kind {
        Kind::Group => put_byte(out, GROUP),
        Kind::Alphabetic { justified: false } => put_byte(out, ALPHABETIC),
        Kind::Alphabetic { justified: true } => put_byte(out, JUSTIFIED_ALPHABETIC),
        Kind::Alphanumeric { justified: false } => put_byte(out, ALPHANUMERIC),
        Kind::Alphanumeric { justified: true } => put_byte(out, JUSTIFIED_ALPHANUMERIC),
        Kind::AlphanumericEdited => put_byte(out, ALPHANUMERIC_EDITED),
        Kind::NumericEdited {
            blank_when_zero: false,
        } => put_byte(out, NUMERIC_EDITED),
        Kind::NumericEdited {
            blank_when_zero: true,
        } => put_byte(out, BLANK_WHEN_ZERO),
        Kind::Numeric(numeric) => put_numeric(out, numeric),
    }
}

/// The kind of an item that isn't numeric.
#[tactic(auto, unfolding(crate::specs::Items::plain_kind_of))]
fn plain_kind_of(byte: u8) -> Option<Kind>
    ensures { result ≡ spec.plain_kind_of byte }
{
    match byte {
        GROUP => Some(Kind::Group),
        ALPHABETIC => Some(Kind::Alphabetic { justified: false }),
        JUSTIFIED_ALPHABETIC => Some(Kind::Alphabetic { justified: true }),
        ALPHANUMERIC => Some(Kind::Alphanumeric { justified: false }),
        JUSTIFIED_ALPHANUMERIC => Some(Kind::Alphanumeric { justified: true }),
        ALPHANUMERIC_EDITED => Some(Kind::AlphanumericEdited),
        NUMERIC_EDITED => Some(Kind::NumericEdited {
            blank_when_zero: false,
        }),
        BLANK_WHEN_ZERO => Some(Kind::NumericEdited {
            blank_when_zero: true,
        }),
        _ => None,
    }
}

#[tactic(auto, unfolding(crate::specs::Items::numeric_at, crate::specs::Reading::told_at))]
fn read_numeric(bytes: &[u8]) -> Result<(Numeric, &[u8]), ImageError>
    ensures { Gives (λ x. (x.0, x.1.now)) fault_of result (numeric_at bytes.now) }
{
    let (digits, rest) = read_byte(bytes)?;
    let (scale, rest) = read_byte(rest)?;
    let (usage, rest) = read_byte(rest)?;
    let usage = found(usage_of(usage))?;
    let numeric = Numeric {
        digits,
        scale,
        usage,
    };
    Ok((numeric, rest))
}

#[tactic(auto, unfolding(crate::specs::Items::kind_at))]
fn read_kind(bytes: &[u8]) -> Result<(Kind, &[u8]), ImageError>
    ensures { Gives (λ x. (x.0, x.1.now)) fault_of result (kind_at bytes.now) }
{
    let (byte, rest) = read_byte(bytes)?;
    if byte == NUMERIC {
        let (numeric, rest) = read_numeric(rest)?;
        return Ok((Kind::Numeric(numeric), rest));
    }
    Ok((found(plain_kind_of(byte))?, rest))
}
