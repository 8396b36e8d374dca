//! What DISPLAY shows.

ghost use Rattle.std.specs.Prelude.{◌≡◌, ◌≤◌, ◌+◌, length, take};
ghost use Rattle.items.specs.Numbers.{IsNumeric, CanHold};
ghost use Rattle.items.specs.Display.{sign_character};
ghost use Rattle.items.specs.Faults.{WritesFirst};
ghost use Rattle.items.specs.Items.{HasLengthOf};
ghost use Rattle.text_ops.specs.Lengths.{shown_length};
ghost use Rattle.text_ops.specs.Shown as spec;

use crate::digits::{MOST_DIGITS, put_all_digits};
use decimal18::Dec;
use items::{DataFault, Item, Kind, Numeric, number, numbers_are_held};

/// Writes what DISPLAY shows of an item (COBOL-85, Nucleus, the DISPLAY statement), and answers its length in bytes. A numeric
/// item whose bytes are no number is a fault, and nothing is written then.
#[tactic(auto, unfolding(crate::specs::Shown::shown_bytes))]
pub fn shown(item: Item, bytes: &[u8], to: &mut [u8]) -> Result<usize, DataFault>
    requires item { HasLengthOf item bytes.now }
    requires room { shown_length item.kind (length bytes.now) ≤ length to.old }
    ensures { WritesFirst result to.old to.new (spec.shown_bytes item.kind bytes.now) }
{
    match item.kind {
        Kind::Numeric(numeric) => {
            let Some(x) = number(numeric, bytes) else {
                return Err(DataFault);
            };
            numbers_are_held();
            Ok(put_number(numeric, x, to))
        }
        _ => {
            to[..bytes.len()].copy_from_slice(bytes);
            Ok(bytes.len())
        }
    }
}

fn sign_character(negative: bool) -> u8
    ensures { result ≡ sign_character negative }
{
    if negative { b'-' } else { b'+' }
}

/// Writes digits, with a point before the decimals if there are any, and answers the length.
fn put_point(digits: &[u8], scale: usize, to: &mut [u8]) -> usize
    requires scale { scale ≤ length digits.now }
    requires room { length digits.now + 1 ≤ length to.old }
    ensures size { result ≤ length digits.now + 1 }
    ensures text { take result to.new ≡ spec.shown_digits (length digits.now) scale digits.now }
{
    let whole = digits.len() - scale;
    to[..whole].copy_from_slice(&digits[..whole]);
    if scale == 0 {
        return whole;
    }
    to[whole] = b'.';
    to[whole + 1..digits.len() + 1].copy_from_slice(&digits[whole..]);
    digits.len() + 1
}

/// Writes a number: its sign if the item has S, and its digits. Answers the length.
fn put_number(numeric: Numeric, x: Dec, to: &mut [u8]) -> usize
    requires numeric { IsNumeric numeric }
    requires held { CanHold numeric x }
    requires room { numeric.digits + 2 ≤ length to.old }
    ensures { take result to.new ≡ spec.number_text numeric x }
{
    let mut room = [0; MOST_DIGITS];
    let (digits, _) = room.split_at_mut(numeric.digits as usize);
    put_all_digits(x, digits);
    let scale = numeric.scale as usize;
    if !numeric.is_signed() {
        return put_point(digits, scale, to);
    }
    let (sign, rest) = to.split_at_mut(1);
    sign.fill(sign_character(x.is_negative()));
    1 + put_point(digits, scale, rest)
}
