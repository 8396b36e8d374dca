//! Moves to items that aren't edited, by what sender and receiver are.

ghost use Rattle.std.specs.Prelude.{◌≡◌, ℕ, List, length, Some, IsTrue};
ghost use Rattle.std.specs.Option.{option_map};
ghost use Rattle.items.specs.declared.taken.Taken.TheVariants as sender;
ghost use Rattle.items.specs.Numbers.{IsNumeric, length_of};
ghost use Rattle.items.specs.Values.{value_of, bytes_of, digits_of};
ghost use Rattle.items.specs.Texts.{padded_text};
ghost use Rattle.items.specs.Items.{IsItem};
ghost use Rattle.items.specs.Faults.{Writes};
ghost use Rattle.edited_move.specs.Moves.{moved_bytes, received_number, IsPlainKind};

use crate::fitting::put_number;
use crate::short::Short;
use crate::short_fitting::{put_short, short_fitted, short_number};
use decimal18::{Dec, Rounding};
use items::{DataFault, Figurative, Item, Kind, Numeric, number, put_padded};

/// The digits that a number has at the most.
const MOST_DIGITS: usize = 18;

/// Moves the number of a numeric item to another one: it stands in no memory between. It is kept out of its callers, which are
/// long: in these the parts of it would be called one by one.
#[inline(never)]
pub fn move_numbers(
    sender: &Numeric,
    from: &[u8],
    receiver: &Numeric,
    bytes: &mut [u8],
) -> Result<(), DataFault>
    requires sender { IsNumeric sender.now }
    requires receiver { IsNumeric receiver.now }
    requires from { length from.now ≡ length_of sender.now }
    requires length { length bytes.old ≡ length_of receiver.now }
    ensures { Writes result bytes.old bytes.new (option_map (λ x.
        bytes_of receiver.now (received_number receiver.now x)) (value_of sender.now from.now)) }
{
    match short_number(*sender, from) {
        Some(x) => {
            move_short(x, *receiver, bytes);
            Ok(())
        }
        None => Err(DataFault),
    }
}

/// Moves a number of 64 bits to a numeric item. If it fits, no decimal is made of it.
#[inline(always)]
fn move_short(x: Short, receiver: Numeric, bytes: &mut [u8])
    requires receiver { IsNumeric receiver }
    requires length { length bytes.old ≡ length_of receiver }
    ensures { bytes.new ≡ bytes_of receiver (received_number receiver x) }
{
    match short_fitted(x, receiver.digits, receiver.scale, false) {
        Some(coefficient) => put_short(receiver, coefficient, bytes),
        None => move_number(x.decimal(), receiver, bytes),
    }
}

/// Writes characters from the left, with spaces after them: those that fill the bytes are copied in the caller's own code.
#[inline(always)]
#[tactic(auto, using(items::proofs::Repeats::full_text))]
pub fn put_text(text: &[u8], bytes: &mut [u8])
    ensures { bytes.new ≡ padded_text (length bytes.old) text.now }
{
    let size = bytes.len();
    if size <= text.len() {
        bytes.copy_from_slice(&text[..size]);
        return;
    }
    put_padded(text, bytes);
}

/// Moves the digits of a numeric item's number, without sign, from the left.
#[inline(never)]
pub fn move_digits(sender: &Numeric, from: &[u8], bytes: &mut [u8]) -> Result<(), DataFault>
    requires sender { IsNumeric sender.now }
    requires from { length from.now ≡ length_of sender.now }
    ensures { Writes result bytes.old bytes.new (option_map (padded_text (length bytes.old))
        (option_map (digits_of sender.now) (value_of sender.now from.now))) }
{
    let Some(value) = number(*sender, from) else {
        return Err(DataFault);
    };
    let mut digits = [0; MOST_DIGITS];
    let text = &mut digits[..sender.digits as usize];
    value.digits_into(text);
    put_text(text, bytes);
    Ok(())
}

/// Moves a figurative constant to an item that isn't edited.
#[inline(never)]
#[tactic(auto, unfolding(edited_move::specs::Moves::moved_bytes))]
pub fn move_constant(constant: Figurative, from: &[u8], receiver: &Item, bytes: &mut [u8])
    requires receiver { IsItem receiver.now }
    requires plain { IsPlainKind receiver.now.kind }
    requires length { length bytes.old ≡ receiver.now.length }
    ensures { moved_bytes receiver.now (sender.Figurative constant) from.now ≡ Some bytes.new }
{
    match receiver.kind {
        Kind::Numeric(numeric) => move_number(Dec::short(0, 0), numeric, bytes),
        _ => bytes.fill(constant.character()),
    }
}

/// Between these two kinds a move copies the sender's bytes from the left.
#[inline(always)]
#[tactic(auto, unfolding(edited_move::specs::Moves::moved_bytes))]
pub fn is_copy(from: &Item, receiver: &Item) -> bool
    ensures { IsTrue result → (bytes : List ℕ) → moved_bytes receiver.now (sender.Item from.now)
        bytes ≡ Some (padded_text receiver.now.length bytes) }
{
    match (from.kind, receiver.kind) {
        (
            Kind::Group | Kind::Alphabetic { .. } | Kind::Alphanumeric { .. },
            Kind::Group
            | Kind::Alphabetic { justified: false }
            | Kind::Alphanumeric { justified: false },
        ) => true,
        _ => false,
    }
}

/// Moves a number to a numeric item, cut to its digits.
#[inline(never)]
#[tactic(auto, unfolding(decimal18::specs::Receiver::low_digits))]
fn move_number(x: Dec, receiver: Numeric, bytes: &mut [u8])
    requires receiver { IsNumeric receiver }
    requires length { length bytes.old ≡ length_of receiver }
    ensures { bytes.new ≡ bytes_of receiver (received_number receiver x) }
{
    let cut = x.cut(receiver.digits, receiver.scale, Rounding::Truncated);
    put_number(cut, receiver, bytes);
}
