//! What a sender gives: its number, its characters, or its bytes.

ghost use Rattle.std.specs.Prelude.{◌≡◌, ◌≤◌, length, true};
ghost use Rattle.std.specs.Option.{option_map};
ghost use Rattle.items.specs.Numbers.{IsNumeric, length_of};
ghost use Rattle.items.specs.Values as values;
ghost use Rattle.items.specs.Texts.{characters_in};
ghost use Rattle.items.specs.Items.{HasLengthOf, IsTaken};
ghost use Rattle.items.specs.Faults.{Writes};
ghost use Rattle.edited_move.specs.Moves as spec;

use decimal18::Dec;
use items::{
    DataFault, Item, Kind, Numeric, OperationalSign, Taken, Usage, number, put_justified,
    put_padded, put_repeated,
};

/// The digits that a number has at the most.
const MOST_DIGITS: usize = 18;

/// With a group on either side bytes are copied.
pub fn has_group(receiver: Item, taken: Taken) -> bool
    ensures { result ≡ spec.has_group receiver taken }
{
    is_group(taken) || is_group_kind(receiver.kind)
}

/// Where the receiver wants a number, the sender has at most 18 characters (COBOL-85, Nucleus, the MOVE statement: a number
/// has no more digits).
pub fn is_short(receiver: Item, taken: Taken) -> bool
    ensures { result ≡ spec.is_short receiver taken }
{
    !needs_number(receiver.kind) || is_group(taken) || is_number_sender(taken)
}

/// The number that a sender is, where its bytes hold one.
#[inline]
pub fn sender_number(taken: Taken, from: &[u8]) -> Option<Dec>
    requires taken { IsTaken taken from.now }
    requires short { spec.is_number_sender taken ≡ true }
    ensures { result ≡ spec.sender_number taken from.now }
{
    match taken {
        Taken::Item(item) => item_number(item, from),
        _ => Some(Dec::new(0, 0)),
    }
}

/// Writes characters from the left, or with JUSTIFIED from the right.
pub fn put_text(right: bool, text: &[u8], bytes: &mut [u8])
    ensures { bytes.new ≡ spec.aligned_characters right (length bytes.old) text.now }
{
    if right {
        put_justified(text, bytes);
    } else {
        put_padded(text, bytes);
    }
}

/// Writes a sender's bytes, as though it were alphanumeric.
pub fn put_plain(taken: Taken, from: &[u8], right: bool, bytes: &mut [u8])
    requires { IsTaken taken from.now }
    ensures { bytes.new ≡ spec.sent_bytes right (length bytes.old) taken from.now }
{
    match taken {
        Taken::Item(_) => put_text(right, from, bytes),
        Taken::Figurative(constant) => bytes.fill(constant.character()),
        Taken::All => put_repeated(from, bytes),
    }
}

/// Writes a sender's characters: of a number its digits.
pub fn put_characters(
    taken: Taken,
    from: &[u8],
    right: bool,
    bytes: &mut [u8],
) -> Result<(), DataFault>
    requires { IsTaken taken from.now }
    ensures { Writes result bytes.old bytes.new
        (spec.sent_characters right (length bytes.old) taken from.now) }
{
    match taken {
        Taken::Item(item) => put_item(item, from, right, bytes),
        _ => {
            put_plain(taken, from, right, bytes);
            Ok(())
        }
    }
}

fn is_group_kind(kind: Kind) -> bool
    ensures { result ≡ spec.is_group_kind kind }
{
    matches!(kind, Kind::Group)
}

fn is_group(taken: Taken) -> bool
    ensures { result ≡ spec.is_group taken }
{
    match taken {
        Taken::Item(item) => is_group_kind(item.kind),
        _ => false,
    }
}

fn needs_number(kind: Kind) -> bool
    ensures { result ≡ spec.needs_number kind }
{
    matches!(kind, Kind::Numeric(_) | Kind::NumericEdited { .. })
}

fn is_number_sender(taken: Taken) -> bool
    ensures { result ≡ spec.is_number_sender taken }
{
    match taken {
        Taken::Item(item) => match item.kind {
            Kind::Numeric(_) => true,
            _ => item.length <= MOST_DIGITS as u32,
        },
        _ => true,
    }
}

/// The unsigned integer whose digits the characters are, if they are digits.
#[inline(never)]
fn characters_number(bytes: &[u8]) -> Option<Dec>
    requires some { 1 ≤ length bytes.now }
    requires most { length bytes.now ≤ 18 }
    ensures { result ≡ values.value_of (spec.unsigned_integer (length bytes.now)) bytes.now }
{
    let integer = Numeric {
        digits: bytes.len() as u8,
        scale: 0,
        usage: Usage::Display(OperationalSign::Unsigned),
    };
    number(integer, bytes)
}

/// The number of an item's bytes, where they hold one.
#[inline]
fn item_number(item: Item, bytes: &[u8]) -> Option<Dec>
    requires of { HasLengthOf item bytes.now }
    requires short { spec.is_readable item.kind item.length ≡ true }
    ensures { result ≡ spec.number_in item.kind bytes.now }
{
    match item.kind {
        Kind::Numeric(numeric) => number(numeric, bytes),
        _ => characters_number(bytes),
    }
}

/// Writes the digits of a numeric item's number, without sign.
fn put_number(item: Numeric, from: &[u8], right: bool, bytes: &mut [u8]) -> Result<(), DataFault>
    requires item { IsNumeric item }
    requires length { length from.now ≡ length_of item }
    ensures { Writes result bytes.old bytes.new (option_map (spec.aligned_characters right
        (length bytes.old)) (option_map (values.digits_of item) (values.value_of item from.now))) }
{
    let Some(value) = number(item, from) else {
        return Err(DataFault);
    };
    let mut digits = [0; MOST_DIGITS];
    let text = &mut digits[..item.digits as usize];
    value.digits_into(text);
    put_text(right, text, bytes);
    Ok(())
}

/// Writes an item's characters.
fn put_item(item: Item, from: &[u8], right: bool, bytes: &mut [u8]) -> Result<(), DataFault>
    requires { HasLengthOf item from.now }
    ensures { Writes result bytes.old bytes.new (option_map
        (spec.aligned_characters right (length bytes.old)) (characters_in item.kind from.now)) }
{
    match item.kind {
        Kind::Numeric(numeric) => put_number(numeric, from, right, bytes),
        _ => {
            put_text(right, from, bytes);
            Ok(())
        }
    }
}
