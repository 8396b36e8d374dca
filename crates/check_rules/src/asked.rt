//! What is asked of the item that a reference names: 49 of a receiver of a MOVE, 51 where a number or an integer is wanted, 64 of the
//! operands of INSPECT, and 65 of those of STRING.

ghost use Rattle.std.specs.Prelude.{◌≡◌, ◌+◌, ◌^◌, nat_lt};
ghost use Rattle.entry_rules.specs.Checks.{IsFirstBreach};
ghost use Rattle.source_tree.specs.NameRules.{is_integer_kind};
ghost use Rattle.source_tree.specs.InspectRules.{is_counter, may_be_inspected};
ghost use Rattle.source_tree.specs.StringRules.{is_plain_integer, has_characters, is_string_receiver, can_hold};
ghost use Rattle.check_rules.specs.Asking as spec;

use crate::sent::Sent;
use entry_rules::{BrokenRule, Rule};
use items::{Kind, Numeric, Usage};
use source_tree::Place;

/// What is asked of an item.
#[derive(Clone, Copy)]
pub enum Asked {
    /// Any item will do.
    Nothing,
    /// A MOVE of that to the item is permitted.
    Receives(Sent),
    /// It holds a number.
    Numeric,
    /// A number can be stored in it: it is numeric, or numeric edited.
    StoresNumber,
    /// It holds an integer: it is numeric, and has no decimals.
    Integer,
    /// INSPECT counts in it: it is numeric.
    Counts,
    /// INSPECT looks at its bytes: it is no number in another usage than DISPLAY, or with S.
    Inspected,
    /// Its bytes are characters, as STRING sends them.
    SendsText,
    /// It takes the characters of STRING: it is a group, or alphabetic or alphanumeric without JUSTIFIED.
    ReceivesText,
    /// It is an integer that holds the place after so many bytes.
    Points(u32),
}

/// The first powers of ten; those after them are above all numbers of 32 bits.
const POWERS: [u64; 10] = [
    1,
    10,
    100,
    1_000,
    10_000,
    100_000,
    1_000_000,
    10_000_000,
    100_000_000,
    1_000_000_000,
];

/// So many digits hold the place after so many bytes.
fn has_room(size: u32, digits: u8) -> bool
    ensures { result ≡ nat_lt (size + 1) (10 ^ digits) }
{
    if digits > 9 {
        return true;
    }
    u64::from(size) + 1 < POWERS[digits as usize]
}

fn is_integer(kind: Kind) -> bool
    ensures { result ≡ is_integer_kind kind }
{
    match kind {
        Kind::Numeric(numeric) => numeric.scale == 0,
        _ => false,
    }
}

fn counts(kind: Kind) -> bool
    ensures { result ≡ is_counter kind }
{
    matches!(kind, Kind::Numeric(_))
}

fn is_inspected(kind: Kind) -> bool
    ensures { result ≡ may_be_inspected kind }
{
    match kind {
        Kind::Numeric(numeric) => {
            matches!(numeric.usage, Usage::Display(_)) && !numeric.is_signed()
        }
        _ => true,
    }
}

fn is_plain(numeric: Numeric) -> bool
    ensures { result ≡ is_plain_integer numeric }
{
    matches!(numeric.usage, Usage::Display(_)) && !numeric.is_signed() && numeric.scale == 0
}

fn sends_text(kind: Kind) -> bool
    ensures { result ≡ has_characters kind }
{
    match kind {
        Kind::Numeric(numeric) => is_plain(numeric),
        _ => true,
    }
}

fn receives_text(kind: Kind) -> bool
    ensures { result ≡ is_string_receiver kind }
{
    match kind {
        Kind::Group => true,
        Kind::Alphabetic { justified } | Kind::Alphanumeric { justified } => !justified,
        _ => false,
    }
}

fn points(size: u32, kind: Kind) -> bool
    ensures { result ≡ can_hold (size + 1) kind }
{
    match kind {
        Kind::Numeric(numeric) => numeric.scale == 0 && has_room(size, numeric.digits),
        _ => false,
    }
}

impl Asked {
    /// An item of that kind, whose name stands at that place.
    pub fn kind_rules(self, kind: Kind, place: Place) -> Result<(), BrokenRule>
        ensures { IsFirstBreach result (spec.asks_kind self kind place) }
    {
        match self {
            Asked::Nothing => Ok(()),
            Asked::Receives(sent) => Rule::Move.broken_if(!sent.may_go_to(kind), place),
            Asked::Numeric => Rule::Number.broken_if(!matches!(kind, Kind::Numeric(_)), place),
            Asked::StoresNumber => {
                let stores = matches!(kind, Kind::Numeric(_) | Kind::NumericEdited { .. });
                Rule::Number.broken_if(!stores, place)
            }
            Asked::Integer => Rule::Number.broken_if(!is_integer(kind), place),
            Asked::Counts => Rule::InspectOperand.broken_if(!counts(kind), place),
            Asked::Inspected => Rule::InspectOperand.broken_if(!is_inspected(kind), place),
            Asked::SendsText => Rule::StringOperand.broken_if(!sends_text(kind), place),
            Asked::ReceivesText => Rule::StringOperand.broken_if(!receives_text(kind), place),
            Asked::Points(size) => Rule::StringOperand.broken_if(!points(size, kind), place),
        }
    }
}
