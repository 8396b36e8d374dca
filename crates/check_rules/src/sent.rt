//! What a MOVE sends, as far as its rule asks.

ghost use Rattle.std.specs.Prelude.{◌≡◌, Some};
ghost use Rattle.source_tree.specs.Literals.{constant_of, literal_sender};
ghost use Rattle.check_rules.specs.Sending as spec;

use edited_move::{Receiving, Sending, is_permitted};
use items::{Item, Kind, Taken};
use source_tree::{Figurative, LiteralValue};

/// The most characters of a sender from which a number comes.
const MOST_CHARACTERS: usize = 18;

/// A sender: its category, and what its size permits.
#[derive(Clone, Copy)]
pub struct Sent {
    pub category: Sending,
    pub is_group: bool,
    /// It is a number, or has at most 18 characters, so that it can be one.
    pub is_short: bool,
}

fn is_short_item(item: Item) -> bool
    ensures { result ≡ spec.is_short_item item }
{
    matches!(item.kind, Kind::Numeric(_)) || item.length <= MOST_CHARACTERS as u32
}

fn of_constant(constant: Figurative) -> Sending
    ensures { result ≡ spec.constant_category constant }
{
    match constant {
        Figurative::Zero => Sending::Integer,
        Figurative::Space => Sending::Alphabetic,
        _ => Sending::Repeated,
    }
}

impl Sent {
    /// What an item sends.
    pub fn by_item(item: Item) -> Sent
        ensures { result ≡ spec.sent_of (spec.item_taken item) }
    {
        Sent {
            category: Sending::of(Taken::Item(item)),
            is_group: matches!(item.kind, Kind::Group),
            is_short: is_short_item(item),
        }
    }

    /// What a literal sends.
    pub fn by_literal(value: &LiteralValue) -> Sent
        ensures { result ≡ spec.sent_of (literal_sender value.now).taken }
    {
        let (category, is_short) = match value {
            LiteralValue::Numeric(one) if one.decimals.as_slice().is_empty() => {
                (Sending::Integer, true)
            }
            LiteralValue::Numeric(_) => (Sending::Decimals, true),
            LiteralValue::Nonnumeric(bytes) => (
                Sending::Alphanumeric,
                bytes.as_slice().len() <= MOST_CHARACTERS,
            ),
            LiteralValue::Figurative(constant) => (of_constant(*constant), true),
            LiteralValue::All(_) => (Sending::Repeated, true),
        };
        Sent {
            category,
            is_group: false,
            is_short,
        }
    }

    /// The day: an unsigned integer of six digits.
    pub fn date() -> Sent
        ensures { result ≡ spec.sent_of spec.date_taken }
    {
        Sent {
            category: Sending::Integer,
            is_group: false,
            is_short: true,
        }
    }

    /// The MOVE to an item of that kind is permitted.
    pub fn may_go_to(self, kind: Kind) -> bool
        ensures { result ≡ spec.may_go self kind }
    {
        let receiving = Receiving::of(kind);
        is_permitted(self.category, receiving)
            && (!matches!(receiving, Receiving::Numeric) || self.is_group || self.is_short)
    }
}
