//! Parts of items (ISO 1989:1985, Nucleus, "Reference modification"), as far as the rules know them.

ghost use Rattle.std.specs.Prelude.{◌≡◌, ◌≤◌, IfSome};
ghost use Rattle.source_tree.specs.Parts as tree;
ghost use Rattle.declarations.specs.Seen as spec;

use data_entries::number_within;
use items::{Item, Kind, Usage};
use source_tree::{BoxedPart, Part, Reference, Subscript};

/// A reference has a part.
pub fn has_part(one: &Reference) -> bool
    ensures { result ≡ tree.has_part one.now }
{
    one.part.is_some()
}

/// The item that a reference with this part shows. A part counts with its length if literals say it, and otherwise with that of
/// its whole item.
pub fn item_seen(part: &Option<BoxedPart>, item: Item) -> Item
    ensures { result ≡ spec.item_seen part.now item }
{
    match part {
        None => item,
        Some(one) => Item {
            kind: part_kind(item.kind),
            length: known_length(item.length, one.part()).unwrap_or(item.length),
        },
    }
}

/// The kind of the item that a reference with this part shows.
pub fn kind_seen(part: &Option<BoxedPart>, kind: Kind) -> Kind
    ensures { result ≡ spec.kind_seen part.now kind }
{
    match part {
        None => kind,
        Some(_) => part_kind(kind),
    }
}

/// An item that may have parts: no number in another usage than DISPLAY.
pub fn may_have_parts(kind: Kind) -> bool
    ensures { result ≡ tree.may_have_parts kind }
{
    match kind {
        Kind::Numeric(numeric) => matches!(numeric.usage, Usage::Display(_)),
        _ => true,
    }
}

/// The length of a part of an item of that size, if literals say it.
pub fn known_length(size: u32, part: &Part) -> Option<u32>
    ensures { result ≡ tree.known_length size part.now.first part.now.length }
{
    match &part.length {
        Some(length) => known_literal(size, length),
        None => length_from(size, known_literal(size, &part.first)),
    }
}

/// The length of a part without one, which begins at that place.
fn length_from(size: u32, first: Option<u32>) -> Option<u32>
    requires { IfSome first (λ first. (1 ≤ first) × (first ≤ size)) }
    ensures { result ≡ tree.length_from size first }
{
    match first {
        None => None,
        Some(first) => Some(size - (first - 1)),
    }
}

/// A literal from 1 to that size.
fn known_literal(size: u32, one: &Subscript) -> Option<u32>
    ensures value { result ≡ tree.known_literal size one.now }
    ensures within { IfSome result (λ number. (1 ≤ number) × (number ≤ size)) }
{
    match one {
        Subscript::Literal(integer) => match number_within(integer, size) {
            Some(number) if 1 <= number => Some(number),
            _ => None,
        },
        Subscript::Item { .. } => None,
    }
}

fn part_kind(kind: Kind) -> Kind
    ensures { result ≡ tree.part_kind kind }
{
    match kind {
        Kind::Alphabetic { .. } => Kind::Alphabetic { justified: false },
        _ => Kind::Alphanumeric { justified: false },
    }
}
