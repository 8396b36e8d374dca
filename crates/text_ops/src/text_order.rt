//! The order of texts.

ghost use Rattle.std.specs.Prelude.{◌≡◌, ◌≤◌, length, replicate};
ghost use Rattle.std.specs.Cmp.Lexicographic.{slice_cmp};
ghost use Rattle.std.specs.Ordering.{nat_cmp};
ghost use Rattle.items.specs.Texts.{repeated_text};
ghost use Rattle.text_ops.specs.Compare as spec;

use std::cmp::Ordering;

/// The order of a text beside as many of one character.
pub fn order_beside_character(text: &[u8], character: u8) -> Ordering
    ensures { result ≡ slice_cmp nat_cmp text.now (replicate (length text.now) character) }
{
    for byte in text {
        if *byte != character {
            return byte.cmp(&character);
        }
    }
    Ordering::Equal
}

/// The order of a text beside a literal that is repeated to its size.
pub fn order_beside_repeated(text: &[u8], literal: &[u8]) -> Ordering
    requires { 1 ≤ length literal.now }
    ensures { result ≡ slice_cmp nat_cmp text.now (repeated_text (length text.now) literal.now) }
{
    let mut rest = text;
    while rest.len() > literal.len() {
        let (front, back) = rest.split_at(literal.len());
        match front.cmp(literal) {
            Ordering::Equal => rest = back,
            order => return order,
        }
    }
    rest.cmp(&literal[..rest.len()])
}

/// The order of two texts of which the first is no longer, padded with spaces.
fn order_padded(shorter: &[u8], longer: &[u8]) -> Ordering
    requires { length shorter.now ≤ length longer.now }
    ensures { result ≡ spec.order_of_texts shorter.now longer.now }
{
    let (front, back) = longer.split_at(shorter.len());
    match shorter.cmp(front) {
        Ordering::Equal => order_beside_character(back, b' ').reverse(),
        order => order,
    }
}

/// The order of two texts, the shorter one padded with spaces.
pub fn order_of_texts(one: &[u8], other: &[u8]) -> Ordering
    ensures { result ≡ spec.order_of_texts one.now other.now }
{
    if one.len() <= other.len() {
        order_padded(one, other)
    } else {
        order_padded(other, one).reverse()
    }
}
