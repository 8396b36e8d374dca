//! Parts of a text.

ghost use Rattle.std.specs.Prelude.{◌≡◌, option_map};
ghost use Rattle.explanations.specs.Parts as spec;

use memchr::{memchr, memmem};

/// What is between the first `begin` and the next `end`, or up to the end of the text if there is no such `end`. `None` if there is
/// no `begin`.
pub fn between<'a>(text: &'a [u8], begin: &[u8], end: &[u8]) -> Option<&'a [u8]>
    ensures { spec.IsBetween text.now begin.now end.now (option_map (λ part. part.now) result) }
{
    let start = memmem::find(text, begin)?;
    let rest = &text[start + begin.len()..];
    Some(before(rest, end))
}

/// What is before the first `end`, or all of the text.
fn before<'a>(text: &'a [u8], end: &[u8]) -> &'a [u8]
    ensures { spec.IsBefore text.now end.now result.now }
{
    match memmem::find(text, end) {
        Some(place) => &text[..place],
        None => text,
    }
}

/// The first line of a text, without its line feed.
pub fn first_line(text: &[u8]) -> &[u8]
    ensures { spec.IsFirstLine text.now result.now }
{
    match memchr(b'\n', text) {
        Some(size) => &text[..size],
        None => text,
    }
}

/// The lines after the first one.
pub fn other_lines(text: &[u8]) -> &[u8]
    ensures { spec.AreOtherLines text.now result.now }
{
    match memchr(b'\n', text) {
        Some(size) => &text[size + 1..],
        None => &[],
    }
}
