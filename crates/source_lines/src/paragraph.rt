//! The paragraphs of the identification division that are dropped: AUTHOR, INSTALLATION, DATE-WRITTEN, DATE-COMPILED and SECURITY.

ghost use Rattle.std.specs.Prelude.{◌≡◌, ◌≤◌, ◌<◌};
ghost use Rattle.source_lines.specs.Paragraph as spec;

use crate::line::{AREA_B, Line};

/// Whether a plain line with this first nonblank begins a dropped paragraph.
pub fn begins_dropped(line: &Line, first: u8) -> bool
    requires low { 1 ≤ first }
    requires high { first ≤ 72 }
    ensures { result ≡ spec.begins_dropped line.now first }
{
    first < AREA_B && begins_with_heading(&line.columns[first as usize - 1..])
}

/// Whether the text begins with this heading, in either case.
fn begins_with(text: &[u8], heading: &[u8]) -> bool
    ensures { result ≡ spec.begins_with text.now heading.now }
{
    if text.len() < heading.len() {
        return false;
    }
    text[..heading.len()].eq_ignore_ascii_case(heading)
}

/// Whether the text begins with one of the five words and a period.
fn begins_with_heading(text: &[u8]) -> bool
    ensures { result ≡ spec.begins_with_heading text.now }
{
    begins_with(text, b"AUTHOR.")
        || begins_with(text, b"INSTALLATION.")
        || begins_with(text, b"DATE-WRITTEN.")
        || begins_with(text, b"DATE-COMPILED.")
        || begins_with(text, b"SECURITY.")
}
