//! Which characters a fit may begin with, so that a walk passes over the others.

ghost use Rattle.std.specs.Prelude.{◌≡◌, ◌<◌, ◌≤◌, ℕ, true, false, length, slice_index, slice_index_or};
ghost use Rattle.text_ops.specs.Entries.{IsEntry};
ghost use Rattle.text_ops.specs.Walk.{AreActive};
ghost use Rattle.text_ops.specs.Beginnings.{Skips, AreMarked};

use crate::entry::Entry;
use crate::progress::Progress;

/// How many characters there are.
pub const CHARACTERS: usize = 256;

/// Marks the characters that a fit of some of these entries may begin with.
pub fn beginnings(texts: &[u8], active: &[Progress]) -> [bool; CHARACTERS]
    requires { AreActive active.now (length texts.now) }
    ensures { AreMarked texts.now result active.now }
{
    let mut marks = [false; CHARACTERS];
    for progress in active {
        mark(texts, progress.entry, &mut marks);
    }
    marks
}

/// How many characters in front of a text aren't marked.
pub fn unmarked(marks: &[bool; CHARACTERS], text: &[u8]) -> usize
    ensures within { result ≤ length text.now }
    ensures unmarked { (k : ℕ) → k < result
        → slice_index_or marks.now (slice_index text.now k) true ≡ false }
{
    for (count, character) in text.iter().enumerate() {
        if marks[*character as usize] {
            return count;
        }
    }
    text.len()
}

/// Marks what the entry's fits may begin with.
fn mark(texts: &[u8], entry: Entry, marks: &mut [bool; CHARACTERS])
    requires { IsEntry (length texts.now) entry }
    ensures own { Skips texts.now marks.new entry }
    ensures others { (other : Entry) → Skips texts.now marks.old other
        → Skips texts.now marks.new other }
{
    match entry.fit.text() {
        None => marks.fill(true),
        Some(text) => {
            let first = text.of(texts)[0];
            marks[first as usize] = true;
        }
    }
}
