//! INSPECT CONVERTING.

ghost use Rattle.std.specs.Prelude.{◌≡◌, ◌<◌, ℕ, length, map, slice_index};
ghost use Rattle.text_ops.specs.Entries.{AreWithin, IsEntry};
ghost use Rattle.text_ops.specs.Inspect.{replaced_subject};
ghost use Rattle.text_ops.specs.Convert as spec;

use crate::entry::Entry;
use crate::progress::begun;

/// How many characters there are.
const CHARACTERS: usize = 256;

/// Converts each character within the limits of the first entry: a character of its text becomes the one at its place in the replacing
/// text (COBOL-85, Nucleus, the INSPECT statement with CONVERTING). A character that is twice in the text counts at its first place. The
/// entry's texts are spans of `texts`. Without an entry nothing changes.
#[tactic(auto, unfolding(crate::specs::Convert::converted_subject))]
pub fn convert(texts: &[u8], entries: &[Entry], subject: &mut [u8])
    requires { AreWithin entries.now (length texts.now) }
    ensures { subject.new ≡ spec.converted_subject texts.now entries.now subject.old }
{
    if let [one, ..] = entries {
        convert_by(texts, *one, subject);
    }
}

/// The same by an entry.
fn convert_by(texts: &[u8], one: Entry, subject: &mut [u8])
    requires { IsEntry (length texts.now) one }
    ensures { subject.new
        ≡ replaced_subject texts.now (spec.character_entries one) subject.old }
{
    let Some(from) = one.fit.text() else {
        return;
    };
    let Some(by) = one.by else {
        return;
    };
    let table = characters_by(from.of(texts), by.of(texts));
    let limits = begun(texts, subject, one);
    convert_within(&table, limits.first, limits.limit, subject);
}

/// What each character becomes. The last of the texts is set first, so that the first of two equal characters counts.
fn characters_by(from: &[u8], by: &[u8]) -> [u8; CHARACTERS]
    requires { length from.now ≡ length by.now }
    ensures { (c : ℕ) → c < 256
        → slice_index result c ≡ spec.character_for from.now by.now c }
{
    let mut table = same_characters();
    let mut left = from.len();
    while left > 0 {
        left -= 1;
        table[from[left] as usize] = by[left];
    }
    table
}

/// Each character stays.
fn same_characters() -> [u8; CHARACTERS]
    ensures { (c : ℕ) → c < 256 → slice_index result c ≡ c }
{
    let mut table = [0; CHARACTERS];
    for character in 0..CHARACTERS {
        table[character] = character as u8;
    }
    table
}

/// Converts what is from the first place on and before the limit.
fn convert_within(table: &[u8; CHARACTERS], first: usize, limit: usize, subject: &mut [u8])
    ensures { (how : ℕ → ℕ) → ((c : ℕ) → c < 256 → slice_index table.now c ≡ how c)
        → subject.new ≡ spec.changed_within how first limit 0 subject.old }
{
    let end = limit.min(subject.len());
    if first < end {
        convert_each(table, &mut subject[first..end]);
    }
}

/// Converts each character of a text.
fn convert_each(table: &[u8; CHARACTERS], text: &mut [u8])
    ensures { (how : ℕ → ℕ) → ((c : ℕ) → c < 256 → slice_index table.now c ≡ how c)
        → text.new ≡ map how text.old }
{
    for place in 0..text.len() {
        text[place] = converted(table, text[place]);
    }
}

/// What a character becomes.
fn converted(table: &[u8; CHARACTERS], character: u8) -> u8
    ensures { (how : ℕ → ℕ) → ((c : ℕ) → c < 256 → slice_index table.now c ≡ how c)
        → result ≡ how character }
{
    table[character as usize]
}
