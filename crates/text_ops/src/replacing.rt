//! INSPECT REPLACING.

ghost use Rattle.std.specs.Prelude.{◌≡◌, ◌≤◌, ◌+◌, length};
ghost use Rattle.text_ops.specs.Entries.{AreWithin, IsEntry, fit_length};
ghost use Rattle.text_ops.specs.Walk.{AreActive, walk};
ghost use Rattle.text_ops.specs.Inspect as spec;

use crate::beginnings::beginnings;
use crate::entry::Entry;
use crate::front::fit_at_front;
use crate::progress::{Progress, begin};

/// Replaces each fit of an entry by its text (COBOL-85, Nucleus, the INSPECT statement with REPLACING). The entries' texts are
/// spans of `texts`; `room` is used up.
#[tactic(auto, unfolding(crate::specs::Inspect::replaced_subject))]
pub fn replace(texts: &[u8], entries: &[Entry], room: &mut [Progress], subject: &mut [u8])
    requires within { AreWithin entries.now (length texts.now) }
    requires room { length entries.now ≤ length room.old }
    ensures { subject.new ≡ spec.replaced_subject texts.now entries.now subject.old }
{
    let (active, _) = room.split_at_mut(entries.len());
    begin(texts, entries, subject, active);
    replace_fits(texts, active, subject);
}

/// Writes an entry's replacing text at the place where it fits.
fn put_replacement(texts: &[u8], entry: Entry, at: usize, subject: &mut [u8])
    requires entry { IsEntry (length texts.now) entry }
    requires within { at + fit_length entry.fit ≤ length subject.old }
    ensures { subject.new
        ≡ spec.text_written_at at (spec.replacement texts.now entry.by) subject.old }
{
    if let Some(by) = entry.by {
        let text = by.of(texts);
        subject[at..at + text.len()].copy_from_slice(text);
    }
}

/// Replaces each fit.
fn replace_fits(texts: &[u8], active: &mut [Progress], subject: &mut [u8])
    requires { AreActive active.old (length texts.now) }
    ensures { subject.new
        ≡ spec.with_each texts.now (walk (length subject.old) texts.now active.old 0 subject.old)
        subject.old }
{
    let marks = beginnings(texts, active);
    let mut at = 0;
    while at < subject.len() {
        let (_, rest) = subject.split_at(at);
        match fit_at_front(texts, &marks, active, at, rest) {
            Ok(fitted) => {
                let entry = fitted.progress.entry;
                put_replacement(texts, entry, at, subject);
                at += entry.fit.size();
            }
            Err(passed) => at += passed,
        }
    }
}
