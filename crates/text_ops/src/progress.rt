//! Entries on their way through a text.

ghost use Rattle.std.specs.Prelude.{◌≡◌, ◌≤◌, ◌+◌, ◌<◌, length, map, nat_le, IfSome};
ghost use Rattle.text_ops.specs.Entries.{IsEntry, IfSpan, AreWithin, fit_length};
ghost use Rattle.text_ops.specs.Walk as spec;
ghost use Rattle.text_ops.specs.Walk.{AreActive, IsFitted};
ghost use Rattle.text_ops.specs.Beginnings.{entries_on};

use crate::entry::{Entry, Fit, Span};
use crate::place::first_place;

/// How far an entry has come: it may still fit from its first place on, up to the limit. Both count from 0.
#[derive(Clone, Copy)]
pub struct Progress {
    pub entry: Entry,
    pub first: usize,
    pub limit: usize,
}

/// A fit: the number of the entry, how far it had come, and the place.
#[derive(Clone, Copy)]
pub struct Fitted {
    pub number: usize,
    pub progress: Progress,
    pub at: usize,
}

/// The first place after AFTER's text; all places without AFTER, none where the text isn't there.
fn first_after(texts: &[u8], after: Option<Span>, subject: &[u8]) -> usize
    requires { IfSpan (length texts.now) after }
    ensures { result ≡ spec.first_place_after texts.now after subject.now }
{
    let Some(span) = after else {
        return 0;
    };
    match first_place(span.of(texts), subject) {
        Some(at) => at + span.length as usize,
        None => subject.len(),
    }
}

/// The end of the places before BEFORE's text; all places without BEFORE, or where the text isn't there.
fn end_before(texts: &[u8], before: Option<Span>, subject: &[u8]) -> usize
    requires { IfSpan (length texts.now) before }
    ensures { result ≡ spec.end_before texts.now before subject.now }
{
    let Some(span) = before else {
        return subject.len();
    };
    first_place(span.of(texts), subject).unwrap_or(subject.len())
}

/// An entry at the start, with its places found in the subject.
pub fn begun(texts: &[u8], subject: &[u8], entry: Entry) -> Progress
    requires { IsEntry (length texts.now) entry }
    ensures { result ≡ spec.initial_progress texts.now subject.now entry }
{
    Progress {
        entry,
        first: first_after(texts, entry.after, subject),
        limit: end_before(texts, entry.before, subject),
    }
}

/// Sets the entries on their way.
pub fn begin(texts: &[u8], entries: &[Entry], subject: &[u8], active: &mut [Progress])
    requires within { AreWithin entries.now (length texts.now) }
    requires room { length active.old ≡ length entries.now }
    ensures { active.new ≡ map (spec.initial_progress texts.now subject.now) entries.now }
{
    for number in 0..entries.len() {
        active[number] = begun(texts, subject, entries[number]);
    }
}

impl Progress {
    /// So many characters at this place end within the limit.
    fn leaves(self, at: usize, size: usize) -> bool
        ensures { result ≡ nat_le (at + size) self.limit }
    {
        at <= self.limit && size <= self.limit - at
    }

    /// The entry fits at this place, from which the subject goes on as `rest`.
    fn fits(self, texts: &[u8], at: usize, rest: &[u8]) -> bool
        requires { IsEntry (length texts.now) self.entry }
        ensures { result ≡ spec.fits texts.now self at rest.now }
    {
        if !self.leaves(at, self.entry.fit.size()) {
            return false;
        }
        match self.entry.fit {
            Fit::Characters => self.first <= at,
            Fit::All(text) | Fit::First(text) => self.first <= at
                && rest.starts_with(text.of(texts)),
            Fit::Leading(text) => self.first == at && rest.starts_with(text.of(texts)),
        }
    }

    /// The same after a fit at this place.
    fn passed(self, at: usize) -> Progress
        requires { at + fit_length self.entry.fit ≤ self.limit }
        ensures { result ≡ spec.progress_after self self.entry.fit at }
    {
        match self.entry.fit {
            Fit::Leading(text) => Progress {
                first: at + text.length as usize,
                ..self
            },
            Fit::First(_) => Progress { limit: 0, ..self },
            _ => self,
        }
    }
}

/// The first entry that fits at this place, from which the subject goes on as `rest`.
fn first_fit(texts: &[u8], active: &[Progress], at: usize, rest: &[u8]) -> Option<Fitted>
    requires { AreActive active.now (length texts.now) }
    ensures fit { result ≡ spec.first_fit texts.now active.now at rest.now }
    ensures number { IfSome result (λ fitted. fitted.number < length active.now) }
{
    for (number, progress) in active.iter().enumerate() {
        if progress.fits(texts, at, rest) {
            return Some(Fitted {
                number,
                progress: *progress,
                at,
            });
        }
    }
    None
}

/// The first entry that fits at this place, if one does. It has passed its fit then.
pub fn step(texts: &[u8], active: &mut [Progress], at: usize, rest: &[u8]) -> Option<Fitted>
    requires within { AreActive active.old (length texts.now) }
    requires rest { 1 ≤ length rest.now }
    ensures fit { result ≡ spec.first_fit texts.now active.old at rest.now }
    ensures after { active.new ≡ spec.walk_after active.old result }
    ensures entries { entries_on active.new ≡ entries_on active.old }
    ensures within { AreActive active.new (length texts.now) }
    ensures fitted { IfSome result
        (IsFitted (length texts.now) (length active.old) at (length rest.now)) }
{
    let fitted = first_fit(texts, active, at, rest)?;
    active[fitted.number] = fitted.progress.passed(at);
    Some(fitted)
}
