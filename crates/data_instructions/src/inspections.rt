//! Inspections in order.

ghost use Rattle.std.specs.Prelude.{◌≡◌, ◌≤◌, ◌↔◌, ℕ, length, slice_get, Some, IsTrue};
ghost use Rattle.text_ops.specs.Entries.{AreWithin, IfSpan, IsBy, IsEntry, IsFit, IsSpan};
ghost use Rattle.data_instructions.specs.Tables.{IsInspection, total_length};
ghost use Rattle.data_instructions.specs.declared.tables.Inspection.{Inspection};

use crate::tables::Inspection;
use text_ops::{Entry, Fit, Span};

/// Each inspection has its texts within those that are taken, and the entries of its counters.
pub fn has_inspections(inspections: &[Inspection]) -> bool
    ensures { IsTrue result
        ↔ ((k : ℕ) (one : Inspection) → slice_get inspections.now k ≡ Some one → IsInspection one) }
{
    for one in inspections {
        if !is_inspection(one) {
            return false;
        }
    }
    true
}

fn is_span(span: Span, size: u32) -> bool
    ensures { IsTrue result ↔ IsSpan size span }
{
    1 <= span.length && u64::from(span.start) + u64::from(span.length) <= u64::from(size)
}

fn is_fit(fit: Fit, size: u32) -> bool
    ensures { IsTrue result ↔ IsFit size fit }
{
    match fit {
        Fit::Characters => true,
        Fit::All(text) | Fit::Leading(text) | Fit::First(text) => is_span(text, size),
    }
}

fn if_span(span: Option<Span>, size: u32) -> bool
    ensures { IsTrue result ↔ IfSpan size span }
{
    match span {
        Some(span) => is_span(span, size),
        None => true,
    }
}

/// The replacing text, if there is one, has the size of what is replaced.
fn is_by(fit: Fit, by: Option<Span>, size: u32) -> bool
    ensures { IsTrue result ↔ IsBy size fit by }
{
    match by {
        Some(span) => is_span(span, size) && span.length as usize == fit.size(),
        None => true,
    }
}

fn is_entry(entry: Entry, size: u32) -> bool
    ensures { IsTrue result ↔ IsEntry size entry }
{
    is_fit(entry.fit, size)
        && if_span(entry.before, size)
        && if_span(entry.after, size)
        && is_by(entry.fit, entry.by, size)
}

fn are_within(entries: &[Entry], size: u32) -> bool
    ensures { IsTrue result ↔ AreWithin entries.now size }
{
    for number in 0..entries.len() {
        if !is_entry(entries[number], size) {
            return false;
        }
    }
    true
}

/// Together the counters have no more entries than this.
fn have_entries(counters: &[u32], entries: usize) -> bool
    ensures { IsTrue result ↔ (total_length counters.now ≤ entries) }
{
    let mut left = entries;
    for number in 0..counters.len() {
        let one = counters[number] as usize;
        if one > left {
            return false;
        }
        left -= one;
    }
    true
}

fn is_inspection(one: &Inspection) -> bool
    ensures { IsTrue result ↔ IsInspection one.now }
{
    are_within(one.tallying.as_slice(), one.size)
        && are_within(one.replacing.as_slice(), one.size)
        && have_entries(one.counters.as_slice(), one.tallying.len())
}
