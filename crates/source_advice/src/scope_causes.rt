//! Statements that are ended too early, too late or not at all.

use crate::advice::Found;
use crate::cause::Cause;
use crate::spelling::has_word;
use crate::statement_forms::is_verb;
use crate::view::View;
use itoa::Buffer;
use std::alloc::Global;

/// The advice about a word that ends or continues a statement, or about a period before a PERFORM is ended.
pub fn scope_cause(alloc: Global, view: View<'_>) -> Found {
    if view.is_period(Some(view.at)) {
        return period_cause(alloc, view);
    }
    let here = view.text(alloc, Some(view.at))?;
    match end_cause(view, here.as_slice()) {
        Some(cause) => cause.about(alloc, here.as_slice()),
        None => Ok(None),
    }
}

/// What is wrong with the word at the place, if it ends or continues a statement.
fn end_cause(view: View<'_>, here: &[u8]) -> Option<Cause> {
    let verb = verb_of(here)?;
    if view.is_period(view.before(1)) {
        return Some(Cause::AfterEnd);
    }
    if is_open(view, verb) {
        return Some(Cause::NoStatement);
    }
    Some(Cause::EndOfNothing)
}

/// The verb whose statement a word ends or continues.
fn verb_of(word: &[u8]) -> Option<&[u8]> {
    if has_word(b"ELSE", word) {
        return Some(b"IF");
    }
    if has_word(b"WHEN", word) {
        return Some(b"EVALUATE");
    }
    word.strip_prefix(b"END-")
}

/// Whether a statement of this verb has no END word so far, in the sentence of the place. A PERFORM of a paragraph never has one.
fn is_open(view: View<'_>, verb: &[u8]) -> bool {
    if has_word(b"PERFORM", verb) {
        return open_perform(view).is_some();
    }
    let mut open: usize = 0;
    for number in view.sentence()..view.at {
        if view.reads(Some(number), verb) {
            open = open.saturating_add(1);
        } else if view.reads_end_of(Some(number), verb) {
            open = open.saturating_sub(1);
        }
    }
    open > 0
}

/// The advice about a period that ends no statement: a PERFORM is open, or the program ends before its procedures.
fn period_cause(alloc: Global, view: View<'_>) -> Found {
    if view.after(1) == Some(view.tokens.len()) && !view.is_in_procedures(view.at) {
        return Cause::NoProcedureDivision.about(alloc, b"");
    }
    match open_perform(view) {
        Some(perform) => not_ended(alloc, view, perform),
        None => Ok(None),
    }
}

/// The advice about a PERFORM that isn't ended.
fn not_ended(alloc: Global, view: View<'_>, perform: usize) -> Found {
    let Some(mut advice) = Cause::NotEnded.about(alloc, b"")? else {
        return Ok(None);
    };
    let mut digits = Buffer::new();
    let line = digits.format(view.line(Some(perform)));
    advice.add_line(&[b"The PERFORM is in line ", line.as_bytes(), b"."])?;
    Ok(Some(advice))
}

/// The number of the last PERFORM of statements that is open before the place.
fn open_perform(view: View<'_>) -> Option<usize> {
    // How many of the PERFORMs before are ended.
    let mut ended: usize = 0;
    for number in (view.sentence()..view.at).rev() {
        if view.reads(Some(number), b"END-PERFORM") {
            ended = ended.saturating_add(1);
        } else if view.reads(Some(number), b"PERFORM") && has_statements(view, number) {
            if ended == 0 {
                return Some(number);
            }
            ended -= 1;
        }
    }
    None
}

/// Whether a PERFORM has statements of its own, by the words after it.
fn has_statements(view: View<'_>, perform: usize) -> bool {
    let next = perform.checked_add(1);
    is_verb(view, next)
        || view.reads_one_of(next, b"UNTIL VARYING WITH TEST")
        || view.reads(perform.checked_add(2), b"TIMES")
}
