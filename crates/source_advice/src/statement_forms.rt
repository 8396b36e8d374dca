//! The form of the statement or entry that reading stopped in.

use crate::advice::{Advice, Found};
use crate::cause::Cause;
use crate::view::View;
use explanations::{Book, part_under};
use std::alloc::{AllocError, Global};

/// The verbs.
const VERBS: &[u8] =
    b"ACCEPT ADD CLOSE COMPUTE CONTINUE DELETE DISPLAY DIVIDE EVALUATE EXIT IF INITIALIZE INSPECT MOVE MULTIPLY OPEN
PERFORM READ REWRITE SET START STOP STRING SUBTRACT WRITE";

/// Whether a token is a verb.
pub fn is_verb(view: View<'_>, number: Option<usize>) -> bool {
    view.reads_one_of(number, VERBS)
}

/// The number of the last verb before the place, in its sentence.
pub fn verb_before(view: View<'_>) -> Option<usize> {
    for number in (view.sentence()..view.at).rev() {
        if is_verb(view, Some(number)) {
            return Some(number);
        }
    }
    None
}

/// The advice to compare the statement or the entry with its form, or to begin the statement with a verb.
pub fn form_cause(alloc: Global, view: View<'_>, number: u8) -> Found {
    match beginning(view) {
        Some(first) if view.is_numeric(Some(first)) => form_under(alloc, view, number, b"ENTRY"),
        Some(first) => {
            let name = view.text(alloc, Some(first))?;
            form_under(alloc, view, number, name.as_slice())
        }
        None if view.is_in_procedures(view.at) => Cause::VerbNeeded.about_place(alloc, view),
        None => Ok(None),
    }
}

/// The advice to compare a statement or an entry with the form that the book has under a head.
fn form_under(alloc: Global, view: View<'_>, number: u8, head: &[u8]) -> Found {
    let Some(form) = part_under(alloc, Book::Forms, head)? else {
        return Ok(None);
    };
    let mut advice = about_place(alloc, view, number)?;
    advice.cure.clear();
    advice.add_line(&[head, b" is written:"])?;
    advice.cure.extend_from_slice(form)?;
    Ok(Some(advice))
}

/// What is said of a number, about the token at the place.
fn about_place(alloc: Global, view: View<'_>, number: u8) -> Result<Advice, AllocError> {
    let here = view.written(alloc, Some(view.at))?;
    Advice::for_number(alloc, number, here.as_slice())
}

/// The number of the verb before the place, or of the first token of its sentence.
fn beginning(view: View<'_>) -> Option<usize> {
    match verb_before(view) {
        Some(verb) => Some(verb),
        None if view.sentence() < view.at => Some(view.sentence()),
        None => None,
    }
}
