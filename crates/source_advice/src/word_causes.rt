//! Causes that a word, a pair of words or a sign shows.

use crate::advice::{Advice, Found};
use crate::name_causes::is_declared;
use crate::statement_forms::verb_before;
use crate::view::View;
use explanations::Book;
use std::alloc::{AllocError, Global};

/// The advice about a word, a pair of words or of signs of other COBOLs, at the place or around it.
pub fn word_cause(alloc: Global, view: View<'_>) -> Found {
    if let Some(advice) = pair_cause(alloc, view)? {
        return Ok(Some(advice));
    }
    if let Some(advice) = verb_cause(alloc, view)? {
        return Ok(Some(advice));
    }
    word_alone_cause(alloc, view)
}

/// The advice about a word of other COBOLs at the place that nothing declares.
pub fn word_alone_cause(alloc: Global, view: View<'_>) -> Found {
    if !view.is_word(Some(view.at)) {
        return Ok(None);
    }
    let here = view.text(alloc, Some(view.at))?;
    if is_declared(view, here.as_slice()) {
        return Ok(None);
    }
    Advice::under(alloc, Book::Words, here.as_slice(), b"")
}

/// The advice about a verb that isn't in this language, at the place or directly before it.
pub fn verb_cause(alloc: Global, view: View<'_>) -> Found {
    if let Some(advice) = under_token(alloc, view, Book::Verbs, Some(view.at))? {
        return Ok(Some(advice));
    }
    if !view.is_word(view.before(1)) {
        return Ok(None);
    }
    under_token(alloc, view, Book::Verbs, view.before(1))
}

/// The advice that a book has under a token in upper case.
fn under_token(alloc: Global, view: View<'_>, book: Book, number: Option<usize>) -> Found {
    let word = view.text(alloc, number)?;
    Advice::under(alloc, book, word.as_slice(), b"")
}

/// The advice about two words, or two signs without a space between them.
fn pair_cause(alloc: Global, view: View<'_>) -> Found {
    let pairs = [
        (Some(view.at), view.after(1)),
        (view.before(1), Some(view.at)),
        (view.before(2), Some(view.at)),
        (verb_before(view), Some(view.at)),
    ];
    for (first, second) in pairs {
        if let Some(advice) = under_pair(alloc, view, first, second)? {
            return Ok(Some(advice));
        }
    }
    exit_cause(alloc, view)
}

/// The advice about a form of EXIT, of which reading stops after the second word.
pub fn exit_cause(alloc: Global, view: View<'_>) -> Found {
    if !view.reads(view.before(2), b"EXIT") {
        return Ok(None);
    }
    under_pair(alloc, view, view.before(2), view.before(1))
}

/// The advice that the book of words has under two tokens.
fn under_pair(alloc: Global, view: View<'_>, first: Option<usize>, second: Option<usize>) -> Found {
    let head = pair(alloc, view, first, second)?;
    Advice::under(alloc, Book::Words, head.as_slice(), b"")
}

/// Two words with a space between them, or two signs as they are written.
fn pair(
    alloc: Global,
    view: View<'_>,
    first: Option<usize>,
    second: Option<usize>,
) -> Result<Vec<u8>, AllocError> {
    let mut head = view.text(alloc, first)?;
    if !view.is_operator(first) || !view.is_joined(second) {
        head.push(b' ')?;
    }
    head.extend_from_slice(view.text(alloc, second)?.as_slice())?;
    Ok(head)
}
