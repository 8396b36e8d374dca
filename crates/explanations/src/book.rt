//! Collections of texts, each with a head.

ghost use Rattle.std.specs.Prelude.{◌≡◌, ◌++◌, codes, decimal, option_map, IfOk};
ghost use Rattle.explanations.specs.Books as spec;

use crate::causes::CAUSES;
use crate::forms::{FORMS, RESERVED};
use crate::numbers::NUMBERS;
use crate::part::between;
use crate::words::{SIGNS, VERBS, WORDS};
use itoa::Buffer;
use std::alloc::{AllocError, Global};

/// A collection of texts.
#[derive(Clone, Copy)]
pub enum Book {
    /// By number: faults, refusals and FILE STATUS.
    Numbers,
    /// Verbs of other COBOLs: a line that says what is wrong, and lines that say what to do.
    Verbs,
    /// Other words, and pairs of words or signs, in the same form.
    Words,
    /// Characters that begin no token, in the same form.
    Signs,
    /// Causes that the text around a fault shows, in the same form.
    Causes,
    /// The forms of statements and entries, by their first word.
    Forms,
}

/// The text of a book.
#[tactic(auto, unfolding(crate::specs::Books::text_of))]
fn text_of(book: Book) -> &'static [u8]
    ensures { result.now ≡ spec.text_of book }
{
    match book {
        Book::Numbers => NUMBERS,
        Book::Verbs => VERBS,
        Book::Words => WORDS,
        Book::Signs => SIGNS,
        Book::Causes => CAUSES,
        Book::Forms => FORMS,
    }
}

/// The part of a book under this head, if there is one.
pub fn part_under(
    alloc: Global,
    book: Book,
    head: &[u8],
) -> Result<Option<&'static [u8]>, AllocError>
    ensures { IfOk result (λ part. spec.IsPartUnder book head.now
        (option_map (λ text. text.now) part)) }
{
    let line = head_line(alloc, head)?;
    Ok(between(text_of(book), &line, b"\n@ "))
}

/// The line before a part, with the line feed before it.
fn head_line(alloc: Global, head: &[u8]) -> Result<Vec<u8>, AllocError>
    ensures { IfOk result (λ line. line.items ≡ spec.head_line head.now) }
{
    let mut line = Vec::from_slice(alloc, b"\n@ ")?;
    line.extend_from_slice(head)?;
    line.push(b'\n')?;
    Ok(line)
}

/// What a number means and what to do about it, if it is the number of a fault, a refusal or a FILE STATUS.
pub fn explanation(alloc: Global, number: u64) -> Result<Option<&'static [u8]>, AllocError>
    ensures { IfOk result (λ part. spec.IsPartUnder Book.Numbers (decimal number)
        (option_map (λ text. text.now) part)) }
{
    let mut digits = Buffer::new();
    part_under(alloc, Book::Numbers, digits.format(number).as_bytes())
}

/// The reserved words of the language in ascending order, with a space or a line feed around each.
#[tactic(auto, unfolding(crate::specs::Books::word_list))]
pub fn reserved_words() -> &'static [u8]
    ensures { result.now ≡ spec.word_list }
{
    RESERVED
}
