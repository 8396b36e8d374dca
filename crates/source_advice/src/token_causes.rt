//! What is said of any fault.

ghost use Rattle.std.specs.Prelude.{◌≡◌, ◌≢◌, None, IfOk};
ghost use Rattle.source_advice.specs.Advice.{HasLines, IsAdviceOf};

use crate::advice::{Advice, Found};
use crate::cause::Cause;
use crate::cut_lines::cut_cause;
use crate::format_causes::format_cause;
use crate::grammar_causes::grammar_cause;
use crate::name_causes::{condition_cause, undeclared_cause};
use crate::period_causes::period_cause;
use crate::view::View;
use crate::word_causes::{exit_cause, verb_cause, word_alone_cause};
use lexical::Place;
use source_lines::logical;
use std::alloc::{AllocError, Global};
use tokens::scan;

/// The first number of a fault that is found among tokens.
const FIRST_OF_TREES: u8 = 20;

const GRAMMAR: u8 = 30;

const UNDECLARED: u8 = 40;
/// The numbers of faults of items, which are reported at the level number.
const ITEM_FAULTS: [u8; 3] = [44, 45, 48];

/// What is said of the fault of this number at this place of a source text: what is wrong, and what to do.
pub fn advise(alloc: Global, source: &[u8], number: u8, place: Place) -> Result<Advice, AllocError>
    ensures lines { IfOk result HasLines }
    // From fault 20 on, except for 30 and 40, it is the explanation of the number, about some word.
    ensures number { IfOk result (λ advice. IsAdviceOf number advice.message.items
        advice.cure.items) }
{
    let mut advice = advice_about(alloc, source, number, place)?;
    advice.end_line()?;
    Ok(advice)
}

fn advice_about(
    alloc: Global,
    source: &[u8],
    number: u8,
    place: Place,
) -> Result<Advice, AllocError>
    ensures { IfOk result (λ advice. IsAdviceOf number advice.message.items advice.cure.items) }
{
    if number < FIRST_OF_TREES {
        return format_cause(alloc, source, number, place);
    }
    advice_at_token(alloc, source, number, place)
}

/// The advice about a fault that is found among tokens.
fn advice_at_token(
    alloc: Global,
    source: &[u8],
    number: u8,
    place: Place,
) -> Result<Advice, AllocError>
    ensures { IfOk result (λ advice. IsAdviceOf number advice.message.items advice.cure.items) }
{
    let Ok(lines) = logical(alloc, source) else {
        return Advice::for_number(alloc, number, b"");
    };
    let Ok(tokens) = scan(alloc, &lines) else {
        drop(lines);
        return Advice::for_number(alloc, number, b"");
    };
    let view = View::at_end(tokens.as_slice(), lines.characters());
    advice_in_view(alloc, source, view.at_place(place), number)
}

/// The advice about a fault at a token.
fn advice_in_view(
    alloc: Global,
    source: &[u8],
    view: View<'_>,
    number: u8,
) -> Result<Advice, AllocError>
    ensures { IfOk result (λ advice. IsAdviceOf number advice.message.items advice.cure.items) }
{
    match tree_cause(alloc, source, view, number)? {
        Some(advice) => Ok(advice),
        None => {
            let word = view.written(alloc, named(view, number))?;
            Advice::for_number(alloc, number, word.as_slice())
        }
    }
}

/// The advice about a fault at a token, if its cause is known.
fn tree_cause(alloc: Global, source: &[u8], view: View<'_>, number: u8) -> Found
    ensures { number ≢ 30 → number ≢ 40 → IfOk result (λ found. found ≡ None) }
{
    match number {
        GRAMMAR => refused_cause(alloc, source, view),
        UNDECLARED => unknown_cause(alloc, source, view),
        _ => Ok(None),
    }
}

/// The advice about a token that the grammar refuses.
fn refused_cause(alloc: Global, source: &[u8], view: View<'_>) -> Found {
    match cut_around(alloc, source, view)? {
        Some(advice) => Ok(Some(advice)),
        None => grammar_cause(alloc, view, GRAMMAR),
    }
}

/// The advice about a name that isn't declared.
fn unknown_cause(alloc: Global, source: &[u8], view: View<'_>) -> Found {
    if let Some(advice) = cut_around(alloc, source, view)? {
        return Ok(Some(advice));
    }
    if let Some(advice) = name_cause(alloc, view)? {
        return Ok(Some(advice));
    }
    undeclared_cause(alloc, view, UNDECLARED)
}

/// The advice about a name that is a word of other COBOLs, that follows a missing period, or that is an item and no condition.
fn name_cause(alloc: Global, view: View<'_>) -> Found {
    if let Some(advice) = verb_cause(alloc, view)? {
        return Ok(Some(advice));
    }
    if let Some(advice) = exit_cause(alloc, view)? {
        return Ok(Some(advice));
    }
    if let Some(advice) = word_alone_cause(alloc, view)? {
        return Ok(Some(advice));
    }
    if view.is_period(view.after(1)) {
        if let Some(cause) = period_cause(view) {
            return cause.about_place(alloc, view);
        }
    }
    condition_cause(alloc, view)
}

/// The token that a fault is about: the item's name after the level number where an entry is refused, and else the one at the place.
fn named(view: View<'_>, number: u8) -> Option<usize> {
    if ITEM_FAULTS.contains(&number) && view.is_word(view.after(1)) {
        return view.after(1);
    }
    Some(view.at)
}

/// The advice that the line of the place is cut after it, or the line before.
fn cut_around(alloc: Global, source: &[u8], view: View<'_>) -> Found {
    let before = view.line(view.before(1));
    if before > 0 && view.is_first_of_line(view.at) {
        if let Some(advice) = cut_cause(alloc, source, before, Cause::CutLine)? {
            return Ok(Some(advice));
        }
    }
    if view.is_last_of_line(view.at) {
        return cut_cause(alloc, source, view.line(Some(view.at)), Cause::CutLine);
    }
    Ok(None)
}
