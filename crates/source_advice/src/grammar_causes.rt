//! Causes of a text that doesn't follow the grammar.

use crate::advice::Found;
use crate::cause::Cause;
use crate::name_causes::{is_declared, reserved_cause};
use crate::period_causes::period_cause;
use crate::scope_causes::scope_cause;
use crate::spelling::reserved_like;
use crate::statement_forms::{form_cause, verb_before};
use crate::view::View;
use crate::word_causes::word_cause;
use std::alloc::{AllocError, Global};
use tokens::{Kind, Sign, Token};

/// The number of the token after `IDENTIFICATION DIVISION.`.
const AFTER_IDENTIFICATION: usize = 3;

/// Verbs whose operands are no expressions.
const WITHOUT_EXPRESSIONS: &[u8] =
    b"ACCEPT ADD DISPLAY DIVIDE INITIALIZE MOVE MULTIPLY SET STRING SUBTRACT";

/// Words that begin a relation.
const RELATIONS: &[u8] = b"EQUAL GREATER LESS";

/// Figurative constants.
const FIGURATIVE: &[u8] =
    b"HIGH-VALUE HIGH-VALUES LOW-VALUE LOW-VALUES QUOTE QUOTES SPACE SPACES ZERO ZEROES ZEROS";

/// The advice about the token at which reading stopped.
pub fn grammar_cause(alloc: Global, view: View<'_>, number: u8) -> Found {
    if let Some(cause) = beginning_cause(view).or(period_cause(view)) {
        return cause.about_place(alloc, view);
    }
    if let Some(advice) = word_cause(alloc, view)? {
        return Ok(Some(advice));
    }
    if let Some(advice) = scope_cause(alloc, view)? {
        return Ok(Some(advice));
    }
    if let Some(advice) = reserved_cause(alloc, view)? {
        return Ok(Some(advice));
    }
    if let Some(cause) = expression_cause(view) {
        return cause.about_place(alloc, view);
    }
    if let Some(advice) = spelling_cause(alloc, view)? {
        return Ok(Some(advice));
    }
    form_cause(alloc, view, number)
}

/// What is wrong with the first words of a program, or a comment that begins in column 8.
fn beginning_cause(view: View<'_>) -> Option<Cause> {
    if view.is_operator(Some(view.at)) && view.is_first_of_line(view.at) {
        return Some(Cause::Comment);
    }
    if view.at == 0 {
        return Some(Cause::NoIdentification);
    }
    if view.at == AFTER_IDENTIFICATION && !view.reads(Some(view.at), b"PROGRAM-ID") {
        return Some(Cause::NoProgramId);
    }
    None
}

/// A condition that isn't written in full, a number with a sign, or an expression or a colon where none may be.
fn expression_cause(view: View<'_>) -> Option<Cause> {
    if is_abbreviated(view) {
        return Some(Cause::AbbreviatedCondition);
    }
    if is_signed(view.token(Some(view.at))) && view.before(1).is_some() {
        return Some(Cause::Sign);
    }
    if view.reads(Some(view.at), b":") {
        return Some(Cause::Colon);
    }
    if is_in_subscript(view) {
        return Some(Cause::Subscript);
    }
    if is_in_operands(view) {
        return Some(Cause::Expression);
    }
    None
}

/// Whether an operator is at the place, after a verb whose operands are no expressions.
fn is_in_operands(view: View<'_>) -> bool {
    view.is_operator(Some(view.at)) && view.reads_one_of(verb_before(view), WITHOUT_EXPRESSIONS)
}

/// Whether a literal or a figurative constant alone, or a relation without its left side, follows AND or OR.
fn is_abbreviated(view: View<'_>) -> bool {
    if begins_relation(view) {
        return is_after_connective(view);
    }
    is_constant(view) && view.reads_one_of(view.before(2), b"AND OR")
}

/// Whether an operator or a word that begins a relation is at the place.
fn begins_relation(view: View<'_>) -> bool {
    view.is_operator(Some(view.at)) || view.reads_one_of(Some(view.at), RELATIONS)
}

/// Whether AND or OR is before the place, maybe with NOT after it.
fn is_after_connective(view: View<'_>) -> bool {
    let connective = if view.reads(view.before(1), b"NOT") {
        view.before(2)
    } else {
        view.before(1)
    };
    view.reads_one_of(connective, b"AND OR")
}

/// Whether a literal or a figurative constant is before the place.
fn is_constant(view: View<'_>) -> bool {
    view.is_literal(view.before(1)) || view.reads_one_of(view.before(1), FIGURATIVE)
}

/// Whether an operator is in parentheses after a name, after one operand or two.
fn is_in_subscript(view: View<'_>) -> bool {
    view.is_operator(Some(view.at))
        && (is_after_parenthesis(view, view.before(2), view.before(3))
            || is_after_parenthesis(view, view.before(4), view.before(5)))
}

/// Whether a token is an opening parenthesis after a name.
fn is_after_parenthesis(view: View<'_>, open: Option<usize>, name: Option<usize>) -> bool {
    view.is_word(name) && view.reads(open, b"(")
}

/// Whether a token is a number with a sign.
fn is_signed(token: Option<&Token>) -> bool {
    match token {
        Some(token) => match &token.kind {
            Kind::Numeric(number) => number.sign != Sign::Unsigned,
            _ => false,
        },
        None => false,
    }
}

/// The advice that a word is misspelt: the one at the place, the next one, or the one before.
fn spelling_cause(alloc: Global, view: View<'_>) -> Found {
    for number in [Some(view.at), view.after(1), view.before(1)] {
        if let Some(meant) = meant_at(alloc, view, number)? {
            let word = view.written(alloc, number)?;
            return misspelt(alloc, word.as_slice(), meant);
        }
    }
    Ok(None)
}

/// The reserved word that a token is almost, if it is a word that nothing declares.
fn meant_at(
    alloc: Global,
    view: View<'_>,
    number: Option<usize>,
) -> Result<Option<&'static [u8]>, AllocError> {
    if !view.is_word(number) {
        return Ok(None);
    }
    let word = view.text(alloc, number)?;
    if is_declared(view, word.as_slice()) {
        return Ok(None);
    }
    reserved_like(alloc, word.as_slice())
}

/// The advice to write another word.
fn misspelt(alloc: Global, word: &[u8], meant: &[u8]) -> Found {
    let Some(mut advice) = Cause::Misspelt.about(alloc, word)? else {
        return Ok(None);
    };
    advice.propose(meant)?;
    Ok(Some(advice))
}
