//! Selection subjects and objects of EVALUATE.

ghost use Rattle.std.specs.Prelude.{◌≡◌};
ghost use Rattle.grammar.specs.Reading.{Reads};
ghost use Rattle.conditions.specs.Evaluate as spec;

use crate::compound::condition;
use crate::plain::goes_on;
use crate::sides::side;
use grammar::{Halt, ReadFault, Tokens, beside};
use source_tree::{Choice, Object, Side, Subject};
use std::alloc::Global;
use tokens::{Reserved, Token};

/// A selection subject with at most this many NOTs, parentheses and signs in one another.
#[tactic(auto, unfolding(crate::specs::Evaluate::subject_reader))]
pub fn subject(alloc: Global, tokens: &mut Tokens<'_>, depth: usize) -> Result<Subject, ReadFault>
    ensures { Reads (spec.subject_reader depth tokens.old) result tokens.new }
{
    if begins_truth(tokens) {
        subject_truth(tokens)
    } else {
        subject_asked(alloc, tokens, depth)
    }
}

/// A selection object, with where it begins, and at most this many NOTs, parentheses and signs in one another.
#[tactic(auto, unfolding(crate::specs::Evaluate::object_reader))]
pub fn object(alloc: Global, tokens: &mut Tokens<'_>, depth: usize) -> Result<Object, ReadFault>
    ensures { Reads (spec.object_reader depth tokens.old) result tokens.new }
{
    let place = tokens.here()?;
    let choice = choice(alloc, tokens, depth)?;
    Ok(Object { place, choice })
}

/// What stands before is part of a condition: it goes on as an operand, or AND or OR follows.
fn in_condition(tokens: &[Token]) -> bool
    ensures { result ≡ spec.in_condition tokens.now }
{
    let rest = Tokens::new(tokens);
    goes_on(tokens) || rest.at_word(Reserved::And) || rest.at_word(Reserved::Or)
}

/// A value that is no part of a condition; where none stands, nothing is passed.
#[tactic(auto, unfolding(crate::specs::Evaluate::alone_reader))]
fn alone(alloc: Global, tokens: &mut Tokens<'_>, depth: usize) -> Result<Option<Side>, ReadFault>
    ensures { Reads (spec.alone_reader depth tokens.old) result tokens.new }
{
    let from = tokens.rest();
    match side(alloc, tokens, depth) {
        Ok(one) => {
            if in_condition(tokens.rest()) {
                drop(one);
                tokens.go_to(from);
                return Ok(None);
            }
            Ok(Some(one))
        }
        Err(ReadFault::Halted(Halt::Unexpected(_))) => {
            tokens.go_to(from);
            Ok(None)
        }
        Err(fault) => Err(fault),
    }
}

fn begins_truth(tokens: &Tokens<'_>) -> bool
    ensures { result ≡ spec.begins_truth tokens.now }
{
    tokens.at_word(Reserved::True) || tokens.at_word(Reserved::False)
}

/// TRUE or FALSE.
#[tactic(auto, unfolding(crate::specs::Evaluate::truth_reader))]
fn truth(tokens: &mut Tokens<'_>) -> Result<bool, ReadFault>
    ensures { Reads (spec.truth_reader tokens.old) result tokens.new }
{
    if tokens.at_word(Reserved::True) {
        tokens.expect(Reserved::True)?;
        Ok(true)
    } else {
        tokens.expect(Reserved::False)?;
        Ok(false)
    }
}

#[tactic(auto, unfolding(crate::specs::Evaluate::subject_truth_reader))]
fn subject_truth(tokens: &mut Tokens<'_>) -> Result<Subject, ReadFault>
    ensures { Reads (spec.subject_truth_reader tokens.old) result tokens.new }
{
    Ok(Subject::Truth(truth(tokens)?))
}

#[tactic(auto, unfolding(crate::specs::Evaluate::subject_condition_reader))]
fn subject_condition(
    alloc: Global,
    tokens: &mut Tokens<'_>,
    depth: usize,
) -> Result<Subject, ReadFault>
    ensures { Reads (spec.subject_condition_reader depth tokens.old) result tokens.new }
{
    Ok(Subject::Condition(condition(alloc, tokens, depth)?))
}

/// A value alone, or else a condition.
#[tactic(auto, unfolding(crate::specs::Evaluate::subject_asked_reader))]
fn subject_asked(alloc: Global, tokens: &mut Tokens<'_>, depth: usize) -> Result<Subject, ReadFault>
    ensures { Reads (spec.subject_asked_reader depth tokens.old) result tokens.new }
{
    match alone(alloc, tokens, depth)? {
        Some(one) => Ok(Subject::Value(one)),
        None => subject_condition(alloc, tokens, depth),
    }
}

/// THRU or THROUGH, whichever `thru` is, and the last value.
fn through(
    alloc: Global,
    tokens: &mut Tokens<'_>,
    depth: usize,
    thru: Reserved,
) -> Result<Option<Side>, ReadFault>
    ensures { Reads (spec.through_by depth thru tokens.old) result tokens.new }
{
    tokens.expect(thru)?;
    Ok(Some(side(alloc, tokens, depth)?))
}

/// The last value, where THRU or THROUGH stands.
#[tactic(auto, unfolding(crate::specs::Evaluate::last_reader))]
fn last(alloc: Global, tokens: &mut Tokens<'_>, depth: usize) -> Result<Option<Side>, ReadFault>
    ensures { Reads (spec.last_reader depth tokens.old) result tokens.new }
{
    if tokens.at_word(Reserved::Thru) {
        through(alloc, tokens, depth, Reserved::Thru)
    } else if tokens.at_word(Reserved::Through) {
        through(alloc, tokens, depth, Reserved::Through)
    } else {
        Ok(None)
    }
}

#[tactic(auto, unfolding(crate::specs::Evaluate::choice_any_reader))]
fn choice_any(tokens: &mut Tokens<'_>) -> Result<Choice, ReadFault>
    ensures { Reads (spec.choice_any_reader tokens.old) result tokens.new }
{
    tokens.expect(Reserved::Any)?;
    Ok(Choice::Any)
}

#[tactic(auto, unfolding(crate::specs::Evaluate::choice_truth_reader))]
fn choice_truth(tokens: &mut Tokens<'_>) -> Result<Choice, ReadFault>
    ensures { Reads (spec.choice_truth_reader tokens.old) result tokens.new }
{
    Ok(Choice::Truth(truth(tokens)?))
}

#[tactic(auto, unfolding(crate::specs::Evaluate::choice_condition_reader))]
fn choice_condition(
    alloc: Global,
    tokens: &mut Tokens<'_>,
    depth: usize,
) -> Result<Choice, ReadFault>
    ensures { Reads (spec.choice_condition_reader depth tokens.old) result tokens.new }
{
    Ok(Choice::Condition(condition(alloc, tokens, depth)?))
}

/// What follows the first value.
#[tactic(auto, unfolding(crate::specs::Evaluate::choice_value_reader))]
fn choice_value(
    alloc: Global,
    tokens: &mut Tokens<'_>,
    depth: usize,
    negated: bool,
    first: Side,
) -> Result<Choice, ReadFault>
    ensures { Reads (spec.choice_value_reader depth negated first tokens.old) result tokens.new }
{
    let (first, last) = beside(first, last(alloc, tokens, depth))?;
    Ok(Choice::Value {
        negated,
        first,
        last,
    })
}

/// Values, with NOT or without; or else a condition, which begins where the object does.
#[tactic(auto, unfolding(crate::specs::Evaluate::choice_asked_reader))]
fn choice_asked(alloc: Global, tokens: &mut Tokens<'_>, depth: usize) -> Result<Choice, ReadFault>
    ensures { Reads (spec.choice_asked_reader depth tokens.old tokens.old) result tokens.new }
{
    let from = tokens.rest();
    let negated = tokens.take(Reserved::Not);
    match alone(alloc, tokens, depth)? {
        Some(first) => choice_value(alloc, tokens, depth, negated, first),
        None => {
            tokens.go_to(from);
            choice_condition(alloc, tokens, depth)
        }
    }
}

#[tactic(auto, unfolding(crate::specs::Evaluate::choice_reader))]
fn choice(alloc: Global, tokens: &mut Tokens<'_>, depth: usize) -> Result<Choice, ReadFault>
    ensures { Reads (spec.choice_reader depth tokens.old) result tokens.new }
{
    if tokens.at_word(Reserved::Any) {
        choice_any(tokens)
    } else if begins_truth(tokens) {
        choice_truth(tokens)
    } else {
        choice_asked(alloc, tokens, depth)
    }
}
