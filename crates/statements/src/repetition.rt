//! How often PERFORM performs.

ghost use Rattle.std.specs.Prelude.{◌≡◌};
ghost use Rattle.std.specs.Option.{option_copied};
ghost use Rattle.grammar.specs.Reading as read;
ghost use Rattle.grammar.specs.Reading.{Reads};
ghost use Rattle.statements.specs.Turning as rule;

use crate::followed::followed;
use conditions::condition;
use expressions::{begins_integer, integer, number_operand, reference};
use grammar::{ReadFault, Tokens, after_word, begins_name, beside, past_word};
use source_tree::{Reference, Repetition, TestTime, Until, Varying};
use std::alloc::Global;
use tokens::{Kind, Reserved, Token};

/// The phrase, where one stands: a number or an item with TIMES, or UNTIL. `depth` is how deep a condition may nest.
#[tactic(auto, unfolding(crate::specs::Turning::turns_reader))]
pub fn turns(alloc: Global, depth: usize, tokens: &mut Tokens<'_>) -> Result<Repetition, ReadFault>
    ensures { Reads (rule.turns_reader depth tokens.old) result tokens.new }
{
    if begins_integer(tokens) {
        times(alloc, tokens)
    } else if begins_name(tokens) {
        counted(alloc, tokens)
    } else if begins_until(tokens) {
        until(alloc, depth, tokens)
    } else {
        Ok(Repetition::Once)
    }
}

/// A number, and TIMES.
#[tactic(auto, unfolding(crate::specs::Turning::times_reader))]
fn times(alloc: Global, tokens: &mut Tokens<'_>) -> Result<Repetition, ReadFault>
    ensures { Reads (rule.times_reader tokens.old) result tokens.new }
{
    let count = followed(integer(alloc, tokens), Reserved::Times, tokens)?;
    Ok(Repetition::Times(count))
}

/// An item with the number, and TIMES.
#[tactic(auto, unfolding(crate::specs::Turning::counted_reader))]
fn counted(alloc: Global, tokens: &mut Tokens<'_>) -> Result<Repetition, ReadFault>
    ensures { Reads (rule.counted_reader tokens.old) result tokens.new }
{
    let item = followed(reference(alloc, tokens), Reserved::Times, tokens)?;
    Ok(Repetition::CountedBy(item))
}

/// When the test comes, where the token says it.
fn time_of(token: &Token) -> Option<TestTime>
    ensures { result ≡ rule.time_in token.now }
{
    match token.kind {
        Kind::Reserved(Reserved::Before) => Some(TestTime::Before),
        Kind::Reserved(Reserved::After) => Some(TestTime::After),
        _ => None,
    }
}

/// Passes BEFORE or AFTER, which has to come next.
#[tactic(auto, unfolding(grammar::specs::Reading::one_token))]
fn time(tokens: &mut Tokens<'_>) -> Result<TestTime, ReadFault>
    ensures { Reads (read.one_token rule.time_in tokens.old) result tokens.new }
{
    let [next, rest @ ..] = tokens.rest() else {
        return Err(tokens.refuse());
    };
    let Some(time) = time_of(next) else {
        return Err(tokens.refuse());
    };
    tokens.go_to(rest);
    Ok(time)
}

/// The tokens after `[WITH] TEST`, where that comes first.
#[tactic(auto, unfolding(crate::specs::Turning::after_with_test))]
fn after_with_test(tokens: &[Token]) -> Option<&[Token]>
    ensures { option_copied result ≡ rule.after_with_test tokens.now }
{
    after_word(past_word(tokens, Reserved::With), Reserved::Test)
}

/// The phrase TEST; without it the test comes before.
#[tactic(auto, unfolding(crate::specs::Turning::test_reader))]
fn test_time(tokens: &mut Tokens<'_>) -> Result<TestTime, ReadFault>
    ensures { Reads (rule.test_reader tokens.old) result tokens.new }
{
    let Some(after) = after_with_test(tokens.rest()) else {
        return Ok(TestTime::Before);
    };
    tokens.go_to(after);
    time(tokens)
}

/// From VARYING on.
#[tactic(auto, unfolding(crate::specs::Turning::varied_reader))]
fn varied(alloc: Global, tokens: &mut Tokens<'_>) -> Result<Varying, ReadFault>
    ensures { Reads (rule.varied_reader tokens.old) result tokens.new }
{
    tokens.expect(Reserved::Varying)?;
    let item = followed(reference(alloc, tokens), Reserved::From, tokens)?;
    varied_from(item, alloc, tokens)
}

/// Where the item starts, BY, and what is added to it.
fn varied_from(
    item: Reference,
    alloc: Global,
    tokens: &mut Tokens<'_>,
) -> Result<Varying, ReadFault>
    ensures { Reads (rule.varied_from item tokens.old) result tokens.new }
{
    let from = followed(number_operand(alloc, tokens), Reserved::By, tokens);
    let start = beside(item, from)?;
    let ((item, from), by) = beside(start, number_operand(alloc, tokens))?;
    Ok(Varying { item, from, by })
}

/// The phrase VARYING, where it stands.
#[tactic(auto, unfolding(crate::specs::Turning::varying_reader, crate::specs::Turning::some_varied_reader))]
fn varying(alloc: Global, tokens: &mut Tokens<'_>) -> Result<Option<Varying>, ReadFault>
    ensures { Reads (rule.varying_reader tokens.old) result tokens.new }
{
    if tokens.at_word(Reserved::Varying) {
        Ok(Some(varied(alloc, tokens)?))
    } else {
        Ok(None)
    }
}

/// One of the words comes next that UNTIL may begin with: WITH, TEST, VARYING and UNTIL itself.
fn begins_until(tokens: &Tokens<'_>) -> bool
    ensures { result ≡ rule.begins_until tokens.now }
{
    tokens.at_word(Reserved::With)
        || tokens.at_word(Reserved::Test)
        || tokens.at_word(Reserved::Varying)
        || tokens.at_word(Reserved::Until)
}

/// UNTIL with the phrases before it; `depth` is how deep the condition may nest.
#[tactic(auto, unfolding(crate::specs::Turning::until_reader))]
fn until(alloc: Global, depth: usize, tokens: &mut Tokens<'_>) -> Result<Repetition, ReadFault>
    ensures { Reads (rule.until_reader depth tokens.old) result tokens.new }
{
    let test = test_time(tokens)?;
    let varying = followed(varying(alloc, tokens), Reserved::Until, tokens)?;
    let (varying, condition) = beside(varying, condition(alloc, tokens, depth))?;
    Ok(Repetition::Until(Until {
        test,
        varying,
        condition,
    }))
}
