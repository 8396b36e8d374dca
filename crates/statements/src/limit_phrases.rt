//! BEFORE and AFTER of an entry of INSPECT, and the texts there.

ghost use Rattle.std.specs.Prelude.{◌≡◌};
ghost use Rattle.grammar.specs.Reading.{Reads};
ghost use Rattle.statements.specs.Limiting as rule;

use expressions::{begins_operand, operand};
use grammar::{ReadFault, Tokens, after_word, beside};
use source_tree::{Limits, Operand};
use std::alloc::Global;
use tokens::Reserved;

/// A reference or a literal, but not ALL with a literal.
#[tactic(auto, unfolding(crate::specs::Limiting::text_reader))]
pub fn text(alloc: Global, tokens: &mut Tokens<'_>) -> Result<Operand, ReadFault>
    ensures { Reads (rule.text_reader tokens.old) result tokens.new }
{
    if tokens.at_word(Reserved::All) {
        return Err(tokens.refuse());
    }
    operand(alloc, tokens)
}

/// Such a text comes next.
pub fn begins_text(tokens: &Tokens<'_>) -> bool
    ensures { result ≡ rule.begins_text tokens.now }
{
    begins_operand(tokens) && !tokens.at_word(Reserved::All)
}

/// The text after BEFORE or AFTER.
#[tactic(auto, unfolding(crate::specs::Limiting::bound_reader))]
fn bound(alloc: Global, tokens: &mut Tokens<'_>) -> Result<Operand, ReadFault>
    ensures { Reads (rule.bound_reader tokens.old) result tokens.new }
{
    tokens.skip(Reserved::Initial);
    text(alloc, tokens)
}

/// The text after this word, BEFORE or AFTER, where it stands.
#[tactic(auto, unfolding(crate::specs::Limiting::limit_reader))]
fn limit(
    alloc: Global,
    word: Reserved,
    tokens: &mut Tokens<'_>,
) -> Result<Option<Operand>, ReadFault>
    ensures { Reads (rule.limit_reader word tokens.old) result tokens.new }
{
    let Some(behind) = after_word(tokens.rest(), word) else {
        return Ok(None);
    };
    tokens.go_to(behind);
    Ok(Some(bound(alloc, tokens)?))
}

/// BEFORE and AFTER, each where it stands, in either order.
#[tactic(auto, unfolding(crate::specs::Limiting::limits_reader, crate::specs::Limiting::before_first_reader, crate::specs::Limiting::after_first_reader))]
pub fn limits(alloc: Global, tokens: &mut Tokens<'_>) -> Result<Limits, ReadFault>
    ensures { Reads (rule.limits_reader tokens.old) result tokens.new }
{
    let Some(behind) = after_word(tokens.rest(), Reserved::After) else {
        let before = limit(alloc, Reserved::Before, tokens)?;
        let (before, after) = beside(before, limit(alloc, Reserved::After, tokens))?;
        return Ok(Limits {
            before,
            after,
            after_first: false,
        });
    };
    tokens.go_to(behind);
    let after = bound(alloc, tokens)?;
    let (after, before) = beside(after, limit(alloc, Reserved::Before, tokens))?;
    let after_first = before.is_some();
    Ok(Limits {
        before,
        after: Some(after),
        after_first,
    })
}
