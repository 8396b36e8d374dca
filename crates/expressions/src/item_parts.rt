//! Parts of items.

ghost use Rattle.std.specs.Prelude.{◌≡◌};
ghost use Rattle.grammar.specs.Reading.{Reads};
ghost use Rattle.expressions.specs.References as spec;

use crate::marks::{begins_left, colon, left, right};
use crate::subscripts::{begins_subscript, subscript};
use grammar::{ReadFault, Tokens, beside};
use source_tree::{BoxedPart, Part, Subscript};
use std::alloc::Global;

/// A part in parentheses, if there is one.
#[tactic(auto, unfolding(crate::specs::References::part_behind_reader))]
pub fn part_behind(alloc: Global, tokens: &mut Tokens<'_>) -> Result<Option<BoxedPart>, ReadFault>
    ensures { Reads (spec.part_behind_reader tokens.old) result tokens.new }
{
    if begins_left(tokens) {
        some_part(alloc, tokens)
    } else {
        Ok(None)
    }
}

/// The rest of a part after its first place, with memory of its own.
pub fn boxed_part_from(
    first: Subscript,
    alloc: Global,
    tokens: &mut Tokens<'_>,
) -> Result<BoxedPart, ReadFault>
    ensures { Reads (spec.part_from_reader first tokens.old) result tokens.new }
{
    let part = part_from(first, alloc, tokens)?;
    Ok(BoxedPart::new(alloc, part)?)
}

/// The rest of a part after its first place: from the colon to the right parenthesis.
#[tactic(auto, unfolding(crate::specs::References::part_from_reader))]
fn part_from(first: Subscript, alloc: Global, tokens: &mut Tokens<'_>) -> Result<Part, ReadFault>
    ensures { Reads (spec.part_from_reader first tokens.old) result tokens.new }
{
    let (first, ()) = beside(first, colon(tokens))?;
    let (first, length) = beside(first, length(alloc, tokens))?;
    let ((first, length), ()) = beside((first, length), right(tokens))?;
    Ok(Part { first, length })
}

#[tactic(auto, unfolding(crate::specs::References::some_part_reader))]
fn some_part(alloc: Global, tokens: &mut Tokens<'_>) -> Result<Option<BoxedPart>, ReadFault>
    ensures { Reads (spec.some_part_reader tokens.old) result tokens.new }
{
    left(tokens)?;
    let first = subscript(alloc, tokens)?;
    Ok(Some(boxed_part_from(first, alloc, tokens)?))
}

/// A length, if there is one.
#[tactic(auto, unfolding(crate::specs::References::length_reader))]
fn length(alloc: Global, tokens: &mut Tokens<'_>) -> Result<Option<Subscript>, ReadFault>
    ensures { Reads (spec.length_reader tokens.old) result tokens.new }
{
    if begins_subscript(tokens) {
        some_length(alloc, tokens)
    } else {
        Ok(None)
    }
}

#[tactic(auto, unfolding(crate::specs::References::some_length_reader))]
fn some_length(alloc: Global, tokens: &mut Tokens<'_>) -> Result<Option<Subscript>, ReadFault>
    ensures { Reads (spec.some_length_reader tokens.old) result tokens.new }
{
    let one = subscript(alloc, tokens)?;
    Ok(Some(one))
}
