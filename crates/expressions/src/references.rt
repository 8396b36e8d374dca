//! References.

ghost use Rattle.std.specs.Prelude.{◌≡◌};
ghost use Rattle.grammar.specs.Reading.{Reads};
ghost use Rattle.expressions.specs.References as spec;

use crate::item_parts::{boxed_part_from, part_behind};
use crate::marks::{begins_colon, begins_left, left, right};
use crate::subscripts::{Subscripts, qualified, subscript};
use grammar::{Part, ReadFault, Tokens, any, begins_name, beside};
use source_tree::{BoxedPart, QualifiedName, Reference, Subscript};
use sqlite_items::Items;
use std::alloc::Global;

/// References in a list.
pub struct References;

impl Part<Reference> for References {
    ghost use Rattle.grammar.specs.Parts as grammar;
    ghost use Rattle.expressions.specs.References as spec;

    ghost ready = { λ _. Unit {0} };

    ghost reading = { λ _. spec.reference_reader };

    ghost beginning = { λ _. grammar.begins_name };

    fn read(&self, alloc: Global, tokens: &mut Tokens<'_>) -> Result<Reference, ReadFault> {
        reference(alloc, tokens)
    }

    fn begins(&self, tokens: &Tokens<'_>) -> bool {
        begins_name(tokens)
    }
}

/// A reference to an item or a condition name.
#[tactic(auto, unfolding(crate::specs::References::reference_reader))]
pub fn reference(alloc: Global, tokens: &mut Tokens<'_>) -> Result<Reference, ReadFault>
    ensures { Reads (spec.reference_reader tokens.old) result tokens.new }
{
    let item = qualified(alloc, tokens)?;
    after_name(item, alloc, tokens)
}

/// Numbers in parentheses, if there are any.
#[tactic(auto, unfolding(crate::specs::References::after_name_reader))]
fn after_name(
    item: QualifiedName,
    alloc: Global,
    tokens: &mut Tokens<'_>,
) -> Result<Reference, ReadFault>
    ensures { Reads (spec.after_name_reader item tokens.old) result tokens.new }
{
    if begins_left(tokens) {
        enclosed_numbers(item, alloc, tokens)
    } else {
        Ok(Reference {
            item,
            subscripts: Items::new(alloc),
            part: None,
        })
    }
}

#[tactic(auto, unfolding(crate::specs::References::enclosed_numbers_reader))]
fn enclosed_numbers(
    item: QualifiedName,
    alloc: Global,
    tokens: &mut Tokens<'_>,
) -> Result<Reference, ReadFault>
    ensures { Reads (spec.enclosed_numbers_reader item tokens.old) result tokens.new }
{
    let (item, ()) = beside(item, left(tokens))?;
    let (item, first) = beside(item, subscript(alloc, tokens))?;
    after_number(item, first, alloc, tokens)
}

/// What the first number begins: a part, or subscripts.
#[tactic(auto, unfolding(crate::specs::References::after_number_reader))]
fn after_number(
    item: QualifiedName,
    first: Subscript,
    alloc: Global,
    tokens: &mut Tokens<'_>,
) -> Result<Reference, ReadFault>
    ensures { Reads (spec.after_number_reader item first tokens.old) result tokens.new }
{
    if begins_colon(tokens) {
        item_part(item, first, alloc, tokens)
    } else {
        subscripted(item, first, alloc, tokens)
    }
}

#[tactic(auto, unfolding(crate::specs::References::item_part_reader))]
fn item_part(
    item: QualifiedName,
    first: Subscript,
    alloc: Global,
    tokens: &mut Tokens<'_>,
) -> Result<Reference, ReadFault>
    ensures { Reads (spec.item_part_reader item first tokens.old) result tokens.new }
{
    let part = boxed_part_from(first, alloc, tokens)?;
    Ok(Reference {
        item,
        subscripts: Items::new(alloc),
        part: Some(part),
    })
}

#[tactic(auto, using(crate::proofs::Numbers::subscripted_by))]
fn subscripted(
    item: QualifiedName,
    first: Subscript,
    alloc: Global,
    tokens: &mut Tokens<'_>,
) -> Result<Reference, ReadFault>
    ensures { Reads (spec.subscripted_reader item first tokens.old) result tokens.new }
{
    let (subscripts, part) = numbers_from(first, alloc, tokens)?;
    Ok(Reference {
        item,
        subscripts,
        part,
    })
}

/// Subscripts, of which this is the first, and the part after them.
#[tactic(auto, unfolding(crate::specs::References::numbers_from_reader))]
fn numbers_from(
    first: Subscript,
    alloc: Global,
    tokens: &mut Tokens<'_>,
) -> Result<(Items<Subscript>, Option<BoxedPart>), ReadFault>
    ensures { Reads (spec.numbers_from_reader first tokens.old) result tokens.new }
{
    let mut subscripts = Items::new(alloc);
    subscripts.push(first)?;
    subscripts.append(any(&Subscripts, alloc, tokens)?)?;
    right(tokens)?;
    let part = part_behind(alloc, tokens)?;
    Ok((subscripts, part))
}
