//! Qualified names and subscripts.

ghost use Rattle.std.specs.Prelude.{◌≡◌};
ghost use Rattle.grammar.specs.Reading.{Reads};
ghost use Rattle.expressions.specs.Subscripts as spec;

use crate::marks::{PlusOrMinus, begins_sign, sign};
use grammar::{Part, ReadFault, Tokens, any, begins_name, name};
use lexical::{NumericLiteral, Sign};
use source_tree::{Adjustment, Integer, Name, QualifiedName, Subscript};
use sqlite_items::Items;
use std::alloc::Global;
use tokens::{Kind, Reserved};

/// Subscripts in a list.
pub struct Subscripts;

impl Part<Subscript> for Subscripts {
    ghost use Rattle.expressions.specs.Subscripts as spec;

    ghost ready = { λ _. Unit {0} };

    ghost reading = { λ _. spec.subscript_reader };

    ghost beginning = { λ _. spec.begins_subscript };

    fn read(&self, alloc: Global, tokens: &mut Tokens<'_>) -> Result<Subscript, ReadFault> {
        subscript(alloc, tokens)
    }

    fn begins(&self, tokens: &Tokens<'_>) -> bool {
        begins_subscript(tokens)
    }
}

/// A subscript, or a number of a part.
#[tactic(auto, unfolding(crate::specs::Subscripts::subscript_reader))]
pub fn subscript(alloc: Global, tokens: &mut Tokens<'_>) -> Result<Subscript, ReadFault>
    ensures { Reads (spec.subscript_reader tokens.old) result tokens.new }
{
    if begins_integer(tokens) {
        literal_subscript(alloc, tokens)
    } else {
        item_subscript(alloc, tokens)
    }
}

/// A subscript, or a number of a part, comes next.
pub fn begins_subscript(tokens: &Tokens<'_>) -> bool
    ensures { result ≡ spec.begins_subscript tokens.now }
{
    begins_integer(tokens) || begins_name(tokens)
}

/// IN or OF comes next.
pub fn begins_qualifier(tokens: &Tokens<'_>) -> bool
    ensures { result ≡ spec.begins_qualifier tokens.now }
{
    tokens.at_word(Reserved::In) || tokens.at_word(Reserved::Of)
}

/// A name and its qualifiers.
#[tactic(auto, unfolding(crate::specs::Subscripts::qualified_reader))]
pub fn qualified(alloc: Global, tokens: &mut Tokens<'_>) -> Result<QualifiedName, ReadFault>
    ensures { Reads (spec.qualified_reader tokens.old) result tokens.new }
{
    let name = name(alloc, tokens)?;
    let qualifiers = any(&Qualifiers, alloc, tokens)?;
    Ok(QualifiedName { name, qualifiers })
}

/// A numeric literal without a sign and without a point comes next.
pub fn begins_integer(tokens: &Tokens<'_>) -> bool
    ensures { result ≡ spec.begins_integer tokens.now }
{
    match tokens.rest() {
        [next, ..] => match &next.kind {
            Kind::Numeric(number) => is_integer(number),
            _ => false,
        },
        [] => false,
    }
}

/// A numeric literal without a sign and without a point.
#[tactic(auto, unfolding(crate::specs::Subscripts::integer_reader, grammar::specs::Reading::one_token))]
pub fn integer(alloc: Global, tokens: &mut Tokens<'_>) -> Result<Integer, ReadFault>
    ensures { Reads (spec.integer_reader tokens.old) result tokens.new }
{
    let [next, rest @ ..] = tokens.rest() else {
        return Err(tokens.refuse());
    };
    let digits = match &next.kind {
        Kind::Numeric(number) => {
            if !is_integer(number) {
                return Err(tokens.refuse());
            }
            Items::from_slice(alloc, number.whole.as_slice())?
        }
        _ => return Err(tokens.refuse()),
    };
    tokens.go_to(rest);
    Ok(Integer {
        digits,
        place: next.place,
    })
}

/// IN or OF, and a name.
#[tactic(auto, unfolding(crate::specs::Subscripts::qualifier_reader))]
fn qualifier(alloc: Global, tokens: &mut Tokens<'_>) -> Result<Name, ReadFault>
    ensures { Reads (spec.qualifier_reader tokens.old) result tokens.new }
{
    if tokens.at_word(Reserved::In) {
        tokens.expect(Reserved::In)?;
    } else {
        tokens.expect(Reserved::Of)?;
    }
    name(alloc, tokens)
}

struct Qualifiers;

impl Part<Name> for Qualifiers {
    ghost use Rattle.expressions.specs.Subscripts as spec;

    ghost ready = { λ _. Unit {0} };

    ghost reading = { λ _. spec.qualifier_reader };

    ghost beginning = { λ _. spec.begins_qualifier };

    fn read(&self, alloc: Global, tokens: &mut Tokens<'_>) -> Result<Name, ReadFault> {
        qualifier(alloc, tokens)
    }

    fn begins(&self, tokens: &Tokens<'_>) -> bool {
        begins_qualifier(tokens)
    }
}

fn is_integer(number: &NumericLiteral) -> bool
    ensures { result ≡ spec.is_integer number.now }
{
    matches!(number.sign, Sign::Unsigned) && number.decimals.is_empty()
}

#[tactic(auto, unfolding(crate::specs::Subscripts::signed_integer_reader))]
fn signed_integer(alloc: Global, tokens: &mut Tokens<'_>) -> Result<Adjustment, ReadFault>
    ensures { Reads (spec.signed_integer_reader tokens.old) result tokens.new }
{
    let sign = sign(tokens)?;
    let integer = integer(alloc, tokens)?;
    Ok(match sign {
        PlusOrMinus::Plus => Adjustment::Plus(integer),
        PlusOrMinus::Minus => Adjustment::Minus(integer),
    })
}

/// What is added to an item.
#[tactic(auto, unfolding(crate::specs::Subscripts::adjustment_reader))]
fn adjustment(alloc: Global, tokens: &mut Tokens<'_>) -> Result<Adjustment, ReadFault>
    ensures { Reads (spec.adjustment_reader tokens.old) result tokens.new }
{
    if begins_sign(tokens) {
        signed_integer(alloc, tokens)
    } else {
        Ok(Adjustment::Nothing)
    }
}

#[tactic(auto, unfolding(crate::specs::Subscripts::literal_subscript_reader))]
fn literal_subscript(alloc: Global, tokens: &mut Tokens<'_>) -> Result<Subscript, ReadFault>
    ensures { Reads (spec.literal_subscript_reader tokens.old) result tokens.new }
{
    Ok(Subscript::Literal(integer(alloc, tokens)?))
}

#[tactic(auto, unfolding(crate::specs::Subscripts::item_subscript_reader))]
fn item_subscript(alloc: Global, tokens: &mut Tokens<'_>) -> Result<Subscript, ReadFault>
    ensures { Reads (spec.item_subscript_reader tokens.old) result tokens.new }
{
    let item = qualified(alloc, tokens)?;
    let adjustment = adjustment(alloc, tokens)?;
    Ok(Subscript::Item { item, adjustment })
}
