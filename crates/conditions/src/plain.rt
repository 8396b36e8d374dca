//! Conditions without NOT, AND, OR and parentheses around them.

ghost use Rattle.std.specs.Prelude.{◌≡◌};
ghost use Rattle.std.specs.Option.{option_copied};
ghost use Rattle.grammar.specs.Reading.{Reads};
ghost use Rattle.conditions.specs.Conditions as spec;

use crate::asked::{Asked, begins_class, begins_test, read_asked};
use crate::sides::side;
use expressions::{begins_operator, past_reference, reference};
use grammar::{ReadFault, Tokens, begins_name, beside};
use source_tree::{Condition, Reference, Relation, RelationalOperator, Side, SignTest};
use std::alloc::Global;
use tokens::Token;

/// An arithmetic operator follows, or what a condition asks of an operand: what stands before is no condition by itself.
pub fn goes_on(tokens: &[Token]) -> bool
    ensures { result ≡ spec.goes_on tokens.now }
{
    begins_operator(&Tokens::new(tokens)) || begins_test(tokens)
}

/// The same of what is left after an operand, where one was found.
pub fn goes_on_after(tokens: Option<&[Token]>) -> bool
    ensures { result ≡ spec.goes_on_after (option_copied tokens.entry) }
{
    match tokens {
        Some(tokens) => goes_on(tokens),
        None => false,
    }
}

fn class_follows(tokens: Option<&[Token]>) -> bool
    ensures { result ≡ spec.class_follows (option_copied tokens.entry) }
{
    match tokens {
        Some(tokens) => begins_class(tokens),
        None => false,
    }
}

/// A condition name.
#[tactic(auto, unfolding(crate::specs::Conditions::named_reader))]
fn named(alloc: Global, tokens: &mut Tokens<'_>) -> Result<Condition, ReadFault>
    ensures { Reads (spec.named_reader tokens.old) result tokens.new }
{
    Ok(Condition::Name(reference(alloc, tokens)?))
}

fn class_after(tokens: &Tokens<'_>, item: Reference, asked: Asked) -> Result<Condition, ReadFault>
    ensures { Reads (spec.class_after item asked tokens.now) result tokens.now }
{
    match asked {
        Asked::Class { negated, class } => Ok(Condition::Class {
            item,
            negated,
            class,
        }),
        _ => {
            drop(item);
            Err(tokens.refuse())
        }
    }
}

/// A class condition.
#[tactic(auto, unfolding(crate::specs::Conditions::class_reader))]
fn of_class(alloc: Global, tokens: &mut Tokens<'_>) -> Result<Condition, ReadFault>
    ensures { Reads (spec.class_reader tokens.old) result tokens.new }
{
    let item = reference(alloc, tokens)?;
    let (item, asked) = beside(item, read_asked(tokens))?;
    class_after(tokens, item, asked)
}

fn opposite(relation: Relation) -> Relation
    ensures { result ≡ spec.opposite relation }
{
    match relation {
        Relation::Less => Relation::GreaterOrEqual,
        Relation::LessOrEqual => Relation::Greater,
        Relation::Equal => Relation::NotEqual,
        Relation::NotEqual => Relation::Equal,
        Relation::GreaterOrEqual => Relation::Less,
        Relation::Greater => Relation::LessOrEqual,
    }
}

/// NOT gives the opposite relation.
fn relation_of(one: RelationalOperator) -> Relation
    ensures { result ≡ spec.relation_of one }
{
    if one.negated {
        opposite(one.relation)
    } else {
        one.relation
    }
}

#[tactic(auto, unfolding(crate::specs::Conditions::relation_reader))]
fn relation(
    alloc: Global,
    tokens: &mut Tokens<'_>,
    depth: usize,
    left: Side,
    operator: RelationalOperator,
) -> Result<Condition, ReadFault>
    ensures { Reads (spec.relation_reader depth left operator tokens.old) result tokens.new }
{
    let (left, right) = beside(left, side(alloc, tokens, depth))?;
    Ok(Condition::Relation {
        left,
        relation: relation_of(operator),
        right,
    })
}

fn with_sign(
    tokens: &Tokens<'_>,
    side: Side,
    negated: bool,
    sign: SignTest,
) -> Result<Condition, ReadFault>
    ensures { Reads (spec.sign_after side negated sign tokens.now) result tokens.now }
{
    match side {
        Side::Expression(value) => Ok(Condition::Sign {
            value,
            negated,
            sign,
        }),
        Side::Literal(literal) => {
            drop(literal);
            Err(tokens.refuse())
        }
    }
}

fn compared_after(
    alloc: Global,
    tokens: &mut Tokens<'_>,
    depth: usize,
    left: Side,
    asked: Asked,
) -> Result<Condition, ReadFault>
    ensures { Reads (spec.compared_after depth left asked tokens.old) result tokens.new }
{
    match asked {
        Asked::Relation(one) => relation(alloc, tokens, depth, left, one),
        Asked::Sign { negated, sign } => with_sign(tokens, left, negated, sign),
        Asked::Class { .. } => {
            drop(left);
            Err(tokens.refuse())
        }
    }
}

/// A relation condition or a sign condition.
#[tactic(auto, unfolding(crate::specs::Conditions::compared_reader))]
fn compared(alloc: Global, tokens: &mut Tokens<'_>, depth: usize) -> Result<Condition, ReadFault>
    ensures { Reads (spec.compared_reader depth tokens.old) result tokens.new }
{
    let left = side(alloc, tokens, depth)?;
    let (left, asked) = beside(left, read_asked(tokens))?;
    compared_after(alloc, tokens, depth, left, asked)
}

/// A condition that begins with a reference: by what follows this.
#[tactic(auto, unfolding(crate::specs::Conditions::by_reference_reader))]
fn by_reference(
    alloc: Global,
    tokens: &mut Tokens<'_>,
    depth: usize,
) -> Result<Condition, ReadFault>
    ensures { Reads (spec.by_reference_reader depth tokens.old) result tokens.new }
{
    let rest = past_reference(tokens.rest());
    if class_follows(rest) {
        of_class(alloc, tokens)
    } else if goes_on_after(rest) {
        compared(alloc, tokens, depth)
    } else {
        named(alloc, tokens)
    }
}

/// A condition name, a class, a relation or a sign condition, with signs and parentheses to this depth.
#[tactic(auto, unfolding(crate::specs::Conditions::plain_reader))]
pub fn plain(alloc: Global, tokens: &mut Tokens<'_>, depth: usize) -> Result<Condition, ReadFault>
    ensures { Reads (spec.plain_reader depth tokens.old) result tokens.new }
{
    if begins_name(tokens) {
        by_reference(alloc, tokens, depth)
    } else {
        compared(alloc, tokens, depth)
    }
}
