//! Operands.

ghost use Rattle.std.specs.Prelude.{◌≡◌};
ghost use Rattle.grammar.specs.Reading.{Reads};
ghost use Rattle.expressions.specs.Operands as spec;

use crate::literals::{begins_literal, begins_number, literal, number_literal};
use crate::references::reference;
use grammar::{Part, ReadFault, Tokens, begins_name};
use source_tree::Operand;
use std::alloc::Global;

/// Operands in a list.
pub struct Operands;

impl Part<Operand> for Operands {
    ghost use Rattle.expressions.specs.Operands as spec;

    ghost ready = { λ _. Unit {0} };

    ghost reading = { λ _. spec.operand_reader };

    ghost beginning = { λ _. spec.begins_operand };

    fn read(&self, alloc: Global, tokens: &mut Tokens<'_>) -> Result<Operand, ReadFault> {
        operand(alloc, tokens)
    }

    fn begins(&self, tokens: &Tokens<'_>) -> bool {
        begins_operand(tokens)
    }
}

/// Operands that are numbers, in a list.
pub struct NumberOperands;

impl Part<Operand> for NumberOperands {
    ghost use Rattle.expressions.specs.Operands as spec;

    ghost ready = { λ _. Unit {0} };

    ghost reading = { λ _. spec.number_operand_reader };

    ghost beginning = { λ _. spec.begins_number_operand };

    fn read(&self, alloc: Global, tokens: &mut Tokens<'_>) -> Result<Operand, ReadFault> {
        number_operand(alloc, tokens)
    }

    fn begins(&self, tokens: &Tokens<'_>) -> bool {
        begins_number_operand(tokens)
    }
}

/// A reference or a literal.
#[tactic(auto, unfolding(crate::specs::Operands::operand_reader))]
pub fn operand(alloc: Global, tokens: &mut Tokens<'_>) -> Result<Operand, ReadFault>
    ensures { Reads (spec.operand_reader tokens.old) result tokens.new }
{
    if begins_name(tokens) {
        item(alloc, tokens)
    } else {
        literal_operand(alloc, tokens)
    }
}

/// The next token begins an operand.
pub fn begins_operand(tokens: &Tokens<'_>) -> bool
    ensures { result ≡ spec.begins_operand tokens.now }
{
    begins_name(tokens) || begins_literal(tokens)
}

/// A reference, a numeric literal or ZERO.
#[tactic(auto, unfolding(crate::specs::Operands::number_operand_reader))]
pub fn number_operand(alloc: Global, tokens: &mut Tokens<'_>) -> Result<Operand, ReadFault>
    ensures { Reads (spec.number_operand_reader tokens.old) result tokens.new }
{
    if begins_name(tokens) {
        item(alloc, tokens)
    } else {
        number_literal_operand(alloc, tokens)
    }
}

/// The next token begins an operand that is a number.
pub fn begins_number_operand(tokens: &Tokens<'_>) -> bool
    ensures { result ≡ spec.begins_number_operand tokens.now }
{
    begins_name(tokens) || begins_number(tokens)
}

#[tactic(auto, unfolding(crate::specs::Operands::item_reader))]
fn item(alloc: Global, tokens: &mut Tokens<'_>) -> Result<Operand, ReadFault>
    ensures { Reads (spec.item_reader tokens.old) result tokens.new }
{
    Ok(Operand::Item(reference(alloc, tokens)?))
}

#[tactic(auto, unfolding(crate::specs::Operands::literal_operand_reader))]
fn literal_operand(alloc: Global, tokens: &mut Tokens<'_>) -> Result<Operand, ReadFault>
    ensures { Reads (spec.literal_operand_reader tokens.old) result tokens.new }
{
    Ok(Operand::Literal(literal(alloc, tokens)?))
}

#[tactic(auto, unfolding(crate::specs::Operands::number_literal_reader))]
fn number_literal_operand(alloc: Global, tokens: &mut Tokens<'_>) -> Result<Operand, ReadFault>
    ensures { Reads (spec.number_literal_reader tokens.old) result tokens.new }
{
    Ok(Operand::Literal(number_literal(alloc, tokens)?))
}
