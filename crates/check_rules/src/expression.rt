//! The rules of operands that are numbers, and of arithmetic expressions: 51 besides those of references and literals (COBOL-85,
//! Nucleus, "Arithmetic expressions").

ghost use Rattle.std.specs.Prelude.{◌≡◌};
ghost use Rattle.entry_rules.specs.Checks.{IsFirstBreach};
ghost use Rattle.source_tree.specs.Broken.{each};
ghost use Rattle.source_tree.specs.ArithmeticRules as spec;
ghost use Rattle.declarations.specs.Named.{items_in};
ghost use Rattle.declarations.specs.Chains.{further_rules};

use crate::asked::Asked;
use crate::checker::Checker;
use crate::forms::literal_rules;
use entry_rules::{BrokenRule, Rule};
use source_tree::{Expression, Figurative, LiteralValue, Operand, Operator};

impl<'a> Checker<'a> {
    /// An operand that is a number: a numeric item, a numeric literal or ZERO.
    pub fn number_rules(&self, one: &Operand) -> Result<(), BrokenRule>
        ensures { IsFirstBreach result
            (spec.number_rules (items_in self.now.declarations.now) one.now) }
    {
        match one {
            Operand::Item(reference) => self.item_rules(Asked::Numeric, reference),
            Operand::Literal(literal) => {
                Rule::Number.broken_if(!is_number(&literal.value), literal.place)?;
                literal_rules(literal)
            }
        }
    }

    /// Operands that are numbers, in order.
    pub(crate) fn numbers_rules(&self, all: &[Operand]) -> Result<(), BrokenRule>
        ensures { IsFirstBreach result
            (each (spec.number_rules (items_in self.now.declarations.now)) all.now) }
    {
        for one in all {
            self.number_rules(one)?;
        }
        Ok(())
    }

    /// An expression, with those in it.
    #[cycle(expression)]
    #[tactic(auto, using(declarations::proofs::Layers::operand_is, declarations::proofs::Layers::negated_is, declarations::proofs::Layers::chain_is))]
    pub fn expression_rules(&self, one: &Expression) -> Result<(), BrokenRule>
        ensures { IsFirstBreach result
            (spec.expression_rules (items_in self.now.declarations.now) one.now) }
    {
        match one {
            Expression::Operand(operand) => self.number_rules(operand),
            Expression::Negated(inner) => self.expression_rules(inner.get()),
            Expression::Chain { first, more } => {
                self.expression_rules(first.get())?;
                self.further_rules(more.as_slice())
            }
        }
    }

    /// Operands after operators, in order.
    #[cycle(expression)]
    fn further_rules(&self, all: &[(Operator, Expression)]) -> Result<(), BrokenRule>
        ensures { IsFirstBreach result
            (each (further_rules (items_in self.now.declarations.now)) all.now) }
    {
        for (_, one) in all {
            self.expression_rules(one)?;
        }
        Ok(())
    }
}

/// A numeric literal, or ZERO.
fn is_number(value: &LiteralValue) -> bool
    ensures { result ≡ spec.is_number_literal value.now }
{
    matches!(
        value,
        LiteralValue::Numeric(_) | LiteralValue::Figurative(Figurative::Zero)
    )
}
