//! The rules of relations: 52 besides those of their sides (COBOL-85, Nucleus, "Relation condition").

ghost use Rattle.std.specs.Prelude.{◌≡◌, Some};
ghost use Rattle.entry_rules.specs.Checks.{IsFirstBreach};
ghost use Rattle.source_tree.specs.Conditions as tree;
ghost use Rattle.source_tree.specs.ConditionRules as spec;
ghost use Rattle.declarations.specs.Named.{items_in};
ghost use Rattle.check_rules.specs.Comparing.{side_kind_of};

use crate::checker::Checker;
use crate::forms::literal_rules;
use crate::side_kind::SideKind;
use declarations::operand_alone;
use entry_rules::{BrokenRule, Rule};
use source_tree::{Expression, Operand, Place, Side};

pub(crate) fn operand_place(one: &Operand) -> Place
    ensures { result ≡ spec.operand_place one.now }
{
    match one {
        Operand::Item(reference) => reference.item.name.place,
        Operand::Literal(literal) => literal.place,
    }
}

/// The side is a literal.
fn is_literal_alone(one: &Side) -> bool
    ensures { result ≡ spec.is_literal_alone (tree.alone_side one.now) }
{
    match one {
        Side::Expression(expression) => {
            matches!(operand_alone(expression), Some(Operand::Literal(_)))
        }
        Side::Literal(_) => true,
    }
}

/// Where an expression begins.
#[tactic(auto, using(crate::proofs::SideLayers::place_of_operand, crate::proofs::SideLayers::place_of_negated, crate::proofs::SideLayers::place_of_chain))]
fn expression_place(one: &Expression) -> Place
    ensures { result ≡ spec.expression_place one.now }
{
    match one {
        Expression::Operand(operand) => operand_place(operand),
        Expression::Negated(inner) => expression_place(inner.get()),
        Expression::Chain { first, .. } => expression_place(first.get()),
    }
}

fn side_place(one: &Side) -> Place
    ensures { result ≡ spec.side_place one.now }
{
    match one {
        Side::Expression(expression) => expression_place(expression),
        Side::Literal(literal) => literal.place,
    }
}

impl<'a> Checker<'a> {
    /// A side by itself: an operand alone of any kind, or numbers.
    pub(crate) fn side_rules(&self, one: &Side) -> Result<(), BrokenRule>
        ensures { IsFirstBreach result
            (spec.side_rules (items_in self.now.declarations.now) one.now) }
    {
        match one {
            Side::Expression(expression) => match operand_alone(expression) {
                Some(operand) => self.operand_rules(operand),
                None => self.expression_rules(expression),
            },
            Side::Literal(literal) => literal_rules(literal),
        }
    }

    /// What an operand is beside another.
    fn operand_compared(&self, one: &Operand) -> SideKind
        ensures { side_kind_of result
            ≡ spec.compared_alone (items_in self.now.declarations.now) (Some one.now) }
    {
        match one {
            Operand::Item(reference) => match self.declarations.item_shown(reference) {
                Ok(item) => SideKind::of_kind(item.kind),
                Err(_) => SideKind::Either,
            },
            Operand::Literal(literal) => SideKind::of_literal(&literal.value),
        }
    }

    /// What a side is beside another.
    fn side_compared(&self, one: &Side) -> SideKind
        ensures { side_kind_of result
            ≡ spec.compared_alone (items_in self.now.declarations.now) (tree.alone_side one.now) }
    {
        match one {
            Side::Expression(expression) => match operand_alone(expression) {
                Some(operand) => self.operand_compared(operand),
                None => SideKind::Number,
            },
            Side::Literal(literal) => SideKind::of_literal(&literal.value),
        }
    }

    /// Two sides, which can be compared: not two literals, not a number with decimals or in another usage beside characters.
    pub fn relation_rules(&self, left: &Side, right: &Side) -> Result<(), BrokenRule>
        ensures { IsFirstBreach result
            (spec.relation_rules (items_in self.now.declarations.now) left.now right.now) }
    {
        self.side_rules(left)?;
        self.side_rules(right)?;
        let are_literals = is_literal_alone(left) && is_literal_alone(right);
        let may_compare = self
            .side_compared(left)
            .may_compare(self.side_compared(right));
        Rule::Comparison.broken_if(are_literals || !may_compare, side_place(left))
    }
}
