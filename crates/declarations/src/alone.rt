//! Expressions that are an operand alone.

ghost use Rattle.std.specs.Prelude.{◌≡◌};
ghost use Rattle.std.specs.Option.{option_copied};
ghost use Rattle.source_tree.specs.declared.expression.Expression.{out-Expression};
ghost use Rattle.source_tree.specs.Conditions as tree;

use source_tree::{Expression, Operand};

/// The operand that an expression is, if it is one alone.
#[tactic(auto, using(crate::proofs::OperandAlone::alone_operand, crate::proofs::OperandAlone::alone_negated, crate::proofs::OperandAlone::alone_chain))]
pub fn operand_alone(one: &Expression) -> Option<&Operand>
    ensures { option_copied result ≡ tree.alone (out-Expression one.now) }
{
    match one {
        Expression::Operand(operand) => Some(operand),
        Expression::Negated(_) => None,
        Expression::Chain { .. } => None,
    }
}
