//! Operands and arithmetic expressions.

use crate::literal::Literal;
use crate::reference::Reference;
use sqlite_items::{Boxed, Items};

/// What a value is taken from. Where a number is wanted, a literal is numeric or ZERO.
#[derive(Drop)]
pub enum Operand {
    Item(Reference),
    Literal(Literal),
}

#[derive(Clone, Copy, PartialEq, Eq)]
pub enum Operator {
    Add,
    Subtract,
    Multiply,
    Divide,
}

/// An arithmetic expression (COBOL-85, Nucleus, "Arithmetic expressions"). Parentheses and a unary plus leave no node.
#[derive(Drop)]
pub enum Expression {
    Operand(Operand),
    Negated(Boxed<Expression>),
    /// Operators of one precedence, which associate from the left: the first operand, and each further one after its
    /// operator.
    Chain {
        first: Boxed<Expression>,
        more: Items<(Operator, Expression)>,
    },
}
