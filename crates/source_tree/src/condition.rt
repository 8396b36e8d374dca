//! Conditions (COBOL-85, Nucleus, "Conditional expressions").

use crate::expression::Expression;
use crate::literal::Literal;
use crate::reference::Reference;
use sqlite_items::{Boxed, Items};

/// How two sides compare. NOT before it gives the opposite one.
#[derive(Clone, Copy, PartialEq, Eq)]
pub enum Relation {
    Less,
    LessOrEqual,
    Equal,
    NotEqual,
    GreaterOrEqual,
    Greater,
}

/// A relational operator as it is written.
#[derive(Clone, Copy, PartialEq, Eq)]
pub struct RelationalOperator {
    /// NOT stands before the relation.
    pub negated: bool,
    pub relation: Relation,
}

#[derive(Clone, Copy, PartialEq, Eq)]
pub enum SignTest {
    Positive,
    Negative,
    Zero,
}

#[derive(Clone, Copy, PartialEq, Eq)]
pub enum Class {
    Numeric,
    Alphabetic,
    AlphabeticLower,
    AlphabeticUpper,
}

/// A side of a relation. A numeric literal or ZERO is an expression; other literals are literals.
#[derive(Drop)]
pub enum Side {
    Expression(Expression),
    Literal(Literal),
}

/// A condition. Parentheses leave no node.
#[derive(Drop)]
pub enum Condition {
    /// A condition name.
    Name(Reference),
    Relation {
        left: Side,
        relation: Relation,
        right: Side,
    },
    Sign {
        value: Expression,
        negated: bool,
        sign: SignTest,
    },
    Class {
        item: Reference,
        negated: bool,
        class: Class,
    },
    Not(Boxed<Condition>),
    /// With AND between, two or more.
    All(Items<Condition>),
    /// With OR between, two or more.
    Any(Items<Condition>),
}
