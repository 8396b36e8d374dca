//! Tokens: the words, literals, pictures, operators and separators of a source text.

use crate::reserved::Reserved;
use lexical::{NumericLiteral, Place};
use sqlite_items::Items;

/// An arithmetic or relational operator.
#[derive(Clone, Copy, PartialEq, Eq)]
pub enum Operator {
    Plus,
    Minus,
    Times,
    Divide,
    Equal,
    Greater,
    Less,
    GreaterOrEqual,
    LessOrEqual,
}

#[derive(Drop)]
pub enum Kind {
    Reserved(Reserved),
    /// A user-defined word, in upper case.
    Word(Items<u8>),
    Numeric(NumericLiteral),
    /// The bytes between the marks, a doubled mark as one.
    Nonnumeric(Items<u8>),
    /// The characters after PIC or PICTURE.
    Picture(Items<u8>),
    Period,
    LeftParenthesis,
    RightParenthesis,
    Colon,
    Operator(Operator),
}

/// The characters of a token in the characters of its `Lines`, counted from 0: from `start` on, up to before `end`.
#[derive(Clone, Copy, PartialEq, Eq)]
pub struct Span {
    pub start: usize,
    pub end: usize,
}

#[derive(Drop)]
pub struct Token {
    pub kind: Kind,
    pub span: Span,
    /// Where its first character stands.
    pub place: Place,
}
