//! Parentheses, the colon and arithmetic operators.

ghost use Rattle.std.specs.Prelude.{◌≡◌};
ghost use Rattle.grammar.specs.Parts.{begins_telling};
ghost use Rattle.grammar.specs.Reading as read;
ghost use Rattle.grammar.specs.Reading.{Reads};
ghost use Rattle.expressions.specs.Marks as spec;

use grammar::{ReadFault, Tokens};
use source_tree::Operator;
use tokens::{Kind, Operator as Written, Token};

/// A plus or minus before an operand or an integer.
#[derive(Clone, Copy)]
pub enum PlusOrMinus {
    Plus,
    Minus,
}

/// A left parenthesis comes next.
pub fn begins_left(tokens: &Tokens<'_>) -> bool
    ensures { result ≡ spec.begins_left tokens.now }
{
    match tokens.rest() {
        [next, ..] => matches!(next.kind, Kind::LeftParenthesis),
        [] => false,
    }
}

/// Passes the left parenthesis, which has to come next.
#[tactic(auto, unfolding(grammar::specs::Reading::one_token))]
pub fn left(tokens: &mut Tokens<'_>) -> Result<(), ReadFault>
    ensures { Reads (read.one_token spec.left_in tokens.old) result tokens.new }
{
    match tokens.rest() {
        [next, rest @ ..] if matches!(next.kind, Kind::LeftParenthesis) => {
            tokens.go_to(rest);
            Ok(())
        }
        _ => Err(tokens.refuse()),
    }
}

/// Passes the right parenthesis, which has to come next.
#[tactic(auto, unfolding(grammar::specs::Reading::one_token))]
pub fn right(tokens: &mut Tokens<'_>) -> Result<(), ReadFault>
    ensures { Reads (read.one_token spec.right_in tokens.old) result tokens.new }
{
    match tokens.rest() {
        [next, rest @ ..] if matches!(next.kind, Kind::RightParenthesis) => {
            tokens.go_to(rest);
            Ok(())
        }
        _ => Err(tokens.refuse()),
    }
}

/// A right parenthesis comes next.
pub fn begins_right(tokens: &Tokens<'_>) -> bool
    ensures { result ≡ begins_telling spec.right_in tokens.now }
{
    match tokens.rest() {
        [next, ..] => matches!(next.kind, Kind::RightParenthesis),
        [] => false,
    }
}

/// A colon comes next.
pub fn begins_colon(tokens: &Tokens<'_>) -> bool
    ensures { result ≡ spec.begins_colon tokens.now }
{
    match tokens.rest() {
        [next, ..] => matches!(next.kind, Kind::Colon),
        [] => false,
    }
}

/// Passes the colon, which has to come next.
#[tactic(auto, unfolding(grammar::specs::Reading::one_token))]
pub fn colon(tokens: &mut Tokens<'_>) -> Result<(), ReadFault>
    ensures { Reads (read.one_token spec.colon_in tokens.old) result tokens.new }
{
    match tokens.rest() {
        [next, rest @ ..] if matches!(next.kind, Kind::Colon) => {
            tokens.go_to(rest);
            Ok(())
        }
        _ => Err(tokens.refuse()),
    }
}

fn sign_in(token: &Token) -> Option<PlusOrMinus>
    ensures { result ≡ spec.sign_in token.now }
{
    match token.kind {
        Kind::Operator(Written::Plus) => Some(PlusOrMinus::Plus),
        Kind::Operator(Written::Minus) => Some(PlusOrMinus::Minus),
        _ => None,
    }
}

/// A plus or minus comes next.
pub fn begins_sign(tokens: &Tokens<'_>) -> bool
    ensures { result ≡ spec.begins_sign tokens.now }
{
    match tokens.rest() {
        [next, ..] => matches!(next.kind, Kind::Operator(Written::Plus | Written::Minus)),
        [] => false,
    }
}

/// A plus or minus, which has to come next.
#[tactic(auto, unfolding(grammar::specs::Reading::one_token))]
pub fn sign(tokens: &mut Tokens<'_>) -> Result<PlusOrMinus, ReadFault>
    ensures { Reads (read.one_token spec.sign_in tokens.old) result tokens.new }
{
    let [next, rest @ ..] = tokens.rest() else {
        return Err(tokens.refuse());
    };
    let Some(sign) = sign_in(next) else {
        return Err(tokens.refuse());
    };
    tokens.go_to(rest);
    Ok(sign)
}

fn sum_in(token: &Token) -> Option<Operator>
    ensures { result ≡ spec.sum_in token.now }
{
    match token.kind {
        Kind::Operator(Written::Plus) => Some(Operator::Add),
        Kind::Operator(Written::Minus) => Some(Operator::Subtract),
        _ => None,
    }
}

fn product_in(token: &Token) -> Option<Operator>
    ensures { result ≡ spec.product_in token.now }
{
    match token.kind {
        Kind::Operator(Written::Times) => Some(Operator::Multiply),
        Kind::Operator(Written::Divide) => Some(Operator::Divide),
        _ => None,
    }
}

/// An operator of a sum comes next.
pub fn begins_sum_operator(tokens: &Tokens<'_>) -> bool
    ensures { result ≡ begins_telling spec.sum_in tokens.now }
{
    match tokens.rest() {
        [next, ..] => matches!(next.kind, Kind::Operator(Written::Plus | Written::Minus)),
        [] => false,
    }
}

/// An operator of a product comes next.
pub fn begins_product_operator(tokens: &Tokens<'_>) -> bool
    ensures { result ≡ begins_telling spec.product_in tokens.now }
{
    match tokens.rest() {
        [next, ..] => matches!(next.kind, Kind::Operator(Written::Times | Written::Divide)),
        [] => false,
    }
}

/// An operator of a sum, which has to come next.
#[tactic(auto, unfolding(grammar::specs::Reading::one_token))]
pub fn sum_operator(tokens: &mut Tokens<'_>) -> Result<Operator, ReadFault>
    ensures { Reads (read.one_token spec.sum_in tokens.old) result tokens.new }
{
    let [next, rest @ ..] = tokens.rest() else {
        return Err(tokens.refuse());
    };
    let Some(operator) = sum_in(next) else {
        return Err(tokens.refuse());
    };
    tokens.go_to(rest);
    Ok(operator)
}

/// An operator of a product, which has to come next.
#[tactic(auto, unfolding(grammar::specs::Reading::one_token))]
pub fn product_operator(tokens: &mut Tokens<'_>) -> Result<Operator, ReadFault>
    ensures { Reads (read.one_token spec.product_in tokens.old) result tokens.new }
{
    let [next, rest @ ..] = tokens.rest() else {
        return Err(tokens.refuse());
    };
    let Some(operator) = product_in(next) else {
        return Err(tokens.refuse());
    };
    tokens.go_to(rest);
    Ok(operator)
}
