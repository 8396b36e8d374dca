//! Looking past references and parentheses, without reading them: nothing is allocated.

ghost use Rattle.std.specs.Prelude.{◌≡◌, suc};
ghost use Rattle.std.specs.Option.{option_copied};
ghost use Rattle.grammar.specs.Reading as read;
ghost use Rattle.expressions.specs.Subscripts as subscripts;
ghost use Rattle.expressions.specs.Looking as spec;

use crate::factors::begins_nested;
use crate::literals::begins_number;
use crate::marks::{
    begins_colon, begins_left, begins_product_operator, begins_right, begins_sign,
    begins_sum_operator,
};
use crate::subscripts::{begins_integer, begins_qualifier, begins_subscript};
use grammar::{Passing, Tokens, after_word, begins_name, past_any};
use tokens::{Kind, Reserved, Token};

/// The tokens after a reference, where one stands.
#[tactic(auto, using(crate::proofs::Past::reference_passes))]
pub fn past_reference(tokens: &[Token]) -> Option<&[Token]>
    ensures { option_copied result ≡ spec.past_reference tokens.now }
{
    let rest = past_qualified(tokens)?;
    past_numbers(rest)
}

/// The tokens after a reference and this word, where they stand.
pub fn after_reference_before(tokens: &[Token], word: Reserved) -> Option<&[Token]>
    ensures { option_copied result ≡ spec.after_reference_before word tokens.now }
{
    let rest = past_reference(tokens)?;
    after_word(rest, word)
}

/// The tokens after a left parenthesis and the right one that closes it.
pub fn past_parentheses(tokens: &[Token]) -> Option<&[Token]>
    ensures { option_copied result ≡ spec.past_parentheses tokens.now }
{
    let [_, rest @ ..] = tokens else {
        return None;
    };
    past_closing(rest)
}

/// An expression begins here.
pub fn begins_expression(tokens: &Tokens<'_>) -> bool
    ensures { result ≡ spec.begins_expression tokens.now }
{
    begins_name(tokens) || begins_nested(tokens) || begins_number(tokens)
}

/// An operator follows, with which an operand goes on.
pub fn begins_operator(tokens: &Tokens<'_>) -> bool
    ensures { result ≡ spec.begins_operator tokens.now }
{
    begins_product_operator(tokens) || begins_sum_operator(tokens)
}

/// The tokens after the first, where it passed a test.
fn past_first(tokens: &[Token], passed: bool) -> Option<&[Token]>
    ensures { option_copied result ≡ spec.past_first passed tokens.now }
{
    if !passed {
        return None;
    }
    match tokens {
        [_, rest @ ..] => Some(rest),
        [] => None,
    }
}

/// The tokens after a user-defined word.
#[tactic(auto, using(crate::proofs::Past::name_passes))]
fn past_name(tokens: &[Token]) -> Option<&[Token]>
    ensures { option_copied result ≡ read.tokens_past read.name tokens.now }
{
    past_first(tokens, begins_name(&Tokens::new(tokens)))
}

/// The tokens after IN or OF and a name.
#[tactic(auto, using(crate::proofs::Past::qualifier_passes))]
fn past_qualifier(tokens: &[Token]) -> Option<&[Token]>
    ensures { option_copied result ≡ read.tokens_past subscripts.qualifier_reader tokens.now }
{
    match after_word(tokens, Reserved::In) {
        Some(rest) => past_name(rest),
        None => {
            let rest = after_word(tokens, Reserved::Of)?;
            past_name(rest)
        }
    }
}

struct Qualifiers;

impl Passing for Qualifiers {
    ghost use Rattle.grammar.specs.Reading as read;
    ghost use Rattle.expressions.specs.Subscripts as subscripts;

    ghost passing = { λ _. read.tokens_past subscripts.qualifier_reader };

    ghost beginning = { λ _. subscripts.begins_qualifier };

    fn pass<'a>(&self, tokens: &'a [Token]) -> Option<&'a [Token]> {
        past_qualifier(tokens)
    }

    fn begins(&self, tokens: &[Token]) -> bool {
        begins_qualifier(&Tokens::new(tokens))
    }
}

/// The tokens after a name and its qualifiers.
#[tactic(auto, using(crate::proofs::Past::qualified_passes))]
fn past_qualified(tokens: &[Token]) -> Option<&[Token]>
    ensures { option_copied result ≡ read.tokens_past subscripts.qualified_reader tokens.now }
{
    let rest = past_name(tokens)?;
    past_any(&Qualifiers, rest)
}

/// The tokens after an unsigned integer.
#[tactic(auto, using(crate::proofs::Past::integer_passes))]
fn past_integer(tokens: &[Token]) -> Option<&[Token]>
    ensures { option_copied result ≡ read.tokens_past subscripts.integer_reader tokens.now }
{
    past_first(tokens, begins_integer(&Tokens::new(tokens)))
}

/// The tokens after a sign and an integer, where a sign stands.
#[tactic(auto, using(crate::proofs::Past::adjustment_passes))]
fn past_adjustment(tokens: &[Token]) -> Option<&[Token]>
    ensures { option_copied result ≡ read.tokens_past subscripts.adjustment_reader tokens.now }
{
    let signed = begins_sign(&Tokens::new(tokens));
    if !signed {
        return Some(tokens);
    }
    let rest = past_first(tokens, signed)?;
    past_integer(rest)
}

struct Subscripts;

impl Passing for Subscripts {
    ghost use Rattle.grammar.specs.Reading as read;
    ghost use Rattle.expressions.specs.Subscripts as subscripts;

    ghost passing = { λ _. read.tokens_past subscripts.subscript_reader };

    ghost beginning = { λ _. subscripts.begins_subscript };

    fn pass<'a>(&self, tokens: &'a [Token]) -> Option<&'a [Token]> {
        past_subscript(tokens)
    }

    fn begins(&self, tokens: &[Token]) -> bool {
        begins_subscript(&Tokens::new(tokens))
    }
}

/// The tokens after a subscript, or a number of a part.
#[tactic(auto, using(crate::proofs::Past::subscript_passes))]
fn past_subscript(tokens: &[Token]) -> Option<&[Token]>
    ensures { option_copied result ≡ read.tokens_past subscripts.subscript_reader tokens.now }
{
    if begins_integer(&Tokens::new(tokens)) {
        return past_integer(tokens);
    }
    let rest = past_qualified(tokens)?;
    past_adjustment(rest)
}

/// The tokens after a length, where one stands.
fn past_length(tokens: &[Token]) -> Option<&[Token]>
    ensures { option_copied result ≡ spec.past_length tokens.now }
{
    if begins_subscript(&Tokens::new(tokens)) {
        past_subscript(tokens)
    } else {
        Some(tokens)
    }
}

/// The tokens after the rest of a part, from its colon to its right parenthesis.
fn past_part_from(tokens: &[Token]) -> Option<&[Token]>
    ensures { option_copied result ≡ spec.past_part_from tokens.now }
{
    let rest = past_first(tokens, begins_colon(&Tokens::new(tokens)))?;
    let rest = past_length(rest)?;
    past_first(rest, begins_right(&Tokens::new(rest)))
}

/// The tokens after a part in parentheses.
fn past_part(tokens: &[Token]) -> Option<&[Token]>
    ensures { option_copied result ≡ spec.past_part tokens.now }
{
    let rest = past_first(tokens, begins_left(&Tokens::new(tokens)))?;
    let rest = past_subscript(rest)?;
    past_part_from(rest)
}

/// The tokens after a part in parentheses, where one stands.
fn past_part_behind(tokens: &[Token]) -> Option<&[Token]>
    ensures { option_copied result ≡ spec.past_part_behind tokens.now }
{
    if begins_left(&Tokens::new(tokens)) {
        past_part(tokens)
    } else {
        Some(tokens)
    }
}

/// The tokens after the further subscripts and a part.
fn past_subscripted(tokens: &[Token]) -> Option<&[Token]>
    ensures { option_copied result ≡ spec.past_subscripted tokens.now }
{
    let rest = past_any(&Subscripts, tokens)?;
    let rest = past_first(rest, begins_right(&Tokens::new(rest)))?;
    past_part_behind(rest)
}

/// The tokens after what the first number in parentheses begins.
fn past_after_number(tokens: &[Token]) -> Option<&[Token]>
    ensures { option_copied result ≡ spec.past_after_number tokens.now }
{
    if begins_colon(&Tokens::new(tokens)) {
        past_part_from(tokens)
    } else {
        past_subscripted(tokens)
    }
}

fn past_enclosed(tokens: &[Token]) -> Option<&[Token]>
    ensures { option_copied result ≡ spec.past_enclosed tokens.now }
{
    let rest = past_first(tokens, begins_left(&Tokens::new(tokens)))?;
    let rest = past_subscript(rest)?;
    past_after_number(rest)
}

/// The tokens after numbers in parentheses, where any stand.
fn past_numbers(tokens: &[Token]) -> Option<&[Token]>
    ensures { option_copied result ≡ spec.past_numbers tokens.now }
{
    if begins_left(&Tokens::new(tokens)) {
        past_enclosed(tokens)
    } else {
        Some(tokens)
    }
}

/// The tokens after the right parenthesis that closes the one that is open.
#[tactic(auto, unfolding(crate::specs::Looking::past_closing))]
fn past_closing(tokens: &[Token]) -> Option<&[Token]>
    ensures { option_copied result ≡ spec.past_closing tokens.now (suc 0) }
{
    // how many are open inside
    let mut inner: usize = 0;
    let mut rest = tokens;
    while let [next, more @ ..] = rest {
        match next.kind {
            Kind::LeftParenthesis => inner += 1,
            Kind::RightParenthesis => {
                if inner == 0 {
                    return Some(more);
                }
                inner -= 1;
            }
            _ => {}
        }
        rest = more;
    }
    None
}
