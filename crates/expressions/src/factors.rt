//! Factors, products and sums. What holds factors takes their reader as a parameter, so that each rule is proved by itself.

ghost use Rattle.std.specs.Prelude.{◌≡◌, IfOk};
ghost use Rattle.grammar.specs.Reading.{Reads};
ghost use Rattle.expressions.specs.Expressions as spec;
ghost use Rattle.expressions.specs.Nests.{Nests};

use crate::marks::{
    PlusOrMinus, begins_left, begins_product_operator, begins_sign, begins_sum_operator, left,
    product_operator, right, sign, sum_operator,
};
use crate::operands::number_operand;
use grammar::{Halt, Part, ReadFault, Tokens, any, beside};
use source_tree::{Expression, Operator};
use sqlite_items::{Boxed, Items};
use std::alloc::{AllocError, Global};

/// Factors to a depth.
#[derive(Clone, Copy)]
pub struct Factors<F> {
    pub alloc: Global,
    /// How deep signs and parentheses may still nest.
    pub depth: usize,
    /// Reads a factor of at most that depth.
    pub factor: F,
}

/// An operator of a product and the factor after it.
#[derive(Drop)]
struct FurtherFactors<'a, F> {
    factors: &'a Factors<F>,
}

/// An operator of a sum and the product after it.
#[derive(Drop)]
struct FurtherProducts<'a, F> {
    factors: &'a Factors<F>,
}

impl<F: Fn(Global, &mut Tokens<'_>, usize) -> Result<Expression, ReadFault>> Part<
    (Operator, Expression),
> for FurtherFactors<'_, F> {
    ghost use Rattle.grammar.specs.Parts.{begins_telling};
    ghost use Rattle.expressions.specs.Marks.{product_in};
    ghost use Rattle.expressions.specs.Expressions as spec;
    ghost use Rattle.expressions.specs.Nests.{Nests};

    ghost ready = { λ n.
        Nests n.factors.now.depth (F.pre n.factors.now.factor) (F.post n.factors.now.factor) };

    ghost reading = { λ n.
        spec.further_operand_reader product_in (spec.factor_reader n.factors.now.depth) };

    ghost beginning = { λ _. begins_telling product_in };

    #[tactic(auto, unfolding(crate::specs::Expressions::further_operand_reader))]
    fn read(
        &self,
        _alloc: Global,
        tokens: &mut Tokens<'_>,
    ) -> Result<(Operator, Expression), ReadFault> {
        let operator = product_operator(tokens)?;
        let operand = self.factors.factor(tokens)?;
        Ok((operator, operand))
    }

    fn begins(&self, tokens: &Tokens<'_>) -> bool {
        begins_product_operator(tokens)
    }
}

impl<F: Fn(Global, &mut Tokens<'_>, usize) -> Result<Expression, ReadFault>> Part<
    (Operator, Expression),
> for FurtherProducts<'_, F> {
    ghost use Rattle.grammar.specs.Parts.{begins_telling};
    ghost use Rattle.expressions.specs.Marks.{sum_in};
    ghost use Rattle.expressions.specs.Expressions as spec;
    ghost use Rattle.expressions.specs.Nests.{Nests};

    ghost ready = { λ n.
        Nests n.factors.now.depth (F.pre n.factors.now.factor) (F.post n.factors.now.factor) };

    ghost reading = { λ n. spec.further_operand_reader sum_in
        (spec.product_reader (spec.factor_reader n.factors.now.depth)) };

    ghost beginning = { λ _. begins_telling sum_in };

    #[tactic(auto, unfolding(crate::specs::Expressions::further_operand_reader))]
    fn read(
        &self,
        _alloc: Global,
        tokens: &mut Tokens<'_>,
    ) -> Result<(Operator, Expression), ReadFault> {
        let operator = sum_operator(tokens)?;
        let operand = self.factors.product(tokens)?;
        Ok((operator, operand))
    }

    fn begins(&self, tokens: &Tokens<'_>) -> bool {
        begins_sum_operator(tokens)
    }
}

/// The first operand alone, or all of them.
fn joined(
    alloc: Global,
    first: Expression,
    more: Items<(Operator, Expression)>,
) -> Result<Expression, AllocError>
    ensures { IfOk result (λ whole. whole ≡ spec.operator_chain first more) }
{
    if more.is_empty() {
        return Ok(first);
    }
    let first = Boxed::new(alloc, first)?;
    Ok(Expression::Chain { first, more })
}

impl<F: Fn(Global, &mut Tokens<'_>, usize) -> Result<Expression, ReadFault>> Factors<F> {
    fn factor(&self, tokens: &mut Tokens<'_>) -> Result<Expression, ReadFault>
        requires { Nests self.now.depth (F.pre self.now.factor) (F.post self.now.factor) }
        ensures { Reads (spec.factor_reader self.now.depth tokens.old) result tokens.new }
    {
        (self.factor)(self.alloc, tokens, self.depth)
    }

    /// Factors with `*` and `/` between.
    #[tactic(auto, unfolding(crate::specs::Expressions::product_reader, crate::specs::Expressions::level_reader))]
    fn product(&self, tokens: &mut Tokens<'_>) -> Result<Expression, ReadFault>
        requires { Nests self.now.depth (F.pre self.now.factor) (F.post self.now.factor) }
        ensures { Reads (spec.product_reader (spec.factor_reader self.now.depth) tokens.old) result
            tokens.new }
    {
        let first = self.factor(tokens)?;
        let more = any(&FurtherFactors { factors: self }, self.alloc, tokens);
        let (first, more) = beside(first, more)?;
        Ok(joined(self.alloc, first, more)?)
    }

    /// Products with `+` and `-` between.
    #[tactic(auto, unfolding(crate::specs::Expressions::sum_reader, crate::specs::Expressions::level_reader))]
    pub fn sum(&self, tokens: &mut Tokens<'_>) -> Result<Expression, ReadFault>
        requires { Nests self.now.depth (F.pre self.now.factor) (F.post self.now.factor) }
        ensures { Reads (spec.sum_reader (spec.factor_reader self.now.depth) tokens.old) result
            tokens.new }
    {
        let first = self.product(tokens)?;
        let more = any(&FurtherProducts { factors: self }, self.alloc, tokens);
        let (first, more) = beside(first, more)?;
        Ok(joined(self.alloc, first, more)?)
    }

    /// A sign and a factor.
    #[tactic(auto, unfolding(crate::specs::Expressions::signed_reader))]
    fn signed(&self, tokens: &mut Tokens<'_>) -> Result<Expression, ReadFault>
        requires { Nests self.now.depth (F.pre self.now.factor) (F.post self.now.factor) }
        ensures { Reads (spec.signed_reader (spec.factor_reader self.now.depth) tokens.old) result
            tokens.new }
    {
        let sign = sign(tokens)?;
        let inner = self.factor(tokens)?;
        Ok(match sign {
            PlusOrMinus::Plus => inner,
            PlusOrMinus::Minus => Expression::Negated(Boxed::new(self.alloc, inner)?),
        })
    }

    /// A sum in parentheses.
    #[tactic(auto, unfolding(crate::specs::Expressions::enclosed_reader))]
    fn enclosed(&self, tokens: &mut Tokens<'_>) -> Result<Expression, ReadFault>
        requires { Nests self.now.depth (F.pre self.now.factor) (F.post self.now.factor) }
        ensures { Reads (spec.enclosed_reader (spec.factor_reader self.now.depth) tokens.old) result
            tokens.new }
    {
        left(tokens)?;
        let inner = self.sum(tokens)?;
        let (inner, ()) = beside(inner, right(tokens))?;
        Ok(inner)
    }

    /// What begins with a sign or a parenthesis.
    #[tactic(auto, unfolding(crate::specs::Expressions::nested_reader))]
    pub fn nested(&self, tokens: &mut Tokens<'_>) -> Result<Expression, ReadFault>
        requires { Nests self.now.depth (F.pre self.now.factor) (F.post self.now.factor) }
        ensures { Reads (spec.nested_reader (spec.factor_reader self.now.depth) tokens.old) result
            tokens.new }
    {
        if begins_left(tokens) {
            self.enclosed(tokens)
        } else {
            self.signed(tokens)
        }
    }
}

/// A sign or a parenthesis comes next.
pub fn begins_nested(tokens: &Tokens<'_>) -> bool
    ensures { result ≡ spec.begins_nested tokens.now }
{
    begins_left(tokens) || begins_sign(tokens)
}

/// An operand alone.
#[tactic(auto, unfolding(crate::specs::Expressions::plain_reader))]
pub fn plain(alloc: Global, tokens: &mut Tokens<'_>) -> Result<Expression, ReadFault>
    ensures { Reads (spec.plain_reader tokens.old) result tokens.new }
{
    Ok(Expression::Operand(number_operand(alloc, tokens)?))
}

/// A factor with at most this many signs and parentheses in one another.
#[tactic(auto, using(crate::proofs::Exact::Expressions::reads_plain, crate::proofs::Exact::Expressions::reads_too_deep, crate::proofs::Exact::Expressions::reads_nested))]
pub fn factor(alloc: Global, tokens: &mut Tokens<'_>, depth: usize) -> Result<Expression, ReadFault>
    ensures { Reads (spec.factor_reader depth tokens.old) result tokens.new }
{
    if !begins_nested(tokens) {
        return plain(alloc, tokens);
    }
    if depth == 0 {
        return Err(ReadFault::Halted(Halt::TooDeep(tokens.len())));
    }
    Factors {
        alloc,
        depth: depth - 1,
        factor,
    }
    .nested(tokens)
}
