//! NOT, parentheses, AND and OR. What holds conditions takes their reader as a parameter, so that each rule is proved by itself.

ghost use Rattle.std.specs.Prelude.{◌≡◌, ◌∷◌, IfOk};
ghost use Rattle.tokens.specs.declared.reserved.Reserved.TheVariants as w;
ghost use Rattle.source_tree.specs.declared.condition.Condition.TheVariants as c;
ghost use Rattle.grammar.specs.Reading.{Reads};
ghost use Rattle.conditions.specs.Conditions as spec;
ghost use Rattle.conditions.specs.Nests.{Nests};

use crate::plain::{goes_on_after, plain};
use expressions::{begins_left, left, past_parentheses, right};
use grammar::{Halt, Part, ReadFault, Tokens, any, beside};
use source_tree::Condition;
use sqlite_items::{Boxed, Items};
use std::alloc::{AllocError, Global};
use tokens::Reserved;

/// Simple conditions, without AND and OR outside parentheses, to a depth.
#[derive(Clone, Copy)]
pub struct Conditions<F> {
    pub alloc: Global,
    /// How deep NOTs, parentheses and signs may still nest.
    pub depth: usize,
    /// Reads a simple condition of at most that depth.
    pub simple: F,
}

/// AND and the simple condition after it.
#[derive(Drop)]
struct FurtherSimple<'a, F> {
    conditions: &'a Conditions<F>,
}

/// OR and the conjunction after it.
#[derive(Drop)]
struct FurtherConjunctions<'a, F> {
    conditions: &'a Conditions<F>,
}

impl<F: Fn(Global, &mut Tokens<'_>, usize) -> Result<Condition, ReadFault>> Part<Condition>
    for FurtherSimple<'_, F> {
    ghost use Rattle.tokens.specs.declared.reserved.Reserved.TheVariants as w;
    ghost use Rattle.grammar.specs.Reading.{begins_word};
    ghost use Rattle.conditions.specs.Conditions as spec;
    ghost use Rattle.conditions.specs.Nests.{Nests};

    ghost ready = { λ n. Nests n.conditions.now.depth (F.pre n.conditions.now.simple)
        (F.post n.conditions.now.simple) };

    ghost reading = { λ n.
        spec.further_condition_reader w.And (spec.simple_reader n.conditions.now.depth) };

    ghost beginning = { λ _. begins_word w.And };

    #[tactic(auto, unfolding(crate::specs::Conditions::further_condition_reader))]
    fn read(&self, _alloc: Global, tokens: &mut Tokens<'_>) -> Result<Condition, ReadFault> {
        tokens.expect(Reserved::And)?;
        self.conditions.simple(tokens)
    }

    fn begins(&self, tokens: &Tokens<'_>) -> bool {
        tokens.at_word(Reserved::And)
    }
}

impl<F: Fn(Global, &mut Tokens<'_>, usize) -> Result<Condition, ReadFault>> Part<Condition>
    for FurtherConjunctions<'_, F> {
    ghost use Rattle.tokens.specs.declared.reserved.Reserved.TheVariants as w;
    ghost use Rattle.grammar.specs.Reading.{begins_word};
    ghost use Rattle.conditions.specs.Conditions as spec;
    ghost use Rattle.conditions.specs.Nests.{Nests};

    ghost ready = { λ n. Nests n.conditions.now.depth (F.pre n.conditions.now.simple)
        (F.post n.conditions.now.simple) };

    ghost reading = { λ n. spec.further_condition_reader w.Or
        (spec.conjunction_reader (spec.simple_reader n.conditions.now.depth)) };

    ghost beginning = { λ _. begins_word w.Or };

    #[tactic(auto, unfolding(crate::specs::Conditions::further_condition_reader))]
    fn read(&self, _alloc: Global, tokens: &mut Tokens<'_>) -> Result<Condition, ReadFault> {
        tokens.expect(Reserved::Or)?;
        self.conditions.conjunction(tokens)
    }

    fn begins(&self, tokens: &Tokens<'_>) -> bool {
        tokens.at_word(Reserved::Or)
    }
}

/// The first condition and those after it.
fn listed(
    alloc: Global,
    first: Condition,
    more: Items<Condition>,
) -> Result<Items<Condition>, AllocError>
    ensures { IfOk result (λ all. all ≡ first ∷ more) }
{
    let mut all = Items::new(alloc);
    all.push(first)?;
    all.append(more)?;
    Ok(all)
}

/// The first condition alone, or all of them with AND between.
fn all_of(alloc: Global, first: Condition, more: Items<Condition>) -> Result<Condition, AllocError>
    ensures { IfOk result (λ whole. whole ≡ spec.combined_condition c.All first more) }
{
    if more.is_empty() {
        return Ok(first);
    }
    Ok(Condition::All(listed(alloc, first, more)?))
}

/// The first condition alone, or all of them with OR between.
fn any_of(alloc: Global, first: Condition, more: Items<Condition>) -> Result<Condition, AllocError>
    ensures { IfOk result (λ whole. whole ≡ spec.combined_condition c.Any first more) }
{
    if more.is_empty() {
        return Ok(first);
    }
    Ok(Condition::Any(listed(alloc, first, more)?))
}

impl<F: Fn(Global, &mut Tokens<'_>, usize) -> Result<Condition, ReadFault>> Conditions<F> {
    fn simple(&self, tokens: &mut Tokens<'_>) -> Result<Condition, ReadFault>
        requires { Nests self.now.depth (F.pre self.now.simple) (F.post self.now.simple) }
        ensures { Reads (spec.simple_reader self.now.depth tokens.old) result tokens.new }
    {
        (self.simple)(self.alloc, tokens, self.depth)
    }

    /// Simple conditions with AND between.
    #[tactic(auto, unfolding(crate::specs::Conditions::conjunction_reader, crate::specs::Conditions::level_reader))]
    fn conjunction(&self, tokens: &mut Tokens<'_>) -> Result<Condition, ReadFault>
        requires { Nests self.now.depth (F.pre self.now.simple) (F.post self.now.simple) }
        ensures { Reads (spec.conjunction_reader (spec.simple_reader self.now.depth) tokens.old)
            result tokens.new }
    {
        let first = self.simple(tokens)?;
        let more = any(&FurtherSimple { conditions: self }, self.alloc, tokens);
        let (first, more) = beside(first, more)?;
        Ok(all_of(self.alloc, first, more)?)
    }

    /// Conjunctions with OR between.
    #[tactic(auto, unfolding(crate::specs::Conditions::disjunction_reader, crate::specs::Conditions::level_reader))]
    pub fn disjunction(&self, tokens: &mut Tokens<'_>) -> Result<Condition, ReadFault>
        requires { Nests self.now.depth (F.pre self.now.simple) (F.post self.now.simple) }
        ensures { Reads (spec.disjunction_reader (spec.simple_reader self.now.depth) tokens.old)
            result tokens.new }
    {
        let first = self.conjunction(tokens)?;
        let more = any(
            &FurtherConjunctions { conditions: self },
            self.alloc,
            tokens,
        );
        let (first, more) = beside(first, more)?;
        Ok(any_of(self.alloc, first, more)?)
    }

    /// NOT and a simple condition.
    #[tactic(auto, unfolding(crate::specs::Conditions::negation_reader))]
    fn negation(&self, tokens: &mut Tokens<'_>) -> Result<Condition, ReadFault>
        requires { Nests self.now.depth (F.pre self.now.simple) (F.post self.now.simple) }
        ensures { Reads (spec.negation_reader (spec.simple_reader self.now.depth) tokens.old) result
            tokens.new }
    {
        tokens.expect(Reserved::Not)?;
        let inner = self.simple(tokens)?;
        Ok(Condition::Not(Boxed::new(self.alloc, inner)?))
    }

    /// A condition in parentheses.
    #[tactic(auto, unfolding(crate::specs::Conditions::enclosed_reader))]
    fn enclosed(&self, tokens: &mut Tokens<'_>) -> Result<Condition, ReadFault>
        requires { Nests self.now.depth (F.pre self.now.simple) (F.post self.now.simple) }
        ensures { Reads (spec.enclosed_reader (spec.simple_reader self.now.depth) tokens.old) result
            tokens.new }
    {
        left(tokens)?;
        let inner = self.disjunction(tokens)?;
        let (inner, ()) = beside(inner, right(tokens))?;
        Ok(inner)
    }

    /// What begins with NOT or with the parenthesis of a condition.
    #[tactic(auto, unfolding(crate::specs::Conditions::nested_reader))]
    fn nested(&self, tokens: &mut Tokens<'_>) -> Result<Condition, ReadFault>
        requires { Nests self.now.depth (F.pre self.now.simple) (F.post self.now.simple) }
        ensures { Reads (spec.nested_reader (spec.simple_reader self.now.depth) tokens.old) result
            tokens.new }
    {
        if tokens.at_word(Reserved::Not) {
            self.negation(tokens)
        } else {
            self.enclosed(tokens)
        }
    }
}

/// A parenthesis comes next, and it opens a condition: nothing goes on after the one that closes it.
fn begins_enclosed(tokens: &Tokens<'_>) -> bool
    ensures { result ≡ spec.begins_enclosed tokens.now }
{
    begins_left(tokens) && !goes_on_after(past_parentheses(tokens.rest()))
}

/// NOT or the parenthesis of a condition comes next.
pub fn begins_nested(tokens: &Tokens<'_>) -> bool
    ensures { result ≡ spec.begins_nested tokens.now }
{
    tokens.at_word(Reserved::Not) || begins_enclosed(tokens)
}

/// A condition without AND and OR outside parentheses, with at most this many NOTs, parentheses and signs in one another.
#[tactic(auto, using(crate::proofs::Exact::Conditions::reads_plain, crate::proofs::Exact::Conditions::reads_too_deep, crate::proofs::Exact::Conditions::reads_nested))]
pub fn simple(alloc: Global, tokens: &mut Tokens<'_>, depth: usize) -> Result<Condition, ReadFault>
    ensures { Reads (spec.simple_reader depth tokens.old) result tokens.new }
{
    if !begins_nested(tokens) {
        return plain(alloc, tokens, depth);
    }
    if depth == 0 {
        return Err(ReadFault::Halted(Halt::TooDeep(tokens.len())));
    }
    Conditions {
        alloc,
        depth: depth - 1,
        simple,
    }
    .nested(tokens)
}
