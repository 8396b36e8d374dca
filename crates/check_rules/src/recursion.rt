//! Rule 54: no PERFORM leads back to the paragraph that it stands in (own choice; COBOL-85 leaves open what recursion does).

ghost use Rattle.std.specs.Prelude.{◌≡◌, [], length, All, IfErr, OnOk, MatchBool, MatchOption};
ghost use Rattle.perform_graph.specs.Order.{IsRange, marks};
ghost use Rattle.source_tree.specs.Recursion.{HasOrder};
ghost use Rattle.source_tree.specs.Rules.{sections_rules, all_permitted};
ghost use Rattle.entry_rules.specs.Checks.{fault_of};
ghost use Rattle.declarations.specs.Named.{Declares, scope_in};
ghost use Rattle.check_rules.specs.Refusals.{IsBack};
ghost use Rattle.check_rules.specs.Performs.{AreOrdered, IsBackAmong, PerformsWithin, HasNext, IsFirstWithin};

use crate::checker::Checker;
use crate::performs::Performs;
use entry_rules::{BrokenRule, CheckError, Rule};
use perform_graph::{Order, PerformedRange, order_of};
use source_tree::Program;
use std::alloc::Global;

impl<'a> Checker<'a> {
    /// No PERFORM of the program that declares this leads back. Where one does, the answer is at the first that stands in one of some paragraphs that
    /// perform one another, and performs one of them.
    pub(crate) fn recursion_rules(&self, alloc: Global, program: &Program) -> Result<(), CheckError>
        requires program { Declares program.now self.now.declarations.now }
        requires kept { sections_rules (scope_in self.now.declarations.now) all_permitted
            program.now.sections ≡ [] }
        ensures order { OnOk result (HasOrder program.now) }
        ensures back { IfErr result (λ e. IsBack program.now (fault_of e)) }
    {
        let mut all = Performs::new(alloc);
        let count = self.sections_performs(program.sections.as_slice(), &mut all)?;
        order_rules(alloc, count, &all)
    }
}

/// Whether the paragraphs have ranks that decrease along each PERFORM; `count` is how many paragraphs there are. If they have none, fault 54
/// is at the first PERFORM in one of some paragraphs that perform one another, which performs one of them.
fn order_rules(alloc: Global, count: usize, all: &Performs) -> Result<(), CheckError>
    requires ranges { All (IsRange count) all.now.ranges.items }
    requires places { length all.now.places.items ≡ length all.now.ranges.items }
    ensures order { OnOk result (AreOrdered count all.now.ranges.items) }
    ensures back { IfErr result (λ e. IsBackAmong all.now (fault_of e)) }
{
    let marked = match order_of(alloc, count, &all.ranges)? {
        Order::Ranks(_) => return Ok(()),
        Order::Recursive(marked) => marked,
    };
    match first_back(marked.as_slice(), &all.ranges) {
        None => unreachable!(),
        Some(number) => Err(CheckError::Refused(BrokenRule {
            rule: Rule::Recursion,
            place: all.places[number],
        })),
    }
}

fn is_marked(marked: &[bool], paragraph: usize) -> bool
    ensures { result ≡ marks marked.now paragraph }
{
    match marked.get(paragraph) {
        Some(is) => *is,
        None => false,
    }
}

/// A PERFORM stands in a marked paragraph, and performs one.
fn leads_back(marked: &[bool], one: PerformedRange) -> bool
    requires { HasNext one }
    ensures { MatchBool result (PerformsWithin (marks marked.now) one)
        (PerformsWithin (marks marked.now) one → ⊥) }
{
    if !is_marked(marked, one.performer) {
        return false;
    }
    for paragraph in one.first..one.last + 1 {
        if is_marked(marked, paragraph) {
            return true;
        }
    }
    false
}

/// The first PERFORM that does.
fn first_back(marked: &[bool], ranges: &[PerformedRange]) -> Option<usize>
    requires { All HasNext ranges.now }
    ensures { MatchOption result (All (λ one. PerformsWithin (marks marked.now) one → ⊥) ranges.now)
        (IsFirstWithin (marks marked.now) ranges.now) }
{
    for (i, one) in ranges.iter().enumerate() {
        if leads_back(marked, *one) {
            return Some(i);
        }
    }
    None
}
