//! The rules of conditions: 40, 41, 50 and 75 of condition names, besides those of what is compared, of numbers and of references
//! (COBOL-85, Nucleus, "Conditional expressions").

ghost use Rattle.std.specs.Prelude.{◌≡◌};
ghost use Rattle.entry_rules.specs.Checks.{IsFirstBreach};
ghost use Rattle.source_tree.specs.Broken.{each};
ghost use Rattle.source_tree.specs.ConditionRules as spec;
ghost use Rattle.declarations.specs.Named.{items_in};
ghost use Rattle.check_rules.specs.Comparing.{condition_named_rules};

use crate::asked::Asked;
use crate::checker::Checker;
use declarations::no_part_rules;
use entry_rules::{BrokenRule, Rule};
use source_tree::{Condition, Reference};

impl<'a> Checker<'a> {
    /// The name of a condition, which has as many subscripts as its item has dimensions, and no part.
    pub(crate) fn condition_named_rules(&self, one: &Reference) -> Result<(), BrokenRule>
        ensures { IsFirstBreach result
            (condition_named_rules (items_in self.now.declarations.now) one.now) }
    {
        let place = one.item.name.place;
        let found = self.declarations.condition_named(&one.item)?;
        let wanted = found.dimensions.as_slice().len();
        Rule::Subscripts.broken_if(one.subscripts.as_slice().len() != wanted, place)?;
        no_part_rules(one)
    }

    /// A condition name, with the numbers in its parentheses.
    pub(crate) fn condition_name_rules(&self, one: &Reference) -> Result<(), BrokenRule>
        ensures { IsFirstBreach result
            (spec.condition_name_rules (items_in self.now.declarations.now) one.now) }
    {
        self.condition_named_rules(one)?;
        self.parenthesized_rules(one)
    }

    /// A condition, with those in it.
    #[cycle(condition)]
    #[tactic(auto, using(crate::proofs::ConditionLayers::forms))]
    pub fn condition_rules(&self, one: &Condition) -> Result<(), BrokenRule>
        ensures { IsFirstBreach result
            (spec.condition_rules (items_in self.now.declarations.now) one.now) }
    {
        match one {
            Condition::Name(reference) => self.condition_name_rules(reference),
            Condition::Relation { left, right, .. } => self.relation_rules(left, right),
            Condition::Sign { value, .. } => self.expression_rules(value),
            Condition::Class { item, .. } => self.item_rules(Asked::Nothing, item),
            Condition::Not(inner) => self.condition_rules(inner.get()),
            Condition::All(parts) => self.conditions_rules(parts.as_slice()),
            Condition::Any(parts) => self.conditions_rules(parts.as_slice()),
        }
    }

    /// Conditions, in order.
    #[cycle(condition)]
    fn conditions_rules(&self, all: &[Condition]) -> Result<(), BrokenRule>
        ensures { IsFirstBreach result
            (each (spec.condition_rules (items_in self.now.declarations.now)) all.now) }
    {
        for one in all {
            self.condition_rules(one)?;
        }
        Ok(())
    }
}
