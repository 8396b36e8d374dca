//! What PERFORM names: rule 40 of its procedures, and 55 where they stand backwards.

ghost use Rattle.std.specs.Prelude.{◌≡◌};
ghost use Rattle.entry_rules.specs.Checks.{IsFirstBreach};
ghost use Rattle.source_tree.specs.PerformRules as spec;
ghost use Rattle.source_tree.specs.Rules.{all_permitted};
ghost use Rattle.declarations.specs.Named.{procedures_in};

use crate::checker::Checker;
use entry_rules::{BrokenRule, Rule};
use source_tree::Name;

impl<'a> Checker<'a> {
    /// What is performed from one procedure to the end of another, or of the same: rule 55 where that is backwards.
    pub(crate) fn range_rules(&self, first: &Name, last: &Option<Name>) -> Result<(), BrokenRule>
        ensures { IsFirstBreach result (spec.range_rules all_permitted
            (procedures_in self.now.declarations.now) first.now last.now) }
    {
        let from = self.declarations.procedure_named(first)?;
        let (to, place) = match last {
            None => (from, first.place),
            Some(name) => (self.declarations.procedure_named(name)?, name.place),
        };
        Rule::Range.broken_if(to.last < from.first, place)
    }
}
