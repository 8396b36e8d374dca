//! The rules of how often a PERFORM turns: 51 of an item before TIMES that is no integer, and those of UNTIL and VARYING (COBOL-85,
//! Nucleus, "The PERFORM statement").

ghost use Rattle.std.specs.Prelude.{◌≡◌, Some};
ghost use Rattle.entry_rules.specs.Checks.{IsFirstBreach};
ghost use Rattle.source_tree.specs.ConditionRules as spec;
ghost use Rattle.source_tree.specs.Rules as rules;
ghost use Rattle.declarations.specs.Named.{items_in};

use crate::asked::Asked;
use crate::checker::Checker;
use entry_rules::BrokenRule;
use source_tree::{Repetition, Until, Varying};
use std::slice;

impl<'a> Checker<'a> {
    /// VARYING: FROM is a number that is moved, and BY one that is added.
    fn varying_rules(&self, one: &Varying) -> Result<(), BrokenRule>
        ensures { IsFirstBreach result
            (spec.varying_rules (items_in self.now.declarations.now) (Some one.now)) }
    {
        self.move_rules(&one.from, slice::from_ref(&one.item))?;
        self.number_rules(&one.from)?;
        self.number_rules(&one.by)?;
        self.item_rules(Asked::Numeric, &one.item)
    }

    /// UNTIL, with VARYING or without.
    pub fn until_rules(&self, one: &Until) -> Result<(), BrokenRule>
        ensures { IsFirstBreach result
            (spec.until_rules (items_in self.now.declarations.now) one.now) }
    {
        if let Some(varying) = &one.varying {
            self.varying_rules(varying)?;
        }
        self.condition_rules(&one.condition)
    }

    /// How often a PERFORM turns.
    pub(crate) fn turns_rules(&self, one: &Repetition) -> Result<(), BrokenRule>
        ensures { IsFirstBreach result
            (rules.turns_rules (items_in self.now.declarations.now) one.now) }
    {
        match one {
            Repetition::Once => Ok(()),
            Repetition::Times(_) => Ok(()),
            Repetition::CountedBy(item) => self.item_rules(Asked::Integer, item),
            Repetition::Until(until) => self.until_rules(until),
        }
    }
}
