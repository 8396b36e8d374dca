//! The rules of SET: 68 an item in place of a condition name, besides those of references (COBOL-85, Nucleus, "The SET statement").

ghost use Rattle.std.specs.Prelude.{◌≡◌, [], ◌∷◌};
ghost use Rattle.entry_rules.specs.Checks.{IsFirstBreach, broken_of};
ghost use Rattle.source_tree.specs.LookUp.{items_named, conditions_named};
ghost use Rattle.source_tree.specs.SettingRules as spec;
ghost use Rattle.declarations.specs.Named.{items_in};

use crate::checker::Checker;
use entry_rules::{BrokenRule, Rule};
use name_table::LookUp;
use source_tree::{QualifiedName, Reference};

impl<'a> Checker<'a> {
    /// What a name breaks that no condition name has: 68 where items have it, else 40.
    fn no_condition(&self, name: &QualifiedName) -> BrokenRule
        ensures { spec.no_condition name.now.name.place
            (items_named (items_in self.now.declarations.now) name.now) ≡ broken_of result ∷ [] }
    {
        name_table::items_named();
        let rule = match self.declarations.names.look_up(name) {
            LookUp::Unknown => Rule::UnknownName,
            LookUp::One(_) | LookUp::Several => Rule::NoCondition,
        };
        let place = name.name.place;
        BrokenRule { rule, place }
    }

    /// The name of a condition, which has as many subscripts as its item has dimensions, and no part.
    fn set_name_rules(&self, one: &Reference) -> Result<(), BrokenRule>
        ensures { IsFirstBreach result (spec.set_name one.now.item.name.place
            one.now (items_named (items_in self.now.declarations.now) one.now.item)
            (conditions_named (items_in self.now.declarations.now) one.now.item)) }
    {
        name_table::conditions_named();
        match self.declarations.conditions.names.look_up(&one.item) {
            LookUp::Unknown => Err(self.no_condition(&one.item)),
            LookUp::One(_) | LookUp::Several => self.condition_named_rules(one),
        }
    }

    /// The name of a condition, with the numbers in its parentheses.
    fn set_one_rules(&self, one: &Reference) -> Result<(), BrokenRule>
        ensures { IsFirstBreach result (spec.set_one (items_in self.now.declarations.now) one.now) }
    {
        self.set_name_rules(one)?;
        self.parenthesized_rules(one)
    }

    /// SET of condition names TO TRUE.
    pub fn set_rules(&self, conditions: &[Reference]) -> Result<(), BrokenRule>
        ensures { IsFirstBreach result
            (spec.set_rules (items_in self.now.declarations.now) conditions.now) }
    {
        for one in conditions {
            self.set_one_rules(one)?;
        }
        Ok(())
    }
}
