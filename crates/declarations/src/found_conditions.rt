//! The condition names that names name: rule 40 where there is none, 41 where there are several.

ghost use Rattle.std.specs.Prelude.{◌≡◌};
ghost use Rattle.source_tree.specs.LookUp.{conditions_named};
ghost use Rattle.declarations.specs.FoundConditions.{IsConditionNamed};
ghost use Rattle.declarations.specs.Named.{items_in, result_now};

use crate::declarations::Declarations;
use crate::declared_items::placed_at;
use entry_rules::{BrokenRule, Rule};
use layout::PlacedItem;
use name_table::LookUp;
use source_tree::QualifiedName;

impl<'a> Declarations<'a> {
    /// The item of the condition name that a name names: rule 40 where there is none, 41 where there are several.
    pub fn condition_named(&self, name: &QualifiedName) -> Result<&PlacedItem, BrokenRule>
        ensures { IsConditionNamed name.now.name.place (result_now result)
            (conditions_named (items_in self.now) name.now) }
    {
        name_table::conditions_named();
        let place = name.name.place;
        match self.conditions.names.look_up(name) {
            LookUp::One(number) => {
                let item = self.conditions.conditions[number].item;
                Ok(placed_at(&self.layout, item))
            }
            LookUp::Unknown => Err(BrokenRule {
                rule: Rule::UnknownName,
                place,
            }),
            LookUp::Several => Err(BrokenRule {
                rule: Rule::AmbiguousName,
                place,
            }),
        }
    }
}
