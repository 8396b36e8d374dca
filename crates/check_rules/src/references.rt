//! The rules of references: 17, 40, 41, 50, 51 and 75, and what is asked of their items (COBOL-85, Nucleus, "Uniqueness of reference").

ghost use Rattle.std.specs.Prelude.{◌≡◌};
ghost use Rattle.entry_rules.specs.Checks.{IsFirstBreach};
ghost use Rattle.source_tree.specs.Broken.{each};
ghost use Rattle.source_tree.specs.NameRules as spec;
ghost use Rattle.declarations.specs.Named.{items_in};
ghost use Rattle.check_rules.specs.References as parts;
ghost use Rattle.check_rules.specs.Asking.{asks};

use crate::asked::Asked;
use crate::checker::Checker;
use crate::forms::{adjustment_rules, integer_rules};
use declarations::{has_part, kind_seen, may_have_parts};
use entry_rules::{BrokenRule, Rule};
use layout::PlacedItem;
use source_tree::{BoxedPart, Part, QualifiedName, Reference, Subscript};

impl<'a> Checker<'a> {
    /// The item of a subscript is an integer, and has no subscripts.
    fn subscript_item_rules(&self, item: &QualifiedName) -> Result<(), BrokenRule>
        ensures { IsFirstBreach result
            (parts.subscript_rules_of (items_in self.now.declarations.now) item.now) }
    {
        let place = item.name.place;
        let found = self.declarations.item_named(item)?;
        Rule::Subscripts.broken_if(found.dimensions.as_slice().len() != 0, place)?;
        Asked::Integer.kind_rules(found.item.kind, place)
    }

    /// A subscript.
    fn subscript_rules(&self, one: &Subscript) -> Result<(), BrokenRule>
        ensures { IsFirstBreach result
            (spec.subscript_rules (items_in self.now.declarations.now) one.now) }
    {
        match one {
            Subscript::Literal(integer) => integer_rules(integer),
            Subscript::Item { item, adjustment } => {
                self.subscript_item_rules(item)?;
                adjustment_rules(adjustment)
            }
        }
    }

    /// Subscripts, in order.
    fn subscripts_rules(&self, all: &[Subscript]) -> Result<(), BrokenRule>
        ensures { IsFirstBreach result
            (each (spec.subscript_rules (items_in self.now.declarations.now)) all.now) }
    {
        for one in all {
            self.subscript_rules(one)?;
        }
        Ok(())
    }

    fn length_rules(&self, length: &Option<Subscript>) -> Result<(), BrokenRule>
        ensures { IsFirstBreach result
            (spec.length_rules (items_in self.now.declarations.now) length.now) }
    {
        match length {
            None => Ok(()),
            Some(one) => self.subscript_rules(one),
        }
    }

    /// The numbers of a part.
    fn part_rules(&self, part: &Option<BoxedPart>) -> Result<(), BrokenRule>
        ensures { IsFirstBreach result
            (spec.part_rules (items_in self.now.declarations.now) part.now) }
    {
        match part {
            None => Ok(()),
            Some(boxed) => self.place_rules(boxed.part()),
        }
    }

    /// The first place of a part, and its length.
    fn place_rules(&self, one: &Part) -> Result<(), BrokenRule>
        ensures { IsFirstBreach result
            (spec.part_rules (items_in self.now.declarations.now) (Some one.now)) }
    {
        self.subscript_rules(&one.first)?;
        self.length_rules(&one.length)
    }

    /// The numbers in parentheses after a name: subscripts, and then those of a part.
    pub(crate) fn parenthesized_rules(&self, one: &Reference) -> Result<(), BrokenRule>
        ensures { IsFirstBreach result
            (spec.number_rules_of (items_in self.now.declarations.now) one.now) }
    {
        self.subscripts_rules(one.subscripts.as_slice())?;
        self.part_rules(&one.part)
    }

    /// The item of a reference, its number of subscripts, whether it may have a part, and what is asked of it.
    fn named_rules(&self, asked: Asked, one: &Reference) -> Result<(), BrokenRule>
        ensures { IsFirstBreach result
            (parts.named_rules (items_in self.now.declarations.now) (asks asked) one.now) }
    {
        let found = self.declarations.item_named(&one.item)?;
        shape_rules(one, found)?;
        asked.kind_rules(kind_seen(&one.part, found.item.kind), one.item.name.place)
    }

    /// A reference, and what is asked of its item.
    pub(crate) fn item_rules(&self, asked: Asked, one: &Reference) -> Result<(), BrokenRule>
        ensures { IsFirstBreach result
            (spec.reference_rules (items_in self.now.declarations.now) (asks asked) one.now) }
    {
        self.named_rules(asked, one)?;
        self.parenthesized_rules(one)
    }
}

/// A reference has as many subscripts as the item has dimensions, and a part only of an item that has parts.
pub(crate) fn shape_rules(one: &Reference, found: &PlacedItem) -> Result<(), BrokenRule>
    ensures { IsFirstBreach result (parts.shape_rules one.now found.now) }
{
    let place = one.item.name.place;
    let wanted = found.dimensions.as_slice().len();
    Rule::Subscripts.broken_if(one.subscripts.as_slice().len() != wanted, place)?;
    let has_no_such = has_part(one) && !may_have_parts(found.item.kind);
    Rule::Part.broken_if(has_no_such, place)
}
