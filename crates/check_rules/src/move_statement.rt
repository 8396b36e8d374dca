//! The rules of operands and of MOVE: 49 besides those of references (COBOL-85, Nucleus, "The MOVE statement").

ghost use Rattle.std.specs.Prelude.{◌≡◌};
ghost use Rattle.entry_rules.specs.Checks.{IsFirstBreach};
ghost use Rattle.source_tree.specs.Broken.{each};
ghost use Rattle.source_tree.specs.declared.expression.Operand.TheVariants.{Item};
ghost use Rattle.source_tree.specs.NameRules as names;
ghost use Rattle.source_tree.specs.MoveRules as spec;
ghost use Rattle.declarations.specs.Named.{items_in};
ghost use Rattle.check_rules.specs.Asking.{asks, asked_by};

use crate::asked::Asked;
use crate::checker::Checker;
use crate::forms::literal_rules;
use crate::sent::Sent;
use entry_rules::BrokenRule;
use source_tree::{Operand, Reference};

impl<'a> Checker<'a> {
    /// An operand: a reference, of whose item nothing is asked, or a literal that has its form.
    pub fn operand_rules(&self, one: &Operand) -> Result<(), BrokenRule>
        ensures { IsFirstBreach result
            (names.operand_rules (items_in self.now.declarations.now) one.now) }
    {
        match one {
            Operand::Item(reference) => self.item_rules(Asked::Nothing, reference),
            Operand::Literal(literal) => literal_rules(literal),
        }
    }

    /// What an item asks of receivers; nothing where its name doesn't name one item.
    fn asked_by_item(&self, sender: &Reference) -> Asked
        ensures { result
            ≡ asked_by (spec.sent_by (items_in self.now.declarations.now) (Item sender.now)) }
    {
        match self.declarations.item_shown(sender) {
            Ok(item) => Asked::Receives(Sent::by_item(item)),
            Err(_) => Asked::Nothing,
        }
    }

    /// What a sender asks of receivers.
    fn asked_by(&self, sender: &Operand) -> Asked
        ensures { result ≡ asked_by (spec.sent_by (items_in self.now.declarations.now) sender.now) }
    {
        match sender {
            Operand::Item(reference) => self.asked_by_item(reference),
            Operand::Literal(literal) => Asked::Receives(Sent::by_literal(&literal.value)),
        }
    }

    /// Receivers, of which the same is asked, in order.
    pub(crate) fn receivers_rules(&self, asked: Asked, all: &[Reference]) -> Result<(), BrokenRule>
        ensures { IsFirstBreach result (each
            (names.reference_rules (items_in self.now.declarations.now) (asks asked)) all.now) }
    {
        for one in all {
            self.item_rules(asked, one)?;
        }
        Ok(())
    }

    /// MOVE of an item to receivers.
    pub(crate) fn move_item_rules(
        &self,
        sender: &Reference,
        receivers: &[Reference],
    ) -> Result<(), BrokenRule>
        ensures { IsFirstBreach result
            (spec.move_rules (items_in self.now.declarations.now) (Item sender.now) receivers.now) }
    {
        self.item_rules(Asked::Nothing, sender)?;
        self.receivers_rules(self.asked_by_item(sender), receivers)
    }

    /// MOVE of a sender to receivers.
    pub fn move_rules(&self, sender: &Operand, receivers: &[Reference]) -> Result<(), BrokenRule>
        ensures { IsFirstBreach result
            (spec.move_rules (items_in self.now.declarations.now) sender.now receivers.now) }
    {
        self.operand_rules(sender)?;
        self.receivers_rules(self.asked_by(sender), receivers)
    }
}
