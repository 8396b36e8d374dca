//! The rules of DISPLAY and ACCEPT (COBOL-85, Nucleus, "The DISPLAY statement", "The ACCEPT statement").

ghost use Rattle.std.specs.Prelude.{◌≡◌};
ghost use Rattle.entry_rules.specs.Checks.{IsFirstBreach};
ghost use Rattle.source_tree.specs.TextRules as spec;
ghost use Rattle.declarations.specs.Named.{items_in};

use crate::asked::Asked;
use crate::checker::Checker;
use crate::sent::Sent;
use entry_rules::{BrokenRule, Rule};
use source_tree::{LiteralValue, Operand, Reference};

impl<'a> Checker<'a> {
    /// An operand that is shown: ALL with a literal isn't.
    fn shown_rules(&self, one: &Operand) -> Result<(), BrokenRule>
        ensures { IsFirstBreach result
            (spec.shown_rules (items_in self.now.declarations.now) one.now) }
    {
        match one {
            Operand::Item(reference) => self.item_rules(Asked::Nothing, reference),
            Operand::Literal(literal) => {
                let is_all = matches!(literal.value, LiteralValue::All(_));
                Rule::AllLiteral.broken_if(is_all, literal.place)
            }
        }
    }

    /// DISPLAY of operands.
    pub fn display_rules(&self, operands: &[Operand]) -> Result<(), BrokenRule>
        ensures { IsFirstBreach result
            (spec.display_rules (items_in self.now.declarations.now) operands.now) }
    {
        for one in operands {
            self.shown_rules(one)?;
        }
        Ok(())
    }

    /// ACCEPT of a console line.
    pub fn accept_line_rules(&self, receiver: &Reference) -> Result<(), BrokenRule>
        ensures { IsFirstBreach result
            (spec.accept_line_rules (items_in self.now.declarations.now) receiver.now) }
    {
        self.item_rules(Asked::Nothing, receiver)
    }

    /// ACCEPT FROM DATE: a MOVE of six digits.
    pub fn accept_date_rules(&self, receiver: &Reference) -> Result<(), BrokenRule>
        ensures { IsFirstBreach result
            (spec.accept_date_rules (items_in self.now.declarations.now) receiver.now) }
    {
        self.item_rules(Asked::Receives(Sent::date()), receiver)
    }
}
