//! The rules of STRING: 65 operands of another kind and 67 ALL with a literal, besides those of references (COBOL-85, Nucleus, "The
//! STRING statement").

ghost use Rattle.std.specs.Prelude.{◌≡◌};
ghost use Rattle.entry_rules.specs.Checks.{IsFirstBreach};
ghost use Rattle.source_tree.specs.Broken.{each};
ghost use Rattle.source_tree.specs.Parts.{items_referred};
ghost use Rattle.source_tree.specs.StringRules as spec;
ghost use Rattle.declarations.specs.Named.{items_in};

use crate::asked::Asked;
use crate::checker::Checker;
use entry_rules::{BrokenRule, Rule};
use source_tree::{Literal, LiteralValue, Operand, Reference, Sending, Statement, StringStatement};

impl<'a> Checker<'a> {
    /// A sender or a delimiter.
    fn sent_rules(&self, one: &Operand) -> Result<(), BrokenRule>
        ensures { IsFirstBreach result
            (spec.sent_rules (items_in self.now.declarations.now) one.now) }
    {
        match one {
            Operand::Item(reference) => self.item_rules(Asked::SendsText, reference),
            Operand::Literal(literal) => sent_literal(literal),
        }
    }

    /// Senders, in order.
    fn senders_rules(&self, all: &[Operand]) -> Result<(), BrokenRule>
        ensures { IsFirstBreach result
            (each (spec.sent_rules (items_in self.now.declarations.now)) all.now) }
    {
        for one in all {
            self.sent_rules(one)?;
        }
        Ok(())
    }

    fn delimiter_rules(&self, delimiter: &Option<Operand>) -> Result<(), BrokenRule>
        ensures { IsFirstBreach result
            (spec.delimiter_rules (items_in self.now.declarations.now) delimiter.now) }
    {
        match delimiter {
            None => Ok(()),
            Some(one) => self.sent_rules(one),
        }
    }

    /// Senders, and the delimiter after them.
    fn sending_rules(&self, one: &Sending) -> Result<(), BrokenRule>
        ensures { IsFirstBreach result
            (spec.sending_rules (items_in self.now.declarations.now) one.now) }
    {
        self.senders_rules(one.senders.as_slice())?;
        self.delimiter_rules(&one.delimiter)
    }

    fn sendings_rules(&self, all: &[Sending]) -> Result<(), BrokenRule>
        ensures { IsFirstBreach result
            (each (spec.sending_rules (items_in self.now.declarations.now)) all.now) }
    {
        for one in all {
            self.sending_rules(one)?;
        }
        Ok(())
    }

    /// The bytes of what a reference shows; 0 where its name doesn't name one item.
    fn length_shown(&self, one: &Reference) -> u32
        ensures { result
            ≡ spec.only_length (items_referred (items_in self.now.declarations.now) one.now) }
    {
        match self.declarations.item_shown(one) {
            Ok(item) => item.length,
            Err(_) => 0,
        }
    }

    /// A pointer for a receiver of so many bytes.
    fn pointer_rules(&self, size: u32, pointer: &Option<Reference>) -> Result<(), BrokenRule>
        ensures { IsFirstBreach result
            (spec.pointer_rules (items_in self.now.declarations.now) size pointer.now) }
    {
        match pointer {
            None => Ok(()),
            Some(one) => self.item_rules(Asked::Points(size), one),
        }
    }

    /// STRING without its phrases.
    pub fn string_rules(&self, one: &StringStatement<Statement>) -> Result<(), BrokenRule>
        ensures { IsFirstBreach result
            (spec.string_rules (items_in self.now.declarations.now) one.now) }
    {
        self.sendings_rules(one.sendings.as_slice())?;
        self.item_rules(Asked::ReceivesText, &one.receiver)?;
        self.pointer_rules(self.length_shown(&one.receiver), &one.pointer)
    }
}

/// A literal that is sent: no number, and not ALL with a literal.
fn sent_literal(one: &Literal) -> Result<(), BrokenRule>
    ensures { IsFirstBreach result (spec.sent_literal one.now.place one.now.value) }
{
    let place = one.place;
    match &one.value {
        LiteralValue::Numeric(_) => Err(BrokenRule {
            rule: Rule::StringOperand,
            place,
        }),
        LiteralValue::All(_) => Err(BrokenRule {
            rule: Rule::AllLiteral,
            place,
        }),
        _ => Ok(()),
    }
}
