//! The rules of INSPECT: 64 operands of another kind, replacing texts of unknown or another size, besides those of
//! references and literals (COBOL-85, Nucleus, "The INSPECT statement").

ghost use Rattle.std.specs.Prelude.{◌≡◌, [], length};
ghost use Rattle.entry_rules.specs.Checks.{IsFirstBreach};
ghost use Rattle.source_tree.specs.Broken.{each};
ghost use Rattle.source_tree.specs.Display.{shown_literal};
ghost use Rattle.source_tree.specs.LookUp.{items_named};
ghost use Rattle.source_tree.specs.Converting.{convert_rules};
ghost use Rattle.source_tree.specs.InspectRules as spec;
ghost use Rattle.check_rules.specs.TextSizes.{text_size_of};
ghost use Rattle.declarations.specs.Named.{items_in};

use crate::asked::Asked;
use crate::checker::Checker;
use crate::forms::literal_rules;
use crate::sides::operand_place;
use crate::text_size::TextSize;
use entry_rules::{BrokenRule, Rule};
use source_tree::{
    Converting, InspectStatement, Limits, Literal, LiteralValue, Operand, Reference, ReplacedText,
    Replacing, Tallied, TalliedText, Tallying,
};

impl<'a> Checker<'a> {
    /// A text.
    fn inspected_rules(&self, one: &Operand) -> Result<(), BrokenRule>
        ensures { IsFirstBreach result
            (spec.inspected_rules (items_in self.now.declarations.now) one.now) }
    {
        match one {
            Operand::Item(reference) => self.item_rules(Asked::Inspected, reference),
            Operand::Literal(literal) => inspected_literal(literal),
        }
    }

    /// The size of what a reference shows; any, where its name doesn't name one item.
    fn size_shown(&self, one: &Reference) -> TextSize
        ensures { text_size_of result ≡ spec.only_size one.now.part
            (items_named (items_in self.now.declarations.now) one.now.item) }
    {
        match self.declarations.item_named(&one.item) {
            Ok(found) => TextSize::of_item(found.item.length, &one.part),
            Err(_) => TextSize::AnySize,
        }
    }

    /// The characters of a text.
    fn size_of(&self, one: &Operand) -> TextSize
        ensures { spec.inspected_rules (items_in self.now.declarations.now) one.now ≡ []
            → text_size_of result ≡ spec.size_of (items_in self.now.declarations.now) one.now }
    {
        match one {
            Operand::Item(reference) => self.size_shown(reference),
            Operand::Literal(literal) => literal_size(literal),
        }
    }

    /// The characters of a replacing text.
    fn replacing_size(&self, one: &Operand) -> TextSize
        ensures { spec.inspected_rules (items_in self.now.declarations.now) one.now ≡ []
            → text_size_of result
            ≡ spec.replacing_size (items_in self.now.declarations.now) one.now }
    {
        match one {
            Operand::Item(reference) => self.size_shown(reference),
            Operand::Literal(literal) => replacing_literal_size(literal),
        }
    }

    /// What replaces a text of that size.
    fn by_rules(&self, size: TextSize, by: &Operand) -> Result<(), BrokenRule>
        ensures { IsFirstBreach result
            (spec.by_rules (items_in self.now.declarations.now) (text_size_of size) by.now) }
    {
        self.inspected_rules(by)?;
        let fits = size.may_be_replaced_by(self.replacing_size(by));
        Rule::InspectOperand.broken_if(!fits, operand_place(by))
    }

    fn limit_rules(&self, one: &Option<Operand>) -> Result<(), BrokenRule>
        ensures { IsFirstBreach result
            (spec.limit_rules (items_in self.now.declarations.now) one.now) }
    {
        match one {
            None => Ok(()),
            Some(one) => self.inspected_rules(one),
        }
    }

    fn two_limits(
        &self,
        first: &Option<Operand>,
        second: &Option<Operand>,
    ) -> Result<(), BrokenRule>
        ensures { IsFirstBreach result
            (spec.two_limits (items_in self.now.declarations.now) first.now second.now) }
    {
        self.limit_rules(first)?;
        self.limit_rules(second)
    }

    /// BEFORE and AFTER, as they stand.
    fn limits_rules(&self, one: &Limits) -> Result<(), BrokenRule>
        ensures { IsFirstBreach result
            (spec.limits_rules (items_in self.now.declarations.now) one.now) }
    {
        if one.after_first {
            self.two_limits(&one.after, &one.before)
        } else {
            self.two_limits(&one.before, &one.after)
        }
    }

    fn tallied_text_rules(&self, one: &TalliedText) -> Result<(), BrokenRule>
        ensures { IsFirstBreach result
            (spec.tallied_text_rules (items_in self.now.declarations.now) one.now) }
    {
        self.inspected_rules(&one.text)?;
        self.limits_rules(&one.limits)
    }

    fn tallied_texts_rules(&self, all: &[TalliedText]) -> Result<(), BrokenRule>
        ensures { IsFirstBreach result
            (each (spec.tallied_text_rules (items_in self.now.declarations.now)) all.now) }
    {
        for one in all {
            self.tallied_text_rules(one)?;
        }
        Ok(())
    }

    fn tallied_rules(&self, one: &Tallied) -> Result<(), BrokenRule>
        ensures { IsFirstBreach result
            (spec.tallied_rules (items_in self.now.declarations.now) one.now) }
    {
        match one {
            Tallied::Characters { limits } => self.limits_rules(limits),
            Tallied::Texts { texts, .. } => self.tallied_texts_rules(texts.as_slice()),
        }
    }

    fn all_tallied_rules(&self, all: &[Tallied]) -> Result<(), BrokenRule>
        ensures { IsFirstBreach result
            (each (spec.tallied_rules (items_in self.now.declarations.now)) all.now) }
    {
        for one in all {
            self.tallied_rules(one)?;
        }
        Ok(())
    }

    /// A counter, and what it counts.
    fn tallying_rules(&self, one: &Tallying) -> Result<(), BrokenRule>
        ensures { IsFirstBreach result
            (spec.tallying_rules (items_in self.now.declarations.now) one.now) }
    {
        self.item_rules(Asked::Counts, &one.counter)?;
        self.all_tallied_rules(one.tallied.as_slice())
    }

    fn counters_rules(&self, all: &[Tallying]) -> Result<(), BrokenRule>
        ensures { IsFirstBreach result
            (each (spec.tallying_rules (items_in self.now.declarations.now)) all.now) }
    {
        for one in all {
            self.tallying_rules(one)?;
        }
        Ok(())
    }

    fn replaced_text_rules(&self, one: &ReplacedText) -> Result<(), BrokenRule>
        ensures { IsFirstBreach result
            (spec.replaced_text_rules (items_in self.now.declarations.now) one.now) }
    {
        self.inspected_rules(&one.text)?;
        self.by_rules(self.size_of(&one.text), &one.by)?;
        self.limits_rules(&one.limits)
    }

    fn replaced_texts_rules(&self, all: &[ReplacedText]) -> Result<(), BrokenRule>
        ensures { IsFirstBreach result
            (each (spec.replaced_text_rules (items_in self.now.declarations.now)) all.now) }
    {
        for one in all {
            self.replaced_text_rules(one)?;
        }
        Ok(())
    }

    fn replacing_rules(&self, one: &Replacing) -> Result<(), BrokenRule>
        ensures { IsFirstBreach result
            (spec.replacing_rules (items_in self.now.declarations.now) one.now) }
    {
        match one {
            Replacing::Characters { by, limits } => {
                self.by_rules(TextSize::Exactly(1), by)?;
                self.limits_rules(limits)
            }
            Replacing::Texts { texts, .. } => self.replaced_texts_rules(texts.as_slice()),
        }
    }

    fn all_replacing_rules(&self, all: &[Replacing]) -> Result<(), BrokenRule>
        ensures { IsFirstBreach result
            (each (spec.replacing_rules (items_in self.now.declarations.now)) all.now) }
    {
        for one in all {
            self.replacing_rules(one)?;
        }
        Ok(())
    }

    /// INSPECT: its subject, its counters with what they count, and what is replaced.
    pub fn inspect_rules(&self, one: &InspectStatement) -> Result<(), BrokenRule>
        ensures { IsFirstBreach result
            (spec.inspect_rules (items_in self.now.declarations.now) one.now) }
    {
        self.item_rules(Asked::Inspected, &one.subject)?;
        self.counters_rules(one.tallying.as_slice())?;
        self.all_replacing_rules(one.replacing.as_slice())
    }

    /// INSPECT CONVERTING: its subject, and the texts, of which the second has the size of the first.
    pub fn convert_rules(&self, one: &Converting) -> Result<(), BrokenRule>
        ensures { IsFirstBreach result
            (convert_rules (items_in self.now.declarations.now) one.now) }
    {
        let subject = &one.subject;
        self.item_rules(Asked::Inspected, subject)?;
        self.replaced_text_rules(&one.texts)
    }
}

/// A literal that is a text: no number, and of its form.
fn inspected_literal(one: &Literal) -> Result<(), BrokenRule>
    ensures { IsFirstBreach result (spec.inspected_literal one.now one.now.value) }
{
    match &one.value {
        LiteralValue::Numeric(_) => Err(BrokenRule {
            rule: Rule::InspectOperand,
            place: one.place,
        }),
        _ => literal_rules(one),
    }
}

/// The characters of a literal that is a text; a number is none.
fn literal_size(one: &Literal) -> TextSize
    ensures { spec.inspected_literal one.now one.now.value ≡ []
        → text_size_of result ≡ spec.Exactly (length (shown_literal one.now.value)) }
{
    match &one.value {
        LiteralValue::Numeric(_) => TextSize::AnySize,
        LiteralValue::Nonnumeric(bytes) => TextSize::Exactly(bytes.as_slice().len()),
        LiteralValue::Figurative(_) => TextSize::Exactly(1),
        LiteralValue::All(bytes) => TextSize::Exactly(bytes.as_slice().len()),
    }
}

/// The characters of a literal that is a replacing text. A figurative constant has any number.
fn replacing_literal_size(one: &Literal) -> TextSize
    ensures { spec.inspected_literal one.now one.now.value ≡ []
        → text_size_of result ≡ spec.literal_size one.now.value }
{
    match &one.value {
        LiteralValue::Figurative(_) => TextSize::AnySize,
        _ => literal_size(one),
    }
}
