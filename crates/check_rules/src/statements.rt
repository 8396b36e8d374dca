//! The rules of statements, one after another and those in one, and of what they stand in.

ghost use Rattle.entry_rules.specs.Checks.{IsFirstBreach};
ghost use Rattle.source_tree.specs.Broken.{each};
ghost use Rattle.source_tree.specs.EvaluateRules.{selected_rules};
ghost use Rattle.source_tree.specs.Rules as spec;
ghost use Rattle.source_tree.specs.Rules.{all_permitted};
ghost use Rattle.declarations.specs.Named.{items_in, procedures_in, scope_in};
ghost use Rattle.check_rules.specs.OwnRules as own;

use crate::checker::Checker;
use crate::inner_statements::{InnerStatements, inner_statements};
use entry_rules::BrokenRule;
use source_tree::{
    ConditionalStatement, DataStatement, Paragraph, PerformStatement, Performed, Section, Selected,
    Sentence, Statement, Subject, TextStatement, Verb,
};

impl<'a> Checker<'a> {
    fn moving_rules(&self, one: &DataStatement) -> Result<(), BrokenRule>
        ensures { IsFirstBreach result
            (spec.moving_rules (items_in self.now.declarations.now) one.now) }
    {
        match one {
            DataStatement::Move { sender, receivers } => self.move_rules(
                sender,
                receivers.as_slice(),
            ),
            DataStatement::Initialize { receivers } => self.initialize_rules(receivers.as_slice()),
            DataStatement::Set { conditions } => self.set_rules(conditions.as_slice()),
        }
    }

    fn text_rules(&self, one: &TextStatement) -> Result<(), BrokenRule>
        ensures { IsFirstBreach result
            (spec.text_rules (items_in self.now.declarations.now) one.now) }
    {
        match one {
            TextStatement::Display { operands, .. } => self.display_rules(operands.as_slice()),
            TextStatement::Accept { receiver } => self.accept_line_rules(receiver),
            TextStatement::AcceptDate { receiver } => self.accept_date_rules(receiver),
            TextStatement::Inspect(one) => self.inspect_rules(one),
            TextStatement::Convert(one) => self.convert_rules(one),
        }
    }

    /// The procedures that a PERFORM names.
    fn named_range_rules<S>(&self, performed: &Performed<S>) -> Result<(), BrokenRule>
        ensures { IsFirstBreach result
            (own.named_range (procedures_in self.now.declarations.now) performed.now) }
    {
        match performed {
            Performed::Procedures { first, last } => self.range_rules(first, last),
            Performed::Statements(_) => Ok(()),
        }
    }

    /// How often a PERFORM turns, and the procedures that it names.
    fn performing_rules<S>(&self, one: &PerformStatement<S>) -> Result<(), BrokenRule>
        ensures { IsFirstBreach result
            (own.own_performing (scope_in self.now.declarations.now) one.now) }
    {
        self.turns_rules(&one.turns)?;
        self.named_range_rules(&one.performed)
    }

    /// The condition of an IF, or the subjects of an EVALUATE.
    fn branching_rules<S>(&self, one: &ConditionalStatement<S>) -> Result<(), BrokenRule>
        ensures { IsFirstBreach result
            (own.own_branching (items_in self.now.declarations.now) one.now) }
    {
        match one {
            ConditionalStatement::If { condition, .. } => self.condition_rules(condition),
            ConditionalStatement::Evaluate(one) => self.subjects_rules(one.subjects.as_slice()),
        }
    }

    /// A statement without those in it.
    fn own_rules(&self, verb: &Verb<Statement>) -> Result<(), BrokenRule>
        ensures { IsFirstBreach result
            (own.own_rules (scope_in self.now.declarations.now) verb.now) }
    {
        match verb {
            Verb::DataStatement(moving) => self.moving_rules(moving),
            Verb::Arithmetic(arithmetic) => self.operation_rules(&arithmetic.operation),
            Verb::ConditionalStatement(branching) => self.branching_rules(branching),
            Verb::PerformStatement(performing) => self.performing_rules(performing),
            Verb::TextStatement(text) => self.text_rules(text),
            Verb::StringStatement(stringing) => self.string_rules(stringing),
            Verb::FileStatement(filing) => self.filing_rules(filing),
            Verb::ControlStatement(_) => Ok(()),
        }
    }

    /// A statement, with those in it.
    #[cycle(statement)]
    pub fn statement_rules(&self, one: &Statement) -> Result<(), BrokenRule>
        ensures { IsFirstBreach result
            (spec.statement_rules (scope_in self.now.declarations.now) all_permitted one.now) }
    {
        self.own_rules(&one.verb)?;
        let InnerStatements {
            subjects,
            selected,
            first,
            second,
        } = inner_statements(&one.verb);
        self.selections_rules(subjects, selected)?;
        self.statements_rules(first)?;
        self.statements_rules(second)
    }

    /// Statements, in order.
    #[cycle(statement)]
    fn statements_rules(&self, all: &[Statement]) -> Result<(), BrokenRule>
        ensures { IsFirstBreach result (each
            (spec.statement_rules (scope_in self.now.declarations.now) all_permitted) all.now) }
    {
        for one in all {
            self.statement_rules(one)?;
        }
        Ok(())
    }

    /// WHENs, and the statements after them.
    #[cycle(statement)]
    fn selected_rules(
        &self,
        subjects: &[Subject],
        one: &Selected<Statement>,
    ) -> Result<(), BrokenRule>
        ensures { IsFirstBreach result (selected_rules (items_in self.now.declarations.now)
            (spec.statement_rules (scope_in self.now.declarations.now) all_permitted) subjects.now
            one.now) }
    {
        self.whens_rules(subjects, one.whens.as_slice())?;
        self.statements_rules(one.statements.as_slice())
    }

    /// Those of EVALUATE, in order.
    #[cycle(statement)]
    fn selections_rules(
        &self,
        subjects: &[Subject],
        all: &[Selected<Statement>],
    ) -> Result<(), BrokenRule>
        ensures { IsFirstBreach result (each (selected_rules (items_in self.now.declarations.now)
            (spec.statement_rules (scope_in self.now.declarations.now) all_permitted) subjects.now)
            all.now) }
    {
        for one in all {
            self.selected_rules(subjects, one)?;
        }
        Ok(())
    }

    /// The statements of sentences, in order.
    fn sentences_rules(&self, all: &[Sentence]) -> Result<(), BrokenRule>
        ensures { IsFirstBreach result (each
            (spec.sentence_rules (scope_in self.now.declarations.now) all_permitted) all.now) }
    {
        for one in all {
            self.statements_rules(one.statements.as_slice())?;
        }
        Ok(())
    }

    /// The statements of paragraphs, in order.
    fn paragraphs_rules(&self, all: &[Paragraph]) -> Result<(), BrokenRule>
        ensures { IsFirstBreach result (each
            (spec.paragraph_rules (scope_in self.now.declarations.now) all_permitted) all.now) }
    {
        for one in all {
            self.sentences_rules(one.sentences.as_slice())?;
        }
        Ok(())
    }

    /// The statements of sections, in order.
    pub fn sections_rules(&self, all: &[Section]) -> Result<(), BrokenRule>
        ensures { IsFirstBreach result
            (spec.sections_rules (scope_in self.now.declarations.now) all_permitted all.now) }
    {
        for one in all {
            self.paragraphs_rules(one.paragraphs.as_slice())?;
        }
        Ok(())
    }
}
