//! What the PERFORMs of a program perform, by the numbers of paragraphs.

ghost use Rattle.std.specs.Prelude.{◌≡◌, ◌+◌, ◌<◌, ◌^◌, [], ◌∷◌, length, IfOk, OnOk};
ghost use Rattle.source_tree.specs.Procedures.{paragraphs_in, paragraphs_or_one, range_of};
ghost use Rattle.source_tree.specs.Recursion as spec;
ghost use Rattle.source_tree.specs.Recursion.{each_performs, performs_from, selected_performs};
ghost use Rattle.declarations.specs.Named.{procedures_in};
ghost use Rattle.check_rules.specs.Performs.{AppendsPerforms, in_paragraph, named_performs, own_performs};

use crate::checker::Checker;
use crate::inner_statements::{InnerStatements, inner_statements};
use perform_graph::PerformedRange;
use source_tree::{
    Name, Paragraph, Performed, Place, Section, Selected, Sentence, Statement, Verb,
};
use std::alloc::{AllocError, Global};

/// What PERFORMs perform, in the order of the text, and where each names its first procedure.
#[derive(Drop)]
pub(crate) struct Performs {
    pub(crate) places: Vec<Place>,
    pub(crate) ranges: Vec<PerformedRange>,
}

impl Performs {
    /// Nothing.
    pub(crate) fn new(alloc: Global) -> Performs
        ensures places { result.places.items ≡ [] }
        ensures ranges { result.ranges.items ≡ [] }
    {
        Performs {
            places: Vec::new(alloc),
            ranges: Vec::new(alloc),
        }
    }

    fn push(&mut self, place: Place, range: PerformedRange) -> Result<(), AllocError>
        ensures { OnOk result (AppendsPerforms self.old self.new ((place, range) ∷ [])) }
    {
        self.places.push(place)?;
        self.ranges.push(range)?;
        Ok(())
    }
}

impl<'a> Checker<'a> {
    /// What a PERFORM of procedures performs, in the paragraph of that number.
    fn range_performs(
        &self,
        number: usize,
        first: &Name,
        last: &Option<Name>,
        all: &mut Performs,
    ) -> Result<(), AllocError>
        ensures { OnOk result (AppendsPerforms all.old
            all.new (in_paragraph number (spec.range_performs first.now.place
            (range_of (procedures_in self.now.declarations.now) first.now last.now)))) }
    {
        let Some(range) = self.declarations.procedures.range_of(first, last) else {
            return Ok(());
        };
        let performed = PerformedRange {
            performer: number,
            first: range.first,
            last: range.last,
        };
        all.push(first.place, performed)
    }

    /// What a PERFORM of procedures performs.
    fn named_performs<S>(
        &self,
        number: usize,
        performed: &Performed<S>,
        all: &mut Performs,
    ) -> Result<(), AllocError>
        ensures { OnOk result (AppendsPerforms all.old all.new (in_paragraph number
            (named_performs (procedures_in self.now.declarations.now) performed.now))) }
    {
        match performed {
            Performed::Procedures { first, last } => self.range_performs(number, first, last, all),
            Performed::Statements(_) => Ok(()),
        }
    }

    /// What a statement performs by itself.
    fn own_performs<S>(
        &self,
        number: usize,
        verb: &Verb<S>,
        all: &mut Performs,
    ) -> Result<(), AllocError>
        ensures { OnOk result (AppendsPerforms all.old all.new (in_paragraph number
            (own_performs (procedures_in self.now.declarations.now) verb.now))) }
    {
        match verb {
            Verb::PerformStatement(one) => self.named_performs(number, &one.performed, all),
            _ => Ok(()),
        }
    }

    /// What the PERFORMs in a statement perform, and it by itself.
    #[cycle(performs)]
    fn statement_performs(
        &self,
        number: usize,
        one: &Statement,
        all: &mut Performs,
    ) -> Result<(), AllocError>
        ensures { OnOk result (AppendsPerforms all.old all.new (in_paragraph number
            (spec.statement_performs (procedures_in self.now.declarations.now) one.now))) }
    {
        self.own_performs(number, &one.verb, all)?;
        let InnerStatements {
            subjects: _,
            selected,
            first,
            second,
        } = inner_statements(&one.verb);
        self.selections_performs(number, selected, all)?;
        self.statements_performs(number, first, all)?;
        self.statements_performs(number, second, all)
    }

    /// Those of statements, in order.
    #[cycle(performs)]
    fn statements_performs(
        &self,
        number: usize,
        statements: &[Statement],
        all: &mut Performs,
    ) -> Result<(), AllocError>
        ensures { OnOk result (AppendsPerforms all.old all.new (in_paragraph number (each_performs
            (spec.statement_performs (procedures_in self.now.declarations.now)) statements.now))) }
    {
        for one in statements {
            self.statement_performs(number, one, all)?;
        }
        Ok(())
    }

    /// Those of the statements after WHENs, in order.
    #[cycle(performs)]
    fn selections_performs(
        &self,
        number: usize,
        selections: &[Selected<Statement>],
        all: &mut Performs,
    ) -> Result<(), AllocError>
        ensures { OnOk result
            (AppendsPerforms all.old all.new (in_paragraph number (each_performs (selected_performs
            (spec.statement_performs (procedures_in self.now.declarations.now))) selections.now))) }
    {
        for one in selections {
            self.statements_performs(number, one.statements.as_slice(), all)?;
        }
        Ok(())
    }

    /// Those of a paragraph, which has that number.
    fn paragraph_performs(
        &self,
        number: usize,
        sentences: &[Sentence],
        all: &mut Performs,
    ) -> Result<(), AllocError>
        ensures { OnOk result (AppendsPerforms all.old all.new (in_paragraph number (each_performs
            (spec.sentence_performs (procedures_in self.now.declarations.now)) sentences.now))) }
    {
        for one in sentences {
            self.statements_performs(number, one.statements.as_slice(), all)?;
        }
        Ok(())
    }

    /// Those of paragraphs, of which the first has that number.
    fn paragraphs_performs(
        &self,
        first: usize,
        paragraphs: &[Paragraph],
        all: &mut Performs,
    ) -> Result<(), AllocError>
        requires numbers { first + length paragraphs.now < 2 ^ 64 }
        ensures { OnOk result (AppendsPerforms all.old all.new
            (performs_from (procedures_in self.now.declarations.now) first paragraphs.now)) }
    {
        for (i, one) in paragraphs.iter().enumerate() {
            self.paragraph_performs(first + i, one.sentences.as_slice(), all)?;
        }
        Ok(())
    }

    /// Those of a section, whose first paragraph has that number. Answers the number of the next paragraph.
    fn section_performs(
        &self,
        first: usize,
        one: &Section,
        all: &mut Performs,
    ) -> Result<usize, AllocError>
        ensures next { IfOk result
            (λ next. next ≡ first + length (paragraphs_or_one one.now.paragraphs)) }
        ensures added { OnOk result (AppendsPerforms all.old all.new (performs_from (procedures_in
            self.now.declarations.now) first (paragraphs_or_one one.now.paragraphs))) }
    {
        let paragraphs = one.paragraphs.as_slice();
        let Some(next) = first.checked_add(paragraphs.len().max(1)) else {
            return Err(AllocError);
        };
        self.paragraphs_performs(first, paragraphs, all)?;
        Ok(next)
    }

    /// Those of all sections. Answers how many paragraphs there are.
    pub(crate) fn sections_performs(
        &self,
        sections: &[Section],
        all: &mut Performs,
    ) -> Result<usize, AllocError>
        ensures count { IfOk result (λ count. count ≡ length (paragraphs_in sections.now)) }
        ensures added { OnOk result (AppendsPerforms all.old all.new (performs_from
            (procedures_in self.now.declarations.now) 0 (paragraphs_in sections.now))) }
    {
        let mut number = 0;
        for one in sections {
            number = self.section_performs(number, one, all)?;
        }
        Ok(number)
    }
}
