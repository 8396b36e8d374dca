//! The names of procedures, and the paragraphs that are in them.

ghost use Rattle.std.specs.Prelude.{◌≡◌, ◌+◌, ◌<◌, ◌^◌, [], ◌∷◌, ◌++◌, List, length, IfOk, IfErr, OnOk};
ghost use Rattle.std.specs.Option.{option_copied, option_map};
ghost use Rattle.source_tree.specs.PerformRules.{procedure_name_rules};
ghost use Rattle.source_tree.specs.Procedures as spec;
ghost use Rattle.source_tree.specs.Procedures.{Procedure, paragraph_procedures, paragraphs_or_one, procedures_of};
ghost use Rattle.name_table.specs.Procedures.{AreProcedures, IsGivenTwice, range_at};
ghost use Rattle.name_table.specs.Noting.{AreNoted, Notes, procedure, section_procedures};

use indexmap::IndexMap;
use source_tree::{Name, Paragraph, Place, Section};
use std::alloc::{AllocFailed, Global};

/// Paragraphs from one to another, by their numbers in the order of the program, from 0.
#[derive(Clone, Copy, PartialEq, Eq)]
pub struct ParagraphRange {
    pub first: usize,
    pub last: usize,
}

/// Why the procedures of a program have no table of names.
#[derive(Clone, Copy, PartialEq, Eq)]
pub enum ProcedureNamesError {
    Memory,
    /// A name is given to two procedures; it stands at this place for the second time.
    GivenTwice(Place),
}

impl<T: Drop> From<AllocFailed<T>> for ProcedureNamesError {
    ghost use Rattle.std.specs.Prelude.{◌≡◌};
    ghost use Rattle.name_table.specs.declared.procedures.ProcedureNamesError.TheVariants.{Memory};

    ghost from_gives = { λ _ e. e ≡ Memory };

    fn from(_: AllocFailed<T>) -> ProcedureNamesError {
        ProcedureNamesError::Memory
    }
}

/// The names of a program's sections and paragraphs. Each is given once.
#[derive(Drop)]
pub struct ProcedureNames<'a> {
    pub ranges: IndexMap<&'a [u8], ParagraphRange>,
}

impl<'a> ProcedureNames<'a> {
    /// No names.
    fn new(alloc: Global) -> ProcedureNames<'a>
        ensures { (all : List Procedure) → AreNoted all all result }
    {
        ProcedureNames {
            ranges: IndexMap::new(alloc),
        }
    }

    /// Notes the paragraphs of a procedure under its name, if it has one.
    fn note(
        &mut self,
        name: Option<&'a Name>,
        range: ParagraphRange,
    ) -> Result<(), ProcedureNamesError>
        ensures { Notes (procedure (option_copied name.entry) range ∷ []) result self.old self.new }
    {
        let Some(name) = name else {
            return Ok(());
        };
        match self.ranges.insert(name.characters.as_slice(), range)? {
            None => Ok(()),
            Some(_) => Err(ProcedureNamesError::GivenTwice(name.place)),
        }
    }

    /// Notes paragraphs, of which the first has that number.
    fn note_paragraphs(
        &mut self,
        paragraphs: &'a [Paragraph],
        first: usize,
    ) -> Result<(), ProcedureNamesError>
        requires { first + length paragraphs.now < 2 ^ 64 }
        ensures { Notes (paragraph_procedures first paragraphs.now) result self.old self.new }
    {
        for (i, paragraph) in paragraphs.iter().enumerate() {
            let number = first + i;
            let range = ParagraphRange {
                first: number,
                last: number,
            };
            self.note(paragraph.name.as_ref(), range)?;
        }
        Ok(())
    }

    /// Notes a section and its paragraphs, of which the first has that number. Answers the number of the next paragraph.
    fn note_section(
        &mut self,
        section: &'a Section,
        first: usize,
    ) -> Result<usize, ProcedureNamesError>
        ensures next { IfOk result
            (λ next. next ≡ first + length (paragraphs_or_one section.now.paragraphs)) }
        ensures noted { Notes (section_procedures first section.now) result self.old self.new }
    {
        let paragraphs = section.paragraphs.as_slice();
        let count = paragraphs.len().max(1);
        let Some(next) = first.checked_add(count) else {
            return Err(ProcedureNamesError::Memory);
        };
        let range = ParagraphRange {
            first,
            last: next - 1,
        };
        self.note(section.name.as_ref(), range)?;
        self.note_paragraphs(paragraphs, first)?;
        Ok(next)
    }

    /// The paragraphs of the procedure of that name.
    pub fn range_named(&self, name: &Name) -> Option<ParagraphRange>
        ensures { (procedures : List Procedure) → AreProcedures procedures self.now
            → option_map range_at result ≡ spec.range_named procedures name.now }
    {
        self.ranges.get(name.characters.as_slice()).copied()
    }

    /// The paragraphs from one procedure to the end of another, or of one alone.
    pub fn range_of(&self, first: &Name, last: &Option<Name>) -> Option<ParagraphRange>
        ensures { (procedures : List Procedure) → AreProcedures procedures self.now
            → option_map range_at result ≡ spec.range_of procedures first.now last.now }
    {
        let from = self.range_named(first)?;
        let Some(last) = last else {
            return Some(from);
        };
        let to = self.range_named(last)?;
        Some(ParagraphRange {
            first: from.first,
            last: to.last,
        })
    }
}

/// The table of the names of sections and their paragraphs.
pub fn procedure_names<'a>(
    alloc: Global,
    sections: &'a [Section],
) -> Result<ProcedureNames<'a>, ProcedureNamesError>
    ensures procedures { IfOk result (AreProcedures (procedures_of sections.now)) }
    ensures once { OnOk result (procedure_name_rules sections.now ≡ []) }
    ensures twice { IfErr result (IsGivenTwice sections.now) }
{
    let mut names = ProcedureNames::new(alloc);
    let mut first = 0;
    for section in sections {
        first = names.note_section(section, first)?;
    }
    Ok(names)
}
