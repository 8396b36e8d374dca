//! The names of procedures: rule 42 where one is given to two, 40 where a name is none of them.

ghost use Rattle.std.specs.Prelude.{◌≡◌, Some, IfOk};
ghost use Rattle.entry_rules.specs.Checks.{IsFirstBreach, IsFirstFault};
ghost use Rattle.source_tree.specs.PerformRules as spec;
ghost use Rattle.source_tree.specs.Procedures.{procedures_of, range_named};
ghost use Rattle.name_table.specs.Procedures.{AreProcedures, range_at};
ghost use Rattle.declarations.specs.Named.{procedures_in};

use crate::declarations::Declarations;
use entry_rules::{BrokenRule, CheckError, Rule};
use name_table::{ParagraphRange, ProcedureNames, ProcedureNamesError, procedure_names};
use source_tree::{Name, Section};
use std::alloc::Global;

/// The names of the procedures of sections: rule 42 where one is given to two.
pub(crate) fn named_procedures<'a>(
    alloc: Global,
    sections: &'a [Section],
) -> Result<ProcedureNames<'a>, CheckError>
    ensures procedures { IfOk result (AreProcedures (procedures_of sections.now)) }
    ensures names { IsFirstFault result (spec.procedure_name_rules sections.now) }
{
    match procedure_names(alloc, sections) {
        Ok(names) => Ok(names),
        Err(ProcedureNamesError::Memory) => Err(CheckError::Memory),
        Err(ProcedureNamesError::GivenTwice(place)) => Err(CheckError::Refused(BrokenRule {
            rule: Rule::GivenTwice,
            place,
        })),
    }
}

impl<'a> Declarations<'a> {
    /// The paragraphs of the procedure of that name: rule 40 where there is none.
    pub fn procedure_named(&self, name: &Name) -> Result<ParagraphRange, BrokenRule>
        ensures rules { IsFirstBreach result
            (spec.procedure_named (procedures_in self.now) name.now) }
        ensures range { IfOk result
            (λ range. range_named (procedures_in self.now) name.now ≡ Some (range_at range)) }
    {
        match self.procedures.range_named(name) {
            Some(range) => Ok(range),
            None => Err(BrokenRule {
                rule: Rule::UnknownName,
                place: name.place,
            }),
        }
    }
}
