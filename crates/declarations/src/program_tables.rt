//! The condition names, the files and the procedures of a program.

ghost use Rattle.std.specs.Prelude.{◌≡◌, [], IfOk};
ghost use Rattle.entry_rules.specs.Checks.{IsFirstFault};
ghost use Rattle.source_tree.specs.EntryRules.{entry_rules};
ghost use Rattle.source_tree.specs.FileRules.{program_file_rules};
ghost use Rattle.source_tree.specs.PerformRules.{procedure_name_rules};
ghost use Rattle.source_tree.specs.Records.{program_items};
ghost use Rattle.declarations.specs.Found.{HasItems};
ghost use Rattle.declarations.specs.ProgramTables.{AreTables};

use crate::declared_items::DeclaredItems;
use crate::listed::{Procedure, listed_procedures};
use crate::procedures::named_procedures;
use answers::beside;
use entry_rules::CheckError;
use file_descriptions::ProgramFiles;
use name_table::{ConditionNames, ProcedureNames, condition_names};
use source_tree::Program;
use std::alloc::Global;

/// The condition names of a program, its files, and its procedures with their names.
#[derive(Drop)]
pub(crate) struct ProgramTables<'a> {
    pub(crate) conditions: ConditionNames<'a>,
    pub(crate) files: ProgramFiles<'a>,
    /// Each section before its paragraphs.
    pub(crate) procedure_list: Vec<Procedure<'a>>,
    pub(crate) procedures: ProcedureNames<'a>,
}

impl<'a> ProgramTables<'a> {
    /// Those of a program with these items. Rule 42 where one name is given to two procedures.
    pub(crate) fn of(
        alloc: Global,
        program: &'a Program,
        items: &DeclaredItems<'a>,
    ) -> Result<ProgramTables<'a>, CheckError>
        requires items { HasItems program.now items.now }
        requires storage { entry_rules program.now.storage ≡ [] }
        requires files { program_file_rules (program_items program.now) program.now ≡ [] }
        ensures tables { IfOk result (AreTables program.now) }
        ensures names { IsFirstFault result (procedure_name_rules program.now.sections) }
    {
        let sections = program.sections.as_slice();
        let procedure_list = listed_procedures(alloc, sections)?;
        let named = named_procedures(alloc, sections);
        let named = beside(procedure_list, named)?;
        let conditions = condition_names(alloc, &items.names, program);
        let tables = beside(named, conditions)?;
        let files = ProgramFiles::of(alloc, program, &items.names, &items.layout);
        let (((procedure_list, procedures), conditions), files) = beside(tables, files)?;
        Ok(ProgramTables {
            conditions,
            files,
            procedure_list,
            procedures,
        })
    }
}
