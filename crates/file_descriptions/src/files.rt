//! The files of a program, in the order of their SELECTs.

ghost use Rattle.std.specs.Prelude.{◌≡◌, ◌++◌, [], List, map, IfOk, OnOk};
ghost use Rattle.std.specs.List.{AllByRecursion};
ghost use Rattle.source_tree.specs.declared.program.Program as tree;
ghost use Rattle.source_tree.specs.EntryRules.{entry_rules};
ghost use Rattle.source_tree.specs.FileRules.{program_file_rules};
ghost use Rattle.source_tree.specs.LookUp.{first};
ghost use Rattle.source_tree.specs.Places.{LocatedItem};
ghost use Rattle.source_tree.specs.ProgramFiles as meaning;
ghost use Rattle.source_tree.specs.Records.{program_items};
ghost use Rattle.layout.specs.Placing.{placed_item};
ghost use Rattle.name_table.specs.Items.{called_item};
ghost use Rattle.name_table.specs.Table.{IsTable, calls_in};
ghost use Rattle.file_descriptions.specs.Clauses.{KeepsClauses};
ghost use Rattle.file_descriptions.specs.Descriptions.{KeepsDescriptions};
ghost use Rattle.file_descriptions.specs.Files as spec;
ghost use Rattle.file_descriptions.specs.Files.{AreFiles};
ghost use Rattle.file_descriptions.specs.Sources.{IsSource, data_in, items_in};

use crate::file::{ProgramFile, program_file};
use crate::source::Source;
use layout::Layout;
use name_table::{FileNames, NameTable, file_names};
use source_tree::{Name, Program, Select};
use std::alloc::{AllocError, Global};

/// The files of a program, with their names.
#[derive(Drop)]
pub struct ProgramFiles<'a> {
    pub names: FileNames<'a>,
    /// In the order of their SELECTs.
    pub files: Vec<ProgramFile<'a>>,
}

/// Puts the file of each SELECT.
fn put_files<'a>(
    alloc: Global,
    source: Source<'_, '_>,
    selects: &'a [Select],
    out: &mut Vec<ProgramFile<'a>>,
) -> Result<(), AllocError>
    requires source { IsSource source }
    requires descriptions { KeepsDescriptions (data_in source) }
    requires clauses { AllByRecursion (KeepsClauses (items_in source)) selects.now }
    ensures files { OnOk result (map (spec.file_in (items_in source.entry)) out.new.items
        ≡ map (spec.file_in (items_in source.entry)) out.old.items
        ++ spec.files_after (data_in source.entry) 0 selects.entry.now) }
    ensures numbers { OnOk result (map spec.numbers_in out.new.items ≡ map spec.numbers_in
        out.old.items ++ map (spec.clause_numbers (items_in source.entry)) selects.entry.now) }
{
    for (number, select) in selects.iter().enumerate() {
        out.push(program_file(alloc, source, number, select)?)?;
    }
    Ok(())
}

impl<'a> ProgramFiles<'a> {
    /// The files of a program whose entries and files keep the rules, of whose items these are the names and places.
    pub fn of<'b>(
        alloc: Global,
        program: &'a Program,
        names: &'b NameTable<'a>,
        layout: &'b Layout,
    ) -> Result<ProgramFiles<'a>, AllocError>
        requires table { IsTable names.now }
        requires calls { calls_in names.now ≡ map called_item (program_items program.now) }
        requires items { layout.now.items ≡ map placed_item (program_items program.now) }
        requires storage { entry_rules program.now.storage ≡ [] }
        requires rules { program_file_rules (program_items program.now) program.now ≡ [] }
        ensures { IfOk result (AreFiles (program_items program.entry.now) program.entry.now) }
    {
        let source = Source {
            storage: program.storage.as_slice(),
            files: program.files.as_slice(),
            names,
            layout,
        };
        let selects = program.selects.as_slice();
        let mut files = Vec::new(alloc);
        put_files(alloc, source, selects, &mut files)?;
        let names = file_names(alloc, selects)?;
        Ok(ProgramFiles { names, files })
    }

    /// The first file of that name.
    pub fn file_named(&self, name: &Name) -> Option<&ProgramFile<'a>>
        ensures { (items : List LocatedItem) (program : tree.Program)
            → AreFiles items program self.now
            → first (meaning.files_named (meaning.files_of items program) name.now) ≡ spec.found_in
            items result }
    {
        let number = self.names.file_named(name)?;
        self.files.get(number)
    }

    /// The first file whose records have that area.
    pub fn file_with(&self, area: u32) -> Option<&ProgramFile<'a>>
        ensures { (items : List LocatedItem) (program : tree.Program)
            → AreFiles items program self.now
            → first (meaning.files_with (meaning.files_of items program) area) ≡ spec.found_in items
            result }
    {
        for file in &self.files {
            if file.area == area {
                return Some(file);
            }
        }
        None
    }
}
