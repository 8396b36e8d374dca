//! What is declared in a program.

ghost use Rattle.declarations.specs.Data.{with_data};
ghost use Rattle.declarations.specs.OneProof.{declared_props};
ghost use Rattle.declarations.specs.Tables.{IsDeclared};

use crate::declared_items::{DeclaredItems, item_number, placed_at};
use crate::item_parts::item_seen;
use crate::listed::Procedure;
use crate::program_tables::ProgramTables;
use entry_rules::{BrokenRule, CheckError};
use file_descriptions::ProgramFiles;
use items::Item;
use layout::{Layout, PlacedItem};
use name_table::{ConditionNames, NameTable, ProcedureNames};
use source_tree::{Entry, FileDescription, Program, QualifiedName, Reference, Select};
use std::alloc::Global;

/// What is declared in a program whose entries and files keep their rules: its SELECTs, FDs and entries of working storage, with the
/// names of its items and where those stand, its condition names, its files, its procedures and their names. It has no statements, so
/// what looks at it is handed none.
#[derive(Drop)]
pub struct Declarations<'a> {
    pub selects: &'a [Select],
    pub descriptions: &'a [FileDescription],
    pub storage: &'a [Entry],
    pub names: NameTable<'a>,
    pub layout: Layout,
    pub conditions: ConditionNames<'a>,
    pub files: ProgramFiles<'a>,
    /// Each section before its paragraphs.
    pub procedure_list: Vec<Procedure<'a>>,
    pub procedures: ProcedureNames<'a>,
    pub ghost declared: { IsDeclared (with_data selects.now descriptions.now storage.now) names
        layout conditions files procedure_list.items procedures } by { Prim.hlevel declared_props },
}

impl<'a> Declarations<'a> {
    ghost use Rattle.std.specs.Prelude.{◌≡◌, [], IfOk};
    ghost use Rattle.entry_rules.specs.Checks.{IsFirstFault};
    ghost use Rattle.source_tree.specs.EntryRules.{entry_rules};
    ghost use Rattle.source_tree.specs.FileRules.{program_file_rules};
    ghost use Rattle.source_tree.specs.LookUp.{items_named};
    ghost use Rattle.source_tree.specs.Parts.{items_referred};
    ghost use Rattle.source_tree.specs.PerformRules.{procedure_name_rules};
    ghost use Rattle.source_tree.specs.Records.{program_items};
    ghost use Rattle.name_table.specs.Table.{calls_in};
    ghost use Rattle.declarations.specs.Declaring.{declaration_rules};
    ghost use Rattle.declarations.specs.Found.{HasItems};
    ghost use Rattle.declarations.specs.FoundFiles.{IsNumberedItem};
    ghost use Rattle.declarations.specs.Named as spec;
    ghost use Rattle.declarations.specs.Named.{Declares, IsItemNamed, items_in};
    ghost use Rattle.declarations.specs.ProgramTables.{AreTables};
    ghost use Rattle.declarations.specs.Seen.{IsItemShown};

    /// What is declared in a program that keeps the rules of its entries, of its files and of the names of its procedures. Otherwise
    /// the answer is the first that it breaks.
    pub fn of(alloc: Global, program: &'a Program) -> Result<Declarations<'a>, CheckError>
        ensures program { IfOk result (Declares program.now) }
        ensures rules { IsFirstFault result (declaration_rules program.now) }
    {
        let items = DeclaredItems::checked(alloc, program)?;
        Declarations::with_items(alloc, program, items)
    }

    /// With these items: the condition names, the files, and the names of procedures, rule 42 where one is given to two.
    fn with_items(
        alloc: Global,
        program: &'a Program,
        items: DeclaredItems<'a>,
    ) -> Result<Declarations<'a>, CheckError>
        requires items { HasItems program.now items }
        requires storage { entry_rules program.now.storage ≡ [] }
        requires files { program_file_rules (program_items program.now) program.now ≡ [] }
        ensures program { IfOk result (Declares program.now) }
        ensures names { IsFirstFault result (procedure_name_rules program.now.sections) }
    {
        match ProgramTables::of(alloc, program, &items) {
            Ok(tables) => Ok(Declarations::with_tables(program, items, tables)),
            Err(error) => Err(error),
        }
    }

    /// With these items and tables.
    fn with_tables(
        program: &'a Program,
        items: DeclaredItems<'a>,
        tables: ProgramTables<'a>,
    ) -> Declarations<'a>
        requires items { HasItems program.now items }
        requires files { program_file_rules (program_items program.now) program.now ≡ [] }
        requires tables { AreTables program.now tables }
        ensures { Declares program.now result }
    {
        let DeclaredItems { names, layout, .. } = items;
        let ProgramTables {
            conditions,
            files,
            procedure_list,
            procedures,
        } = tables;
        let selects = program.selects.as_slice();
        let descriptions = program.files.as_slice();
        let storage = program.storage.as_slice();
        Declarations {
            selects,
            descriptions,
            storage,
            names,
            layout,
            conditions,
            files,
            procedure_list,
            procedures,
        }
    }

    /// The item that a name names: rule 40 where there is none, 41 where there are several.
    pub fn item_named(&self, name: &QualifiedName) -> Result<&PlacedItem, BrokenRule>
        ensures { IsItemNamed name.now.name.place (spec.result_now result)
            (items_named (items_in self.now) name.now) }
    {
        let number = item_number(&self.names, name)?;
        Ok(placed_at(&self.layout, number))
    }

    /// The item that a reference shows, which is its part if it has one: rule 40 where the name names nothing, 41 where it names several.
    pub fn item_shown(&self, one: &Reference) -> Result<Item, BrokenRule>
        ensures { IsItemShown one.now.item.name.place result
            (items_referred (items_in self.now) one.now) }
    {
        let found = self.item_named(&one.item)?;
        Ok(item_seen(&one.part, found.item))
    }

    /// The number of the item that a name names, and the item: rule 40 where there is none, 41 where there are several.
    pub fn numbered_item(&self, name: &QualifiedName) -> Result<(usize, &PlacedItem), BrokenRule>
        ensures { IsNumberedItem (items_in self.now) (calls_in self.now.names) name.now.name.place
            result (items_named (items_in self.now) name.now) }
    {
        let number = item_number(&self.names, name)?;
        Ok((number, placed_at(&self.layout, number)))
    }
}
