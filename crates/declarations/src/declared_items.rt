//! The items of a program, by their names and where they stand.

ghost use Rattle.std.specs.Prelude.{◌≡◌, ◌<◌, List, [], Some, IfOk, OnOk, length, map, slice_get};
ghost use Rattle.source_tree.specs.EntryRules.{entry_rules};
ghost use Rattle.source_tree.specs.FileRules.{descriptions_rules, program_file_rules};
ghost use Rattle.source_tree.specs.LookUp.{items_named};
ghost use Rattle.source_tree.specs.Places.{LocatedItem};
ghost use Rattle.source_tree.specs.Records.{program_items};
ghost use Rattle.entry_rules.specs.Checks.{IsFirstFault};
ghost use Rattle.entry_rules.specs.RecordAreas.{length_of};
ghost use Rattle.name_table.specs.Items.{called_item};
ghost use Rattle.name_table.specs.Table.{IsTable, calls_in};
ghost use Rattle.declarations.specs.Declaring as declaring;
ghost use Rattle.declarations.specs.Found as spec;
ghost use Rattle.declarations.specs.Found.{AreDeclared, HasItems, IsItemNamed, IsNumbered};

use crate::file_names::file_name_rules;
use answers::beside;
use entry_rules::{BrokenRule, CheckError, Rule, check_descriptions, check_entries};
use layout::{Layout, PlacedItem};
use name_table::{LookUp, NameTable, item_names};
use source_tree::{Entry, FileDescription, Program, QualifiedName, Select};
use std::alloc::{AllocError, Global};

/// The items of working storage and of records: their names and places, and what declares them. No field reaches a statement.
#[derive(Drop)]
pub(crate) struct DeclaredItems<'a> {
    pub(crate) selects: &'a [Select],
    pub(crate) descriptions: &'a [FileDescription],
    pub(crate) storage: &'a [Entry],
    pub(crate) names: NameTable<'a>,
    pub(crate) layout: Layout,
}

impl<'a> DeclaredItems<'a> {
    /// Those of a program that keeps the rules of its entries and its files. Otherwise the answer is the first that it breaks.
    pub(crate) fn checked(
        alloc: Global,
        program: &'a Program,
    ) -> Result<DeclaredItems<'a>, CheckError>
        ensures items { IfOk result (HasItems program.now) }
        ensures rules { IsFirstFault result (declaring.item_rules program.now) }
        ensures storage { OnOk result (entry_rules program.now.storage ≡ []) }
        ensures files { OnOk result
            (program_file_rules (program_items program.now) program.now ≡ []) }
    {
        let lengths = data_rules(alloc, program)?;
        let items = DeclaredItems::of(alloc, program)?;
        let ruled = items.selects_rules(alloc, &lengths);
        drop(lengths);
        let (items, ()) = beside(items, ruled)?;
        Ok(items)
    }

    /// Those of a program whose entries keep their rules.
    fn of(alloc: Global, program: &'a Program) -> Result<DeclaredItems<'a>, AllocError>
        requires storage { entry_rules program.now.storage ≡ [] }
        requires files { descriptions_rules program.now.storage program.now.files ≡ [] }
        ensures { IfOk result (HasItems program.now) }
    {
        let names = item_names(alloc, program)?;
        let layout = Layout::of(alloc, program)?;
        Ok(DeclaredItems {
            selects: program.selects.as_slice(),
            descriptions: program.files.as_slice(),
            storage: program.storage.as_slice(),
            names,
            layout,
        })
    }

    /// The item that a name names: rule 40 where there is none, 41 where there are several.
    pub(crate) fn item_named(&self, name: &QualifiedName) -> Result<&PlacedItem, BrokenRule>
        requires { AreDeclared self.now }
        ensures { IsItemNamed name.now.name.place (spec.result_now result)
            (items_named (spec.items_of self.now) name.now) }
    {
        let number = item_number(&self.names, name)?;
        Ok(placed_at(&self.layout, number))
    }
}

/// The number of the item that a name names: rule 40 where there is none, 41 where there are several.
pub(crate) fn item_number(names: &NameTable<'_>, name: &QualifiedName) -> Result<usize, BrokenRule>
    requires { IsTable names.now }
    ensures { (items : List LocatedItem) → calls_in names.now ≡ map called_item items
        → IsNumbered items name.now.name.place result (items_named items name.now) }
{
    name_table::items_named();
    let place = name.name.place;
    match names.look_up(name) {
        LookUp::One(number) => Ok(number),
        LookUp::Unknown => Err(BrokenRule {
            rule: Rule::UnknownName,
            place,
        }),
        LookUp::Several => Err(BrokenRule {
            rule: Rule::AmbiguousName,
            place,
        }),
    }
}

/// The item of that number.
pub(crate) fn placed_at(layout: &Layout, number: usize) -> &PlacedItem
    requires { number < length layout.now.items }
    ensures { slice_get layout.now.items number ≡ Some result.now }
{
    &layout.items.as_slice()[number]
}

/// The rules of all entries, and of the names of files between those of working storage and those of records. Answers the bytes of each
/// record area.
fn data_rules(alloc: Global, program: &Program) -> Result<Vec<u32>, CheckError>
    ensures rules { IsFirstFault result (declaring.data_rules program.now) }
    ensures storage { OnOk result (entry_rules program.now.storage ≡ []) }
    ensures files { OnOk result (descriptions_rules program.now.storage program.now.files ≡ []) }
    ensures lengths { IfOk result (λ lengths. lengths.items ≡ map length_of program.now.files) }
{
    let bytes = check_entries(alloc, program.storage.as_slice())?;
    let files = program.files.as_slice();
    file_name_rules(alloc, program.selects.as_slice(), files)?;
    check_descriptions(alloc, program.storage.as_slice(), bytes, files)
}
