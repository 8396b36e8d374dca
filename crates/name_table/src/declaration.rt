//! The names of items, in the order of their entries.

ghost use Rattle.std.specs.Prelude.{◌≡◌, ◌++◌, [], map, length, IfOk, OnOk};
ghost use Rattle.std.specs.Option.{option_copied};
ghost use Rattle.source_tree.specs.Broken.{each};
ghost use Rattle.source_tree.specs.EntryRules.{entry_rules};
ghost use Rattle.source_tree.specs.FileRules.{description_rules};
ghost use Rattle.source_tree.specs.Levels.{forest_of};
ghost use Rattle.source_tree.specs.Names.{with_name};
ghost use Rattle.source_tree.specs.Records.{program_items};
ghost use Rattle.data_entries.specs.Nesting.{AreTold};
ghost use Rattle.name_table.specs.Items as spec;
ghost use Rattle.name_table.specs.Table.{IsTable, calls_in, names_of};

use crate::table::NameTable;
use data_entries::{Sibling, levels_are_told, next_item, record_levels_are_told};
use source_tree::{Entry, FileDescription, Name, Program};
use std::alloc::{AllocError, Global};

/// The names around what stands in an item of that name, the nearest first.
pub(crate) fn names_within<'a>(
    alloc: Global,
    name: Option<&'a Name>,
    groups: &[&'a Name],
) -> Result<Vec<&'a Name>, AllocError>
    ensures { IfOk result
        (λ all. names_of all.items ≡ with_name (option_copied name.entry) (names_of groups.now)) }
{
    let mut all = Vec::from_slice(alloc, groups)?;
    if let Some(name) = name {
        all.insert(0, name)?;
    }
    Ok(all)
}

/// Declares an item and those in it.
#[cycle(declaring)]
fn declare_item<'a>(
    alloc: Global,
    one: Sibling<'a>,
    groups: &[&'a Name],
    table: &mut NameTable<'a>,
) -> Result<(), AllocError>
    requires told { AreTold (forest_of one.inner.now) }
    requires table { IsTable table.old }
    ensures table { OnOk result (IsTable table.new) }
    ensures calls { OnOk result (calls_in table.new ≡ calls_in table.old ++ spec.entry_calls
        (names_of groups.now) one.entry.entry.now (forest_of one.entry.inner.now)) }
{
    let name = one.entry.name.as_ref();
    let around = Vec::from_slice(alloc, groups)?;
    table.add(name, around)?;
    let within = names_within(alloc, name, groups)?;
    declare_group(alloc, one.inner, &within, table)
}

/// Declares the items of a group.
#[cycle(declaring)]
fn declare_group<'a>(
    alloc: Global,
    entries: &'a [Entry],
    groups: &[&'a Name],
    table: &mut NameTable<'a>,
) -> Result<(), AllocError>
    requires told { AreTold (forest_of entries.now) }
    requires table { IsTable table.old }
    ensures table { OnOk result (IsTable table.new) }
    ensures calls { OnOk result (calls_in table.new
        ≡ calls_in table.old ++ spec.item_calls (names_of groups.now) (forest_of entries.now)) }
{
    let mut rest = entries;
    'items: while let Some(one) = next_item(rest) {
        declare_item(alloc, one, groups, table)?;
        rest = one.next;
    }
    Ok(())
}

/// Declares the items of records, each in a group of its file's name.
fn declare_records<'a>(
    alloc: Global,
    files: &'a [FileDescription],
    table: &mut NameTable<'a>,
) -> Result<(), AllocError>
    requires rules { each description_rules files.now ≡ [] }
    requires table { IsTable table.old }
    ensures table { OnOk result (IsTable table.new) }
    ensures calls { OnOk result
        (calls_in table.new ≡ calls_in table.old ++ spec.record_calls files.now) }
{
    record_levels_are_told();
    for file in files {
        let groups = [&file.name];
        declare_group(alloc, file.entries.as_slice(), &groups, table)?;
    }
    Ok(())
}

/// The table of the items of a program, by their numbers: those of working storage in the order of the entries, and then those of
/// the records of its files. All of them keep the rules.
pub fn item_names<'a>(alloc: Global, program: &'a Program) -> Result<NameTable<'a>, AllocError>
    requires storage { entry_rules program.now.storage ≡ [] }
    requires files { each description_rules program.now.files ≡ [] }
    ensures table { IfOk result IsTable }
    ensures calls { IfOk result
        (λ new. calls_in new ≡ map spec.called_item (program_items program.now)) }
{
    levels_are_told();
    let storage = program.storage.as_slice();
    let mut table = NameTable::new(alloc);
    declare_group(alloc, storage, &[], &mut table)?;
    declare_records(alloc, program.files.as_slice(), &mut table)?;
    Ok(table)
}
