//! The names of condition names, in the order of their entries.

ghost use Rattle.std.specs.Prelude.{◌≡◌, ◌+◌, ◌<◌, ◌≤◌, ◌++◌, ◌∷◌, [], map, length, IfOk, OnOk};
ghost use Rattle.source_tree.specs.Records.{program_items};
ghost use Rattle.name_table.specs.Items.{called_item};
ghost use Rattle.name_table.specs.Conditions as spec;
ghost use Rattle.name_table.specs.Conditions.{AreConditions, pairs_in};
ghost use Rattle.name_table.specs.Passing.{AreCalled, item_count, record_item_count, conditions_after, behind_records};
ghost use Rattle.name_table.specs.Table.{IsTable, calls_in};

use crate::declaration::names_within;
use crate::table::NameTable;
use source_tree::{ConditionEntry, Entry, FileDescription, Program};
use std::alloc::{AllocError, Global};

/// A condition name, and the number of its item in the order of the entries.
#[derive(Clone, Copy)]
pub struct DeclaredCondition<'a> {
    pub condition: &'a ConditionEntry,
    pub item: usize,
}

/// The condition names of a program, by their numbers in the order of the entries.
#[derive(Drop)]
pub struct ConditionNames<'a> {
    pub names: NameTable<'a>,
    pub conditions: Vec<DeclaredCondition<'a>>,
}

impl<'a> ConditionNames<'a> {
    fn new(alloc: Global) -> ConditionNames<'a>
        ensures table { IsTable result.names }
        ensures calls { calls_in result.names ≡ [] }
        ensures conditions { result.conditions.items ≡ [] }
    {
        ConditionNames {
            names: NameTable::new(alloc),
            conditions: Vec::new(alloc),
        }
    }

    /// Adds a condition name, whose item has that number.
    fn add(
        &mut self,
        alloc: Global,
        items: &NameTable<'a>,
        condition: &'a ConditionEntry,
        item: usize,
    ) -> Result<(), AllocError>
        requires table { IsTable self.old.names }
        requires item { item < length (calls_in items.now) }
        ensures table { OnOk result (IsTable self.new.names) }
        ensures calls { OnOk result (calls_in self.new.names ≡ calls_in self.old.names
            ++ spec.condition_at (calls_in items.now) (condition.now, item) ∷ []) }
        ensures conditions { OnOk result
            (pairs_in self.new ≡ pairs_in self.old ++ (condition.now, item) ∷ []) }
    {
        let declared = &items.declared[item];
        let around = names_within(alloc, declared.name, &declared.around)?;
        self.names.add(Some(&condition.name), around)?;
        self.conditions.push(DeclaredCondition { condition, item })?;
        Ok(())
    }
}

/// Condition names, and how many items were passed with them.
#[derive(Drop)]
struct Passed<'a> {
    conditions: ConditionNames<'a>,
    items: usize,
}

/// With the condition names of further entries.
fn with_entries<'a>(
    alloc: Global,
    items: &NameTable<'a>,
    entries: &'a [Entry],
    passed: Passed<'a>,
) -> Result<Passed<'a>, AllocError>
    requires items { passed.items + item_count entries.now ≤ length (calls_in items.now) }
    requires told { AreCalled (calls_in items.now) passed.conditions }
    ensures items { IfOk result (λ new. new.items ≡ passed.entry.items + item_count entries.now) }
    ensures told { IfOk result (λ new. AreCalled (calls_in items.now) new.conditions) }
    ensures pairs { IfOk result (λ new. pairs_in new.conditions ≡ pairs_in passed.entry.conditions
        ++ conditions_after passed.entry.items passed.entry.items entries.now) }
{
    let before = passed.items;
    let mut count = before;
    let mut all = passed.conditions;
    for entry in entries {
        match entry {
            Entry::Item(_) => count += 1,
            Entry::Condition(one) if count > before => {
                all.add(alloc, items, one, count - 1)?;
            }
            Entry::Condition(_) => {}
        }
    }
    Ok(Passed {
        conditions: all,
        items: count,
    })
}

/// With the condition names of the records of files.
fn with_records<'a>(
    alloc: Global,
    items: &NameTable<'a>,
    files: &'a [FileDescription],
    passed: Passed<'a>,
) -> Result<ConditionNames<'a>, AllocError>
    requires items { passed.items + record_item_count files.now ≤ length (calls_in items.now) }
    requires told { AreCalled (calls_in items.now) passed.conditions }
    ensures told { IfOk result (AreCalled (calls_in items.now)) }
    ensures pairs { IfOk result (λ new. pairs_in new
        ≡ pairs_in passed.entry.conditions ++ behind_records passed.entry.items files.now) }
{
    let mut so_far = passed;
    for file in files {
        so_far = with_entries(alloc, items, file.entries.as_slice(), so_far)?;
    }
    Ok(so_far.conditions)
}

/// The condition names of a program, of whose items these are the names.
pub fn condition_names<'a>(
    alloc: Global,
    items: &NameTable<'a>,
    program: &'a Program,
) -> Result<ConditionNames<'a>, AllocError>
    requires { calls_in items.now ≡ map called_item (program_items program.now) }
    ensures { IfOk result (AreConditions (program_items program.now)) }
{
    let none = Passed {
        conditions: ConditionNames::new(alloc),
        items: 0,
    };
    let passed = with_entries(alloc, items, program.storage.as_slice(), none)?;
    with_records(alloc, items, program.files.as_slice(), passed)
}
