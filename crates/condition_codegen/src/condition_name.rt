//! The code of condition names (COBOL-85, Nucleus, "Condition-name condition").

ghost use Rattle.std.specs.Prelude.{◌≡◌, [], OnOk, IfOk};
ghost use Rattle.source_tree.specs.EntryRules.{entry_rules};
ghost use Rattle.source_tree.specs.ConditionRules.{condition_name_rules};
ghost use Rattle.declarations.specs.Named.{items_in};
ghost use Rattle.condition_codegen.specs.Fragments.{append};
ghost use Rattle.condition_codegen.specs.ConditionCode as spec;
ghost use Rattle.condition_codegen.specs.Values.{HasForms, AreFormedValues};

use crate::emitter::{Emitter, entry_number};
use crate::references::{emit_work, emit_works};
use crate::senders::put_sender;
use code_image::Code;
use data_instructions::{DataInstruction, ItemIndex, Test};
use name_table::LookUp;
use source_tree::{QualifiedName, Reference, ValueRange};
use std::alloc::{AllocError, Global};

impl<'a> Emitter<'a> {
    /// The number of the condition name that a name names.
    pub(crate) fn condition_number(&self, name: &QualifiedName) -> usize
        ensures { result ≡ spec.condition_number (items_in self.now.declarations.now) name.now }
    {
        match self.declarations.conditions.names.look_up(name) {
            LookUp::One(number) => number,
            LookUp::Unknown | LookUp::Several => 0,
        }
    }

    /// The item of the condition name that a name names.
    pub fn condition_item(&self, name: &QualifiedName) -> Result<ItemIndex, AllocError>
        ensures { IfOk result
            (λ index. index ≡ spec.condition_item (items_in self.now.declarations.now) name.now) }
    {
        let number = self.condition_number(name);
        let item = match self.declarations.conditions.conditions.get(number) {
            Some(found) => found.item,
            None => 0,
        };
        let number = entry_number(item)?;
        Ok(ItemIndex { number })
    }

    /// The values of the condition name that a name names.
    pub(crate) fn values_named(&self, name: &QualifiedName) -> &[ValueRange]
        ensures { result.now ≡ spec.values_named (items_in self.now.declarations.now) name.now }
    {
        let number = self.condition_number(name);
        match self.declarations.conditions.conditions.get(number) {
            Some(found) => found.condition.values.as_slice(),
            None => &[],
        }
    }

    /// A condition name: its item is taken, in the occurrence referred to, and compared with each value.
    pub(crate) fn emit_condition_name(
        &self,
        code: &mut Code,
        one: &Reference,
    ) -> Result<(), AllocError>
        requires entries { entry_rules self.now.declarations.now.storage.now ≡ [] }
        requires rules { condition_name_rules (items_in self.now.declarations.now) one.now ≡ [] }
        ensures { OnOk result (code.new ≡ append code.old
            (spec.condition_name_fragment (items_in self.now.declarations.now) one.now code.old)) }
    {
        let item = self.condition_item(&one.item)?;
        emit_work(code, DataInstruction::Place { item })?;
        let dimensions = self.dimensions_at(item.number as usize);
        self.emit_subscripts(code, dimensions, one.subscripts.as_slice())?;
        emit_works(code, &[DataInstruction::Take, DataInstruction::ClearTruth])?;
        emit_values(self.alloc, code, self.values_named(&one.item))
    }
}

/// The sender compared with a value, where it is one alone; else with what lies from it to the last one.
fn emit_range(alloc: Global, code: &mut Code, one: &ValueRange) -> Result<(), AllocError>
    requires { HasForms one.now.first one.now.last }
    ensures { OnOk result
        (code.new ≡ append code.old (spec.value_range_fragment one.now code.old)) }
{
    let first = put_sender(alloc, code, &one.first.value)?;
    let Some(last) = &one.last else {
        let literal = first;
        return emit_work(code, DataInstruction::Test(Test::OrEqual { literal }));
    };
    put_sender(alloc, code, &last.value)?;
    emit_work(code, DataInstruction::Test(Test::OrWithin { first }))
}

/// The sender compared with each value.
fn emit_values(alloc: Global, code: &mut Code, all: &[ValueRange]) -> Result<(), AllocError>
    requires { AreFormedValues all.now }
    ensures { OnOk result (code.new ≡ append code.old (spec.values_fragment all.now code.old)) }
{
    for one in all {
        emit_range(alloc, code, one)?;
    }
    Ok(())
}
