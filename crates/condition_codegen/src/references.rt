//! The code of references and their subscripts (COBOL-85, Nucleus, "Subscripting").

ghost use Rattle.std.specs.Prelude.{◌≡◌, [], ◌∷◌, pos, OnOk, slice_get};
ghost use Rattle.source_tree.specs.Broken.{each};
ghost use Rattle.source_tree.specs.Integers as written;
ghost use Rattle.source_tree.specs.NameRules.{integer_rules, adjustment_rules, subscript_rules, number_rules_of};
ghost use Rattle.data_instructions.specs.Codes.{integer, index_code};
ghost use Rattle.declarations.specs.Named.{items_in};
ghost use Rattle.condition_codegen.specs.Fragments.{append, plain_code, sequence};
ghost use Rattle.condition_codegen.specs.DataCode as spec;

use crate::emitter::{Emitter, entry_number};
use code_image::{Code, Instruction};
use data_instructions::{Calculation, DataInstruction, NumberIndex};
use decimal18::{Dec, number_after};
use source_tree::{Adjustment, Dimension, Integer, Reference, Subscript};
use std::alloc::AllocError;

/// An instruction on data.
pub fn emit_work(code: &mut Code, one: DataInstruction) -> Result<(), AllocError>
    ensures { OnOk result (code.new ≡ append code.old (spec.work_fragment one code.old)) }
{
    emit_instruction(code, Instruction::Data(one))
}

/// Instructions on data, in order.
pub fn emit_works(code: &mut Code, all: &[DataInstruction]) -> Result<(), AllocError>
    ensures { OnOk result (code.new ≡ append code.old (spec.works_fragment all.now code.old)) }
{
    for one in all {
        emit_work(code, *one)?;
    }
    Ok(())
}

/// An instruction.
pub(crate) fn emit_instruction(code: &mut Code, one: Instruction) -> Result<(), AllocError>
    ensures { OnOk result (code.new ≡ append code.old (plain_code (one ∷ []))) }
{
    code.instructions.push(one)
}

/// A number, on the stack of numbers.
pub(crate) fn emit_number(code: &mut Code, one: Dec) -> Result<(), AllocError>
    ensures { OnOk result (code.new ≡ append code.old (spec.number_fragment one code.old)) }
{
    let number = entry_number(code.tables.numbers.len())?;
    code.tables.numbers.push(one)?;
    let number = NumberIndex { number };
    emit_work(code, DataInstruction::Literal { number })
}

/// The number that an integer is.
fn number_of(one: &Integer) -> Dec
    requires { integer_rules one.now ≡ [] }
    ensures { result ≡ integer (pos (written.number_of one.now)) }
{
    let Some(number) = number_after(0, one.digits.as_slice()) else {
        unreachable!()
    };
    Dec::from_parts(false, u128::from(number), 0)
}

/// An integer, on the stack of numbers.
fn emit_integer(code: &mut Code, one: &Integer) -> Result<(), AllocError>
    requires { integer_rules one.now ≡ [] }
    ensures { OnOk result
        (code.new ≡ append code.old (spec.integer_fragment (written.number_of one.now) code.old)) }
{
    emit_number(code, number_of(one))
}

/// What is added to the item of a subscript.
fn emit_adjustment(code: &mut Code, one: &Adjustment) -> Result<(), AllocError>
    requires { adjustment_rules one.now ≡ [] }
    ensures { OnOk result (code.new ≡ append code.old (spec.adjustment_fragment one.now code.old)) }
{
    match one {
        Adjustment::Nothing => Ok(()),
        Adjustment::Plus(integer) => {
            emit_integer(code, integer)?;
            emit_work(code, DataInstruction::Calculate(Calculation::Add))
        }
        Adjustment::Minus(integer) => {
            emit_integer(code, integer)?;
            emit_work(code, DataInstruction::Calculate(Calculation::Subtract))
        }
    }
}

/// The range of a subscript, whose number is on the stack.
fn emit_range(code: &mut Code, one: Dimension) -> Result<(), AllocError>
    ensures { OnOk result
        (code.new ≡ append code.old (spec.work_fragment (index_code one) code.old)) }
{
    let Dimension { stride, count } = one;
    emit_work(code, DataInstruction::Index { stride, count })
}

impl<'a> Emitter<'a> {
    /// The number of a subscript, on the stack of numbers.
    pub(crate) fn emit_subscript(&self, code: &mut Code, one: &Subscript) -> Result<(), AllocError>
        requires rules { subscript_rules (items_in self.now.declarations.now) one.now ≡ [] }
        ensures { OnOk result (code.new ≡ append code.old
            (spec.subscript_fragment (items_in self.now.declarations.now) one.now code.old)) }
    {
        match one {
            Subscript::Literal(integer) => emit_integer(code, integer),
            Subscript::Item { item, adjustment } => {
                let item = self.item_index(item)?;
                emit_works(
                    code,
                    &[DataInstruction::Place { item }, DataInstruction::Push],
                )?;
                emit_adjustment(code, adjustment)
            }
        }
    }

    /// A subscript, and its range.
    fn emit_indexing(
        &self,
        code: &mut Code,
        dimension: Dimension,
        one: &Subscript,
    ) -> Result<(), AllocError>
        requires rules { subscript_rules (items_in self.now.declarations.now) one.now ≡ [] }
        ensures { OnOk result (code.new ≡ append code.old
            (sequence (spec.subscript_fragment (items_in self.now.declarations.now) one.now)
            (spec.work_fragment (index_code dimension)) code.old)) }
    {
        self.emit_subscript(code, one)?;
        emit_range(code, dimension)
    }

    /// Subscripts in turn, with the dimensions of their item.
    pub fn emit_subscripts(
        &self,
        code: &mut Code,
        dimensions: &[Dimension],
        subscripts: &[Subscript],
    ) -> Result<(), AllocError>
        requires rules { each (subscript_rules (items_in self.now.declarations.now)) subscripts.now
            ≡ [] }
        ensures { OnOk result (code.new ≡ append code.old (spec.subscripts_fragment
            (items_in self.now.declarations.now) dimensions.now subscripts.now code.old)) }
    {
        for (number, dimension) in dimensions.iter().enumerate() {
            let Some(one) = subscripts.get(number) else {
                return Ok(());
            };
            self.emit_indexing(code, *dimension, one)?;
        }
        Ok(())
    }

    /// The place of a reference, on the stack of places.
    pub fn emit_reference(&self, code: &mut Code, one: &Reference) -> Result<(), AllocError>
        requires rules { number_rules_of (items_in self.now.declarations.now) one.now ≡ [] }
        ensures { OnOk result (code.new ≡ append code.old
            (spec.reference_fragment (items_in self.now.declarations.now) one.now code.old)) }
    {
        let number = self.item_number(&one.item);
        self.emit_place(code, number, one)?;
        let dimensions = self.dimensions_at(number);
        self.emit_subscripts(code, dimensions, one.subscripts.as_slice())?;
        self.emit_making(code, self.length_at(number), &one.part)
    }

    /// A reference, and an instruction that takes its place.
    pub fn emit_taking(
        &self,
        code: &mut Code,
        taking: DataInstruction,
        one: &Reference,
    ) -> Result<(), AllocError>
        requires rules { number_rules_of (items_in self.now.declarations.now) one.now ≡ [] }
        ensures { OnOk result (code.new ≡ append code.old
            (spec.take_fragment (items_in self.now.declarations.now) taking one.now code.old)) }
    {
        self.emit_reference(code, one)?;
        emit_work(code, taking)
    }
}
