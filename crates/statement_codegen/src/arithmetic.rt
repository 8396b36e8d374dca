//! The code of arithmetic statements, without their phrases (COBOL-85, Nucleus, "Arithmetic statements").

ghost use Rattle.std.specs.Prelude.{◌≡◌, [], ◌∷◌, ◌++◌, OnOk};
ghost use Rattle.source_tree.specs.Broken.{each};
ghost use Rattle.source_tree.specs.NameRules.{number_rules_of, reference_rules};
ghost use Rattle.source_tree.specs.ArithmeticRules.{number_receiver, number_rules, updated_rules, given_rules, operation_rules};
ghost use Rattle.data_instructions.specs.ArithmeticCodes as codes;
ghost use Rattle.data_instructions.specs.declared.calculation.Calculation.TheVariants as c;
ghost use Rattle.data_instructions.specs.declared.instruction.DataInstruction.TheVariants as i;
ghost use Rattle.declarations.specs.Named.{items_in};
ghost use Rattle.condition_codegen.specs.Fragments.{append, sequence};
ghost use Rattle.condition_codegen.specs.DataCode.{work_fragment, works_fragment};
ghost use Rattle.condition_codegen.specs.ArithmeticCode as spec;
ghost use Rattle.statement_codegen.specs.Operations as parts;

use code_image::Code;
use condition_codegen::{Emitter, emit_work, emit_works, operator_code};
use data_instructions::{Calculation, DataInstruction};
use source_tree::{DivisionOrder, Operand, Operation, Operator, Receiver, Reference};
use sqlite_items::Items;
use std::alloc::AllocError;

/// Discards the newest number.
pub fn discard() -> DataInstruction
    ensures { result ≡ codes.discard }
{
    DataInstruction::Calculate(Calculation::Discard)
}

/// A receiver becomes what it holds, with the newest number on the right of an operator.
pub fn emit_update(
    emitter: &Emitter<'_>,
    code: &mut Code,
    keep: bool,
    operator: Operator,
    rounded: bool,
    item: &Reference,
) -> Result<(), AllocError>
    requires rules { number_rules_of (items_in emitter.now.declarations.now) item.now ≡ [] }
    ensures { OnOk result
        (code.new ≡ append code.old (spec.update_fragment (items_in emitter.now.declarations.now)
        keep operator (record { item = item.now; rounded = rounded }) code.old)) }
{
    emitter.emit_taking(code, DataInstruction::Push, item)?;
    emit_works(code, &[duplicate(1), operator_code(operator)])?;
    emitter.emit_taking(code, DataInstruction::Store { rounded, keep }, item)
}

/// An arithmetic statement, after its `tick` and before its phrases. `keep`: there is an ON SIZE ERROR phrase.
pub fn emit_arithmetic(
    emitter: &Emitter<'_>,
    code: &mut Code,
    keep: bool,
    one: &Operation,
) -> Result<(), AllocError>
    requires rules { operation_rules (items_in emitter.now.declarations.now) one.now ≡ [] }
    ensures { OnOk result (code.new ≡ append code.old
        (spec.arithmetic_fragment (items_in emitter.now.declarations.now) keep one.now code.old)) }
{
    emit_work(code, DataInstruction::ClearTruth)?;
    emit_operation(emitter, code, keep, one)
}

/// A number of the stack again, so many below the newest one.
fn duplicate(depth: u32) -> DataInstruction
    ensures { result ≡ codes.duplicate depth }
{
    DataInstruction::Calculate(Calculation::Duplicate { depth })
}

/// From a dividend, a divisor and their quotient the remainder. Where the quotient was kept there is none.
fn emit_subtracted(code: &mut Code, scale: u8, keep: bool) -> Result<(), AllocError>
    ensures { OnOk result (code.new ≡ append code.old (works_fragment (i.Calculate (c.Truncate
        scale) ∷ i.Calculate c.Multiply ∷ i.Calculate c.Subtract ∷ spec.void_code keep) code.old)) }
{
    let truncate = DataInstruction::Calculate(Calculation::Truncate { scale });
    let multiply = operator_code(Operator::Multiply);
    let subtract = operator_code(Operator::Subtract);
    if keep {
        return emit_works(
            code,
            &[truncate, multiply, subtract, DataInstruction::VoidIfTrue],
        );
    }
    emit_works(code, &[truncate, multiply, subtract])
}

fn emit_updates(
    emitter: &Emitter<'_>,
    code: &mut Code,
    keep: bool,
    operator: Operator,
    all: &[Receiver],
) -> Result<(), AllocError>
    requires rules { updated_rules (items_in emitter.now.declarations.now) all.now ≡ [] }
    ensures { OnOk result (code.new ≡ append code.old (spec.updates_fragment
        (items_in emitter.now.declarations.now) keep operator all.now code.old)) }
{
    for one in all {
        emit_update(emitter, code, keep, operator, one.rounded, &one.item)?;
    }
    Ok(())
}

/// Receivers become what they hold, with the newest number, which is taken.
fn emit_updating(
    emitter: &Emitter<'_>,
    code: &mut Code,
    keep: bool,
    operator: Operator,
    all: &Items<Receiver>,
) -> Result<(), AllocError>
    requires rules { updated_rules (items_in emitter.now.declarations.now) all.now ≡ [] }
    ensures { OnOk result (code.new ≡ append code.old (sequence (spec.updates_fragment (items_in
        emitter.now.declarations.now) keep operator all.now) parts.discard_fragment code.old)) }
{
    emit_updates(emitter, code, keep, operator, all.as_slice())?;
    emit_work(code, discard())
}

/// A receiver becomes the newest number, which stays.
fn emit_give(
    emitter: &Emitter<'_>,
    code: &mut Code,
    keep: bool,
    one: &Receiver,
) -> Result<(), AllocError>
    requires rules { number_rules_of (items_in emitter.now.declarations.now) one.now.item ≡ [] }
    ensures { OnOk result (code.new ≡ append code.old
        (spec.give_fragment (items_in emitter.now.declarations.now) keep one.now code.old)) }
{
    emit_work(code, duplicate(0))?;
    let rounded = one.rounded;
    emitter.emit_taking(code, DataInstruction::Store { rounded, keep }, &one.item)
}

fn emit_gives(
    emitter: &Emitter<'_>,
    code: &mut Code,
    keep: bool,
    all: &[Receiver],
) -> Result<(), AllocError>
    requires rules { given_rules (items_in emitter.now.declarations.now) all.now ≡ [] }
    ensures { OnOk result (code.new ≡ append code.old
        (spec.gives_fragment (items_in emitter.now.declarations.now) keep all.now code.old)) }
{
    for one in all {
        emit_give(emitter, code, keep, one)?;
    }
    Ok(())
}

/// Receivers become the newest number, which is taken.
fn emit_giving(
    emitter: &Emitter<'_>,
    code: &mut Code,
    keep: bool,
    all: &Items<Receiver>,
) -> Result<(), AllocError>
    requires rules { given_rules (items_in emitter.now.declarations.now) all.now ≡ [] }
    ensures { OnOk result (code.new ≡ append code.old (sequence (spec.gives_fragment
        (items_in emitter.now.declarations.now) keep all.now) parts.discard_fragment code.old)) }
{
    emit_gives(emitter, code, keep, all.as_slice())?;
    emit_work(code, discard())
}

/// Receivers become the newest number without the one below; both are taken.
fn emit_difference(
    emitter: &Emitter<'_>,
    code: &mut Code,
    keep: bool,
    all: &Items<Receiver>,
) -> Result<(), AllocError>
    requires rules { given_rules (items_in emitter.now.declarations.now) all.now ≡ [] }
    ensures { OnOk result (code.new ≡ append code.old
        (sequence (works_fragment (codes.duplicate 1 ∷ i.Calculate c.Subtract ∷ []))
        (sequence (spec.gives_fragment (items_in emitter.now.declarations.now) keep all.now)
        (works_fragment (codes.discard ∷ codes.discard ∷ []))) code.old)) }
{
    emit_works(code, &[duplicate(1), operator_code(Operator::Subtract)])?;
    emit_gives(emitter, code, keep, all.as_slice())?;
    emit_works(code, &[discard(), discard()])
}

/// Receivers become what an operator makes of the two newest numbers, which are taken.
fn emit_computed(
    emitter: &Emitter<'_>,
    code: &mut Code,
    keep: bool,
    operator: Operator,
    all: &Items<Receiver>,
) -> Result<(), AllocError>
    requires rules { given_rules (items_in emitter.now.declarations.now) all.now ≡ [] }
    ensures { OnOk result (code.new ≡ append code.old
        (sequence (work_fragment (codes.operator_code operator)) (sequence (spec.gives_fragment
        (items_in emitter.now.declarations.now) keep all.now) parts.discard_fragment) code.old)) }
{
    emit_work(code, operator_code(operator))?;
    emit_giving(emitter, code, keep, all)
}

/// What DIVIDE with GIVING does with its operands.
fn emit_quotient_giving(
    emitter: &Emitter<'_>,
    code: &mut Code,
    keep: bool,
    order: DivisionOrder,
    all: &Items<Receiver>,
) -> Result<(), AllocError>
    requires rules { given_rules (items_in emitter.now.declarations.now) all.now ≡ [] }
    ensures { OnOk result (code.new ≡ append code.old (spec.division_fragment order
        (sequence (work_fragment (i.Calculate c.Divide)) (sequence (spec.gives_fragment
        (items_in emitter.now.declarations.now) keep all.now) parts.discard_fragment)) code.old)) }
{
    match order {
        DivisionOrder::By => emit_computed(emitter, code, keep, Operator::Divide, all),
        DivisionOrder::Into => {
            emit_work(code, duplicate(1))?;
            emit_computed(emitter, code, keep, Operator::Divide, all)?;
            emit_work(code, discard())
        }
    }
}

/// The quotient and the remainder of the two newest numbers, which are taken.
fn emit_remainder(
    emitter: &Emitter<'_>,
    code: &mut Code,
    keep: bool,
    quotient: &Receiver,
    remainder: &Reference,
) -> Result<(), AllocError>
    requires rules { reference_rules (items_in emitter.now.declarations.now) number_receiver
        quotient.now.item ++ reference_rules (items_in emitter.now.declarations.now)
        number_receiver remainder.now ≡ [] }
    ensures { OnOk result (code.new ≡ append code.old (spec.remainder_fragment
        (items_in emitter.now.declarations.now) keep quotient.now remainder.now code.old)) }
{
    emit_works(
        code,
        &[duplicate(1), duplicate(1), operator_code(Operator::Divide)],
    )?;
    emit_give(emitter, code, keep, quotient)?;
    emit_subtracted(code, emitter.scale_kept(&quotient.item.item), keep)?;
    let rounded = false;
    emitter.emit_taking(code, DataInstruction::Store { rounded, keep }, remainder)
}

/// What DIVIDE with REMAINDER does with its operands.
fn emit_remainder_giving(
    emitter: &Emitter<'_>,
    code: &mut Code,
    keep: bool,
    order: DivisionOrder,
    quotient: &Receiver,
    remainder: &Reference,
) -> Result<(), AllocError>
    requires rules { reference_rules (items_in emitter.now.declarations.now) number_receiver
        quotient.now.item ++ reference_rules (items_in emitter.now.declarations.now)
        number_receiver remainder.now ≡ [] }
    ensures { OnOk result
        (code.new ≡ append code.old (spec.division_fragment order (spec.remainder_fragment
        (items_in emitter.now.declarations.now) keep quotient.now remainder.now) code.old)) }
{
    match order {
        DivisionOrder::By => emit_remainder(emitter, code, keep, quotient, remainder),
        DivisionOrder::Into => {
            emit_work(code, duplicate(1))?;
            emit_remainder(emitter, code, keep, quotient, remainder)?;
            emit_work(code, discard())
        }
    }
}

fn emit_pair(
    emitter: &Emitter<'_>,
    code: &mut Code,
    first: &Operand,
    second: &Operand,
) -> Result<(), AllocError>
    requires rules { number_rules (items_in emitter.now.declarations.now) first.now
        ++ number_rules (items_in emitter.now.declarations.now) second.now ≡ [] }
    ensures { OnOk result (code.new ≡ append
        code.old (sequence (spec.value_fragment (items_in emitter.now.declarations.now) first.now)
        (spec.value_fragment (items_in emitter.now.declarations.now) second.now) code.old)) }
{
    emitter.emit_value(code, first)?;
    emitter.emit_value(code, second)
}

fn emit_total_and(
    emitter: &Emitter<'_>,
    code: &mut Code,
    all: &[Operand],
    minuend: &Operand,
) -> Result<(), AllocError>
    requires rules { each (number_rules (items_in emitter.now.declarations.now)) all.now
        ++ number_rules (items_in emitter.now.declarations.now) minuend.now ≡ [] }
    ensures { OnOk result (code.new ≡ append
        code.old (sequence (spec.total_fragment (items_in emitter.now.declarations.now) all.now)
        (spec.value_fragment (items_in emitter.now.declarations.now) minuend.now) code.old)) }
{
    emitter.emit_total(code, all)?;
    emitter.emit_value(code, minuend)
}

/// The values that an operation begins with, on the stack of numbers.
fn emit_values(emitter: &Emitter<'_>, code: &mut Code, one: &Operation) -> Result<(), AllocError>
    requires rules { parts.values_rules (items_in emitter.now.declarations.now) one.now ≡ [] }
    ensures { OnOk result (code.new ≡ append code.old
        (parts.values_fragment (items_in emitter.now.declarations.now) one.now code.old)) }
{
    match one {
        Operation::Add { operands, .. } => emitter.emit_total(code, operands.as_slice()),
        Operation::AddGiving { operands, .. } => emitter.emit_total(code, operands.as_slice()),
        Operation::Subtract { operands, .. } => emitter.emit_total(code, operands.as_slice()),
        Operation::SubtractGiving {
            operands,
            minuend,
            ..
        } => emit_total_and(emitter, code, operands.as_slice(), minuend),
        Operation::Multiply { factor, .. } => emitter.emit_value(code, factor),
        Operation::MultiplyGiving { factor, by, .. } => emit_pair(emitter, code, factor, by),
        Operation::Divide { divisor, .. } => emitter.emit_value(code, divisor),
        Operation::DivideGiving { first, second, .. } => emit_pair(emitter, code, first, second),
        Operation::DivideRemainder { first, second, .. } => emit_pair(emitter, code, first, second),
        Operation::Compute { value, .. } => emitter.emit_expression(code, value),
    }
}

/// The code that computes the results from those values, which it takes.
fn emit_results(
    emitter: &Emitter<'_>,
    code: &mut Code,
    keep: bool,
    one: &Operation,
) -> Result<(), AllocError>
    requires rules { parts.results_rules (items_in emitter.now.declarations.now) one.now ≡ [] }
    ensures { OnOk result (code.new ≡ append code.old
        (parts.results_fragment (items_in emitter.now.declarations.now) keep one.now code.old)) }
{
    match one {
        Operation::Add { receivers, .. } => {
            emit_updating(emitter, code, keep, Operator::Add, receivers)
        }
        Operation::AddGiving { receivers, .. } => emit_giving(emitter, code, keep, receivers),
        Operation::Subtract { receivers, .. } => {
            emit_updating(emitter, code, keep, Operator::Subtract, receivers)
        }
        Operation::SubtractGiving { receivers, .. } => {
            emit_difference(emitter, code, keep, receivers)
        }
        Operation::Multiply { receivers, .. } => {
            emit_updating(emitter, code, keep, Operator::Multiply, receivers)
        }
        Operation::MultiplyGiving { receivers, .. } => {
            emit_computed(emitter, code, keep, Operator::Multiply, receivers)
        }
        Operation::Divide { receivers, .. } => {
            emit_updating(emitter, code, keep, Operator::Divide, receivers)
        }
        Operation::DivideGiving {
            order,
            receivers,
            ..
        } => emit_quotient_giving(emitter, code, keep, *order, receivers),
        Operation::DivideRemainder {
            order,
            quotient,
            remainder,
            ..
        } => emit_remainder_giving(emitter, code, keep, *order, quotient, remainder),
        Operation::Compute { receivers, .. } => emit_giving(emitter, code, keep, receivers),
    }
}

/// What an operation computes and stores.
#[tactic(auto, using(crate::proofs::Operations::operation_parts))]
fn emit_operation(
    emitter: &Emitter<'_>,
    code: &mut Code,
    keep: bool,
    one: &Operation,
) -> Result<(), AllocError>
    requires rules { operation_rules (items_in emitter.now.declarations.now) one.now ≡ [] }
    ensures { OnOk result (code.new ≡ append code.old
        (spec.operation_fragment (items_in emitter.now.declarations.now) keep one.now code.old)) }
{
    emit_values(emitter, code, one)?;
    emit_results(emitter, code, keep, one)
}
