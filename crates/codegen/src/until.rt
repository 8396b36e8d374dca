//! The code of PERFORM with UNTIL (COBOL-85, Nucleus, "The PERFORM statement").

ghost use Rattle.std.specs.Prelude.{◌≡◌, [], false, OnOk};
ghost use Rattle.source_tree.specs.EntryRules.{entry_rules};
ghost use Rattle.source_tree.specs.ConditionRules.{varying_rules, until_rules};
ghost use Rattle.declarations.specs.Named.{items_in, scope_in};
ghost use Rattle.condition_codegen.specs.Fragments.{append, sequence};
ghost use Rattle.condition_codegen.specs.Meeting.{either_fragment, nothing_fragment};
ghost use Rattle.condition_codegen.specs.DataCode.{work_fragment};
ghost use Rattle.condition_codegen.specs.ConditionCode.{condition_fragment};
ghost use Rattle.codegen.specs.UntilCode as spec;
ghost use Rattle.codegen.specs.Layout.{turn_fragment, statement_fragment};
ghost use Rattle.codegen.specs.Turns.{KeepsPerformed};
ghost use Rattle.data_instructions.specs.declared.instruction.DataInstruction.TheVariants as i;

use crate::emit::emit_turn;
use crate::phrases::emit_way_back;
use code_image::Code;
use condition_codegen::{Emitter, emit_branch, emit_jump, emit_meeting, emit_work};
use data_instructions::DataInstruction;
use source_tree::{Operator, Performed, Statement, TestTime, Until, Varying};
use statement_codegen::{discard, emit_update};
use std::alloc::AllocError;

/// Turns up to where a condition is true.
#[cycle(statement)]
pub(crate) fn emit_until(
    emitter: &Emitter<'_>,
    code: &mut Code,
    line: u32,
    one: &Until,
    performed: &Performed<Statement>,
) -> Result<(), AllocError>
    requires entries { entry_rules emitter.now.declarations.now.storage.now ≡ [] }
    requires turns { until_rules (items_in emitter.now.declarations.now) one.now ≡ [] }
    requires rules { KeepsPerformed emitter.now.declarations.now performed.now }
    ensures { OnOk result
        (code.new ≡ append code.old (spec.until_fragment (items_in emitter.now.declarations.now)
        one.now (turn_fragment (scope_in emitter.now.declarations.now) (statement_fragment
        (scope_in emitter.now.declarations.now)) line performed.now) code.old)) }
{
    emit_vary_begin(emitter, code, &one.varying)?;
    match one.test {
        TestTime::Before => emit_until_before(emitter, code, line, one, performed),
        TestTime::After => emit_until_after(emitter, code, line, one, performed),
    }
}

/// VARYING begins: FROM is moved in.
fn emit_vary_begin(
    emitter: &Emitter<'_>,
    code: &mut Code,
    one: &Option<Varying>,
) -> Result<(), AllocError>
    requires rules { varying_rules (items_in emitter.now.declarations.now) one.now ≡ [] }
    ensures { OnOk result (code.new ≡ append code.old
        (spec.vary_begin_fragment (items_in emitter.now.declarations.now) one.now code.old)) }
{
    let Some(varying) = one else {
        return Ok(());
    };
    emitter.emit_sender(code, &varying.from)?;
    emitter.emit_taking(code, DataInstruction::Move, &varying.item)
}

/// VARYING goes on: BY is added.
fn emit_vary_on(
    emitter: &Emitter<'_>,
    code: &mut Code,
    one: &Option<Varying>,
) -> Result<(), AllocError>
    requires rules { varying_rules (items_in emitter.now.declarations.now) one.now ≡ [] }
    ensures { OnOk result (code.new ≡ append code.old
        (spec.vary_on_fragment (items_in emitter.now.declarations.now) one.now code.old)) }
{
    let Some(varying) = one else {
        return Ok(());
    };
    emit_work(code, DataInstruction::ClearTruth)?;
    emitter.emit_value(code, &varying.by)?;
    emit_update(emitter, code, false, Operator::Add, false, &varying.item)?;
    emit_work(code, discard())
}

/// Where the truth is false, VARYING goes on, and the truth is false after it.
fn emit_onward(
    emitter: &Emitter<'_>,
    code: &mut Code,
    one: &Option<Varying>,
) -> Result<(), AllocError>
    requires rules { varying_rules (items_in emitter.now.declarations.now) one.now ≡ [] }
    ensures { OnOk result (code.new
        ≡ append code.old (either_fragment nothing_fragment (sequence (spec.vary_on_fragment
        (items_in emitter.now.declarations.now) one.now) (work_fragment i.ClearTruth)) code.old)) }
{
    let branch = emit_branch(code)?;
    let other = emit_jump(code)?;
    emit_vary_on(emitter, code, one)?;
    emit_work(code, DataInstruction::ClearTruth)?;
    emit_meeting(code, branch, other)
}

/// UNTIL is tested before the first turn, and at the end of each.
#[cycle(statement)]
fn emit_until_before(
    emitter: &Emitter<'_>,
    code: &mut Code,
    line: u32,
    one: &Until,
    performed: &Performed<Statement>,
) -> Result<(), AllocError>
    requires entries { entry_rules emitter.now.declarations.now.storage.now ≡ [] }
    requires turns { until_rules (items_in emitter.now.declarations.now) one.now ≡ [] }
    requires rules { KeepsPerformed emitter.now.declarations.now performed.now }
    ensures { OnOk result (code.new ≡ append code.old (spec.until_before_fragment
        (condition_fragment (items_in emitter.now.declarations.now) one.now.condition)
        (spec.vary_on_fragment (items_in emitter.now.declarations.now) one.now.varying)
        (turn_fragment (scope_in emitter.now.declarations.now) (statement_fragment
        (scope_in emitter.now.declarations.now)) line performed.now) code.old)) }
{
    emitter.emit_condition(code, &one.condition)?;
    let branch = emit_branch(code)?;
    let other = emit_jump(code)?;
    let begin = code.instructions.len();
    emit_turn(emitter, code, line, performed)?;
    emit_vary_on(emitter, code, &one.varying)?;
    emitter.emit_condition(code, &one.condition)?;
    emit_way_back(code, begin)?;
    emit_meeting(code, branch, other)
}

/// The test follows what is performed.
#[cycle(statement)]
fn emit_until_after(
    emitter: &Emitter<'_>,
    code: &mut Code,
    line: u32,
    one: &Until,
    performed: &Performed<Statement>,
) -> Result<(), AllocError>
    requires entries { entry_rules emitter.now.declarations.now.storage.now ≡ [] }
    requires turns { until_rules (items_in emitter.now.declarations.now) one.now ≡ [] }
    requires rules { KeepsPerformed emitter.now.declarations.now performed.now }
    ensures { OnOk result (code.new ≡ append code.old (spec.until_after_fragment
        (condition_fragment (items_in emitter.now.declarations.now) one.now.condition)
        (spec.vary_on_fragment (items_in emitter.now.declarations.now) one.now.varying)
        (turn_fragment (scope_in emitter.now.declarations.now) (statement_fragment
        (scope_in emitter.now.declarations.now)) line performed.now) code.old)) }
{
    let begin = code.instructions.len();
    emit_turn(emitter, code, line, performed)?;
    emitter.emit_condition(code, &one.condition)?;
    emit_onward(emitter, code, &one.varying)?;
    emit_way_back(code, begin)
}
