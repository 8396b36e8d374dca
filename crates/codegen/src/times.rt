//! The code of PERFORM with TIMES (COBOL-85, Nucleus, "The PERFORM statement").

ghost use Rattle.std.specs.Prelude.{◌≡◌, [], length, OnOk, IfOk};
ghost use Rattle.source_tree.specs.EntryRules.{entry_rules};
ghost use Rattle.source_tree.specs.NameRules.{reference_rules};
ghost use Rattle.source_tree.specs.Performing.{turns_of};
ghost use Rattle.source_tree.specs.Rules.{integer_item};
ghost use Rattle.declarations.specs.Named.{items_in, scope_in};
ghost use Rattle.condition_codegen.specs.Fragments.{append, sequence};
ghost use Rattle.condition_codegen.specs.DataCode.{take_fragment};
ghost use Rattle.codegen.specs.Layout.{loop_begin, count_begin, turn_end, times_fragment, counted_fragment, turn_fragment, statement_fragment};
ghost use Rattle.codegen.specs.Turns.{KeepsPerformed};
ghost use Rattle.data_instructions.specs.declared.instruction.DataInstruction.TheVariants as i;

use crate::emit::emit_turn;
use code_image::{Code, CounterIndex, Instruction};
use condition_codegen::{Emitter, emit_branch, emit_jump, emit_meeting};
use data_instructions::DataInstruction;
use source_tree::{Integer, Performed, Reference, Statement};
use std::alloc::AllocError;

/// How many turns an integer before TIMES says.
pub(crate) fn count_of(integer: &Integer) -> u64
    ensures { result ≡ turns_of integer.now }
{
    let mut count = 0u64;
    for digit in integer.digits.as_slice() {
        count = count
            .saturating_mul(10)
            .saturating_add(u64::from(digit.saturating_sub(b'0')));
    }
    count
}

/// So many turns.
#[cycle(statement)]
pub(crate) fn emit_times(
    emitter: &Emitter<'_>,
    code: &mut Code,
    line: u32,
    count: u64,
    one: &Performed<Statement>,
) -> Result<(), AllocError>
    requires entries { entry_rules emitter.now.declarations.now.storage.now ≡ [] }
    requires rules { KeepsPerformed emitter.now.declarations.now one.now }
    ensures { OnOk result (code.new ≡ append
        code.old (times_fragment count (turn_fragment (scope_in emitter.now.declarations.now)
        (statement_fragment (scope_in emitter.now.declarations.now)) line one.now) code.old)) }
{
    if count == 0 {
        return Ok(());
    }
    let begin = emit_loop_begin(code, count - 1)?;
    let to = code.instructions.len();
    emit_turn(emitter, code, line, one)?;
    emit_turn_end(code, begin, to)
}

/// As many turns as an item says.
#[cycle(statement)]
pub(crate) fn emit_counted(
    emitter: &Emitter<'_>,
    code: &mut Code,
    line: u32,
    item: &Reference,
    one: &Performed<Statement>,
) -> Result<(), AllocError>
    requires entries { entry_rules emitter.now.declarations.now.storage.now ≡ [] }
    requires item { reference_rules (items_in emitter.now.declarations.now) integer_item item.now
        ≡ [] }
    requires rules { KeepsPerformed emitter.now.declarations.now one.now }
    ensures { OnOk result (code.new ≡ append
        code.old (sequence (take_fragment (items_in emitter.now.declarations.now) i.Push item.now)
        (counted_fragment (turn_fragment (scope_in emitter.now.declarations.now)
        (statement_fragment (scope_in emitter.now.declarations.now)) line one.now)) code.old)) }
{
    emitter.emit_taking(code, DataInstruction::Push, item)?;
    let begin = emit_count_begin(code)?;
    let branch = emit_branch(code)?;
    let to = code.instructions.len();
    emit_turn(emitter, code, line, one)?;
    emit_turn_end(code, begin, to)?;
    let other = emit_jump(code)?;
    emit_meeting(code, branch, other)
}

/// A loop begins that has so many turns after the first. Answers its address.
fn emit_loop_begin(code: &mut Code, more: u64) -> Result<usize, AllocError>
    ensures code { OnOk result (code.new ≡ append code.old (loop_begin more code.old)) }
    ensures begin { IfOk result (λ begin. begin ≡ length code.old.instructions) }
{
    let number = code.instructions.len();
    code.instructions.push(Instruction::Count {
        counter: CounterIndex { number },
        turns: more,
    })?;
    Ok(number)
}

/// A loop begins that has as many turns as the newest number says. Answers its address.
fn emit_count_begin(code: &mut Code) -> Result<usize, AllocError>
    ensures code { OnOk result (code.new ≡ append code.old (count_begin code.old)) }
    ensures begin { IfOk result (λ begin. begin ≡ length code.old.instructions) }
{
    let number = code.instructions.len();
    let counter = CounterIndex { number };
    code.instructions
        .push(Instruction::CountNumber { counter })?;
    Ok(number)
}

/// The end of a turn of the loop that begins at this address, back to where each turn begins.
fn emit_turn_end(code: &mut Code, begin: usize, to: usize) -> Result<(), AllocError>
    ensures { OnOk result (code.new ≡ append code.old (turn_end begin to)) }
{
    code.instructions.push(Instruction::Turn {
        counter: CounterIndex { number: begin },
        to,
    })
}
