//! The code of two ways that meet, one of which is taken by the truth.

ghost use Rattle.std.specs.Prelude.{◌≡◌, ◌+◌, ◌<◌, ◌≤◌, length, OnOk, IfOk};
ghost use Rattle.condition_codegen.specs.Fragments.{append};
ghost use Rattle.condition_codegen.specs.Meeting.{branch_code, jump_code};
ghost use Rattle.condition_codegen.specs.Phrases.{patched_code};

use crate::references::emit_instruction;
use code_image::{Code, Instruction};
use std::alloc::AllocError;

/// Where the truth is false, on to an address that isn't known yet. Answers its own address.
pub fn emit_branch(code: &mut Code) -> Result<usize, AllocError>
    ensures code { OnOk result (code.new ≡ append code.old (branch_code 0)) }
    ensures address { IfOk result (λ address. address ≡ length code.old.instructions) }
{
    let address = code.instructions.len();
    emit_instruction(code, Instruction::Branch { to: 0 })?;
    Ok(address)
}

/// On to an address that isn't known yet, and the end of the first way. Answers the address at which the other one begins.
pub fn emit_jump(code: &mut Code) -> Result<usize, AllocError>
    ensures code { OnOk result (code.new ≡ append code.old (jump_code 0)) }
    ensures other { IfOk result (λ other. other ≡ length code.old.instructions + 2) }
{
    emit_instruction(code, Instruction::Jump { to: 0 })?;
    emit_instruction(code, Instruction::Join)?;
    Ok(code.instructions.len())
}

/// The end of a way, where the other one has nothing: it begins here, and both meet.
pub(crate) fn emit_way_end(code: &mut Code, branch: usize) -> Result<(), AllocError>
    requires { branch < length code.old.instructions }
    ensures { OnOk result (code.new ≡ patched_code branch (length code.old.instructions + 2)
        (append code.old (jump_code 0))) }
{
    let other = emit_jump(code)?;
    emit_meeting(code, branch, other)
}

/// Both ways meet: the branch, and the jump in front of the other way, lead where they have to.
pub fn emit_meeting(code: &mut Code, branch: usize, other: usize) -> Result<(), AllocError>
    requires branch { branch < length code.old.instructions }
    requires jump { 2 ≤ other }
    requires other { other ≤ length code.old.instructions }
    ensures { OnOk result (code.new ≡ patched_code branch other code.old) }
{
    emit_instruction(code, Instruction::Join)?;
    let end = code.instructions.len();
    code.instructions
        .set(branch, Instruction::Branch { to: other });
    code.instructions
        .set(other - 2, Instruction::Jump { to: end });
    Ok(())
}
