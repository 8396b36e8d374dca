//! Phrases that stand, and ways one within the other that meet at the end.

ghost use Rattle.std.specs.Prelude.{◌≡◌, ◌||◌, length, OnOk};
ghost use Rattle.source_tree.specs.Arithmetic.{is_there};
ghost use Rattle.condition_codegen.specs.Fragments.{append};
ghost use Rattle.condition_codegen.specs.Meeting.{branch_code};
ghost use Rattle.std.specs.List.{AllByRecursion};
ghost use Rattle.codegen.specs.Phrases.{IsWay, met_all};

use code_image::{Code, Instruction};
use condition_codegen::emit_meeting;
use source_tree::{Phrases, Statement};
use std::alloc::AllocError;

/// Where one of two ways isn't known yet: the address of the branch, and that at which the other way begins.
#[derive(Clone, Copy, Drop)]
pub(crate) struct Way {
    pub(crate) branch: usize,
    pub(crate) other: usize,
}

/// A phrase stands.
pub(crate) fn has_phrase(one: &Phrases<Statement>) -> bool
    ensures { result ≡ (is_there one.now.arose || is_there one.now.did_not) }
{
    one.arose.is_some() || one.did_not.is_some()
}

/// Where the truth is false, back to an address.
pub(crate) fn emit_way_back(code: &mut Code, to: usize) -> Result<(), AllocError>
    ensures { OnOk result (code.new ≡ append code.old (branch_code to)) }
{
    code.instructions.push(Instruction::Branch { to })
}

/// All ways meet, the last ones first.
pub(crate) fn emit_meetings(code: &mut Code, mut ways: Vec<Way>) -> Result<(), AllocError>
    requires { AllByRecursion (IsWay (length code.old.instructions)) ways.items }
    ensures { OnOk result (code.new ≡ met_all ways.items code.old) }
{
    'ways: while let Some(way) = ways.pop() {
        emit_meeting(code, way.branch, way.other)?;
    }
    Ok(())
}
