//! The code of MOVE (COBOL-85, Nucleus, "The MOVE statement").

ghost use Rattle.std.specs.Prelude.{◌≡◌, [], OnOk};
ghost use Rattle.source_tree.specs.declared.reference.Reference.{Reference};
ghost use Rattle.source_tree.specs.Broken.{each};
ghost use Rattle.source_tree.specs.NameRules.{number_rules_of};
ghost use Rattle.source_tree.specs.MoveRules.{move_rules};
ghost use Rattle.declarations.specs.Named.{items_in};
ghost use Rattle.condition_codegen.specs.Fragments.{append};
ghost use Rattle.condition_codegen.specs.DataCode as spec;

use code_image::Code;
use condition_codegen::Emitter;
use data_instructions::DataInstruction;
use source_tree::{Operand, Reference};
use std::alloc::AllocError;

/// The moves to receivers, in order.
pub(crate) fn emit_receivers(
    emitter: &Emitter<'_>,
    code: &mut Code,
    all: &[Reference],
) -> Result<(), AllocError>
    requires rules { each (number_rules_of (items_in emitter.now.declarations.now)) all.now ≡ [] }
    ensures { OnOk result (code.new ≡ append code.old
        (spec.receivers_fragment (items_in emitter.now.declarations.now) all.now code.old)) }
{
    for one in all {
        emitter.emit_taking(code, DataInstruction::Move, one)?;
    }
    Ok(())
}

/// MOVE of a sender to receivers, after its `tick`.
pub fn emit_move(
    emitter: &Emitter<'_>,
    code: &mut Code,
    sender: &Operand,
    receivers: &[Reference],
) -> Result<(), AllocError>
    requires rules { move_rules (items_in emitter.now.declarations.now) sender.now receivers.now
        ≡ [] }
    ensures { OnOk result (code.new ≡ append code.old (spec.move_fragment
        (items_in emitter.now.declarations.now) sender.now receivers.now code.old)) }
{
    emitter.emit_sender(code, sender)?;
    emit_receivers(emitter, code, receivers)
}
