//! The code of ACCEPT (COBOL-85, Nucleus, "The ACCEPT statement").

ghost use Rattle.std.specs.Prelude.{◌≡◌, [], ◌∷◌, OnOk};
ghost use Rattle.source_tree.specs.TextRules.{accept_line_rules, accept_date_rules};
ghost use Rattle.declarations.specs.Named.{items_in};
ghost use Rattle.condition_codegen.specs.Fragments.{append};
ghost use Rattle.condition_codegen.specs.DataCode as spec;

use code_image::{Code, Instruction};
use condition_codegen::Emitter;
use source_tree::Reference;
use std::alloc::AllocError;

/// ACCEPT of the console's next line, after its `tick`.
pub fn emit_accept(
    emitter: &Emitter<'_>,
    code: &mut Code,
    receiver: &Reference,
) -> Result<(), AllocError>
    requires rules { accept_line_rules (items_in emitter.now.declarations.now) receiver.now ≡ [] }
    ensures { OnOk result (code.new ≡ append code.old
        (spec.accept_fragment (items_in emitter.now.declarations.now) receiver.now code.old)) }
{
    emitter.emit_reference(code, receiver)?;
    code.instructions.push(Instruction::Accept)
}

/// ACCEPT FROM DATE, after its `tick`.
pub fn emit_date(
    emitter: &Emitter<'_>,
    code: &mut Code,
    receiver: &Reference,
) -> Result<(), AllocError>
    requires rules { accept_date_rules (items_in emitter.now.declarations.now) receiver.now ≡ [] }
    ensures { OnOk result (code.new ≡ append code.old
        (spec.date_fragment (items_in emitter.now.declarations.now) receiver.now code.old)) }
{
    emitter.emit_reference(code, receiver)?;
    code.instructions.push(Instruction::Date)
}
