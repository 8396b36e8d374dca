//! The code of OPEN and CLOSE (COBOL-85, Sequential, Relative and Indexed I-O).

ghost use Rattle.std.specs.Prelude.{◌≡◌, OnOk};
ghost use Rattle.source_tree.specs.declared.phrases.FilePhrases.TheVariants.{Absent};
ghost use Rattle.declarations.specs.Named.{items_in, files_in, scope_in};
ghost use Rattle.condition_codegen.specs.Fragments.{append, in_order};
ghost use Rattle.statement_codegen.specs.FileCode as spec;
ghost use Rattle.codegen.specs.Layout.{alone_fragment, open_fragment, close_fragment, statement_fragment};

use code_image::Code;
use condition_codegen::{Emitter, emit_branch, emit_jump, emit_meeting};
use file_image::StatusClass;
use records::Verb;
use source_tree::{Name, Opening};
use statement_codegen::{emit_file, emit_test, emit_unheard, file_named};
use std::alloc::AllocError;

/// OPEN of each file in turn.
pub(crate) fn emit_opens(
    emitter: &Emitter<'_>,
    code: &mut Code,
    all: &[Opening],
) -> Result<(), AllocError>
    ensures { OnOk result (code.new
        ≡ append code.old (in_order (open_fragment (scope_in emitter.now.declarations.now)
        (statement_fragment (scope_in emitter.now.declarations.now))) all.now code.old)) }
{
    for one in all {
        emit_alone(emitter, code, Verb::Open(one.mode), &one.file)?;
    }
    Ok(())
}

/// CLOSE of each file in turn.
pub(crate) fn emit_closes(
    emitter: &Emitter<'_>,
    code: &mut Code,
    all: &[Name],
) -> Result<(), AllocError>
    ensures { OnOk result (code.new
        ≡ append code.old (in_order (close_fragment (scope_in emitter.now.declarations.now)
        (statement_fragment (scope_in emitter.now.declarations.now))) all.now code.old)) }
{
    for one in all {
        emit_alone(emitter, code, Verb::Close, one)?;
    }
    Ok(())
}

/// A statement without phrases on the file of that name, and the code for its status.
fn emit_alone(
    emitter: &Emitter<'_>,
    code: &mut Code,
    verb: Verb,
    name: &Name,
) -> Result<(), AllocError>
    ensures { OnOk result (code.new ≡ append code.old (spec.on_name_fragment
        (items_in emitter.now.declarations.now) (files_in emitter.now.declarations.now)
        name.now (alone_fragment (scope_in emitter.now.declarations.now) (statement_fragment
        (scope_in emitter.now.declarations.now)) Absent (λ file. verb)) code.old)) }
{
    let Some(file) = file_named(emitter, name) else {
        return Ok(());
    };
    emit_file(code, verb, file)?;
    emit_test(code, StatusClass::Successful)?;
    let branch = emit_branch(code)?;
    let other = emit_jump(code)?;
    emit_unheard(emitter, code, file)?;
    emit_meeting(code, branch, other)
}
