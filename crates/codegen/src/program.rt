//! The code of a program.

ghost use Rattle.std.specs.Prelude.{◌≡◌, [], length, IfOk, OnOk};
ghost use Rattle.source_tree.specs.Given.{RunInput};
ghost use Rattle.source_tree.specs.Setting.{scope};
ghost use Rattle.source_tree.specs.ProgramFiles as described;
ghost use Rattle.source_tree.specs.Records.{program_areas};
ghost use Rattle.source_tree.specs.Meaning.{Run, meaning};
ghost use Rattle.source_tree.specs.Rules.{program_rules};
ghost use Rattle.file_image.specs.Files.{entries_of};
ghost use Rattle.code_image.specs.Demands.{IsVerified};
ghost use Rattle.code_image.specs.Table.{Runs};
ghost use Rattle.declarations.specs.Named.{Declares};
ghost use Rattle.condition_codegen.specs.Fragments.{empty_code, no_tables};
ghost use Rattle.codegen.specs.Layout.{code_of};

use crate::emit::emit_sections;
use crate::storage::{code_with, put_storage};
use answers::beside;
use code_image::Code;
use condition_codegen::Emitter;
use declarations::{Checked, Declarations};
use initial_storage::InitialStorage;
use source_tree::Program;
use std::alloc::{AllocError, Global};

/// The code of a program that keeps the rules. It is refused for want of memory alone.
pub fn generate(alloc: Global, checked: &Checked<'_>) -> Result<Code, AllocError>
    ensures layout { IfOk result (λ code. code ≡ code_of checked.now) }
    // Whatever it is given, the code's run is what the tree means,
    ensures ends { IfOk result
        (λ code. (given : RunInput) → Runs code given (meaning checked.now given)) }
    // and nothing else is.
    ensures ends_only { IfOk result (λ code. (given : RunInput) (run : Run) → Runs code given run
        → run ≡ meaning checked.now given) }
    // There is one file for each SELECT.
    ensures files { IfOk result (λ code. length code.files ≡ length checked.now.selects) }
    // Each file is what its SELECT and FD say.
    ensures entries { IfOk result (λ code. entries_of code.tables code.files
        ≡ described.entries_of (scope checked.now).files) }
    // A machine can run it.
    ensures verified { IfOk result (λ code. IsVerified code) }
{
    program_code(alloc, checked.program(), checked.declarations())
}

/// The code of the program that declares this.
fn program_code(
    alloc: Global,
    program: &Program,
    declarations: &Declarations<'_>,
) -> Result<Code, AllocError>
    requires program { Declares program.now declarations.now }
    requires rules { program_rules program.now ≡ [] }
    ensures { IfOk result (λ code. code ≡ code_of program.now) }
{
    let initial = InitialStorage::of(alloc, program)?;
    let mut code = code_with(alloc, initial.areas);
    let emitted = emit_program(alloc, program, declarations, &mut code);
    let (code, ()) = beside(code, emitted)?;
    Ok(code)
}

/// The same, where the code has the areas and nothing else yet.
fn emit_program(
    alloc: Global,
    program: &Program,
    declarations: &Declarations<'_>,
    code: &mut Code,
) -> Result<(), AllocError>
    requires code { code.old
        ≡ record empty_code { tables = record no_tables { areas = program_areas program.now } } }
    requires program { Declares program.now declarations.now }
    requires rules { program_rules program.now ≡ [] }
    ensures { OnOk result (code.new ≡ code_of program.now) }
{
    put_storage(alloc, declarations, code)?;
    let emitter = Emitter {
        alloc,
        declarations,
    };
    emit_sections(&emitter, code, program.sections.as_slice())
}
