//! The code of DISPLAY (COBOL-85, Nucleus, "The DISPLAY statement").

ghost use Rattle.std.specs.Prelude.{◌≡◌, ◌++◌, [], ◌∷◌, length, IfOk, OnOk};
ghost use Rattle.source_tree.specs.TextRules.{shown_rules, display_rules};
ghost use Rattle.declarations.specs.Named.{items_in};
ghost use Rattle.condition_codegen.specs.Fragments.{append};
ghost use Rattle.condition_codegen.specs.DataCode as spec;

use code_image::{Code, Instruction};
use condition_codegen::{Emitter, emit_work, entry_number, line_end, literal_text};
use data_instructions::{DataInstruction, TextIndex};
use source_tree::Operand;
use sqlite_items::Items;
use std::alloc::{AllocError, Global};

/// A text, in the table of texts. Answers its number there.
pub(crate) fn put_text(code: &mut Code, bytes: Items<u8>) -> Result<TextIndex, AllocError>
    ensures code { OnOk result (code.new ≡ record code.old {
      tables = record code.old.tables { texts = code.old.tables.texts ++ bytes ∷ [] };
    }) }
    ensures index { IfOk result
        (λ index. index ≡ record { number = length code.old.tables.texts }) }
{
    let number = entry_number(code.tables.texts.len())?;
    code.tables.texts.push(bytes)?;
    Ok(TextIndex { number })
}

/// A text, added to the line.
pub(crate) fn emit_text(code: &mut Code, bytes: Items<u8>) -> Result<(), AllocError>
    ensures { OnOk result (code.new ≡ append code.old (spec.text_fragment bytes code.old)) }
{
    let text = put_text(code, bytes)?;
    emit_work(code, DataInstruction::AppendLiteral { text })
}

/// DISPLAY of operands, after its `tick`.
pub fn emit_display(
    emitter: &Emitter<'_>,
    code: &mut Code,
    operands: &[Operand],
    advancing: bool,
) -> Result<(), AllocError>
    requires rules { display_rules (items_in emitter.now.declarations.now) operands.now ≡ [] }
    ensures { OnOk result (code.new ≡ append code.old (spec.display_fragment
        (items_in emitter.now.declarations.now) operands.now advancing code.old)) }
{
    emit_operands(emitter, code, operands)?;
    emit_line_end(emitter.alloc, code, advancing)?;
    emit_show(code)
}

/// The end of the line, where the statement ends it.
fn emit_line_end(alloc: Global, code: &mut Code, advancing: bool) -> Result<(), AllocError>
    ensures { OnOk result (code.new ≡ append code.old (spec.line_end_fragment advancing code.old)) }
{
    if !advancing {
        return Ok(());
    }
    emit_text(code, line_end(alloc)?)
}

/// The line is shown.
fn emit_show(code: &mut Code) -> Result<(), AllocError>
    ensures { OnOk result (code.new ≡ append code.old (spec.show_fragment code.old)) }
{
    code.instructions.push(Instruction::Show)
}

/// An operand, added to the line.
fn emit_operand(emitter: &Emitter<'_>, code: &mut Code, one: &Operand) -> Result<(), AllocError>
    requires rules { shown_rules (items_in emitter.now.declarations.now) one.now ≡ [] }
    ensures { OnOk result (code.new ≡ append code.old
        (spec.operand_fragment (items_in emitter.now.declarations.now) one.now code.old)) }
{
    match one {
        Operand::Item(reference) => emitter.emit_taking(code, DataInstruction::Append, reference),
        Operand::Literal(literal) => {
            emit_text(code, literal_text(emitter.alloc, &literal.value)?)
        }
    }
}

/// Operands, in order.
fn emit_operands(emitter: &Emitter<'_>, code: &mut Code, all: &[Operand]) -> Result<(), AllocError>
    requires rules { display_rules (items_in emitter.now.declarations.now) all.now ≡ [] }
    ensures { OnOk result (code.new ≡ append code.old
        (spec.operands_fragment (items_in emitter.now.declarations.now) all.now code.old)) }
{
    for one in all {
        emit_operand(emitter, code, one)?;
    }
    Ok(())
}
