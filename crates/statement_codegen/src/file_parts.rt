//! The parts of the code of file statements that hold no other statements (COBOL-85, Sequential, Relative and Indexed I-O).

ghost use Rattle.std.specs.Prelude.{◌≡◌, [], ◌∷◌, is_some, IfOk, OnOk};
ghost use Rattle.source_tree.specs.Filing.{file_with_record};
ghost use Rattle.source_tree.specs.FilingRules.{from_rules, into_rules};
ghost use Rattle.source_tree.specs.LookUp.{first, items_named};
ghost use Rattle.source_tree.specs.ProgramFiles.{files_named};
ghost use Rattle.code_image.specs.declared.instruction.Instruction.TheVariants as instruction;
ghost use Rattle.file_descriptions.specs.Clauses.{NamesOne};
ghost use Rattle.file_descriptions.specs.Files.{file_in, found_in};
ghost use Rattle.declarations.specs.Named.{items_in, files_in};
ghost use Rattle.condition_codegen.specs.Fragments.{append, plain_code};
ghost use Rattle.statement_codegen.specs.FileCode as spec;

use crate::move_statement::emit_receivers;
use code_image::{Code, Instruction};
use condition_codegen::{Emitter, emit_works, entry_number};
use data_instructions::{DataInstruction, ItemIndex};
use file_descriptions::ProgramFile;
use file_image::{FileIndex, StatusClass};
use records::Verb;
use source_tree::{Name, Reference};
use std::alloc::AllocError;
use std::slice;

/// A file statement on a file.
pub fn emit_file(code: &mut Code, verb: Verb, file: &ProgramFile<'_>) -> Result<(), AllocError>
    ensures { OnOk result (code.new ≡ append code.old
        (plain_code (instruction.File (record { number = file.now.number }) verb ∷ []))) }
{
    let file = file_index(file)?;
    code.instructions.push(Instruction::File { file, verb })
}

/// Whether the last status is of this class.
pub fn emit_test(code: &mut Code, class: StatusClass) -> Result<(), AllocError>
    ensures { OnOk result (code.new ≡ append code.old (spec.test_fragment class code.old)) }
{
    code.instructions.push(Instruction::TestStatus { class })
}

/// The code for a status that nothing takes.
pub fn emit_unheard(
    emitter: &Emitter<'_>,
    code: &mut Code,
    file: &ProgramFile<'_>,
) -> Result<(), AllocError>
    ensures { OnOk result (code.new ≡ append code.old (spec.unheard_fragment
        (file_in (items_in emitter.now.declarations.now) file.now).places.status code.old)) }
{
    if has_status(emitter, file) {
        return Ok(());
    }
    code.instructions.push(Instruction::Unheard)
}

/// INTO: the record is taken, and moved.
pub fn emit_into(
    emitter: &Emitter<'_>,
    code: &mut Code,
    file: &ProgramFile<'_>,
    into: &Option<Reference>,
) -> Result<(), AllocError>
    requires rules { into_rules
        (items_in emitter.now.declarations.now) (files_in emitter.now.declarations.now)
        (file_in (items_in emitter.now.declarations.now) file.now) into.now ≡ [] }
    ensures { OnOk result
        (code.new ≡ append code.old (spec.into_fragment (items_in emitter.now.declarations.now)
        into.now (file_in (items_in emitter.now.declarations.now) file.now) code.old)) }
{
    let Some(into) = into else {
        return Ok(());
    };
    let item = sent_index(emitter, file)?;
    emit_works(
        code,
        &[DataInstruction::Place { item }, DataInstruction::Take],
    )?;
    emit_receivers(emitter, code, slice::from_ref(into))
}

/// FROM, before the file statement.
pub fn emit_from(
    emitter: &Emitter<'_>,
    code: &mut Code,
    to: &Reference,
    from: &Option<Reference>,
) -> Result<(), AllocError>
    requires rules { from_rules (items_in emitter.now.declarations.now)
        (files_in emitter.now.declarations.now) to.now from.now ≡ [] }
    ensures { OnOk result (code.new ≡ append code.old
        (spec.from_fragment (items_in emitter.now.declarations.now) to.now from.now code.old)) }
{
    let Some(from) = from else {
        return Ok(());
    };
    emitter.emit_taking(code, DataInstruction::Take, from)?;
    emit_receivers(emitter, code, slice::from_ref(to))
}

/// The file of that name.
pub fn file_named<'b, 'a>(emitter: &'b Emitter<'a>, name: &Name) -> Option<&'b ProgramFile<'a>>
    ensures { first (files_named (files_in emitter.now.declarations.now) name.now)
        ≡ found_in (items_in emitter.now.declarations.now) result }
{
    emitter.declarations.files.file_named(name)
}

/// The first file that has the area of a record, which names one item.
pub fn file_of_record<'b, 'a>(
    emitter: &'b Emitter<'a>,
    one: &Reference,
) -> Option<&'b ProgramFile<'a>>
    requires named { NamesOne (items_in emitter.now.declarations.now) one.now }
    ensures { file_with_record (files_in emitter.now.declarations.now)
        (first (items_named (items_in emitter.now.declarations.now) one.now.item))
        ≡ found_in (items_in emitter.now.declarations.now) result }
{
    let number = emitter.item_number(&one.item);
    let found = emitter.declarations.layout.items.get(number)?;
    emitter.declarations.files.file_with(found.area)
}

/// A file, by its place in the table of files. It is refused where 8 bits don't hold its number.
fn file_index(file: &ProgramFile<'_>) -> Result<FileIndex, AllocError>
    ensures { IfOk result (λ index. index ≡ record { number = file.now.number }) }
{
    let Ok(number) = u8::try_from(file.number) else {
        return Err(AllocError);
    };
    Ok(FileIndex { number })
}

/// The file has a FILE STATUS item.
fn has_status(emitter: &Emitter<'_>, file: &ProgramFile<'_>) -> bool
    ensures { result
        ≡ is_some (file_in (items_in emitter.now.declarations.now) file.now).places.status }
{
    match file.status {
        Some(number) => emitter.declarations.layout.items.get(number).is_some(),
        None => false,
    }
}

/// What READ INTO sends of a file, by its place in the table of items.
fn sent_index(emitter: &Emitter<'_>, file: &ProgramFile<'_>) -> Result<ItemIndex, AllocError>
    ensures { IfOk result (λ index. index ≡ spec.sent_index (items_in emitter.now.declarations.now)
        (file_in (items_in emitter.now.declarations.now) file.now)) }
{
    let Some(place) = emitter
        .declarations
        .layout
        .items
        .len()
        .checked_add(file.number)
    else {
        return Err(AllocError);
    };
    let number = entry_number(place)?;
    Ok(ItemIndex { number })
}
