//! The table of files of code.

ghost use Rattle.std.specs.Prelude.{◌≡◌, [], IfOk, OnOk};
ghost use Rattle.std.specs.Option.{option_map};
ghost use Rattle.declarations.specs.Named.{items_in, files_in};
ghost use Rattle.statement_codegen.specs.FileCode as spec;
ghost use Rattle.codegen.specs.Sent.{code_in};

use condition_codegen::entry_number;
use data_instructions::ItemIndex;
use declarations::Declarations;
use file_descriptions::ProgramFile;
use file_image::CodeFile;
use sqlite_items::Items;
use std::alloc::{AllocError, Global};

/// The files, in the order of their SELECTs, where there are none yet.
pub(crate) fn put_files(
    alloc: Global,
    declarations: &Declarations<'_>,
    files: &mut Items<CodeFile>,
) -> Result<(), AllocError>
    requires { files.old ≡ [] }
    ensures { OnOk result (files.new ≡ spec.code_files (items_in declarations.now)
        declarations.now.selects.now (files_in declarations.now)) }
{
    for file in declarations.files.files.as_slice() {
        files.push(code_file(alloc, file)?)?;
    }
    Ok(())
}

/// The item of a clause, by its number.
fn clause_index(number: Option<usize>) -> Result<Option<ItemIndex>, AllocError>
    ensures { IfOk result (λ index. index ≡ option_map spec.index_at number) }
{
    let Some(number) = number else {
        return Ok(None);
    };
    let number = entry_number(number)?;
    Ok(Some(ItemIndex { number }))
}

/// What code has of a file.
fn code_file(alloc: Global, file: &ProgramFile<'_>) -> Result<CodeFile, AllocError>
    ensures { IfOk result (λ code. code ≡ code_in file.now) }
{
    let relative_key = clause_index(file.relative_key)?;
    let status = clause_index(file.status)?;
    let name = Items::from_slice(alloc, file.select.assigned.characters.as_slice())?;
    let alternates = Items::from_slice(alloc, file.alternates.as_slice())?;
    Ok(CodeFile {
        name,
        organization: file.organization,
        record_length: file.record_length,
        alternates,
        access: file.select.access,
        optional: file.select.optional,
        area: file.area,
        relative_key,
        status,
    })
}
