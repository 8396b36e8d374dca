//! What `list` prints of files.
ghost use Rattle.std.specs.Prelude.{◌≡◌, ◌++◌, ◌∷◌, decimal, IfOk, OnOk};
ghost use Rattle.volume_commands.specs.Listing as spec;
ghost use Rattle.file_bytes.specs.Stored.{named_of, files_of};

use crate::escape::push_text;
use file_recovery::StoredFile;
use itoa::Buffer;
use records::Organization;
use std::alloc::{AllocError, Global};

/// A line for each file: its name, its organization, the bytes of a record, and how many rows it
/// has.
pub fn listing(alloc: Global, files: &[StoredFile]) -> Result<Vec<u8>, AllocError>
    ensures { IfOk result (λ text. text.items ≡ spec.listing (files_of files.now)) }
{
    let mut text = Vec::new(alloc);
    for file in files {
        push_file_line(&mut text, file)?;
    }
    Ok(text)
}

/// Appends the line of a file.
fn push_file_line(out: &mut Vec<u8>, file: &StoredFile) -> Result<(), AllocError>
    ensures { OnOk result (out.new.items ≡ out.old.items ++ spec.file_line (named_of file.now)) }
{
    push_text(out, &file.spec.name)?;
    push_word(out, organization_word(file.spec.organization))?;
    push_number(out, file.spec.record_length as u64)?;
    push_number(out, file.rows.len() as u64)?;
    Ok(out.push(b'\n')?)
}

/// Appends a space and a word.
pub(crate) fn push_word(out: &mut Vec<u8>, word: &[u8]) -> Result<(), AllocError>
    ensures { OnOk result (out.new.items ≡ out.old.items ++ spec.space ∷ word.now) }
{
    out.push(b' ')?;
    out.extend_from_slice(word)
}

/// Appends a space and a number.
pub(crate) fn push_number(out: &mut Vec<u8>, number: u64) -> Result<(), AllocError>
    ensures { OnOk result (out.new.items ≡ out.old.items ++ spec.space ∷ decimal number) }
{
    let mut digits = Buffer::new();
    push_word(out, digits.format(number).as_bytes())
}

fn organization_word(organization: Organization) -> &'static [u8]
    ensures { result.now ≡ spec.organization_word organization }
{
    match organization {
        Organization::Sequential => b"sequential",
        Organization::Relative => b"relative",
        Organization::Indexed(_) => b"indexed",
    }
}
