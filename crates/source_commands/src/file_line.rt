//! The line of a file.

ghost use Rattle.std.specs.Prelude.{◌≡◌, ◌++◌, List, codes, OnOk};
ghost use Rattle.std.specs.List.{flat_map};
ghost use Rattle.source_tree.specs.Places.{LocatedItem};
ghost use Rattle.file_descriptions.specs.Files.{found_in};
ghost use Rattle.source_commands.specs.Layout as spec;

use crate::report::push_number;
use file_descriptions::ProgramFile;
use records::{AlternateKey, KeyPlace, Organization};
use source_tree::Name;
use std::alloc::AllocError;

/// Adds the line of a file with this name: its name on the volume, its organization, the bytes of its records and its keys.
pub fn push_file(
    out: &mut Vec<u8>,
    name: &Name,
    file: Option<&ProgramFile<'_>>,
) -> Result<(), AllocError>
    ensures { (items : List LocatedItem) → OnOk result (out.new.items
        ≡ out.old.items ++ spec.file_line name.now (found_in items file.entry)) }
{
    out.extend_from_slice(b"file ")?;
    out.extend_from_slice(name.characters.as_slice())?;
    if let Some(file) = file {
        push_described(out, file)?;
    }
    Ok(out.push(b'\n')?)
}

/// Adds what SELECT and FD say of a file.
fn push_described(out: &mut Vec<u8>, file: &ProgramFile<'_>) -> Result<(), AllocError>
    ensures { OnOk result (out.new.items ≡ out.old.items
        ++ spec.volume_text file.now.select.now.assigned.characters file.now.organization
        file.now.record_length file.now.alternates.items) }
{
    push_assigned(out, file.select.assigned.characters.as_slice())?;
    push_record(out, file.organization, file.record_length)?;
    push_prime_key(out, file.organization)?;
    push_alternates(out, file.alternates.as_slice())
}

/// Adds the name on the volume.
fn push_assigned(out: &mut Vec<u8>, name: &[u8]) -> Result<(), AllocError>
    ensures { OnOk result (out.new.items ≡ out.old.items ++ spec.assigned_text name.now) }
{
    out.extend_from_slice(b" as ")?;
    out.extend_from_slice(name)
}

/// Adds the organization and the bytes of a record.
fn push_record(out: &mut Vec<u8>, organization: Organization, size: u16) -> Result<(), AllocError>
    ensures { OnOk result (out.new.items ≡ out.old.items ++ spec.record_text organization size) }
{
    out.extend_from_slice(organization_text(organization))?;
    push_number(out, u32::from(size))
}

fn organization_text(organization: Organization) -> &'static [u8]
    ensures { result.now ≡ spec.organization_text organization }
{
    match organization {
        Organization::Sequential => b" sequential record ",
        Organization::Relative => b" relative record ",
        Organization::Indexed(_) => b" indexed record ",
    }
}

/// Adds the prime key, if the file is indexed.
fn push_prime_key(out: &mut Vec<u8>, organization: Organization) -> Result<(), AllocError>
    ensures { OnOk result (out.new.items ≡ out.old.items ++ spec.prime_key_text organization) }
{
    match organization {
        Organization::Indexed(key) => push_key(out, b" key", key),
        Organization::Sequential | Organization::Relative => Ok(()),
    }
}

/// Adds the place of a key: its first byte, counted from 0, and its bytes.
fn push_key(out: &mut Vec<u8>, word: &[u8], key: KeyPlace) -> Result<(), AllocError>
    ensures { OnOk result (out.new.items ≡ out.old.items ++ spec.key_text word.now key) }
{
    out.extend_from_slice(word)?;
    out.extend_from_slice(b" offset ")?;
    push_number(out, u32::from(key.offset))?;
    out.extend_from_slice(b" length ")?;
    push_number(out, u32::from(key.length))
}

fn push_alternates(out: &mut Vec<u8>, alternates: &[AlternateKey]) -> Result<(), AllocError>
    ensures { OnOk result
        (out.new.items ≡ out.old.items ++ flat_map spec.alternate_text alternates.now) }
{
    for one in alternates {
        push_alternate(out, one)?;
    }
    Ok(())
}

fn push_alternate(out: &mut Vec<u8>, one: &AlternateKey) -> Result<(), AllocError>
    ensures { OnOk result (out.new.items ≡ out.old.items ++ spec.alternate_text one.now) }
{
    push_key(out, b" alternate key", one.place)?;
    if one.duplicates {
        out.extend_from_slice(b" duplicates")?;
    }
    Ok(())
}
