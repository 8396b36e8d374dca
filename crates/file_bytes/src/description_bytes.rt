//! What a file is, as bytes.
ghost use Rattle.std.specs.Prelude.{◌≡◌, ◌≤◌, ◌++◌, replicate, OnOk, IfOk, IsOkUnless};
ghost use Rattle.std.specs.List.{flat_map};
ghost use Rattle.records.specs.Stores.{spec_of};
ghost use Rattle.file_bytes.specs.Description.{place_bytes, key_bytes, organization_byte, spec_head, spec_bytes};

use records::{AlternateKey, FileSpec, KeyOfReference, KeyPlace, Organization, StoreFault};
use std::alloc::Global;

/// The bytes of a description.
pub const DESCRIPTION_BYTES: usize = 43;

/// The bytes of an alternate key.
pub(crate) const KEY_BYTES: usize = 5;

/// The bytes of seven alternate keys.
const KEYS_BYTES: usize = 35;

/// The 43 bytes that say what a file is.
pub fn spell_description(alloc: Global, file: &FileSpec) -> Result<Vec<u8>, StoreFault>
    ensures bytes { IfOk result (λ bytes. bytes.items ≡ spec_bytes (spec_of file.now)) }
    ensures memory { IsOkUnless result StoreFault.Memory }
{
    let mut out = Vec::with_capacity(alloc, DESCRIPTION_BYTES)?;
    push_description(&mut out, file)?;
    Ok(out)
}

/// Puts the description of a file after: its organization, the bytes of a record, its prime key and its alternate keys.
pub fn push_description(out: &mut Vec<u8>, file: &FileSpec) -> Result<(), StoreFault>
    ensures bytes { OnOk result (out.new.items ≡ out.old.items ++ spec_bytes (spec_of file.now)) }
    ensures memory { IsOkUnless result StoreFault.Memory }
{
    push_head(out, file)?;
    push_keys(out, &file.alternates)?;
    push_zeros(out, KEYS_BYTES - KEY_BYTES * file.alternates.len())?;
    Ok(())
}

/// Puts zeros after, so many.
pub fn push_zeros(out: &mut Vec<u8>, count: usize) -> Result<(), StoreFault>
    requires { count ≤ 100 }
    ensures bytes { OnOk result (out.new.items ≡ out.old.items ++ replicate count 0) }
    ensures memory { IsOkUnless result StoreFault.Memory }
{
    let length = out.len();
    out.resize(length + count, 0)?;
    Ok(())
}

/// What a file is, except for its alternate keys.
fn push_head(out: &mut Vec<u8>, file: &FileSpec) -> Result<(), StoreFault>
    ensures bytes { OnOk result (out.new.items ≡ out.old.items ++ spec_head (spec_of file.now)) }
    ensures memory { IsOkUnless result StoreFault.Memory }
{
    out.push(byte_of(file.organization))?;
    out.extend_from_slice(&file.record_length.to_be_bytes())?;
    push_place(out, file.key_place(KeyOfReference::Prime))?;
    out.push(file.alternates.len() as u8)?;
    Ok(())
}

/// The byte of an organization.
fn byte_of(organization: Organization) -> u8
    ensures { result ≡ organization_byte organization }
{
    match organization {
        Organization::Sequential => 0,
        Organization::Relative => 1,
        Organization::Indexed(_) => 2,
    }
}

/// Alternate keys.
fn push_keys(out: &mut Vec<u8>, keys: &[AlternateKey]) -> Result<(), StoreFault>
    ensures bytes { OnOk result (out.new.items ≡ out.old.items ++ flat_map key_bytes keys.now) }
    ensures memory { IsOkUnless result StoreFault.Memory }
{
    for key in keys {
        push_place(out, key.place)?;
        out.push(key.duplicates as u8)?;
    }
    Ok(())
}

/// The place of a key.
fn push_place(out: &mut Vec<u8>, place: KeyPlace) -> Result<(), StoreFault>
    ensures bytes { OnOk result (out.new.items ≡ out.old.items ++ place_bytes place) }
    ensures memory { IsOkUnless result StoreFault.Memory }
{
    out.extend_from_slice(&place.offset.to_be_bytes())?;
    out.extend_from_slice(&place.length.to_be_bytes())?;
    Ok(())
}
