//! Files in an image.

ghost use Rattle.std.specs.Prelude.{◌≡◌, ◌++◌, OnOk};
ghost use Rattle.answers.specs.Answer.{Gives};
ghost use Rattle.data_image.specs.Faults.{fault_of};
ghost use Rattle.data_image.specs.Reading.{told_at};
ghost use Rattle.file_image.specs.Spelling as spec;
ghost use Rattle.file_image.specs.Spelling.{organization_bytes, spec_bytes, item_bytes, file_bytes, IsOrganizationSpelled, IsSpecSpelled, IfItemSpelled, IsFileSpelled, organization_at, spec_at, item_at, uses_at, file_parts_at, file_at};
ghost use Rattle.file_image.specs.Files.{spec_of};

use crate::file::CodeFile;
use crate::key::{put_alternates, put_place, read_alternates, read_place};
use answers::beside;
use data_image::{
    ImageError, ImageFault, TableEntry, flag_byte, found, put_byte, put_short, put_small,
    read_byte, read_flag, read_short, read_small,
};
use data_instructions::ItemIndex;
use records::{Access, AlternateKey, Organization};
use sqlite_items::Items;
use std::alloc::{AllocError, Global};

// The first byte of each organization.
const SEQUENTIAL: u8 = 1;

const RELATIVE: u8 = 2;

const INDEXED: u8 = 3;

// The byte of each access.
const SEQUENTIAL_ACCESS: u8 = 1;

const RANDOM_ACCESS: u8 = 2;

const DYNAMIC_ACCESS: u8 = 3;

// The first byte of an item, or of none.
const NO_ITEM: u8 = 0;

const ITEM: u8 = 1;

impl TableEntry for CodeFile {
    ghost spelled = { file_bytes };

    ghost read_from = { file_at };

    ghost fits = { IsFileSpelled };

    fn put(&self, out: &mut Vec<u8>) -> Result<(), AllocError> {
        self.name.put(out)?;
        put_spec(out, self)?;
        put_byte(out, access_byte(self.access))?;
        put_byte(out, flag_byte(self.optional))?;
        put_short(out, self.area)?;
        put_item(out, self.relative_key)?;
        put_item(out, self.status)
    }

    fn read(alloc: Global, bytes: &[u8]) -> Result<(CodeFile, &[u8]), ImageError> {
        read_file(alloc, bytes)
    }
}

fn read_file(alloc: Global, bytes: &[u8]) -> Result<(CodeFile, &[u8]), ImageError>
    ensures { Gives (λ x. (x.0, x.1.now)) fault_of result (file_parts_at bytes.now) }
{
    let (name, rest) = Items::read(alloc, bytes)?;
    let (name, (spec, rest)) = beside(name, read_spec(alloc, rest))?;
    let ((name, spec), (uses, rest)) = beside((name, spec), read_uses(rest))?;
    let (access, optional, area, relative_key, status) = uses;
    Ok((
        CodeFile {
            name,
            organization: spec.organization,
            record_length: spec.record_length,
            alternates: spec.alternates,
            access,
            optional,
            area,
            relative_key,
            status,
        },
        rest,
    ))
}

// How a program uses a file: the access, whether it is optional, the area of its records, and the items of RELATIVE KEY and of
// FILE STATUS.
type Uses = (Access, bool, u32, Option<ItemIndex>, Option<ItemIndex>);

#[tactic(auto, unfolding(crate::specs::Spelling::uses_at))]
fn read_uses(bytes: &[u8]) -> Result<(Uses, &[u8]), ImageError>
    ensures { Gives (λ x. (x.0, x.1.now)) fault_of result (uses_at bytes.now) }
{
    let (access, rest) = read_access(bytes)?;
    let (optional, rest) = read_flag(rest)?;
    let (area, rest) = read_short(rest)?;
    let (relative_key, rest) = read_item(rest)?;
    let (status, rest) = read_item(rest)?;
    Ok(((access, optional, area, relative_key, status), rest))
}

fn put_organization(out: &mut Vec<u8>, organization: Organization) -> Result<(), AllocError>
    ensures bytes { OnOk result (out.new.items ≡ out.old.items ++ organization_bytes organization) }
    ensures fits { IsOrganizationSpelled organization }
{
    match organization {
        Organization::Sequential => put_byte(out, SEQUENTIAL),
        Organization::Relative => put_byte(out, RELATIVE),
        Organization::Indexed(place) => {
            put_byte(out, INDEXED)?;
            put_place(out, place)
        }
    }
}

#[tactic(auto, unfolding(crate::specs::Spelling::organization_at))]
fn read_organization(bytes: &[u8]) -> Result<(Organization, &[u8]), ImageError>
    ensures { Gives (λ x. (x.0, x.1.now)) fault_of result (organization_at bytes.now) }
{
    let (byte, rest) = read_byte(bytes)?;
    match byte {
        SEQUENTIAL => Ok((Organization::Sequential, rest)),
        RELATIVE => Ok((Organization::Relative, rest)),
        INDEXED => {
            let (place, rest) = read_place(rest)?;
            Ok((Organization::Indexed(place), rest))
        }
        _ => Err(ImageError::Refused(ImageFault::Value)),
    }
}

/// What a file is, as it is read.
#[derive(Drop)]
struct SpecRead {
    organization: Organization,
    record_length: u16,
    alternates: Items<AlternateKey>,
}

fn put_spec(out: &mut Vec<u8>, file: &CodeFile) -> Result<(), AllocError>
    ensures bytes { OnOk result (out.new.items ≡ out.old.items ++ spec_bytes (spec_of file.now)) }
    ensures fits { OnOk result (IsSpecSpelled (spec_of file.now)) }
{
    put_organization(out, file.organization)?;
    put_small(out, file.record_length)?;
    put_alternates(out, file.alternates.as_slice())
}

#[tactic(auto, unfolding(crate::specs::Spelling::spec_at))]
fn read_spec(alloc: Global, bytes: &[u8]) -> Result<(SpecRead, &[u8]), ImageError>
    ensures { Gives (λ x. (
      record {
        organization = x.0.organization;
        record_length = x.0.record_length;
        alternates = x.0.alternates;
      },
      x.1.now,
    )) fault_of result (spec_at bytes.now) }
{
    let (organization, rest) = read_organization(bytes)?;
    let (record_length, rest) = read_small(rest)?;
    let (alternates, rest) = read_alternates(alloc, rest)?;
    let spec = SpecRead {
        organization,
        record_length,
        alternates,
    };
    Ok((spec, rest))
}

fn access_byte(access: Access) -> u8
    ensures { result ≡ spec.access_byte access }
{
    match access {
        Access::Sequential => SEQUENTIAL_ACCESS,
        Access::Random => RANDOM_ACCESS,
        Access::Dynamic => DYNAMIC_ACCESS,
    }
}

#[tactic(auto, unfolding(crate::specs::Spelling::access_of))]
fn access_of(byte: u8) -> Option<Access>
    ensures { result ≡ spec.access_of byte }
{
    match byte {
        SEQUENTIAL_ACCESS => Some(Access::Sequential),
        RANDOM_ACCESS => Some(Access::Random),
        DYNAMIC_ACCESS => Some(Access::Dynamic),
        _ => None,
    }
}

#[tactic(auto, unfolding(data_image::specs::Reading::told_at))]
fn read_access(bytes: &[u8]) -> Result<(Access, &[u8]), ImageError>
    ensures { Gives (λ x. (x.0, x.1.now)) fault_of result (told_at spec.access_of bytes.now) }
{
    let (byte, rest) = read_byte(bytes)?;
    Ok((found(access_of(byte))?, rest))
}

fn put_item(out: &mut Vec<u8>, item: Option<ItemIndex>) -> Result<(), AllocError>
    ensures bytes { OnOk result (out.new.items ≡ out.old.items ++ item_bytes item) }
    ensures fits { IfItemSpelled item }
{
    match item {
        None => put_byte(out, NO_ITEM),
        Some(item) => {
            put_byte(out, ITEM)?;
            put_short(out, item.number)
        }
    }
}

#[tactic(auto, unfolding(crate::specs::Spelling::item_at))]
fn read_item(bytes: &[u8]) -> Result<(Option<ItemIndex>, &[u8]), ImageError>
    ensures { Gives (λ x. (x.0, x.1.now)) fault_of result (item_at bytes.now) }
{
    let (byte, rest) = read_byte(bytes)?;
    match byte {
        NO_ITEM => Ok((None, rest)),
        ITEM => {
            let (number, rest) = read_short(rest)?;
            Ok((Some(ItemIndex { number }), rest))
        }
        _ => Err(ImageError::Refused(ImageFault::Value)),
    }
}
