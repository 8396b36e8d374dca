//! Files as bytes.
ghost use Rattle.std.specs.Prelude.{◌≡◌, ◌≤◌, ◌++◌, length, map, OnOk, IfOk, IsOkUnless};
ghost use Rattle.std.specs.List.{flat_map};
ghost use Rattle.byteorder.specs.Endian.{big_bytes};
ghost use Rattle.file_bytes.specs.Description.{padded_name};
ghost use Rattle.file_bytes.specs.Rows.{row_bytes};
ghost use Rattle.file_bytes.specs.Stored.{row_of, named_of, files_of};
ghost use Rattle.half_store.specs.Spelled.{file_bytes, files_bytes};

use file_bytes::{
    StoredFile, StoredRow, pad_name, push_description, push_row_key, push_row_value, push_zeros,
};
use records::{Organization, StoreFault};
use std::alloc::Global;

/// All files.
pub(crate) fn spell(alloc: Global, files: &[StoredFile]) -> Result<Vec<u8>, StoreFault>
    ensures bytes { IfOk result (λ bytes. bytes.items ≡ files_bytes (files_of files.now)) }
    ensures memory { IsOkUnless result StoreFault.Memory }
{
    let mut out = Vec::new(alloc);
    for file in files {
        push_file(&mut out, file)?;
    }
    Ok(out)
}

/// A file.
fn push_file(out: &mut Vec<u8>, file: &StoredFile) -> Result<(), StoreFault>
    ensures bytes { OnOk result (out.new.items ≡ out.old.items ++ file_bytes (named_of file.now)) }
    ensures memory { IsOkUnless result StoreFault.Memory }
{
    push_name(out, &file.spec.name)?;
    push_description(out, &file.spec)?;
    push_zeros(out, 32)?;
    push_number(out, file.next_arrival)?;
    push_number(out, file.rows.len() as u64)?;
    push_rows(out, file.spec.organization, &file.rows)
}

/// The name of a file.
fn push_name(out: &mut Vec<u8>, name: &[u8]) -> Result<(), StoreFault>
    requires { length name.now ≤ 30 }
    ensures bytes { OnOk result (out.new.items ≡ out.old.items ++ padded_name name.now) }
    ensures memory { IsOkUnless result StoreFault.Memory }
{
    out.extend_from_slice(&pad_name(name))?;
    Ok(())
}

/// A number in eight bytes.
fn push_number(out: &mut Vec<u8>, number: u64) -> Result<(), StoreFault>
    ensures bytes { OnOk result (out.new.items ≡ out.old.items ++ big_bytes 8 number) }
    ensures memory { IsOkUnless result StoreFault.Memory }
{
    out.extend_from_slice(&number.to_be_bytes())?;
    Ok(())
}

/// Rows, in order.
fn push_rows(
    out: &mut Vec<u8>,
    organization: Organization,
    rows: &[StoredRow],
) -> Result<(), StoreFault>
    ensures bytes { OnOk result
        (out.new.items ≡ out.old.items ++ flat_map (row_bytes organization) (map row_of rows.now)) }
    ensures memory { IsOkUnless result StoreFault.Memory }
{
    for row in rows {
        push_row(out, organization, row)?;
    }
    Ok(())
}

/// A row.
fn push_row(
    out: &mut Vec<u8>,
    organization: Organization,
    row: &StoredRow,
) -> Result<(), StoreFault>
    ensures bytes { OnOk result
        (out.new.items ≡ out.old.items ++ row_bytes organization (row_of row.now)) }
    ensures memory { IsOkUnless result StoreFault.Memory }
{
    push_row_key(out, organization, row.number, &row.bytes)?;
    push_row_value(out, row)
}
