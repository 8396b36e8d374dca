//! A row as bytes: its key, and after it its record and its arrivals.
ghost use Rattle.std.specs.Prelude.{◌≡◌, ◌++◌, OnOk, IfOk, IsOkUnless};
ghost use Rattle.std.specs.List.{flat_map};
ghost use Rattle.byteorder.specs.Endian.{big_bytes};
ghost use Rattle.records.specs.Rows.{named_pair};
ghost use Rattle.file_bytes.specs.Rows.{prime_key, row_value};
ghost use Rattle.file_bytes.specs.Stored.{row_of};

use crate::key_value::part_of;
use crate::stored::StoredRow;
use records::{Organization, StoreFault};
use std::alloc::Global;

/// The key of the row of a record: the prime key, or the number where the file has none.
pub fn row_key(
    alloc: Global,
    organization: Organization,
    number: u64,
    bytes: &[u8],
) -> Result<Vec<u8>, StoreFault>
    ensures key { IfOk result
        (λ key. key.items ≡ prime_key organization (named_pair organization number bytes.now)) }
    ensures memory { IsOkUnless result StoreFault.Memory }
{
    let mut out = Vec::new(alloc);
    push_row_key(&mut out, organization, number, bytes)?;
    Ok(out)
}

/// Puts the key of the row of a record after.
pub fn push_row_key(
    out: &mut Vec<u8>,
    organization: Organization,
    number: u64,
    bytes: &[u8],
) -> Result<(), StoreFault>
    ensures bytes { OnOk result (out.new.items
        ≡ out.old.items ++ prime_key organization (named_pair organization number bytes.now)) }
    ensures memory { IsOkUnless result StoreFault.Memory }
{
    match organization {
        Organization::Sequential => out.extend_from_slice(&number.to_be_bytes())?,
        Organization::Relative => out.extend_from_slice(&number.to_be_bytes()[4..])?,
        Organization::Indexed(place) => out.extend_from_slice(part_of(place, bytes))?,
    }
    Ok(())
}

/// Puts after what follows the key of a row: its record, and its arrivals in 8 bytes each.
pub fn push_row_value(out: &mut Vec<u8>, row: &StoredRow) -> Result<(), StoreFault>
    ensures bytes { OnOk result (out.new.items ≡ out.old.items ++ row_value (row_of row.now)) }
    ensures memory { IsOkUnless result StoreFault.Memory }
{
    out.extend_from_slice(&row.bytes)?;
    push_arrivals(out, &row.arrivals)
}

/// The arrivals of a row.
fn push_arrivals(out: &mut Vec<u8>, arrivals: &[u64]) -> Result<(), StoreFault>
    ensures bytes { OnOk result
        (out.new.items ≡ out.old.items ++ flat_map (big_bytes 8) arrivals.now) }
    ensures memory { IsOkUnless result StoreFault.Memory }
{
    for arrival in arrivals {
        out.extend_from_slice(&arrival.to_be_bytes())?;
    }
    Ok(())
}
