//! Rows that fit what the record area or the RELATIVE KEY item names.
ghost use Rattle.std.specs.Prelude.{◌≡◌, ◌≢◌, ◌≤◌, Err, length, take, drop, IfOk, OnOk};
ghost use Rattle.records.specs.Rows.{place_of};
ghost use Rattle.records.specs.Files.{File, Files};
ghost use Rattle.records.specs.Calls.{Represents, OnlyReadsFiles};
ghost use Rattle.records.specs.Stores.{Has, IsKey, key_length, spec_of};
ghost use Rattle.records.specs.Steps.{side_of, if_fits, area_pair};
ghost use Rattle.records.specs.FileStep.{area};
ghost use Rattle.file_verbs.specs.Links.{IsFoundRow, fitting_row, number_of};

use crate::keys::{key_bytes, key_value};
use records::{
    FileSpec, Found, KeyBound, KeyOfReference, Organization, Relation, Side, Store, StoreFault,
};
use station::Device;
use std::cmp::Ordering;

/// How the key of a row has to compare with so many bytes of the key in the record area.
#[derive(Clone, Copy)]
pub struct KeyComparison {
    pub relation: Relation,
    pub key: KeyOfReference,
    pub count: u16,
}

/// Seeks the first row that compares so with the record area, or with the number.
pub(crate) fn seek_fitting<T: Store, D: Device>(
    store: &mut T,
    device: &mut D,
    file: &FileSpec,
    sought: &mut [u8],
    comparison: KeyComparison,
    bytes: &[u8],
    number: u64,
) -> Result<Option<Found>, StoreFault>
    requires device { T.needs store.old ≤ D.sectors device.old }
    requires key { IsKey (spec_of file.now) comparison.key }
    requires count { comparison.count ≤ key_length (spec_of file.now) comparison.key }
    requires sought { length sought.old ≡ file.now.record_length }
    requires bytes { length bytes.now ≡ file.now.record_length }
    ensures reads { OnlyReadsFiles T.Keeps D.Device result store.old device.old store.new
        device.new }
    ensures found { (files : Files) (held : File)
        → Represents T.Keeps D.Device store.old device.old files → Has files file.now held →
        IfOk result (λ answer. IsFoundRow (spec_of file.now) comparison.key held.rows sought.new
        (fitting_row (spec_of file.now) comparison.relation comparison.key (area_pair (spec_of
        file.now) file.now.organization comparison.key comparison.count (area bytes.now number))
        held.rows) answer) }
    ensures damaged { (files : Files) (held : File)
        → Represents T.Keeps D.Device store.old device.old files → Has files file.now held
        → result ≢ Err StoreFault.Damaged }
{
    let key = comparison.key;
    let value = key_bytes(file, key, comparison.count, bytes);
    let from = number_named(file.organization, number);
    let side = side_for(file.organization, comparison.relation);
    let bound = KeyBound {
        side,
        value,
        number: from,
    };
    let Some(found) = store.seek(device, file, key, bound, sought)? else {
        return Ok(None);
    };
    let row_value = key_value(file, key, sought);
    if is_fitting(
        file.organization,
        comparison.relation,
        value,
        from,
        row_value,
        found.number,
    ) {
        Ok(Some(found))
    } else {
        Ok(None)
    }
}

/// From where on a row is sought.
fn side_for(organization: Organization, relation: Relation) -> Side
    ensures { result ≡ side_of organization relation }
{
    match relation {
        Relation::Greater => match organization {
            Organization::Sequential => Side::After,
            Organization::Relative => Side::After,
            Organization::Indexed(_) => Side::Beyond,
        },
        _ => Side::From,
    }
}

/// The first row from a place on may lie after it. It is equal where the bytes that are named, or the numbers, are.
fn is_fitting(
    organization: Organization,
    relation: Relation,
    value: &[u8],
    number: u64,
    row_value: &[u8],
    row_number: u64,
) -> bool
    requires { length value.now ≤ length row_value.now }
    ensures { result ≡ if_fits organization relation (record { value = value.now; number = number })
        (record { value = row_value.now; number = row_number }) }
{
    match relation {
        Relation::Equal => match organization {
            Organization::Indexed(_) => match row_value[..value.len()].cmp(value) {
                Ordering::Greater => false,
                _ => true,
            },
            _ => match row_value.cmp(value).then(row_number.cmp(&number)) {
                Ordering::Greater => false,
                _ => true,
            },
        },
        _ => true,
    }
}

/// The number of the place that is named: keys have none.
fn number_named(organization: Organization, number: u64) -> u64
    ensures { result ≡ number_of organization number }
{
    match organization {
        Organization::Indexed(_) => 0,
        _ => number,
    }
}
