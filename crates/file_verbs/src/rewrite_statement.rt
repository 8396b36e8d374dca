//! REWRITE and DELETE.
ghost use Rattle.std.specs.Prelude.{◌≡◌, ◌≢◌, ◌≤◌, false, Err, length, IfOk, OnOk, OnErr, if◌then◌else◌};
ghost use Rattle.records.specs.Rows.{part, place_of};
ghost use Rattle.records.specs.Calls.{Changes, Rests};
ghost use Rattle.records.specs.Stores.{spec_of};
ghost use Rattle.records.specs.Tests.{is_sequential};
ghost use Rattle.records.specs.Steps.{is_other};
ghost use Rattle.records.specs.FileStep.{area, has_changed};
ghost use Rattle.file_verbs.specs.Links.{IsLink, MayChangeRow};
ghost use Rattle.file_verbs.specs.Does.{MakesStep, TurnsByStep, IsFullByStep};

use crate::keys::key_value;
use crate::link::Link;
use crate::write_statement::{is_in_sequence, write_status};
use records::{KeyOfReference, Organization, Select, Status, Store, StoreFault, Verb};
use station::Device;
use std::cmp::Ordering;

/// REWRITE: the record area comes in place of a row.
pub(crate) fn rewrite_row<T: Store, D: Device>(
    store: &mut T,
    device: &mut D,
    select: &Select,
    link: &mut Link,
    bytes: &[u8],
    number: u64,
) -> Result<Status, StoreFault>
    requires device { T.needs store.old ≤ D.sectors device.old }
    requires link { IsLink select.now link.old }
    requires may { MayChangeRow select.now link.old }
    requires bytes { length bytes.now ≡ select.now.file.record_length }
    ensures step { MakesStep T.Keeps D.Device Verb.Rewrite result store.old device.old select.now
        link.old link.new (area bytes.now number) (area bytes.now number) }
    ensures turns { TurnsByStep T.Keeps D.Device Verb.Rewrite result store.old device.old store.new
        device.new select.now link.old (area bytes.now number) }
    ensures changes { Changes T.Keeps D.Device result store.old device.old store.new device.new }
    ensures link { IsLink select.now link.new }
    ensures mode { link.new.mode ≡ link.old.mode }
    ensures absent { link.new.is_absent ≡ link.old.is_absent }
    // The position and the key of reference stay.
    ensures stays { OnOk result (link.new ≡ record link.old { was_read = false }) }
    ensures full { IsFullByStep T.Keeps D.Device Verb.Rewrite result store.old device.old
        select.now link.old (area bytes.now number) }
    ensures makes_none { result ≢ Err StoreFault.Old }
    ensures idle { D.is_honest device.old → IfOk result (λ status.
        has_changed Verb.Rewrite status ≡ false → D.state device.new ≡ D.state device.old) }
    ensures same { OnErr result (link.new ≡ link.old) }
    ensures rests { OnErr result
        (Rests T.Keeps D.Device store.old device.old store.new device.new) }
{
    if has_other_key(select, link, bytes) {
        link.was_read = false;
        return Ok(Status::OutOfSequence);
    }
    let row_number = number_to_change(select, link, number);
    let outcome = store.replace(device, &select.file, row_number, bytes)?;
    link.was_read = false;
    Ok(write_status(outcome))
}

/// DELETE: a row is no longer there.
pub(crate) fn delete_row<T: Store, D: Device>(
    store: &mut T,
    device: &mut D,
    select: &Select,
    link: &mut Link,
    bytes: &[u8],
    number: u64,
) -> Result<Status, StoreFault>
    requires device { T.needs store.old ≤ D.sectors device.old }
    requires link { IsLink select.now link.old }
    requires may { MayChangeRow select.now link.old }
    requires bytes { length bytes.now ≡ select.now.file.record_length }
    ensures step { MakesStep T.Keeps D.Device Verb.Delete result store.old device.old select.now
        link.old link.new (area bytes.now number) (area bytes.now number) }
    ensures turns { TurnsByStep T.Keeps D.Device Verb.Delete result store.old device.old store.new
        device.new select.now link.old (area bytes.now number) }
    ensures changes { Changes T.Keeps D.Device result store.old device.old store.new device.new }
    ensures link { IsLink select.now link.new }
    ensures mode { link.new.mode ≡ link.old.mode }
    ensures absent { link.new.is_absent ≡ link.old.is_absent }
    // The position and the key of reference stay.
    ensures stays { OnOk result (link.new ≡ record link.old { was_read = false }) }
    ensures full { IsFullByStep T.Keeps D.Device Verb.Delete result store.old device.old
        select.now link.old (area bytes.now number) }
    ensures makes_none { result ≢ Err StoreFault.Old }
    ensures idle { D.is_honest device.old → IfOk result (λ status.
        has_changed Verb.Delete status ≡ false → D.state device.new ≡ D.state device.old) }
    ensures same { OnErr result (link.new ≡ link.old) }
    ensures rests { OnErr result
        (Rests T.Keeps D.Device store.old device.old store.new device.new) }
{
    let row_number = number_to_change(select, link, number);
    let named = record_to_change(select, link, bytes);
    let key = key_value(&select.file, KeyOfReference::Prime, named);
    let outcome = store.remove(device, &select.file, row_number, key)?;
    link.was_read = false;
    Ok(write_status(outcome))
}

/// In sequence the prime key has to be that of the row last read.
fn has_other_key(select: &Select, link: &Link, bytes: &[u8]) -> bool
    requires bytes { length bytes.now ≡ select.now.file.record_length }
    requires record_length { length link.now.row.items ≡ select.now.file.record_length }
    ensures { result ≡ is_other select.now.file.organization select.now.access bytes.now
        (part (place_of (spec_of select.now.file) KeyOfReference.Prime) link.now.row.items) }
{
    match select.file.organization {
        Organization::Indexed(_) => {
            if is_in_sequence(select.access) {
                let key = key_value(&select.file, KeyOfReference::Prime, bytes);
                match key.cmp(key_value(&select.file, KeyOfReference::Prime, &link.row)) {
                    Ordering::Equal => false,
                    _ => true,
                }
            } else {
                false
            }
        }
        _ => false,
    }
}

/// The number of the row to change: of the one last read in sequential access, else the one in the RELATIVE KEY item.
fn number_to_change(select: &Select, link: &Link, number: u64) -> u64
    ensures { result ≡ (if is_sequential select.now.access then link.now.number else number) }
{
    if is_in_sequence(select.access) {
        link.number
    } else {
        number
    }
}

/// The record that names the row to change: the one last read in sequential access, else the record area.
fn record_to_change<'a>(select: &Select, link: &'a Link, bytes: &'a [u8]) -> &'a [u8]
    ensures { result.now
        ≡ (if is_sequential select.now.access then link.now.row.items else bytes.now) }
{
    if is_in_sequence(select.access) {
        &link.row
    } else {
        bytes
    }
}
