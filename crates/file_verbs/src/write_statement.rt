//! WRITE.
ghost use Rattle.std.specs.Prelude.{◌≡◌, ◌≢◌, ◌≤◌, true, false, Err, length, if◌then◌else◌, IfOk, OnErr};
ghost use Rattle.records.specs.Rows.{Pair};
ghost use Rattle.records.specs.Calls.{Changes, Rests};
ghost use Rattle.records.specs.Stores.{spec_of, is_change};
ghost use Rattle.records.specs.Tests.{is_sequential, may_write};
ghost use Rattle.records.specs.Steps.{next_number, is_past, is_out, status_after};
ghost use Rattle.records.specs.FileStep.{area, has_changed};
ghost use Rattle.file_verbs.specs.Links.{IsLink, connector_of};
ghost use Rattle.file_verbs.specs.Does.{MakesStep, TurnsByStep, IsFullByStep};

use crate::keys::key_value;
use crate::link::Link;
use crate::read_statement::{is_longer, number_left};
use records::{
    Access, KeyOfReference, Organization, Outcome, Select, Status, Store, StoreFault, Verb,
};
use station::Device;
use std::cmp::Ordering;

/// The greatest relative number.
const GREATEST: u64 = 999_999_999;

pub(crate) fn is_in_sequence(access: Access) -> bool
    ensures { result ≡ is_sequential access }
{
    match access {
        Access::Sequential => true,
        _ => false,
    }
}

/// The number of the row that a WRITE makes in a relative file, 0 in another.
fn number_to_write(select: &Select, link: &Link, number: u64) -> u64
    requires { link.now.written_number ≤ 999999999 }
    ensures { result ≡ next_number select.now.file.organization select.now.access
        (connector_of (spec_of select.now.file) link.now).last.number number }
{
    match select.file.organization {
        Organization::Relative => {
            if is_in_sequence(select.access) {
                if link.has_written {
                    link.written_number + 1
                } else {
                    1
                }
            } else {
                number
            }
        }
        _ => 0,
    }
}

/// The number is out of range or, in sequence, longer than the RELATIVE KEY item.
fn is_past_boundary(select: &Select, number: u64) -> bool
    ensures { result
        ≡ is_past select.now.file.organization select.now.access select.now.key_digits number }
{
    match select.file.organization {
        Organization::Relative => {
            if number < 1 {
                return true;
            }
            if GREATEST < number {
                return true;
            }
            if is_in_sequence(select.access) {
                return is_longer(number, select.key_digits);
            }
            false
        }
        _ => false,
    }
}

/// The prime key that was written last, no bytes where none was.
fn last_key<'a>(select: &Select, link: &'a Link) -> &'a [u8]
    requires written { length link.now.written.items ≡ select.now.file.record_length }
    ensures { result.now ≡ (connector_of (spec_of select.now.file) link.now).last.value }
{
    if link.has_written {
        key_value(&select.file, KeyOfReference::Prime, &link.written)
    } else {
        &link.written[..0]
    }
}

/// In sequence the prime key has to be greater than the last one.
fn is_out_of_sequence(select: &Select, link: &Link, bytes: &[u8]) -> bool
    requires bytes { length bytes.now ≡ select.now.file.record_length }
    requires written { length link.now.written.items ≡ select.now.file.record_length }
    ensures { result ≡ is_out select.now.file.organization select.now.access bytes.now
        (connector_of (spec_of select.now.file) link.now).last.value }
{
    match select.file.organization {
        Organization::Indexed(_) => {
            if is_in_sequence(select.access) {
                let key = key_value(&select.file, KeyOfReference::Prime, bytes);
                match key.cmp(last_key(select, link)) {
                    Ordering::Greater => false,
                    _ => true,
                }
            } else {
                false
            }
        }
        _ => false,
    }
}

pub(crate) fn write_status(outcome: Outcome) -> Status
    ensures { result ≡ status_after outcome }
{
    match outcome {
        Outcome::Missing => Status::NotFound,
        Outcome::Taken => Status::DuplicateKey,
        Outcome::Done => Status::Success,
        Outcome::Duplicate => Status::SuccessDuplicate,
    }
}

fn is_done(outcome: Outcome) -> bool
    ensures { result ≡ is_change outcome }
{
    match outcome {
        Outcome::Missing => false,
        Outcome::Taken => false,
        Outcome::Done => true,
        Outcome::Duplicate => true,
    }
}

/// This row was written last.
fn keep_last(link: &mut Link, bytes: &[u8], number: u64)
    requires { length bytes.now ≡ length link.old.written.items }
    ensures rest { link.new ≡ record link.old
        { has_written = true; written = link.new.written; written_number = number } }
    ensures bytes { link.new.written.items ≡ bytes.now }
{
    link.has_written = true;
    link.written.copy_from_slice(bytes);
    link.written_number = number;
}

/// WRITE: the record area is a new row.
pub(crate) fn write_row<T: Store, D: Device>(
    store: &mut T,
    device: &mut D,
    select: &Select,
    link: &mut Link,
    bytes: &[u8],
    number: &mut u64,
) -> Result<Status, StoreFault>
    requires device { T.needs store.old ≤ D.sectors device.old }
    requires link { IsLink select.now link.old }
    requires may { may_write select.now.access link.old.mode ≡ true }
    requires bytes { length bytes.now ≡ select.now.file.record_length }
    ensures changes { Changes T.Keeps D.Device result store.old device.old store.new device.new }
    ensures step { MakesStep T.Keeps D.Device Verb.Write result store.old device.old select.now
        link.old link.new (area bytes.now number.old) (area bytes.now number.new) }
    ensures turns { TurnsByStep T.Keeps D.Device Verb.Write result store.old device.old store.new
        device.new select.now link.old (area bytes.now number.old) }
    ensures link { IsLink select.now link.new }
    ensures mode { link.new.mode ≡ link.old.mode }
    ensures absent { link.new.is_absent ≡ link.old.is_absent }
    ensures full { IsFullByStep T.Keeps D.Device Verb.Write result store.old device.old select.now
        link.old (area bytes.now number.old) }
    ensures makes_none { result ≢ Err StoreFault.Old }
    ensures idle { D.is_honest device.old → IfOk result (λ status.
        has_changed Verb.Write status ≡ false → D.state device.new ≡ D.state device.old) }
    ensures same { OnErr result (link.new ≡ link.old) }
    ensures area { OnErr result (number.new ≡ number.old) }
    ensures rests { OnErr result
        (Rests T.Keeps D.Device store.old device.old store.new device.new) }
{
    let row_number = number_to_write(select, link, *number);
    if is_past_boundary(select, row_number) {
        link.was_read = false;
        return Ok(Status::Boundary);
    }
    if is_out_of_sequence(select, link, bytes) {
        link.was_read = false;
        return Ok(Status::OutOfSequence);
    }
    let outcome = store.insert(device, &select.file, row_number, bytes)?;
    link.was_read = false;
    if is_done(outcome) {
        keep_last(link, bytes, row_number);
        *number = number_left(select, row_number, *number);
    }
    Ok(write_status(outcome))
}
