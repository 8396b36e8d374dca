//! READ and START.
ghost use Rattle.std.specs.Prelude.{◌≡◌, ◌≢◌, ◌≤◌, ◌&&◌, Err, Some, None, true, false, is_some, length, if◌then◌else◌, OnErr};
ghost use Rattle.records.specs.Rows.{place_of};
ghost use Rattle.records.specs.Files.{Files};
ghost use Rattle.records.specs.Calls.{Represents, OnlyReadsFiles};
ghost use Rattle.records.specs.Stores.{spec_of, IsKey, key_length};
ghost use Rattle.records.specs.Steps.{is_relative, is_too_long};
ghost use Rattle.records.specs.FileStep.{area};
ghost use Rattle.file_verbs.specs.Links.{IsLink, IsLinked, SameLink};
ghost use Rattle.file_verbs.specs.Does.{MakesStep};

use crate::keys::key_bytes;
use crate::link::Link;
use crate::seeking::{KeyComparison, seek_fitting};
use records::{
    Found, KeyBound, KeyOfReference, Organization, Relation, Select, Side, Status, Store,
    StoreFault, Verb,
};
use station::Device;

/// Whether a number has more digits than the RELATIVE KEY item.
pub(crate) fn is_longer(number: u64, key_digits: Option<u8>) -> bool
    ensures { result ≡ is_too_long key_digits number }
{
    match key_digits {
        None => false,
        Some(digits) => match 10u64.checked_pow(digits as u32) {
            None => false,
            Some(least) => least <= number,
        },
    }
}

/// Whether a row of a relative file has a number that its RELATIVE KEY item can't hold.
fn is_too_long_for(select: &Select, number: u64) -> bool
    ensures { result
        ≡ (is_relative select.now.file.organization && is_too_long select.now.key_digits number) }
{
    match select.file.organization {
        Organization::Relative => is_longer(number, select.key_digits),
        _ => false,
    }
}

/// The number in the RELATIVE KEY item after a row of this number was read or written.
pub(crate) fn number_left(select: &Select, row_number: u64, number: u64) -> u64
    ensures { result ≡ (if is_relative select.now.file.organization && is_some select.now.key_digits
        then row_number else number) }
{
    match select.file.organization {
        Organization::Relative => {
            if select.key_digits.is_some() {
                row_number
            } else {
                number
            }
        }
        _ => number,
    }
}

fn read_status(repeated: bool) -> Status
    ensures { result ≡ (if repeated then Status.SuccessDuplicate else Status.Success) }
{
    if repeated {
        Status::SuccessDuplicate
    } else {
        Status::Success
    }
}

/// There is no position. The key of reference is this one.
fn lose_position(link: &mut Link, key: KeyOfReference)
    ensures { link.new
        ≡ record link.old { reference = key; side = None; value_length = 0; was_read = false } }
{
    link.reference = key;
    link.side = None;
    link.value_length = 0;
    link.was_read = false;
}

/// The position is on this side of the row that was sought.
fn stand(select: &Select, link: &mut Link, key: KeyOfReference, side: Side, number: u64)
    requires key { IsKey (spec_of select.now.file) key }
    ensures { link.new ≡ record link.old {
      reference = key;
      side = Some side;
      value_length = (place_of (spec_of select.now.file) key).length;
      number = number;
      was_read = false;
      row = link.old.sought;
      sought = link.old.row;
    } }
{
    link.reference = key;
    link.side = Some(side);
    link.value_length = select.file.key_place(key).length;
    link.number = number;
    link.was_read = false;
    std::mem::swap(&mut link.row, &mut link.sought);
}

/// The row that was sought is read.
fn take_row(
    select: &Select,
    link: &mut Link,
    key: KeyOfReference,
    found: Found,
    bytes: &mut [u8],
    number: &mut u64,
) -> Status
    requires key { IsKey (spec_of select.now.file) key }
    requires bytes { length bytes.old ≡ length link.old.sought.items }
    ensures status { result ≡ (if found.repeated then Status.SuccessDuplicate else Status.Success) }
    ensures link { link.new ≡ record link.old {
      reference = key;
      side = Some Side.After;
      value_length = (place_of (spec_of select.now.file) key).length;
      number = found.number;
      was_read = true;
      row = link.old.sought;
      sought = link.old.row;
    } }
    ensures bytes { bytes.new ≡ link.old.sought.items }
    ensures number { number.new ≡ (if is_relative select.now.file.organization
        && is_some select.now.key_digits then found.number else number.old) }
{
    *number = number_left(select, found.number, *number);
    stand(select, link, key, Side::After, found.number);
    bytes.copy_from_slice(&link.row);
    link.was_read = true;
    read_status(found.repeated)
}

/// READ in sequence: the next row from the position on, which is on this side of the link's row.
pub(crate) fn read_next<T: Store, D: Device>(
    store: &mut T,
    device: &mut D,
    select: &Select,
    link: &mut Link,
    side: Side,
    bytes: &mut [u8],
    number: &mut u64,
) -> Result<Status, StoreFault>
    requires device { T.needs store.old ≤ D.sectors device.old }
    requires link { IsLink select.now link.old }
    requires position { link.old.side ≡ Some side }
    requires bytes { length bytes.old ≡ select.now.file.record_length }
    ensures reads { OnlyReadsFiles T.Keeps D.Device result store.old device.old store.new
        device.new }
    ensures step { MakesStep T.Keeps D.Device Verb.ReadNext result store.old device.old select.now
        link.old link.new (area bytes.old number.old) (area bytes.new number.new) }
    ensures link { IsLink select.now link.new }
    ensures mode { link.new.mode ≡ link.old.mode }
    ensures absent { link.new.is_absent ≡ link.old.is_absent }
    ensures same { OnErr result (SameLink select.now link.old link.new) }
    ensures area { OnErr result (area bytes.new number.new ≡ area bytes.old number.old) }
    ensures damaged { (files : Files) → Represents T.Keeps D.Device store.old device.old files
        → IsLinked files select.now link.old → result ≢ Err StoreFault.Damaged }
{
    let key = link.reference;
    if link.is_absent {
        lose_position(link, key);
        return Ok(Status::AtEnd);
    }
    let value = key_bytes(&select.file, key, link.value_length, &link.row);
    let bound = KeyBound {
        side,
        value,
        number: link.number,
    };
    let Some(found) = store.seek(device, &select.file, key, bound, &mut link.sought)? else {
        lose_position(link, key);
        return Ok(Status::AtEnd);
    };
    if is_too_long_for(select, found.number) {
        lose_position(link, key);
        return Ok(Status::NumberTooLong);
    }
    Ok(take_row(select, link, key, found, bytes, number))
}

/// READ by key: the first row that has the value in the record area, or the number.
pub(crate) fn read_by_key<T: Store, D: Device>(
    store: &mut T,
    device: &mut D,
    select: &Select,
    link: &mut Link,
    key: KeyOfReference,
    bytes: &mut [u8],
    number: &mut u64,
) -> Result<Status, StoreFault>
    requires device { T.needs store.old ≤ D.sectors device.old }
    requires link { IsLink select.now link.old }
    requires key { IsKey (spec_of select.now.file) key }
    requires bytes { length bytes.old ≡ select.now.file.record_length }
    ensures reads { OnlyReadsFiles T.Keeps D.Device result store.old device.old store.new
        device.new }
    ensures step { MakesStep T.Keeps D.Device (Verb.Read key) result store.old device.old select.now
        link.old link.new (area bytes.old number.old) (area bytes.new number.new) }
    ensures link { IsLink select.now link.new }
    ensures mode { link.new.mode ≡ link.old.mode }
    ensures absent { link.new.is_absent ≡ link.old.is_absent }
    ensures same { OnErr result (SameLink select.now link.old link.new) }
    ensures area { OnErr result (area bytes.new number.new ≡ area bytes.old number.old) }
    ensures damaged { (files : Files) → Represents T.Keeps D.Device store.old device.old files
        → IsLinked files select.now link.old → result ≢ Err StoreFault.Damaged }
{
    if link.is_absent {
        lose_position(link, key);
        return Ok(Status::NotFound);
    }
    let comparison = KeyComparison {
        relation: Relation::Equal,
        key,
        count: select.file.key_place(key).length,
    };
    let Some(found) = seek_fitting(
        store,
        device,
        &select.file,
        &mut link.sought,
        comparison,
        bytes,
        *number,
    )?
    else {
        lose_position(link, key);
        return Ok(Status::NotFound);
    };
    Ok(take_row(select, link, key, found, bytes, number))
}

/// START: the position is at the first row that compares so with the record area, or with the number.
pub(crate) fn start<T: Store, D: Device>(
    store: &mut T,
    device: &mut D,
    select: &Select,
    link: &mut Link,
    comparison: KeyComparison,
    bytes: &[u8],
    number: u64,
) -> Result<Status, StoreFault>
    requires device { T.needs store.old ≤ D.sectors device.old }
    requires link { IsLink select.now link.old }
    requires key { IsKey (spec_of select.now.file) comparison.key }
    requires count { comparison.count ≤ key_length (spec_of select.now.file) comparison.key }
    requires bytes { length bytes.now ≡ select.now.file.record_length }
    ensures reads { OnlyReadsFiles T.Keeps D.Device result store.old device.old store.new
        device.new }
    ensures step { MakesStep T.Keeps D.Device (Verb.Start
        comparison.relation comparison.key comparison.count) result store.old
        device.old select.now link.old link.new (area bytes.now number) (area bytes.now number) }
    ensures link { IsLink select.now link.new }
    ensures mode { link.new.mode ≡ link.old.mode }
    ensures absent { link.new.is_absent ≡ link.old.is_absent }
    ensures same { OnErr result (SameLink select.now link.old link.new) }
    ensures damaged { (files : Files) → Represents T.Keeps D.Device store.old device.old files
        → IsLinked files select.now link.old → result ≢ Err StoreFault.Damaged }
{
    let key = comparison.key;
    if link.is_absent {
        lose_position(link, key);
        return Ok(Status::NotFound);
    }
    let Some(found) = seek_fitting(
        store,
        device,
        &select.file,
        &mut link.sought,
        comparison,
        bytes,
        number,
    )?
    else {
        lose_position(link, key);
        return Ok(Status::NotFound);
    };
    stand(select, link, key, Side::From, found.number);
    Ok(Status::Success)
}
