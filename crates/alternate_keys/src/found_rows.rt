//! What a search says of the row of an entry.
ghost use Rattle.std.specs.Prelude.{◌≡◌, ◌≤◌, ◌<◌, ◌+◌, true, false, Err, Ok, Some, List, length, take, drop, IfOk, OnOk, OnErr, IfErr};
ghost use Rattle.byteorder.specs.Endian.{big_number};
ghost use Rattle.station.specs.Calls.{OnlyReads};
ghost use Rattle.pages.specs.Pages.{is_spent, sectors_of, Agrees, IsUnchanged};
ghost use Rattle.btree.specs.Calls.{OnPages, OnTree, OnNoTree, pages_on};
ghost use Rattle.btree.specs.Places.{IsLeafPlace};
ghost use Rattle.btree.specs.Results.{ReturnsDamaged};
ghost use Rattle.btree.specs.Entries.{entries_of};
ghost use Rattle.btree.specs.Reading.{IsReadRefusal};
ghost use Rattle.records.specs.Spec.{Spec};
ghost use Rattle.records.specs.Rows.{Row as FileRow, same_bytes};
ghost use Rattle.records.specs.Order.{found_row};
ghost use Rattle.file_bytes.specs.Rows.{prime_key_length};
ghost use Rattle.volume_format.specs.Calls.{LooksAt};
ghost use Rattle.volume_format.specs.Trees.{entry_under};
ghost use Rattle.volume_format.specs.Pairs.{IsUnder};
ghost use Rattle.chains.specs.Refusals.{IsRecordRefusal};
ghost use Rattle.alternate_keys.specs.Aims.{found_entry};
ghost use Rattle.alternate_keys.specs.Searches.{OnPairEntry};
ghost use Rattle.alternate_keys.specs.Seen.{IsRowEntry, number_in, begins_with_value};

use crate::notes::SearchNotes;
use crate::search_start::SearchStart;
use btree::{Entry, LeafPlace, Tree};
use byteorder::{BigEndian, ByteOrder};
use chains::RecordBuffer;
use pages::{PageMap, PagesError};
use records::{Found, KeyOfReference, Organization};
use row_trees::RowTree;
use station::Device;

/// What a search says of a row, by its entry in the tree of rows. The row's record is put into `bytes`.
pub(crate) fn read_prime_row<D: Device>(
    buffer: &mut RecordBuffer,
    prime: &RowTree,
    pages: &mut PageMap,
    device: &mut D,
    organization: Organization,
    entry: &Entry,
    bytes: &mut [u8],
) -> Result<Found, PagesError>
    requires sectors { sectors_of pages.old ≤ D.sectors device.old }
    ensures looks { LooksAt D.Device (result ≡ Err PagesError.Device) pages.old device.old pages.new
        device.new }
    ensures found { (spec : Spec) (row : FileRow) (rows : List FileRow)
        → spec.organization ≡ organization
        → entry.now.key ≡ (entry_under spec KeyOfReference.Prime row).key →
        IsUnder spec KeyOfReference.Prime row
        → IfOk result (λ told. told ≡ found_row spec KeyOfReference.Prime rows row) }
    ensures bytes { OnPages D.Device pages.old device.old (λ before. (spec : Spec) (row : FileRow)
        → IsRowEntry spec prime.now.record_bytes before entry.now row
        → length row.bytes ≡ length bytes.old → OnOk result (bytes.new ≡ row.bytes)) }
    ensures damaged { OnPages D.Device pages.old device.old (λ before. (spec : Spec) (row : FileRow)
        → IsRowEntry spec prime.now.record_bytes before entry.now row
        → spec.organization ≡ organization → IsUnder spec KeyOfReference.Prime row
        → length row.bytes ≡ length bytes.old → result ≡ Err PagesError.Damaged → ⊥) }
    ensures spent { result ≡ Err PagesError.Spent → is_spent pages.old ≡ true }
    ensures kept { OnErr result (bytes.new ≡ bytes.old) }
    ensures cause { IfErr result IsRecordRefusal }
{
    let number = number_of(organization, entry.key())?;
    prime.read_record(buffer, pages, device, entry, bytes)?;
    Ok(Found {
        number,
        repeated: false,
    })
}

/// Whether the key of an entry begins with a value.
pub(crate) fn begins_with(entry: &Option<Entry>, value: &[u8]) -> bool
    ensures { result ≡ begins_with_value value.now entry.now }
{
    match entry {
        Some(entry) => has_front(entry.key(), value),
        None => false,
    }
}

/// Whether a key begins with a value.
fn has_front(key: &[u8], value: &[u8]) -> bool
    ensures { result ≡ same_bytes (take (length value.now) key.now) value.now }
{
    let count = value.len().min(key.len());
    key[..count].cmp(value).is_eq()
}

/// What a search says of a row, by its entry in the tree of an alternate key. The notes have the entry. The row's record is put into
/// `bytes`.
pub(crate) fn read_alternate_row<D: Device>(
    notes: &mut SearchNotes,
    prime: &RowTree,
    under: &Tree,
    pages: &mut PageMap,
    device: &mut D,
    value_length: usize,
    bytes: &mut [u8],
) -> Result<Found, PagesError>
    requires sectors { sectors_of pages.old ≤ D.sectors device.old }
    requires few { value_length < 65536 }
    requires short { under.now.layout.key_length ≤ 128 }
    ensures looks { LooksAt D.Device (result ≡ Err PagesError.Device) pages.old device.old pages.new
        device.new }

    // If the leaf that is noted is one of its tree, so is the leaf that is noted then, and this is the answer.
    ensures place { OnPages D.Device pages.old device.old
        (λ before. IsLeafPlace notes.old.place before → IsLeafPlace notes.new.place before) }
    ensures found { OnPairEntry D.Device pages.old device.old prime.now under.now value_length
        notes.old.entry (λ spec i rows row.
        IsLeafPlace notes.old.place (pages_on D.Device pages.old device.old) →
        IfOk result (λ told. told ≡ found_row spec (KeyOfReference.Alternate i) rows row)) }
    ensures bytes { OnPairEntry D.Device pages.old device.old prime.now under.now value_length
        notes.old.entry (λ spec i rows row.
        length bytes.old ≡ spec.record_length → OnOk result (bytes.new ≡ row.bytes)) }
    ensures damaged { OnPairEntry D.Device pages.old device.old prime.now under.now value_length
        notes.old.entry (λ spec i rows row.
        IsLeafPlace notes.old.place (pages_on D.Device pages.old device.old)
        → length bytes.old ≡ spec.record_length → result ≡ Err PagesError.Damaged → ⊥) }
    ensures file { (notes.new.name.items ≡ notes.old.name.items)
        × (notes.new.listing ≡ notes.old.listing) }
    ensures spent { result ≡ Err PagesError.Spent → is_spent pages.old ≡ true }
    ensures kept { OnErr result (bytes.new ≡ bytes.old) }
    ensures cause { IfErr result IsRecordRefusal }
{
    let key = notes.entry.key();
    let number = arrival_in(key, value_length)?;
    let place = &mut notes.place;
    let repeated = is_repeated(
        under,
        pages,
        device,
        key,
        value_length,
        place,
        &mut notes.next,
    )?;
    let record = &mut notes.record;
    let prime_key = notes.entry.value();
    if prime.read_row(record, pages, device, prime_key, &mut notes.next, bytes)? {
        return Ok(Found { number, repeated });
    }
    Err(PagesError::Damaged)
}

/// The number that a key of the tree of rows has: 0 in an indexed file.
fn number_of(organization: Organization, key: &[u8]) -> Result<u64, PagesError>
    ensures ok { IfOk result (λ number. number ≡ number_in organization key.now) }
    ensures err { IfErr result
        (λ error. (error ≡ PagesError.Damaged) × (length key.now < prime_key_length organization)) }
{
    match organization {
        Organization::Sequential => {
            if key.len() < 8 {
                return Err(PagesError::Damaged);
            }
            Ok(BigEndian::read_u64(key))
        }
        Organization::Relative => {
            if key.len() < 4 {
                return Err(PagesError::Damaged);
            }
            Ok(BigEndian::read_u32(key) as u64)
        }
        Organization::Indexed(_) => Ok(0),
    }
}

/// The arrival after a value in a key.
fn arrival_in(key: &[u8], value_length: usize) -> Result<u64, PagesError>
    requires { value_length < 65536 }
    ensures ok { IfOk result (λ number. number ≡ big_number 8 (drop value_length key.now)) }
    ensures long { OnOk result (value_length + 8 ≤ length key.now) }
    ensures err { IfErr result
        (λ error. (error ≡ PagesError.Damaged) × (length key.now < value_length + 8)) }
{
    if key.len() < value_length + 8 {
        return Err(PagesError::Damaged);
    }
    Ok(BigEndian::read_u64(&key[value_length..]))
}

/// Whether the entry after a key in an alternate key's tree has the same value. That entry is put into `next`.
fn is_repeated<D: Device>(
    under: &Tree,
    pages: &mut PageMap,
    device: &mut D,
    key: &[u8],
    value_length: usize,
    place: &mut LeafPlace,
    next: &mut Entry,
) -> Result<bool, PagesError>
    requires sectors { sectors_of pages.old ≤ D.sectors device.old }
    requires long { value_length ≤ length key.now }
    requires few { under.now.layout.key_length ≤ 128 }
    ensures only { OnlyReads D.Device (result ≡ Err PagesError.Device) device.old device.new }
    ensures unchanged { IsUnchanged pages.old pages.new }
    ensures agrees { D.is_honest device.old → Agrees pages.old (D.state device.old).disk
        → Agrees pages.new (D.state device.new).disk }
    ensures place { OnPages D.Device pages.old device.old
        (λ before. IsLeafPlace place.old before → IsLeafPlace place.new before) }
    ensures repeated { OnTree D.Device under.now.layout under.now.root pages.old device.old
        (λ levels. IsLeafPlace place.old (pages_on D.Device pages.old device.old) →
        IfOk result (λ repeated. repeated ≡ begins_with_value (take value_length key.now)
        (found_entry SearchStart.After (entries_of under.now.layout levels) key.now))) }
    ensures damaged { OnNoTree D.Device under.now.layout under.now.root pages.old device.old
        (ReturnsDamaged result × IsLeafPlace place.old (pages_on D.Device pages.old device.old)) }
    ensures cause { IfErr result IsReadRefusal }
    ensures spent { result ≡ Err PagesError.Spent → is_spent pages.old ≡ true }
{
    if !under.next_near(pages, device, key, place, next)? {
        return Ok(false);
    }
    Ok(has_front(next.key(), &key[..value_length]))
}
