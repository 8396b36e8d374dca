//! Another record for a row, in memory.
ghost use Rattle.std.specs.Prelude.{◌≡◌, ◌+◌, ◌<◌, ◌^◌, ◌∷◌, not, ◌&&◌, ℕ, length, map, filter, get_or, IfOk, IfErr, IsOkUnless, if◌then◌else◌};
ghost use Rattle.std.specs.List.{list_any};
ghost use Rattle.records.specs.Rows.{Row, part, same_bytes};
ghost use Rattle.records.specs.Changes.{replacement, changes, is_at, is_taken, is_duplicate, repeats, without_pair, arrivals_after};
ghost use Rattle.records.specs.Laws.{RowsAscend};
ghost use Rattle.records.specs.Stores.{pair_of};
ghost use Rattle.file_bytes.specs.Stored.{row_of, file_of};
ghost use Rattle.half_store.specs.Changing.{Becomes, IsMemoryCause};
ghost use Rattle.file_bytes.specs.declared.stored.StoredRow.{StoredRow};

use crate::finding::find_row;
use crate::inserting::{ARRIVALS, outcome_of};
use crate::rows::{has_value, pair_cmp, prime_key};
use file_bytes::{StoredFile, StoredRow, part_of};
use records::{AlternateKey, Organization, Outcome, StoreFault};
use smallvec::SmallVec;
use std::alloc::Global;

/// The row of the record's prime key, or of this number where the file has none, gets another record.
pub(crate) fn replace_row(
    alloc: Global,
    file: &mut StoredFile,
    number: u64,
    bytes: &[u8],
) -> Result<Outcome, StoreFault>
    ensures becomes { RowsAscend file.old.spec.organization (map row_of file.old.rows.items)
        → Becomes result (replacement number bytes.now (file_of file.old)) file.old file.new }
    ensures cause { IfErr result IsMemoryCause }
{
    let spec = &file.spec;
    let organization = spec.organization;
    let prime = prime_key(organization, bytes);
    let rows = file.rows.as_slice();
    let place = match find_row(rows, organization, number, prime) {
        None => return Ok(Outcome::Missing),
        Some(place) => place,
    };
    let keys = spec.alternates.as_slice();
    let old = &rows[place];
    let before = old.bytes.as_slice();
    if has_other_taken(keys, rows, organization, number, prime, before, bytes) {
        return Ok(Outcome::Taken);
    }
    if file.next_arrival >= ARRIVALS - 1 {
        return Err(StoreFault::Full);
    }
    let duplicate = has_other_duplicate(keys, rows, organization, number, prime, before, bytes);
    let changed = is_any_changed(keys, before, bytes);
    let row = row_after(alloc, old, bytes, file.next_arrival, keys)?;
    file.rows[place] = row;
    file.next_arrival = next_after(changed, file.next_arrival);
    Ok(outcome_of(duplicate))
}

/// Whether a record has another value of a key than the one before.
fn is_changed(key: &AlternateKey, old: &[u8], bytes: &[u8]) -> bool
    ensures { result ≡ changes old.now bytes.now key.now }
{
    !part_of(key.place, old)
        .cmp(part_of(key.place, bytes))
        .is_eq()
}

fn is_any_changed(keys: &[AlternateKey], old: &[u8], bytes: &[u8]) -> bool
    ensures { result ≡ list_any (λ key. changes old.now bytes.now key) keys.now }
{
    keys.iter().any(|key| is_changed(key, old, bytes))
}

fn stands_elsewhere(
    rows: &[StoredRow],
    organization: Organization,
    number: u64,
    prime: &[u8],
    bytes: &[u8],
    key: &AlternateKey,
) -> bool
    ensures { result ≡ list_any (λ (row : StoredRow).
        not (is_at organization (pair_of organization prime.now number) (row_of row)) && same_bytes
        (part key.now.place row.bytes.items) (part key.now.place bytes.now)) rows.now }
{
    rows.iter().any(|row| {
        !pair_cmp(organization, row, number, prime).is_eq() && has_value(key, row, bytes)
    })
}

/// Whether another row has this record's value of a key.
fn is_repeated_elsewhere(
    rows: &[StoredRow],
    organization: Organization,
    number: u64,
    prime: &[u8],
    bytes: &[u8],
    key: &AlternateKey,
) -> bool
    ensures { result ≡ repeats (without_pair organization (pair_of organization prime.now number)
        (map row_of rows.now)) bytes.now key.now }
{
    stands_elsewhere(rows, organization, number, prime, bytes, key)
}

fn is_any_taken(
    keys: &[AlternateKey],
    rows: &[StoredRow],
    organization: Organization,
    number: u64,
    prime: &[u8],
    old: &[u8],
    bytes: &[u8],
) -> bool
    ensures { result ≡ list_any (λ key.
        changes old.now bytes.now key && (not key.duplicates && repeats (without_pair organization
        (pair_of organization prime.now number) (map row_of rows.now)) bytes.now key)) keys.now }
{
    keys.iter().any(|key| {
        is_changed(key, old, bytes)
            && (!key.duplicates
                && is_repeated_elsewhere(rows, organization, number, prime, bytes, key))
    })
}

/// Whether another row has this record's value of a key without DUPLICATES that changes.
fn has_other_taken(
    keys: &[AlternateKey],
    rows: &[StoredRow],
    organization: Organization,
    number: u64,
    prime: &[u8],
    old: &[u8],
    bytes: &[u8],
) -> bool
    ensures { result ≡ is_taken (filter (changes old.now bytes.now) keys.now) (without_pair
        organization (pair_of organization prime.now number) (map row_of rows.now)) bytes.now }
{
    is_any_taken(keys, rows, organization, number, prime, old, bytes)
}

fn is_any_duplicate(
    keys: &[AlternateKey],
    rows: &[StoredRow],
    organization: Organization,
    number: u64,
    prime: &[u8],
    old: &[u8],
    bytes: &[u8],
) -> bool
    ensures { result ≡ list_any (λ key.
        changes old.now bytes.now key && (key.duplicates && repeats (without_pair organization
        (pair_of organization prime.now number) (map row_of rows.now)) bytes.now key)) keys.now }
{
    keys.iter().any(|key| {
        is_changed(key, old, bytes)
            && (key.duplicates
                && is_repeated_elsewhere(rows, organization, number, prime, bytes, key))
    })
}

/// Whether another row has this record's value of a key with DUPLICATES that changes.
fn has_other_duplicate(
    keys: &[AlternateKey],
    rows: &[StoredRow],
    organization: Organization,
    number: u64,
    prime: &[u8],
    old: &[u8],
    bytes: &[u8],
) -> bool
    ensures { result ≡ is_duplicate (filter (changes old.now bytes.now) keys.now) (without_pair
        organization (pair_of organization prime.now number) (map row_of rows.now)) bytes.now }
{
    is_any_duplicate(keys, rows, organization, number, prime, old, bytes)
}

/// The arrival of a row with another record under a key.
fn arrival_of(key: &AlternateKey, arrival: u64, old: &[u8], bytes: &[u8], next: u64) -> u64
    ensures { result ≡ (if changes old.now bytes.now key.now then next else arrival) }
{
    if is_changed(key, old, bytes) {
        next
    } else {
        arrival
    }
}

/// The arrivals of a row with another record: a changed key has the next one.
fn arrivals_with(
    alloc: Global,
    row: &StoredRow,
    bytes: &[u8],
    next: u64,
    keys: &[AlternateKey],
) -> Result<SmallVec<u64, 2>, StoreFault>
    ensures arrivals { IfOk result (λ arrivals. arrivals.items
        ≡ arrivals_after row.now.bytes.items bytes.now next keys.now row.now.arrivals.items) }
    ensures memory { IsOkUnless result StoreFault.Memory }
{
    let mut arrivals = SmallVec::new(alloc);
    for place in 0..keys.len() {
        if place >= row.arrivals.len() {
            return Ok(arrivals);
        }
        arrivals.push(arrival_of(&keys[place], row.arrivals[place], &row.bytes, bytes, next))?;
    }
    Ok(arrivals)
}

/// A row with another record.
fn row_after(
    alloc: Global,
    row: &StoredRow,
    bytes: &[u8],
    next: u64,
    keys: &[AlternateKey],
) -> Result<StoredRow, StoreFault>
    ensures row { IfOk result (λ new. row_of new ≡ record {
      number = row.now.number;
      bytes = bytes.now;
      arrivals = arrivals_after row.now.bytes.items bytes.now next keys.now row.now.arrivals.items;
    }) }
    ensures memory { IsOkUnless result StoreFault.Memory }
{
    let arrivals = arrivals_with(alloc, row, bytes, next, keys)?;
    let mut copy = Vec::new(alloc);
    copy.extend_from_slice(bytes)?;
    Ok(StoredRow {
        number: row.number,
        bytes: copy,
        arrivals,
    })
}

/// The next arrival after a change, which takes one where a key has changed.
fn next_after(changed: bool, next: u64) -> u64
    requires { next + 1 < 2 ^ 64 }
    ensures { result ≡ (if changed then next + 1 else next) }
{
    if changed { next + 1 } else { next }
}
