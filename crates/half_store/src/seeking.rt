//! Rows are sought in the order of a key.
ghost use Rattle.std.specs.Prelude.{◌≡◌, not, ◌≤◌, ◌<◌, ◌+◌, length, map, get_or, None, Some, Option, IsOk, OnOk, OnErr, IfOk, IfErr, IfSome};
ghost use Rattle.std.specs.Option.{option_map};
ghost use Rattle.std.specs.Ordering.{is_gt};
ghost use Rattle.records.specs.Rows.{Pair, pair_cmp, pair_under, prime_pair};
ghost use Rattle.records.specs.Laws.{RowsAscend};
ghost use Rattle.records.specs.Order.{is_after, sought_row, has_value, found_row};
ghost use Rattle.records.specs.Stores.{spec_of, IsKey, bound_at, record_of};
ghost use Rattle.records.specs.declared.key.Side.TheVariants.{After};
ghost use Rattle.records.specs.declared.key.KeyOfReference.TheVariants.{Prime};
ghost use Rattle.file_bytes.specs.Stored.{row_of};
ghost use Rattle.half_store.specs.Seeking.{AreRecords, IsBest};
ghost use Rattle.file_bytes.specs.declared.stored.StoredRow.{StoredRow};

use file_bytes::{StoredRow, part_of};
use records::{FileSpec, Found, KeyOfReference, Organization, Side, StoreFault};
use std::cmp::Ordering;

/// What is told of a row.
pub(crate) fn found_of(
    rows: &[StoredRow],
    spec: &FileSpec,
    key: KeyOfReference,
    row: &StoredRow,
) -> Found
    requires { IsKey (spec_of spec.now) key }
    ensures { result ≡ found_row (spec_of spec.now) key (map row_of rows.now) (row_of row.now) }
{
    let repeated = match key {
        KeyOfReference::Prime => false,
        KeyOfReference::Alternate(_) => has_repeat(rows, spec, key, row),
    };
    Found {
        number: number_under(spec, key, row),
        repeated,
    }
}

/// The first row after a place in the order of a key, its record put into `bytes`, where rows ascend by their prime key. A
/// record of another length is damage.
pub(crate) fn seek_in(
    rows: &[StoredRow],
    spec: &FileSpec,
    key: KeyOfReference,
    side: Side,
    value: &[u8],
    number: u64,
    bytes: &mut [u8],
) -> Result<Option<Found>, StoreFault>
    requires { IsKey (spec_of spec.now) key }
    ensures found { RowsAscend spec.now.organization (map row_of rows.now) → IfOk result (λ answer.
        answer ≡ option_map (found_row (spec_of spec.now) key (map row_of rows.now)) (sought_row
        (spec_of spec.now) key (bound_at side value.now number) (map row_of rows.now))) }
    ensures bytes { RowsAscend spec.now.organization (map row_of rows.now)
        → OnOk result (bytes.new ≡ record_of bytes.old (sought_row (spec_of spec.now) key
        (bound_at side value.now number) (map row_of rows.now))) }
    ensures kept { OnErr result (bytes.new ≡ bytes.old) }
    ensures cause { IfErr result (λ fault. fault ≡ StoreFault.Damaged) }
    ensures sound { AreRecords (length bytes.old) (map row_of rows.now) → IsOk result }
{
    let place = match seek_row(rows, spec, key, side, value, number) {
        None => return Ok(None),
        Some(place) => place,
    };
    let row = &rows[place];
    if row.bytes.len() != bytes.len() {
        return Err(StoreFault::Damaged);
    }
    bytes.copy_from_slice(&row.bytes);
    Ok(Some(found_of(rows, spec, key, row)))
}

/// A row's value of a key.
fn value_under<'a>(spec: &FileSpec, key: KeyOfReference, row: &'a StoredRow) -> &'a [u8]
    requires { IsKey (spec_of spec.now) key }
    ensures { result.now ≡ (pair_under (spec_of spec.now) key (row_of row.now)).value }
{
    match key {
        KeyOfReference::Prime => match spec.organization {
            Organization::Indexed(place) => part_of(place, &row.bytes),
            _ => &row.bytes[..0],
        },
        KeyOfReference::Alternate(_) => part_of(spec.key_place(key), &row.bytes),
    }
}

/// A row's number among rows of one value.
fn number_under(spec: &FileSpec, key: KeyOfReference, row: &StoredRow) -> u64
    ensures { result ≡ (pair_under (spec_of spec.now) key (row_of row.now)).number }
{
    match key {
        KeyOfReference::Prime => match spec.organization {
            Organization::Indexed(_) => 0,
            _ => row.number,
        },
        KeyOfReference::Alternate(i) => match row.arrivals.get(i as usize) {
            Some(arrival) => *arrival,
            None => 0,
        },
    }
}

/// How a row's place in the order of a key compares with another.
fn cmp_under(
    spec: &FileSpec,
    key: KeyOfReference,
    row: &StoredRow,
    value: &[u8],
    number: u64,
) -> Ordering
    requires { IsKey (spec_of spec.now) key }
    ensures { result ≡ pair_cmp (pair_under (spec_of spec.now) key (row_of row.now))
        (record { value = value.now; number = number }) }
{
    value_under(spec, key, row)
        .cmp(value)
        .then(number_under(spec, key, row).cmp(&number))
}

/// Whether a row is after a place in the order of a key.
fn stands_behind(
    spec: &FileSpec,
    key: KeyOfReference,
    row: &StoredRow,
    side: Side,
    value: &[u8],
    number: u64,
) -> bool
    requires { IsKey (spec_of spec.now) key }
    ensures { result ≡ is_after side (record { value = value.now; number = number })
        (pair_under (spec_of spec.now) key (row_of row.now)) }
{
    match side {
        Side::From => !cmp_under(spec, key, row, value, number).is_lt(),
        Side::After => cmp_under(spec, key, row, value, number).is_gt(),
        Side::Beyond => {
            let own = value_under(spec, key, row);
            let start = if value.len() < own.len() {
                &own[..value.len()]
            } else {
                own
            };
            start.cmp(value).is_gt()
        }
    }
}

/// Whether a row follows another in the order of a key.
fn comes_behind(spec: &FileSpec, key: KeyOfReference, row: &StoredRow, other: &StoredRow) -> bool
    requires { IsKey (spec_of spec.now) key }
    ensures { result ≡ is_gt (pair_cmp (pair_under (spec_of spec.now) key (row_of row.now))
        (pair_under (spec_of spec.now) key (row_of other.now))) }
{
    cmp_under(
        spec,
        key,
        row,
        value_under(spec, key, other),
        number_under(spec, key, other),
    )
    .is_gt()
}

/// The rows after a place were gone through, and `best` is the place of the first of them in order.
#[derive(Clone, Copy)]
struct Passed {
    place: usize,
    best: Option<usize>,
}

/// The place of the first of the rows from the place on, in order.
fn better(
    rows: &[StoredRow],
    spec: &FileSpec,
    key: KeyOfReference,
    side: Side,
    value: &[u8],
    number: u64,
    passed: Passed,
) -> Option<usize>
    requires key { IsKey (spec_of spec.now) key }
    requires place { passed.place < length rows.now }
    requires best { IfSome passed.best (λ i. i < length rows.now) }
    ensures bound { IfSome result (λ i. i < length rows.now) }
    ensures best { IsBest
        (spec_of spec.now) key (bound_at side value.now number) rows.now (passed.place + 1)
        passed.best → IsBest (spec_of spec.now) key (bound_at side value.now number) rows.now
        passed.place result }
{
    let place = passed.place;
    let best = passed.best;
    if !stands_behind(spec, key, &rows[place], side, value, number) {
        return best;
    }
    match best {
        None => Some(place),
        Some(other) => {
            if comes_behind(spec, key, &rows[place], &rows[other]) {
                return Some(other);
            }
            Some(place)
        }
    }
}

/// The place of the first row after a place in the order of a key, of which nothing is known: all rows are gone through.
fn seek_through(
    rows: &[StoredRow],
    spec: &FileSpec,
    key: KeyOfReference,
    side: Side,
    value: &[u8],
    number: u64,
) -> Option<usize>
    requires { IsKey (spec_of spec.now) key }
    ensures bound { IfSome result (λ i. i < length rows.now) }
    ensures row { (d : StoredRow)
        → sought_row (spec_of spec.now) key (bound_at side value.now number)
        (map row_of rows.now) ≡ option_map (λ i. row_of (get_or rows.now i d)) result }
{
    let mut best: Option<usize> = None;
    for back in 0..rows.len() {
        let place = rows.len() - 1 - back;
        best = better(rows, spec, key, side, value, number, Passed { place, best });
    }
    best
}

/// The place of the first row after a place in the order of the prime key, in which rows ascend.
fn seek_prime(
    rows: &[StoredRow],
    spec: &FileSpec,
    side: Side,
    value: &[u8],
    number: u64,
) -> Option<usize>
    ensures bound { IfSome result (λ i. i < length rows.now) }
    ensures row { RowsAscend spec.now.organization (map row_of rows.now) → (d : StoredRow) →
        sought_row (spec_of spec.now) Prime (bound_at side value.now number) (map row_of rows.now)
        ≡ option_map (λ i. row_of (get_or rows.now i d)) result }
{
    let place = rows.partition_point(
        |row: &StoredRow| -> bool
            ensures { result
                ≡ not (is_after side (record { value = value.entry.now; number = number })
                (prime_pair spec.entry.now.organization (row_of row.now))) }
        { !stands_behind(spec, KeyOfReference::Prime, row, side, value, number) },
    );
    if place < rows.len() {
        Some(place)
    } else {
        None
    }
}

/// The place of the first row after a place in the order of a key, where rows ascend by their prime key.
fn seek_row(
    rows: &[StoredRow],
    spec: &FileSpec,
    key: KeyOfReference,
    side: Side,
    value: &[u8],
    number: u64,
) -> Option<usize>
    requires { IsKey (spec_of spec.now) key }
    ensures bound { IfSome result (λ i. i < length rows.now) }
    ensures row { RowsAscend spec.now.organization (map row_of rows.now) → (d : StoredRow) →
        sought_row (spec_of spec.now) key (bound_at side value.now number) (map row_of rows.now)
        ≡ option_map (λ i. row_of (get_or rows.now i d)) result }
{
    match key {
        KeyOfReference::Prime => seek_prime(rows, spec, side, value, number),
        KeyOfReference::Alternate(_) => seek_through(rows, spec, key, side, value, number),
    }
}

/// Whether the row after this one has its value.
fn has_repeat(rows: &[StoredRow], spec: &FileSpec, key: KeyOfReference, row: &StoredRow) -> bool
    requires { IsKey (spec_of spec.now) key }
    ensures { result ≡ has_value (spec_of spec.now) key
        (pair_under (spec_of spec.now) key (row_of row.now)).value
        (sought_row (spec_of spec.now)
        key (record { side = After; pair = pair_under (spec_of spec.now) key (row_of row.now) })
        (map row_of rows.now)) }
{
    let value = value_under(spec, key, row);
    let number = number_under(spec, key, row);
    match seek_through(rows, spec, key, Side::After, value, number) {
        None => false,
        Some(next) => value_under(spec, key, &rows[next]).cmp(value).is_eq(),
    }
}
