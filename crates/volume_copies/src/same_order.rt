//! Whether the rows of two files are in one order under an alternate key.
ghost use Rattle.std.specs.Prelude.{◌≡◌, ◌<◌, true, length, IfOk};
ghost use Rattle.std.specs.declared.cmp.Ordering.TheVariants.{Less};
ghost use Rattle.records.specs.declared.key.KeyOfReference.TheVariants.{Alternate};
ghost use Rattle.records.specs.Stores.{spec_of};
ghost use Rattle.records.specs.Rows.{pair_cmp};
ghost use Rattle.file_bytes.specs.Stored.{row_of, rows_of};
ghost use Rattle.volume_copies.specs.Same.{IsSameOrder};
ghost use Rattle.volume_copies.specs.Ascents.{IsAscent, HasEach, pair_at};

use crate::key_order::rows_under;
use crate::write_order::arrival_under;
use file_bytes::part_of;
use file_recovery::{StoredFile, StoredRow};
use records::KeyPlace;
use std::alloc::{AllocError, Global};

/// Whether two files of the same records have them in one order under an alternate key.
pub(crate) fn is_same_order(
    alloc: Global,
    one: &StoredFile,
    two: &StoredFile,
    key: usize,
) -> Result<bool, AllocError>
    requires { key < length one.now.spec.alternates.items }
    ensures { IfOk result (λ same. same ≡ true
        → IsSameOrder (spec_of one.now.spec) (Alternate key)
        (rows_of one.now.rows.items) (rows_of two.now.rows.items)) }
{
    let order = order_under(alloc, one, key)?;
    let place = one.spec.alternates[key].place;
    if !is_each_there(alloc, &order, one.rows.len())? {
        return Ok(false);
    }
    if !is_ascending(&one.rows, &order, place, key) {
        return Ok(false);
    }
    Ok(is_ascending(&two.rows, &order, place, key))
}

/// The rows of a file in the order of a key.
fn order_under(alloc: Global, file: &StoredFile, key: usize) -> Result<Vec<usize>, AllocError>
    requires { key < length file.now.spec.alternates.items }
{
    let rows = rows_under(alloc, file, key)?;
    let mut order = Vec::new(alloc);
    for row in &rows {
        order.push(row.row)?;
    }
    Ok(order)
}

/// Whether each of so many numbers is in a list.
fn is_each_there(alloc: Global, order: &[usize], count: usize) -> Result<bool, AllocError>
    ensures { IfOk result (λ there. there ≡ true → HasEach count order.now) }
{
    let mut places = vec![in alloc; 0; count]?;
    for place in 0..order.len() {
        if order[place] < count {
            places[order[place]] = place;
        }
    }
    Ok(are_places(order, &places))
}

/// Whether each number is at its place in a list.
fn are_places(order: &[usize], places: &[usize]) -> bool
    ensures { result ≡ true → HasEach (length places.now) order.now }
{
    for number in 0..places.len() {
        if places[number] >= order.len() || order[places[number]] != number {
            return false;
        }
    }
    true
}

/// Whether rows ascend under a key in this order.
fn is_ascending(rows: &[StoredRow], order: &[usize], place: KeyPlace, key: usize) -> bool
    ensures { result ≡ true → IsAscent place key (rows_of rows.now) order.now }
{
    for next in 1..order.len() {
        let (one, two) = (order[next - 1], order[next]);
        if one >= rows.len()
            || two >= rows.len()
            || !is_before(&rows[one], &rows[two], place, key)
        {
            return false;
        }
    }
    true
}

/// Whether a row is before another one under a key.
fn is_before(one: &StoredRow, two: &StoredRow, place: KeyPlace, key: usize) -> bool
    ensures { result ≡ true → pair_cmp (pair_at place key (row_of one.now))
        (pair_at place key (row_of two.now)) ≡ Less }
{
    let order = part_of(place, &one.bytes).cmp(part_of(place, &two.bytes));
    if order.is_eq() {
        return arrival_under(one, key) < arrival_under(two, key);
    }
    order.is_lt()
}
