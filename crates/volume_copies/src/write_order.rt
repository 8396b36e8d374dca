//! The order in which the rows of a file are written anew.
ghost use Rattle.std.specs.Prelude.{◌≡◌, ◌<◌, length, slice_index_or};

use crate::key_order::{KeyPlaceOfRow, rows_under};
use file_recovery::{StoredFile, StoredRow};
use std::alloc::{AllocError, Global};

/// A write of a row: its first one, or one that gives it this arrival under a key again.
#[derive(Clone, Copy, PartialEq, Eq, PartialOrd, Ord)]
pub(crate) struct RowWrite {
    pub arrival: u64,
    pub row: usize,
    pub is_first: bool,
}

/// The writes that bring the rows of a file into the order that they have under each alternate key
/// with DUPLICATES: each row once, if that suffices.
pub(crate) fn writes_of(alloc: Global, file: &StoredFile) -> Result<Vec<RowWrite>, AllocError> {
    let mut writes = Vec::new(alloc);
    for row in 0..file.rows.len() {
        push_first(&mut writes, file, row)?;
    }
    writes.sort_unstable();
    if is_order_kept(alloc, file, &writes)? {
        return Ok(writes);
    }
    push_all_rewrites(&mut writes, file)?;
    Ok(writes)
}

/// Appends the rewrites of all rows, and puts all in order.
fn push_all_rewrites(writes: &mut Vec<RowWrite>, file: &StoredFile) -> Result<(), AllocError> {
    for row in 0..file.rows.len() {
        push_rewrites(writes, file, row)?;
    }
    writes.sort_unstable();
    Ok(())
}

/// Appends the first write of a row.
fn push_first(writes: &mut Vec<RowWrite>, file: &StoredFile, row: usize) -> Result<(), AllocError>
    requires { row < length file.now.rows.items }
{
    let arrival = first_arrival(file, &file.rows[row]);
    Ok(writes.push(RowWrite {
        arrival,
        row,
        is_first: true,
    })?)
}

/// Appends a write for each later arrival of a row.
fn push_rewrites(
    writes: &mut Vec<RowWrite>,
    file: &StoredFile,
    row: usize,
) -> Result<(), AllocError>
    requires { row < length file.now.rows.items }
{
    let first = first_arrival(file, &file.rows[row]);
    for key in 0..file.spec.alternates.len() {
        let arrival = arrival_under(&file.rows[row], key);
        if arrival != first && is_new_arrival(file, &file.rows[row], key) {
            writes.push(RowWrite {
                arrival,
                row,
                is_first: false,
            })?;
        }
    }
    Ok(())
}

/// Whether a key has DUPLICATES, and no key before it that has them has its arrival.
fn is_new_arrival(file: &StoredFile, row: &StoredRow, key: usize) -> bool
    requires { key < length file.now.spec.alternates.items }
{
    if !file.spec.alternates[key].duplicates {
        return false;
    }
    for other in 0..key {
        if file.spec.alternates[other].duplicates
            && arrival_under(row, other) == arrival_under(row, key)
        {
            return false;
        }
    }
    true
}

/// The least arrival of a row under the keys with DUPLICATES; 0 if there is none.
fn first_arrival(file: &StoredFile, row: &StoredRow) -> u64 {
    let mut least = u64::MAX;
    for key in 0..file.spec.alternates.len() {
        if file.spec.alternates[key].duplicates {
            least = least.min(arrival_under(row, key));
        }
    }
    if least == u64::MAX { 0 } else { least }
}

/// The arrival of a row under an alternate key.
pub(crate) fn arrival_under(row: &StoredRow, key: usize) -> u64
    ensures { result ≡ slice_index_or row.now.arrivals.items key 0 }
{
    match row.arrivals.as_slice().get(key) {
        Some(arrival) => *arrival,
        None => 0,
    }
}

/// Whether the rows, written once in this order, have their order under each key with DUPLICATES.
fn is_order_kept(
    alloc: Global,
    file: &StoredFile,
    writes: &[RowWrite],
) -> Result<bool, AllocError> {
    let ranks = ranks_of(alloc, writes)?;
    for key in 0..file.spec.alternates.len() {
        if file.spec.alternates[key].duplicates {
            let rows = rows_under(alloc, file, key)?;
            if !are_ranks_in_order(&rows, &ranks) {
                return Ok(false);
            }
        }
    }
    Ok(true)
}

/// The place of each row among its writes.
fn ranks_of(alloc: Global, writes: &[RowWrite]) -> Result<Vec<usize>, AllocError> {
    let mut ranks = vec![in alloc; 0; writes.len()]?;
    for place in 0..writes.len() {
        let row = writes[place].row;
        if row < ranks.len() {
            ranks[row] = place;
        }
    }
    Ok(ranks)
}

/// Whether rows with one value of a key have ascending ranks.
fn are_ranks_in_order(rows: &[KeyPlaceOfRow], ranks: &[usize]) -> bool {
    for place in 1..rows.len() {
        let (one, two) = (&rows[place - 1], &rows[place]);
        if one.value == two.value && rank_of(ranks, two.row) < rank_of(ranks, one.row) {
            return false;
        }
    }
    true
}

fn rank_of(ranks: &[usize], row: usize) -> usize {
    match ranks.get(row) {
        Some(rank) => *rank,
        None => 0,
    }
}
