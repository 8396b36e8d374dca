//! A sparse index of rows by their prime keys.
ghost use Rattle.std.specs.Prelude.{length, ◌≤◌, IsOkUnless};
ghost use Rattle.std.specs.List.{All};
ghost use Rattle.records.specs.Stores.{spec_of};
ghost use Rattle.file_recovery.specs.Rows.{IsSized};
ghost use Rattle.file_bytes.specs.Stored.{rows_of};

use crate::row_bytes::prime_value_at;
use file_bytes::StoredRow;
use records::{FileSpec, StoreFault};
use std::alloc::Global;

/// How many rows an entry of the index is for.
const STRIDE: usize = 32;

/// How many bytes of a prime key an entry has.
const PREFIX_BYTES: usize = 16;

/// The first bytes of the prime key of each thirty-second row, so that a search seldom leaves the processor's caches. It is a hint:
/// nothing is claimed of it.
#[derive(Drop)]
pub(crate) struct SparseIndex {
    prefixes: Vec<u128>,
}

/// The first bytes of a prime key as a number. A shorter key is filled with zeros.
fn prefix_of(value: &[u8]) -> u128 {
    let mut bytes = [0; PREFIX_BYTES];
    for (byte, own) in bytes.iter_mut().zip(value) {
        *byte = *own;
    }
    u128::from_be_bytes(bytes)
}

impl SparseIndex {
    /// The index of rows that ascend under the prime key.
    pub(crate) fn new(
        alloc: Global,
        file: &FileSpec,
        rows: &[StoredRow],
    ) -> Result<SparseIndex, StoreFault>
        requires { All (IsSized (spec_of file.now)) (rows_of rows.now) }
        ensures { IsOkUnless result StoreFault.Memory }
    {
        let mut prefixes = Vec::with_capacity(alloc, rows.len() / STRIDE)?;
        for place in 0..rows.len() {
            if place % STRIDE == 0 {
                prefixes.push(prefix_of(prime_value_at(file, rows, place)))?;
            }
        }
        Ok(SparseIndex { prefixes })
    }

    /// Between which places of so many rows the row with a prime key is to be sought.
    pub(crate) fn span(&self, value: &[u8], count: usize) -> (usize, usize)
        ensures { result.1 ≤ count }
    {
        let prefix = prefix_of(value);
        let below = self.prefixes.partition_point(|other| *other < prefix);
        let through = self.prefixes.partition_point(|other| *other <= prefix);
        let start = below.saturating_sub(1).saturating_mul(STRIDE);
        (start, through.saturating_mul(STRIDE).min(count))
    }
}
