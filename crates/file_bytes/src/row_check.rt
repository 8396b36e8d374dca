//! Whether a row in memory is one of a file.
ghost use Rattle.std.specs.Prelude.{◌≡◌, true, false};
ghost use Rattle.std.specs.List.{AllByRecursion};
ghost use Rattle.records.specs.Files.{IsByte, IsArrival, IsRow};
ghost use Rattle.records.specs.Stores.{spec_of};
ghost use Rattle.file_bytes.specs.Stored.{row_of};

use crate::row_number::is_row_number;
use crate::stored::StoredRow;
use records::FileSpec;

/// Whether a row is one of such a file, whose next WRITE gives this arrival.
pub fn is_row(file: &FileSpec, next: u64, row: &StoredRow) -> bool
    ensures yes { result ≡ true → IsRow (spec_of file.now) next (row_of row.now) }
    ensures no { result ≡ false → IsRow (spec_of file.now) next (row_of row.now) → ⊥ }
{
    if row.bytes.len() != file.record_length as usize {
        return false;
    }
    if !is_row_number(file.organization, next, row.number) {
        return false;
    }
    if row.arrivals.len() != file.alternates.len() {
        return false;
    }
    are_bytes(&row.bytes);
    are_given(next, &row.arrivals)
}

/// What a slice of bytes has is bytes.
fn are_bytes(_bytes: &[u8])
    ensures { AllByRecursion IsByte _bytes.now }
{}

/// Whether each arrival was given before the next one.
fn are_given(next: u64, arrivals: &[u64]) -> bool
    ensures yes { result ≡ true → AllByRecursion (IsArrival next) arrivals.now }
    ensures no { result ≡ false → AllByRecursion (IsArrival next) arrivals.now → ⊥ }
{
    for back in 0..arrivals.len() {
        let place = arrivals.len() - 1 - back;
        if !is_given(next, arrivals[place]) {
            return false;
        }
    }
    true
}

/// Whether an arrival was given before the next one.
fn is_given(next: u64, arrival: u64) -> bool
    ensures yes { result ≡ true → IsArrival next arrival }
    ensures no { result ≡ false → IsArrival next arrival → ⊥ }
{
    1 <= arrival && arrival < next
}
