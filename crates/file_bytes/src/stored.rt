//! The files in memory.
ghost use Rattle.std.specs.Prelude.{◌≡◌, true, false, not};
ghost use Rattle.std.specs.List.{list_all};
ghost use Rattle.records.specs.Spec.{is_long};
ghost use Rattle.records.specs.Stores.{spec_of};
ghost use Rattle.records.specs.Files.{AreShort};
ghost use Rattle.file_bytes.specs.Stored.{files_of};

use records::FileSpec;
use smallvec::SmallVec;

/// A row: its number, its record, and its arrivals. One or two arrivals stand in the row itself.
#[derive(Drop)]
pub struct StoredRow {
    pub number: u64,
    pub bytes: Vec<u8>,
    pub arrivals: SmallVec<u64, 2>,
}

/// A file, its rows in order.
#[derive(Drop)]
pub struct StoredFile {
    pub spec: FileSpec,
    pub rows: Vec<StoredRow>,
    pub next_arrival: u64,
}

/// Whether no file has records of more than 1,000 bytes.
pub fn are_short(files: &[StoredFile]) -> bool
    ensures yes { result ≡ true → AreShort (files_of files.now) }
    ensures no { result ≡ false → AreShort (files_of files.now) → ⊥ }
{
    all_short(files)
}

fn all_short(files: &[StoredFile]) -> bool
    ensures { result ≡ list_all (λ file. not (is_long (spec_of file.spec))) files.now }
{
    files.iter().all(|file| !file.spec.is_long())
}
