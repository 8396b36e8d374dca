//! Tables in an image: a count, and that many entries.

ghost use Rattle.std.specs.Prelude.{◌≡◌, ◌++◌, ℕ, List, Result, OnOk, length};
ghost use Rattle.std.specs.List.{AllByRecursion};
ghost use Rattle.answers.specs.Answer.{Gives};
ghost use Rattle.data_image.specs.declared.fault.ImageFault.{ImageFault};
ghost use Rattle.data_image.specs.Faults.{fault_of};
ghost use Rattle.data_image.specs.Spelling.{table_bytes, IsCount};
ghost use Rattle.data_image.specs.Reading.{entries_at, table_at};

use crate::fault::ImageError;
use crate::number::{put_count, read_count};
use sqlite_items::Items;
use std::alloc::{AllocError, Global};

/// What stands in a table of an image: it has one spelling.
pub trait TableEntry: Drop {
    /// The bytes of an entry.
    ghost spelled: { Self → List ℕ };

    /// The entry at the front of bytes, and the bytes after it.
    ghost read_from: { List ℕ → Result (Self × List ℕ) ImageFault };

    /// Each of its numbers fits its bytes.
    ghost fits: { Self → Type 0 };

    /// Puts the bytes of an entry.
    fn put(&self, out: &mut Vec<u8>) -> Result<(), AllocError>
        ensures bytes { OnOk result (out.new.items ≡ out.old.items ++ spelled self.now) }
        ensures fits { OnOk result (fits self.now) };

    /// The entry in front, and the bytes after it. 71 where the bytes end too soon, 72 at a value that isn't possible.
    fn read(alloc: Global, bytes: &[u8]) -> Result<(Self, &[u8]), ImageError>
        ensures { Gives (λ x. (x.0, x.1.now)) fault_of result (read_from bytes.now) };
}

/// Puts the count of the entries, and each entry.
pub fn put_table<T: TableEntry>(out: &mut Vec<u8>, entries: &[T]) -> Result<(), AllocError>
    ensures bytes { OnOk result
        (out.new.items ≡ out.old.items ++ table_bytes T.spelled entries.now) }
    ensures count { OnOk result (IsCount (length entries.now)) }
    ensures fits { OnOk result (AllByRecursion T.fits entries.now) }
{
    put_count(out, entries.len())?;
    for entry in entries {
        entry.put(out)?;
    }
    Ok(())
}

fn read_entries<T: TableEntry>(
    alloc: Global,
    count: usize,
    bytes: &[u8],
) -> Result<(Items<T>, &[u8]), ImageError>
    ensures { Gives (λ x. (x.0, x.1.now)) fault_of result (entries_at T.read_from count bytes.now) }
{
    let mut entries = Items::new(alloc);
    let mut rest = bytes;
    for _ in 0..count {
        let (entry, after) = T::read(alloc, rest)?;
        entries.push(entry)?;
        rest = after;
    }
    Ok((entries, rest))
}

/// The table in front, and the bytes after it.
#[tactic(auto, unfolding(crate::specs::Reading::table_at))]
pub fn read_table<T: TableEntry>(
    alloc: Global,
    bytes: &[u8],
) -> Result<(Items<T>, &[u8]), ImageError>
    ensures { Gives (λ x. (x.0, x.1.now)) fault_of result (table_at T.read_from bytes.now) }
{
    let (count, rest) = read_count(bytes)?;
    read_entries(alloc, count, rest)
}
