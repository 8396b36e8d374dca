//! A file with its trees, by its entry in the catalog.
ghost use Rattle.std.specs.Prelude.{◌≡◌, ◌≢◌, ◌≤◌, ◌<◌, ◌^◌, true, false, length, take, Err, IfOk, IfErr};
ghost use Rattle.pages.specs.Layout.{version_of};
ghost use Rattle.pages.specs.Pages.{mark_of, is_spent, sectors_of};
ghost use Rattle.btree.specs.Calls.{OnPages};
ghost use Rattle.btree.specs.Entries.{HasLengths};
ghost use Rattle.volume_format.specs.Catalog.{catalog_layout, catalog_value, value_length};
ghost use Rattle.volume_format.specs.Calls.{LooksAt};
ghost use Rattle.file_recovery.specs.Faults.{IsReadFault};
ghost use Rattle.file_recovery.specs.Kept.{FindsFile, NoFile};
ghost use Rattle.file_bytes.specs.Stored.{named_of};

use crate::alternates::{check_alternates, check_pages};
use crate::listing::{is_same, read_listing};
use crate::reading::read_rows;
use btree::{Entry, Tree};
use file_bytes::StoredFile;
use pages::{PageMap, VolumeMark, map_bounds};
use records::{KeyOfReference, StoreFault};
use station::Device;
use std::alloc::Global;
use volume_format::{LISTING_BYTES, listing_part, next_arrival, prime_root, tree_layout};

/// The file of an entry of the catalog, with its rows. The pages of its trees and of their chains are marked. `Damaged` means that the
/// entry describes no file with trees that can be marked.
pub(crate) fn check_file<D: Device>(
    alloc: Global,
    entry: &Entry,
    generation: u64,
    pages: &mut PageMap,
    device: &mut D,
    seen: &mut [bool],
) -> Result<StoredFile, StoreFault>
    requires unspent { is_spent pages.old ≡ false }
    requires sectors { sectors_of pages.old ≤ D.sectors device.old }
    requires generation { generation < 2 ^ 63 }
    requires lengths { HasLengths (catalog_layout (mark_of pages.old)) entry.now }
    ensures looks { LooksAt D.Device (result ≡ Err StoreFault.Device) pages.old device.old pages.new
        device.new }
    ensures file { OnPages D.Device pages.old device.old (λ before. IfOk result
        (λ file. FindsFile (mark_of pages.old) before generation entry.now (named_of file) seen.old
        seen.new)) }
    ensures damaged { OnPages D.Device pages.old device.old
        (λ before. result ≡ Err StoreFault.Damaged
        → NoFile (mark_of pages.old) before generation entry.now seen.old) }
    ensures cause { IfErr result IsReadFault }
{
    map_bounds();
    let value = listing_part(entry);
    let Some(file) = read_listing(alloc, entry.key(), value)? else {
        return Err(StoreFault::Damaged);
    };
    let next = next_arrival(value);
    if !is_next(next, generation) {
        return Err(StoreFault::Damaged);
    }
    let layout = tree_layout(&file, KeyOfReference::Prime);
    let tree = Tree::new(alloc, layout, prime_root(value));
    check_pages(alloc, &tree, pages, device, seen)?;
    let rows = read_rows(alloc, &file, next, &tree, pages, device, seen)?;
    if !is_counted(pages.mark(), entry.value(), rows.len()) {
        return Err(StoreFault::Damaged);
    }
    check_alternates(alloc, &file, value, &rows, pages, device, seen)?;
    Ok(StoredFile {
        spec: file,
        rows,
        next_arrival: next,
    })
}

/// Whether the next arrival of a file is one of a volume of this generation.
fn is_next(next: u64, generation: u64) -> bool
    ensures yes { result ≡ true → (1 ≤ next) × (next ≤ generation) }
    ensures no { result ≡ false → 1 ≤ next → next ≤ generation → ⊥ }
{
    1 <= next && next <= generation
}

/// Whether a value of the catalog says this number of rows, which on a volume with the first mark none says.
fn is_counted(mark: VolumeMark, value: &[u8], rows: usize) -> bool
    requires { length value.now ≡ value_length (version_of mark) }
    ensures yes { result ≡ true
        → value.now ≡ catalog_value (version_of mark) (take 83 value.now) rows }
    ensures no { result ≡ false
        → value.now ≢ catalog_value (version_of mark) (take 83 value.now) rows }
{
    match mark {
        VolumeMark::First => true,
        VolumeMark::Second => {
            let spelled = (rows as u64).to_be_bytes();
            is_same(&value[LISTING_BYTES..], &spelled)
        }
    }
}
