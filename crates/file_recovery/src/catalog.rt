//! All files that the catalog lists.
ghost use Rattle.std.specs.Prelude.{◌≡◌, ◌≤◌, ◌<◌, ◌+◌, ◌^◌, false, Err, length, IfOk, IfErr, OnOk};
ghost use Rattle.pages.specs.Pages.{map_now, mark_of, is_spent, sectors_of};
ghost use Rattle.btree.specs.Calls.{IfAgrees, OnPages, OnTree, pages_on};
ghost use Rattle.btree.specs.Entries.{HasLengths, entries_of};
ghost use Rattle.volume_format.specs.Catalog.{catalog_layout};
ghost use Rattle.volume_format.specs.Calls.{LooksAt};
ghost use Rattle.file_recovery.specs.Faults.{IsReadFault};
ghost use Rattle.file_recovery.specs.Kept.{FindsCatalog, NoCatalog, NoFile};
ghost use Rattle.file_recovery.specs.Listed.{FindsFiles, NoFiles, AddsFile};
ghost use Rattle.file_bytes.specs.Stored.{files_of};

use crate::alternates::check_pages;
use crate::checked_file::check_file;
use btree::{Entry, Tree};
use file_bytes::StoredFile;
use pages::{PageMap, map_bounds};
use records::StoreFault;
use station::Device;
use std::alloc::Global;
use volume_format::{catalog_tree, first_in, next_in};

/// How many files a volume may have.
const MOST_FILES: u8 = 255;

/// All files that the catalog lists, with their rows. The pages of the catalog and of the files' trees are marked. `Damaged` means that
/// there are no such trees that can be marked, or more than 255 files.
pub(crate) fn read_catalog<D: Device>(
    alloc: Global,
    generation: u64,
    pages: &mut PageMap,
    device: &mut D,
    seen: &mut [bool],
) -> Result<Vec<StoredFile>, StoreFault>
    requires unspent { is_spent pages.old ≡ false }
    requires sectors { sectors_of pages.old ≤ D.sectors device.old }
    requires generation { generation < 2 ^ 63 }
    ensures looks { LooksAt D.Device (result ≡ Err StoreFault.Device) pages.old device.old pages.new
        device.new }
    ensures files { IfAgrees D.Device pages.old device.old
        (IfOk result (λ files. FindsCatalog (map_now pages.old (D.state device.old).disk.present)
        generation (files_of files.items) seen.old seen.new)) }
    ensures damaged { IfAgrees D.Device pages.old device.old (result ≡ Err StoreFault.Damaged
        → NoCatalog (map_now pages.old (D.state device.old).disk.present) generation seen.old) }
    ensures cause { IfErr result IsReadFault }
{
    map_bounds();
    let catalog = catalog_tree(alloc, pages.mark(), pages.catalog());
    check_pages(alloc, &catalog, pages, device, seen)?;
    read_files(alloc, &catalog, generation, pages, device, seen)
}

/// Puts the file of an entry after the others. The pages of its trees are marked. `Damaged` means that there is no such file with
/// trees that can be marked.
fn add_file<D: Device>(
    alloc: Global,
    files: &mut Vec<StoredFile>,
    entry: &Entry,
    generation: u64,
    pages: &mut PageMap,
    device: &mut D,
    seen: &mut [bool],
) -> Result<(), StoreFault>
    requires unspent { is_spent pages.old ≡ false }
    requires sectors { sectors_of pages.old ≤ D.sectors device.old }
    requires generation { generation < 2 ^ 63 }
    requires lengths { HasLengths (catalog_layout (mark_of pages.old)) entry.now }
    ensures looks { LooksAt D.Device (result ≡ Err StoreFault.Device) pages.old device.old pages.new
        device.new }
    ensures many { OnOk result (length files.new.items ≡ length files.old.items + 1) }
    ensures file { OnPages D.Device pages.old device.old
        (λ before. OnOk result
        (AddsFile (mark_of pages.old) before generation entry.now (files_of files.old.items)
        (files_of files.new.items) seen.old seen.new)) }
    ensures damaged { OnPages D.Device pages.old device.old
        (λ before. result ≡ Err StoreFault.Damaged
        → NoFile (mark_of pages.old) before generation entry.now seen.old) }
    ensures cause { IfErr result IsReadFault }
{
    let file = check_file(alloc, entry, generation, pages, device, seen)?;
    files.push(file)?;
    Ok(())
}

/// The files of all entries of the catalog, with their rows. The pages of their trees are marked. `Damaged` means that there are no such
/// files with trees that can be marked, or more than 255.
fn read_files<D: Device>(
    alloc: Global,
    catalog: &Tree,
    generation: u64,
    pages: &mut PageMap,
    device: &mut D,
    seen: &mut [bool],
) -> Result<Vec<StoredFile>, StoreFault>
    requires unspent { is_spent pages.old ≡ false }
    requires sectors { sectors_of pages.old ≤ D.sectors device.old }
    requires generation { generation < 2 ^ 63 }
    requires layout { catalog.now.layout ≡ catalog_layout (mark_of pages.old) }
    ensures looks { LooksAt D.Device (result ≡ Err StoreFault.Device) pages.old device.old pages.new
        device.new }
    ensures few { IfOk result (λ files. length files.items ≤ 255) }
    ensures files { OnTree D.Device catalog.now.layout catalog.now.root pages.old device.old
        (λ levels.
        IfOk result
        (λ files. FindsFiles (mark_of pages.old) (pages_on D.Device pages.old device.old) generation
        (entries_of catalog.now.layout levels) (files_of files.items) seen.old seen.new)) }
    ensures damaged { OnTree D.Device catalog.now.layout catalog.now.root pages.old device.old
        (λ levels. result ≡ Err StoreFault.Damaged → NoFiles (mark_of pages.old)
        (pages_on D.Device pages.old device.old) generation (entries_of catalog.now.layout levels)
        seen.old) }
    ensures cause { IfErr result IsReadFault }
{
    map_bounds();
    let mut files = Vec::new(alloc);
    let mut next = first_in(catalog, pages, device)?;
    for _turn in 0..MOST_FILES {
        match next {
            Some(entry) => {
                add_file(alloc, &mut files, &entry, generation, pages, device, seen)?;
                next = next_in(catalog, pages, device, &entry)?;
            }
            None => return Ok(files),
        }
    }
    match next {
        Some(_) => Err(StoreFault::Damaged),
        None => Ok(files),
    }
}
