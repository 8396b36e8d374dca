//! A file is made.
ghost use Rattle.std.specs.Prelude.{◌≡◌, ◌⊎◌, ◌≤◌, ◌<◌, ◌+◌, true, false, [], Err, IsErr, None, length, map, replicate, OnOk, IfOk, IfErr, IsOkUnless};
ghost use Rattle.std.specs.List.{flat_map};
ghost use Rattle.station.specs.Calls.{OnlyWrites};
ghost use Rattle.pages.specs.Pages.{map_now, is_spent, catalog_of, mark_of, committed_of, sectors_of, changed_pages_of, next_generation, IsFull};
ghost use Rattle.pages.specs.Layout.{version_of};
ghost use Rattle.pages.specs.Use.{free_count};
ghost use Rattle.btree.specs.Calls.{pages_on};
ghost use Rattle.btree.specs.Entries.{entry_with, with_new_entry};
ghost use Rattle.btree.specs.Results.{FewChanged};
ghost use Rattle.records.specs.Files.{Files, empty_file, with_file};
ghost use Rattle.records.specs.Spec.{is_long};
ghost use Rattle.records.specs.Stores.{spec_of};
ghost use Rattle.file_bytes.specs.Description.{padded_name};
ghost use Rattle.volume_format.specs.Catalog.{listing_bytes, catalog_value};
ghost use Rattle.volume_format.specs.Grows.{IsTreeAmong};
ghost use Rattle.volume_format.specs.Volume.{MapHolds, trees_of, catalog_entry};
ghost use Rattle.alternate_keys.specs.Created.{OnFiles, Prepares, PreparesFile};
ghost use Rattle.alternate_keys.specs.Faults.{IsWriteFault, IsCreateFault};
ghost use Rattle.alternate_keys.specs.Listed.{catalog_at};
ghost use Rattle.alternate_keys.specs.Stands.{Represents, LacksSpace};
ghost use Rattle.alternate_keys.specs.Turned.{HasChangedFiles};

use crate::clearing::clear_trees;
use crate::commit::commit_pages;
use crate::counting::is_full;
use crate::enter::insert_among;
use crate::listing::{find_listing, replace_listing};
use file_bytes::pad_name;
use pages::{PageMap, VolumeMark, few_needed, map_bounds, needed_by};
use records::{FileSpec, StoreFault};
use station::Device;
use std::alloc::Global;
use volume_format::{catalog_tree, listing_part, spell_listing, spell_value};

/// Makes a file without rows, in place of one of that name, and puts it on the disk.
pub(crate) fn create_in<D: Device>(
    alloc: Global,
    pages: &mut PageMap,
    device: &mut D,
    file: &FileSpec,
) -> Result<(), StoreFault>
    requires unspent { is_spent pages.old ≡ false }
    requires sectors { sectors_of pages.old ≤ D.sectors device.old }
    ensures only { OnlyWrites D.Device (result ≡ Err StoreFault.Device) device.old device.new }
    ensures turned { D.is_honest device.old → (files : Files)
        → Represents pages.old (D.state device.old).disk files →
        HasChangedFiles D.Device result true file.now.name.items files
        (with_file file.now.name.items (empty_file (spec_of file.now)) files) pages.old
        device.old pages.new device.new }
    ensures unwritten { (result ≡ Err StoreFault.Full) ⊎ (result ≡ Err StoreFault.Old)
        → D.is_honest device.old → D.state device.new ≡ D.state device.old }
    ensures takes { mark_of pages.old ≡ 0 → is_long (spec_of file.now) ≡ true → IsErr result }
    ensures unspent { OnOk result (is_spent pages.new ≡ false) }
    ensures same_sectors { sectors_of pages.new ≡ sectors_of pages.old }
    ensures spent { result ≡ Err StoreFault.Spent → is_spent pages.old ≡ true }
    ensures cause { IfErr result IsCreateFault }
{
    if is_too_long(pages.mark(), file) {
        return Err(StoreFault::Old);
    }
    prepare_file(alloc, pages, device, file)?;
    commit_pages(pages, device)
}

/// Whether a volume with this mark can't have the file.
fn is_too_long(mark: VolumeMark, file: &FileSpec) -> bool
    ensures yes { result ≡ true
        → (version_of mark ≡ 0) × (is_long (spec_of file.now) ≡ true) }
    ensures no { result ≡ false → version_of mark ≡ 0 → is_long (spec_of file.now) ≡ false }
{
    match mark {
        VolumeMark::First => file.is_long(),
        VolumeMark::Second => false,
    }
}

/// What the catalog says of a file without rows.
fn empty_listing(alloc: Global, file: &FileSpec) -> Result<Vec<u8>, StoreFault>
    ensures bytes { IfOk result (λ bytes. bytes.items ≡ listing_bytes (record {
      spec = spec_of file.now;
      prime = 0;
      alternates = replicate (length file.now.alternates.items) 0;
      next_arrival = 1;
    })) }
    ensures long { IfOk result (λ bytes. length bytes.items ≡ 83) }
    ensures memory { IsOkUnless result StoreFault.Memory }
{
    let mut roots = Vec::new(alloc);
    roots.resize(file.alternates.len(), 0)?;
    let listing = spell_listing(alloc, file, 0, &roots, 1)?;
    Ok(listing)
}

/// Puts a new name into the catalog, with a listing and no rows.
fn add_listing<D: Device>(
    alloc: Global,
    pages: &mut PageMap,
    device: &mut D,
    name: &[u8],
    listing: &[u8],
) -> Result<(), StoreFault>
    requires sectors { sectors_of pages.old ≤ D.sectors device.old }
    requires name { length name.now ≤ 30 }
    requires listing { length listing.now ≡ 83 }
    ensures prepares { Prepares D.Device (result ≡ Err StoreFault.Device) pages.old device.old
        pages.new device.new }
    ensures added { OnFiles D.Device pages.old device.old (λ files holds. OnOk result
        (IsTreeAmong (pages_on D.Device pages.new device.old) [] (flat_map trees_of holds.kept)
        (catalog_at (mark_of pages.old) (catalog_of pages.new))
        (with_new_entry (map (catalog_entry (mark_of pages.old)) holds.kept)
        (record {
          key = padded_name name.now;
          value = catalog_value (mark_of pages.old) listing.now 0;
        })))) }
    ensures few_files { OnFiles D.Device pages.old device.old
        (λ files holds. OnOk result (length files < 255)) }
    ensures few { OnFiles D.Device pages.old device.old
        (λ files holds. OnOk result (FewChanged 42 pages.old pages.new)) }
    ensures room { OnFiles D.Device pages.old device.old
        (λ files holds. result ≡ Err StoreFault.Full →
        (free_count (committed_of pages.old) < length (changed_pages_of pages.old) + 42)
        ⊎ (255 ≤ length files)) }
    ensures damaged { OnFiles D.Device pages.old device.old
        (λ files holds. entry_with (map (catalog_entry (mark_of pages.old)) holds.kept)
        (padded_name name.now) ≡ None
        → result ≡ Err StoreFault.Damaged → ⊥) }
    ensures spent { result ≡ Err StoreFault.Spent → is_spent pages.old ≡ true }
    ensures cause { IfErr result IsWriteFault }
{
    if is_full(alloc, pages, device)? {
        return Err(StoreFault::Full);
    }
    let mark = pages.mark();
    let value = spell_value(alloc, mark, listing, 0)?;
    let mut catalog = catalog_tree(alloc, mark, pages.catalog());
    if !insert_among(&mut catalog, pages, device, &pad_name(name), &value)? {
        return Err(StoreFault::Damaged);
    }
    pages.set_catalog(catalog.root());
    Ok(())
}

/// Makes a file without rows in the pages, in place of one of that name. The pages aren't put on the disk yet.
fn prepare_file<D: Device>(
    alloc: Global,
    pages: &mut PageMap,
    device: &mut D,
    file: &FileSpec,
) -> Result<(), StoreFault>
    requires unspent { is_spent pages.old ≡ false }
    requires sectors { sectors_of pages.old ≤ D.sectors device.old }
    ensures { PreparesFile D.Device file.now pages.old device.old pages.new device.new result }
{
    // How many page numbers there are, and how many sectors a commit needs.
    map_bounds();
    few_needed();
    needed_by();
    let listing = empty_listing(alloc, file)?;
    match find_listing(alloc, pages, device, &file.name)? {
        Some(entry) => {
            clear_trees(alloc, pages, device, listing_part(&entry))?;
            replace_listing(alloc, pages, device, &file.name, &listing, 0)?;
            Ok(())
        }
        None => {
            add_listing(alloc, pages, device, &file.name, &listing)?;
            Ok(())
        }
    }
}
