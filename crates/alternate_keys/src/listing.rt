//! What the catalog says of a file.
ghost use Rattle.std.specs.Prelude.{◌≡◌, ◌≤◌, Err, true, length, map, IsSome, IfOk, OnOk, IfErr, IfSome};
ghost use Rattle.station.specs.Calls.{OnlyReads};
ghost use Rattle.pages.specs.Pages.{map_now, is_spent, catalog_of, mark_of, sectors_of, Agrees, IsUnchanged};
ghost use Rattle.btree.specs.Calls.{IfAgrees, pages_on};
ghost use Rattle.btree.specs.Entries.{entry_with, with_value};
ghost use Rattle.btree.specs.Results.{FewChanged, FewFilled};
ghost use Rattle.records.specs.Spec.{is_name};
ghost use Rattle.records.specs.Files.{Files, file_at};
ghost use Rattle.file_bytes.specs.Description.{padded_name};
ghost use Rattle.volume_format.specs.Catalog.{catalog_value, value_length};
ghost use Rattle.volume_format.specs.Grows.{IsTreeAmong};
ghost use Rattle.volume_format.specs.Volume.{MapHolds, catalog_entry};
ghost use Rattle.alternate_keys.specs.Among.{OnAmong};
ghost use Rattle.row_trees.specs.Calls.{EditsPages};
ghost use Rattle.alternate_keys.specs.Faults.{IsReadFault};
ghost use Rattle.alternate_keys.specs.Listed.{IsListed, catalog_at};

use btree::Entry;
use file_bytes::pad_name;
use pages::PageMap;
use records::StoreFault;
use station::Device;
use std::alloc::Global;
use volume_format::{catalog_tree, spell_value, to_fault};

/// The entry of a name in the catalog. It isn't built into its callers, as each entry on the way to its answer takes room there.
#[inline(never)]
pub(crate) fn find_listing<D: Device>(
    alloc: Global,
    pages: &mut PageMap,
    device: &mut D,
    name: &[u8],
) -> Result<Option<Entry>, StoreFault>
    requires sectors { sectors_of pages.old ≤ D.sectors device.old }
    requires name { is_name name.now ≡ true }
    ensures only { OnlyReads D.Device (result ≡ Err StoreFault.Device) device.old device.new }
    ensures unchanged { IsUnchanged pages.old pages.new }
    ensures agrees { IfAgrees D.Device pages.old device.old
        (Agrees pages.new (D.state device.new).disk) }
    ensures listed { IfAgrees D.Device pages.old device.old
        ((files : Files) → MapHolds (map_now pages.old (D.state device.old).disk.present) files →
        IfOk result (IsListed (map_now pages.old (D.state device.old).disk.present)
        (file_at name.now files))) }
    ensures entry { IfAgrees D.Device pages.old device.old ((files : Files)
        → (holds : MapHolds (map_now pages.old (D.state device.old).disk.present) files) →
        IfOk result
        (λ entry. entry ≡ entry_with (map (catalog_entry (mark_of pages.old)) holds.kept)
        (padded_name name.now))) }
    ensures damaged { IfAgrees D.Device pages.old device.old
        ((files : Files) → MapHolds (map_now pages.old (D.state device.old).disk.present) files
        → result ≡ Err StoreFault.Damaged → ⊥) }
    ensures spent { result ≡ Err StoreFault.Spent → is_spent pages.old ≡ true }
    ensures long { IfOk result (λ entry. IfSome entry
        (λ e. (length e.value ≡ value_length (mark_of pages.old)) × (83 ≤ length e.value))) }
    ensures cause { IfErr result IsReadFault }
{
    let catalog = catalog_tree(alloc, pages.mark(), pages.catalog());
    match catalog.get(pages, device, &pad_name(name)) {
        Ok(entry) => Ok(entry),
        Err(error) => Err(to_fault(error)),
    }
}

/// Gives the entry of a name in the catalog another listing and number of rows. Other trees stay.
pub(crate) fn replace_listing<D: Device>(
    alloc: Global,
    pages: &mut PageMap,
    device: &mut D,
    name: &[u8],
    listing: &[u8],
    rows: u64,
) -> Result<(), StoreFault>
    requires sectors { sectors_of pages.old ≤ D.sectors device.old }
    requires name { length name.now ≤ 30 }
    requires listing { length listing.now ≡ 83 }
    ensures edits { EditsPages D.Device (result ≡ Err StoreFault.Device) pages.old device.old
        pages.new device.new }
    ensures replaced { OnAmong D.Device (catalog_at (mark_of pages.old) (catalog_of pages.old))
        pages.old device.old (λ left right entries.
        OnOk result (IsTreeAmong (pages_on D.Device pages.new device.old)
        left right (catalog_at (mark_of pages.old) (catalog_of pages.old))
        (with_value entries (record {
          key = padded_name name.now;
          value = catalog_value (mark_of pages.old) listing.now rows;
        })))) }
    ensures damaged { OnAmong D.Device (catalog_at (mark_of pages.old) (catalog_of pages.old))
        pages.old
        device.old (λ left right entries. IsSome (entry_with entries (padded_name name.now))
        → result ≡ Err StoreFault.Damaged → ⊥) }
    ensures few { FewChanged 1 pages.old pages.new }
    ensures filled { FewFilled 1 pages.old pages.new }
    ensures spent { result ≡ Err StoreFault.Spent → is_spent pages.old ≡ true }
    ensures cause { IfErr result IsReadFault }
{
    let mut catalog = catalog_tree(alloc, pages.mark(), pages.catalog());
    let value = spell_value(alloc, pages.mark(), listing, rows)?;
    match catalog.replace(pages, device, &pad_name(name), &value) {
        Ok(true) => Ok(()),
        Ok(false) => Err(StoreFault::Damaged),
        Err(error) => Err(to_fault(error)),
    }
}
