//! A volume gets the second mark.
ghost use Rattle.std.specs.Prelude.{◌≡◌, ◌≤◌, ◌<◌, ◌+◌, ◌++◌, ◌↔◌, true, false, Err, ℕ, List, length, IfOk, IfErr, OnOk, OnErr, IsOkUnless};
ghost use Rattle.std.specs.List.{All};
ghost use Rattle.station.specs.Opening.{IsOpening};
ghost use Rattle.pages.specs.Pages.{map_now, is_spent, mark_of, committed_of, sectors_of, filled_of, next_generation};
ghost use Rattle.pages.specs.Use.{free_count};
ghost use Rattle.btree.specs.Builds.{IsLeafOf, rows_of_nodes};
ghost use Rattle.btree.specs.Calls.{IfAgrees, pages_on};
ghost use Rattle.btree.specs.Results.{FewFilled};
ghost use Rattle.records.specs.Files.{NamedFile};
ghost use Rattle.records.specs.Spec.{Spec};
ghost use Rattle.volume_format.specs.Calls.{LooksAt};
ghost use Rattle.volume_format.specs.Catalog.{catalog_layout, catalog_value};
ghost use Rattle.volume_format.specs.Forest.{TreeLevels};
ghost use Rattle.volume_format.specs.Volume.{MapHolds};
ghost use Rattle.alternate_keys.specs.Created.{OnFiles, OnListed, Prepares};
ghost use Rattle.alternate_keys.specs.Faults.{IsReadFault, IsWriteFault};
ghost use Rattle.alternate_keys.specs.Migrated.{with_mark, IfMarked, AreCatalogLeaves, AreFilled, ListsCounted};
ghost use Rattle.alternate_keys.specs.Migrated.{LeavesSameFiles, MigratesFiles, OnlyOpensForeign, RefusesToMigrate};
ghost use Rattle.alternate_keys.specs.Opened.{BlamesDevice, IfForeign, PassesThrough, SyncsAtMost, SyncsOnly};
ghost use Rattle.alternate_keys.specs.Placed.{HasTrees};

use crate::clearing::clear_among;
use crate::commit::commit_pages;
use crate::counting::MOST_FILES;
use crate::stored::stored_tree;
use btree::{Entry, Tree};
use btree_pages::{Kind, RowLayout, TreePage};
use pages::{PageMap, VolumeMark, few_free, map_bounds, needed_by};
use records::{KeyOfReference, StoreFault};
use station::Device;
use std::alloc::Global;
use std::mem;
use volume_format::{catalog_tree, first_in, listing_part, next_in, spell_value, to_fault};

/// How many pages are kept in memory.
const CACHE: usize = 64;

/// Gives the volume of a device the second mark. Its catalog is made anew, with the number of each file's rows, and is put on the disk
/// in one commit with the mark. Nothing is written if the volume has that mark.
///
/// `Full` says that fewer than nine sectors were free besides those of the map, or that no generation is left, and `Layout` that the
/// volume is the other store's.
pub fn migrate<D: Device>(alloc: Global, device: &mut D) -> Result<(), StoreFault>
    ensures honest { D.is_honest device.old ↔ D.is_honest device.new }
    ensures sectors { D.sectors device.new ≡ D.sectors device.old }
    ensures failures { BlamesDevice D.Device device.old device.new result }

    // At each moment a crash leaves what was possible before, or the same files.
    ensures moments { LeavesSameFiles D.Device device.old device.new }

    // After `Ok` it leaves them on a volume with the second mark.
    ensures migrated { MigratesFiles D.Device device.old device.new result }

    // A volume that has this mark is left as it was, also if the call is refused.
    ensures idle { IfMarked D.Device device.old 1
        (OnOk result (SyncsOnly D.Device device.old device.new)) }
    ensures unchanged { IfMarked D.Device device.old 1
        (OnErr result (SyncsAtMost D.Device device.old device.new)) }

    // If it is refused for lack of room, nothing was written.
    ensures unwritten { result ≡ Err StoreFault.Full → D.is_honest device.old
        → SyncsOnly D.Device device.old device.new }

    // The other store's volume is only opened.
    ensures foreign { OnlyOpensForeign D.Device device.old device.new result }
    ensures opening { IfForeign D.Device device.old
        (PassesThrough D.Device device.old device.new (IsOpening (D.state device.old))) }
    ensures refused { RefusesToMigrate D.Device device.old result }
{
    let mut pages = match PageMap::open(alloc, device, CACHE) {
        Ok(pages) => pages,
        Err(error) => return Err(to_fault(error)),
    };
    if let VolumeMark::Second = pages.mark() {
        return Ok(());
    }
    // How many page numbers there are, and how many sectors a commit needs.
    map_bounds();
    needed_by();
    remake_catalog(alloc, &mut pages, device)?;
    pages.set_mark(VolumeMark::Second);
    commit_pages(&mut pages, device)
}

/// Makes the catalog anew, as the second mark has it. The mark isn't set yet, and the pages aren't put on the disk.
fn remake_catalog<D: Device>(
    alloc: Global,
    pages: &mut PageMap,
    device: &mut D,
) -> Result<(), StoreFault>
    requires unspent { is_spent pages.old ≡ false }
    requires sectors { sectors_of pages.old ≤ D.sectors device.old }
    requires mark { mark_of pages.old ≡ 0 }
    ensures prepares { Prepares D.Device (result ≡ Err StoreFault.Device) pages.old device.old
        pages.new device.new }
    ensures will { OnFiles D.Device pages.old device.old (λ files holds. OnOk result
        (MapHolds (with_mark 1 (next_generation
        (map_now pages.new (D.state device.old).disk.present))) files)) }

    // The new catalog has at most eight leaves and a page above them.
    ensures filled { FewFilled 9 pages.old pages.new }
    ensures room { result ≡ Err StoreFault.Full
        → free_count (committed_of pages.old) < filled_of pages.old + 9 }
    ensures damaged { OnFiles D.Device pages.old device.old
        (λ files holds. result ≡ Err StoreFault.Damaged → ⊥) }
    ensures spent { result ≡ Err StoreFault.Spent → is_spent pages.old ≡ true }
    ensures cause { IfErr result IsWriteFault }
{
    // If no page number is left, few sectors are free.
    few_free();
    let leaves = counted_leaves(alloc, pages, device)?;
    let mut old = catalog_tree(alloc, VolumeMark::First, pages.catalog());
    clear_among(&mut old, pages, device)?;
    let layout = catalog_tree(alloc, VolumeMark::Second, 0).layout();
    match Tree::build(alloc, layout, pages, leaves.as_slice()) {
        Ok(new) => {
            pages.set_catalog(new.root());
            Ok(())
        }
        Err(error) => Err(to_fault(error)),
    }
}

/// The leaves of the new catalog: the entries of the old one, each with the number of its file's rows.
fn counted_leaves<D: Device>(
    alloc: Global,
    pages: &mut PageMap,
    device: &mut D,
) -> Result<Vec<TreePage>, StoreFault>
    requires sectors { sectors_of pages.old ≤ D.sectors device.old }
    requires mark { mark_of pages.old ≡ 0 }
    ensures looks { LooksAt D.Device (result ≡ Err StoreFault.Device) pages.old device.old pages.new
        device.new }
    ensures leaves { IfOk result (λ leaves. AreCatalogLeaves leaves.items) }
    ensures lists { OnFiles D.Device pages.old device.old
        (λ files holds. IfOk result (λ leaves. ListsCounted holds.kept leaves.items)) }
    ensures damaged { OnFiles D.Device pages.old device.old
        (λ files holds. result ≡ Err StoreFault.Damaged → ⊥) }
    ensures spent { result ≡ Err StoreFault.Spent → is_spent pages.old ≡ true }
    ensures cause { IfErr result IsReadFault }
{
    // How many page numbers there are.
    map_bounds();
    let catalog = catalog_tree(alloc, VolumeMark::First, pages.catalog());
    let layout = catalog_tree(alloc, VolumeMark::Second, 0).layout();
    let mut leaves = Vec::new(alloc);
    let mut leaf = TreePage::new(layout, Kind::Leaf);
    let mut next = first_in(&catalog, pages, device)?;
    for turn in 0..MOST_FILES {
        match next {
            Some(entry) => {
                let value = counted_value(alloc, pages, device, &entry)?;
                make_room(layout, &mut leaves, &mut leaf)?;
                leaf.insert(leaf.count(), entry.key(), &value);
                next = next_in(&catalog, pages, device, &entry)?;
            }
            None => return with_last(leaves, leaf),
        }
    }
    match next {
        Some(_) => Err(StoreFault::Damaged),
        None => with_last(leaves, leaf),
    }
}

/// Makes room for a row: a full leaf goes to the others, and an empty one is next.
fn make_room(
    layout: RowLayout,
    leaves: &mut Vec<TreePage>,
    leaf: &mut TreePage,
) -> Result<(), StoreFault>
    requires { layout ≡ catalog_layout 1 }
    ensures fills { (n : ℕ) → AreFilled n leaves.old.items leaf.old
        → OnOk result (AreFilled n leaves.new.items leaf.new × (length leaf.new.rows < 33)) }
    ensures rows { OnOk result (rows_of_nodes leaves.new.items ++ leaf.new.rows
        ≡ rows_of_nodes leaves.old.items ++ leaf.old.rows) }
    ensures memory { IsOkUnless result StoreFault.Memory }
{
    if !leaf.is_full() {
        return Ok(());
    }
    let full = mem::replace(leaf, TreePage::new(layout, Kind::Leaf));
    leaves.push(full)?;
    Ok(())
}

/// The leaves with the last one, unless it is empty.
fn with_last(mut leaves: Vec<TreePage>, leaf: TreePage) -> Result<Vec<TreePage>, StoreFault>
    requires leaves { All (IsLeafOf (catalog_layout 1)) leaves.items }
    requires like { leaf.layout ≡ catalog_layout 1 }
    requires kind { leaf.kind ≡ Kind.Leaf }
    requires few { length leaves.items < 8 }
    ensures leaves { IfOk result (λ all. AreCatalogLeaves all.items) }
    ensures rows { IfOk result
        (λ all. rows_of_nodes all.items ≡ rows_of_nodes leaves.items ++ leaf.rows) }
    ensures memory { IsOkUnless result StoreFault.Memory }
{
    if leaf.count() == 0 {
        return Ok(leaves);
    }
    leaves.push(leaf)?;
    Ok(leaves)
}

/// The value of an entry of the catalog on a volume with the second mark: its listing, and the number of the file's rows.
fn counted_value<D: Device>(
    alloc: Global,
    pages: &mut PageMap,
    device: &mut D,
    entry: &Entry,
) -> Result<Vec<u8>, StoreFault>
    requires sectors { sectors_of pages.old ≤ D.sectors device.old }
    requires long { length entry.now.value ≡ 83 }
    ensures looks { LooksAt D.Device (result ≡ Err StoreFault.Device) pages.old device.old pages.new
        device.new }
    ensures value { IfAgrees D.Device pages.old device.old ((spec : Spec) (named : NamedFile)
        (generation : ℕ) (left right : List TreeLevels)
        → HasTrees spec named generation (pages_on D.Device pages.old device.old) left right
        entry.now.value
        → IfOk result (λ value. value.items
        ≡ catalog_value 1 entry.now.value (length named.file.rows))) }
    ensures long { IfOk result (λ value. length value.items ≡ 91) }
    ensures damaged { OnListed D.Device pages.old device.old entry.now.value
        (λ left right. result ≡ Err StoreFault.Damaged → ⊥) }
    ensures spent { result ≡ Err StoreFault.Spent → is_spent pages.old ≡ true }
    ensures cause { IfErr result IsReadFault }
{
    let listing = listing_part(entry);
    let rows = stored_tree(alloc, listing, KeyOfReference::Prime)?;
    match rows.count(pages, device) {
        Ok(count) => spell_value(alloc, VolumeMark::Second, listing, count),
        Err(error) => Err(to_fault(error)),
    }
}
