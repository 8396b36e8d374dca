//! An entry or a row is added to one tree among others.
ghost use Rattle.std.specs.Prelude.{◌≡◌, ◌≤◌, ◌<◌, ◌+◌, true, false, Ok, Err, None, IsSome, length, IfErr};
ghost use Rattle.station.specs.Calls.{OnlyReads};
ghost use Rattle.pages.specs.Pages.{is_spent, catalog_of, committed_of, sectors_of, changed_pages_of, Agrees, SameCommitted, IsUnchanged};
ghost use Rattle.pages.specs.Use.{free_count};
ghost use Rattle.btree.specs.Calls.{IfAgrees, pages_on};
ghost use Rattle.btree.specs.Entries.{entry_with, with_new_entry};
ghost use Rattle.btree.specs.Results.{FewChanged};
ghost use Rattle.chains.specs.Chain.{pages_for};
ghost use Rattle.volume_format.specs.Grows.{IsTreeAmong};
ghost use Rattle.row_trees.specs.Calls.{EditsPages, OnRowTreeAmong};
ghost use Rattle.row_trees.specs.RowTree.{IsRowTreeAmong, value_length};
ghost use Rattle.alternate_keys.specs.Among.{OnAmong};
ghost use Rattle.alternate_keys.specs.Faults.{IsWriteFault};

use btree::Tree;
use pages::PageMap;
use records::StoreFault;
use row_trees::RowTree;
use station::Device;
use volume_format::to_fault;

/// Puts a new entry into a tree. Other trees are unchanged. `false` means that its key is there, and then nothing was changed.
pub(crate) fn insert_among<D: Device>(
    tree: &mut Tree,
    pages: &mut PageMap,
    device: &mut D,
    key: &[u8],
    value: &[u8],
) -> Result<bool, StoreFault>
    requires sectors { sectors_of pages.old ≤ D.sectors device.old }
    requires key { length key.now ≡ tree.old.layout.key_length }
    requires value { length value.now ≡ tree.old.layout.value_length }
    ensures only { OnlyReads D.Device (result ≡ Err StoreFault.Device) device.old device.new }
    ensures inserted { OnAmong D.Device tree.old pages.old device.old
        (λ left right entries. result ≡ Ok true →
        (entry_with entries key.now ≡ None)
        × IsTreeAmong (pages_on D.Device pages.new device.old) left right tree.new
        (with_new_entry entries (record { key = key.now; value = value.now }))) }
    ensures there { OnAmong D.Device tree.old pages.old device.old
        (λ left right entries. result ≡ Ok false → IsSome (entry_with entries key.now)) }
    ensures same { result ≡ Ok false → IsUnchanged pages.old pages.new }
    ensures damaged { OnAmong D.Device tree.old pages.old device.old
        (λ left right entries. result ≡ Err StoreFault.Damaged → ⊥) }
    ensures changed_pages { OnAmong D.Device tree.old pages.old device.old
        (λ left right entries. FewChanged 42 pages.old pages.new) }
    ensures room { OnAmong
        D.Device tree.old pages.old device.old (λ left right entries. result ≡ Err StoreFault.Full
        → free_count (committed_of pages.old) < length (changed_pages_of pages.old) + 42) }
    ensures layout { tree.new.layout ≡ tree.old.layout }
    ensures committed { SameCommitted pages.old pages.new }
    ensures catalog { catalog_of pages.new ≡ catalog_of pages.old }
    ensures agrees { IfAgrees D.Device pages.old device.old
        (Agrees pages.new (D.state device.new).disk) }
    ensures spent { result ≡ Err StoreFault.Spent → is_spent pages.old ≡ true }
    ensures cause { IfErr result IsWriteFault }
{
    match tree.insert(pages, device, key, value) {
        Ok(new) => Ok(new),
        Err(error) => Err(to_fault(error)),
    }
}

/// Puts a new row into a tree of rows. Other trees are unchanged. `false` means that its key is there, and then nothing was changed.
pub(crate) fn enter_row<D: Device>(
    rows: &mut RowTree,
    pages: &mut PageMap,
    device: &mut D,
    key: &[u8],
    value: &[u8],
) -> Result<bool, StoreFault>
    requires sectors { sectors_of pages.old ≤ D.sectors device.old }
    requires key { length key.now ≡ rows.old.tree.layout.key_length }
    requires value { length value.now ≡ value_length rows.old }
    ensures edits { EditsPages D.Device (result ≡ Err StoreFault.Device) pages.old device.old
        pages.new device.new }
    ensures inserted { OnRowTreeAmong D.Device rows.old pages.old device.old
        (λ left right entries. result ≡ Ok true →
        (entry_with entries key.now ≡ None)
        × IsRowTreeAmong (pages_on D.Device pages.new device.old) left right rows.new
        (with_new_entry entries (record { key = key.now; value = value.now }))) }
    ensures there { OnRowTreeAmong D.Device rows.old pages.old device.old
        (λ left right entries. result ≡ Ok false → IsSome (entry_with entries key.now)) }
    ensures same { result ≡ Ok false → IsUnchanged pages.old pages.new }
    ensures damaged { OnRowTreeAmong D.Device rows.old pages.old device.old
        (λ left right entries. result ≡ Err StoreFault.Damaged → ⊥) }
    ensures changed_pages { OnRowTreeAmong D.Device rows.old pages.old device.old
        (λ left right entries.
        FewChanged (42 + pages_for rows.old.record_bytes) pages.old pages.new) }
    ensures room { OnRowTreeAmong D.Device rows.old pages.old device.old
        (λ left right entries. result ≡ Err StoreFault.Full → free_count (committed_of pages.old)
        < length (changed_pages_of pages.old) + (42 + pages_for rows.old.record_bytes)) }
    ensures layout { rows.new.tree.layout ≡ rows.old.tree.layout }
    ensures form { rows.new.record_bytes ≡ rows.old.record_bytes }
    ensures spent { result ≡ Err StoreFault.Spent → is_spent pages.old ≡ true }
    ensures cause { IfErr result IsWriteFault }
{
    match rows.insert(pages, device, key, value) {
        Ok(new) => Ok(new),
        Err(error) => Err(to_fault(error)),
    }
}
