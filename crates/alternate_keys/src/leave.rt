//! An entry or a row leaves a tree that stands among others, or a row gets another record.
ghost use Rattle.std.specs.Prelude.{◌≡◌, ◌≤◌, ◌+◌, true, Err, IsSome, length, OnOk, IfErr};
ghost use Rattle.pages.specs.Pages.{is_spent, sectors_of};
ghost use Rattle.btree.specs.Calls.{pages_on};
ghost use Rattle.btree.specs.Entries.{entry_with, with_value, without_entry};
ghost use Rattle.btree.specs.Results.{FewChanged};
ghost use Rattle.chains.specs.Chain.{pages_for};
ghost use Rattle.volume_format.specs.Grows.{IsTreeAmong};
ghost use Rattle.alternate_keys.specs.Among.{OnAmong};
ghost use Rattle.row_trees.specs.Calls.{EditsPages, OnRowTreeAmong};
ghost use Rattle.row_trees.specs.RowTree.{IsRowTreeAmong, value_length};
ghost use Rattle.alternate_keys.specs.Faults.{IsReadFault};

use btree::Tree;
use pages::PageMap;
use records::StoreFault;
use row_trees::RowTree;
use station::Device;
use volume_format::to_fault;

/// Takes the entry of a key out of a tree. Other trees are unchanged. Where it isn't there, the volume is damaged.
pub(crate) fn remove_among<D: Device>(
    tree: &mut Tree,
    pages: &mut PageMap,
    device: &mut D,
    key: &[u8],
) -> Result<(), StoreFault>
    requires sectors { sectors_of pages.old ≤ D.sectors device.old }
    ensures edits { EditsPages D.Device (result ≡ Err StoreFault.Device) pages.old device.old
        pages.new device.new }
    ensures removed { OnAmong D.Device tree.old pages.old device.old (λ left right entries.
        OnOk result (IsTreeAmong (pages_on D.Device pages.new device.old) left right tree.new
        (without_entry entries key.now))) }
    ensures damaged { OnAmong D.Device tree.old pages.old device.old (λ left right entries.
        IsSome (entry_with entries key.now) → result ≡ Err StoreFault.Damaged → ⊥) }
    ensures few { OnAmong D.Device tree.old pages.old device.old
        (λ left right entries. OnOk result (FewChanged 42 pages.old pages.new)) }
    ensures layout { tree.new.layout ≡ tree.old.layout }
    ensures spent { result ≡ Err StoreFault.Spent → is_spent pages.old ≡ true }
    ensures cause { IfErr result IsReadFault }
{
    match tree.remove(pages, device, key) {
        Ok(true) => Ok(()),
        Ok(false) => Err(StoreFault::Damaged),
        Err(error) => Err(to_fault(error)),
    }
}

/// Takes the row of a key out of a tree of rows. Other trees are unchanged. Where it isn't there, the volume is damaged.
pub(crate) fn remove_row<D: Device>(
    rows: &mut RowTree,
    pages: &mut PageMap,
    device: &mut D,
    key: &[u8],
) -> Result<(), StoreFault>
    requires sectors { sectors_of pages.old ≤ D.sectors device.old }
    ensures edits { EditsPages D.Device (result ≡ Err StoreFault.Device) pages.old device.old
        pages.new device.new }
    ensures removed { OnRowTreeAmong D.Device rows.old pages.old device.old (λ left right entries.
        OnOk result (IsRowTreeAmong (pages_on D.Device pages.new device.old) left right rows.new
        (without_entry entries key.now))) }
    ensures damaged { OnRowTreeAmong D.Device rows.old pages.old device.old (λ left right entries.
        IsSome (entry_with entries key.now) → result ≡ Err StoreFault.Damaged → ⊥) }
    ensures few { OnRowTreeAmong D.Device rows.old pages.old device.old (λ left right entries.
        OnOk result (FewChanged (42 + pages_for rows.old.record_bytes) pages.old pages.new)) }
    ensures layout { rows.new.tree.layout ≡ rows.old.tree.layout }
    ensures form { rows.new.record_bytes ≡ rows.old.record_bytes }
    ensures spent { result ≡ Err StoreFault.Spent → is_spent pages.old ≡ true }
    ensures cause { IfErr result IsReadFault }
{
    match rows.remove(pages, device, key) {
        Ok(true) => Ok(()),
        Ok(false) => Err(StoreFault::Damaged),
        Err(error) => Err(to_fault(error)),
    }
}

/// Gives the row of a key another record. Other trees are unchanged. Where it isn't there, the volume is damaged.
pub(crate) fn replace_row<D: Device>(
    rows: &mut RowTree,
    pages: &mut PageMap,
    device: &mut D,
    key: &[u8],
    value: &[u8],
) -> Result<(), StoreFault>
    requires sectors { sectors_of pages.old ≤ D.sectors device.old }
    requires value { length value.now ≡ value_length rows.old }
    ensures edits { EditsPages D.Device (result ≡ Err StoreFault.Device) pages.old device.old
        pages.new device.new }
    ensures replaced { OnRowTreeAmong D.Device rows.old pages.old device.old (λ left right entries.
        OnOk result (IsRowTreeAmong (pages_on D.Device pages.new device.old) left right rows.new
        (with_value entries (record { key = key.now; value = value.now })))) }
    ensures damaged { OnRowTreeAmong D.Device rows.old pages.old device.old (λ left right entries.
        IsSome (entry_with entries key.now) → result ≡ Err StoreFault.Damaged → ⊥) }
    ensures few { FewChanged (42 + pages_for rows.old.record_bytes) pages.old pages.new }
    ensures tree { rows.new ≡ rows.old }
    ensures spent { result ≡ Err StoreFault.Spent → is_spent pages.old ≡ true }
    ensures cause { IfErr result IsReadFault }
{
    match rows.replace(pages, device, key, value) {
        Ok(true) => Ok(()),
        Ok(false) => Err(StoreFault::Damaged),
        Err(error) => Err(to_fault(error)),
    }
}
