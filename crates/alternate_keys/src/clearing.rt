//! The trees of a file give up their pages.
ghost use Rattle.std.specs.Prelude.{◌≡◌, ◌≤◌, ◌++◌, true, Err, length, OnOk, IfErr};
ghost use Rattle.pages.specs.Pages.{is_spent, sectors_of, filled_of};
ghost use Rattle.btree.specs.Calls.{pages_on};
ghost use Rattle.records.specs.Stores.{key_count};
ghost use Rattle.volume_format.specs.Forest.{IsForest};
ghost use Rattle.row_trees.specs.Calls.{EditsPages};
ghost use Rattle.alternate_keys.specs.Created.{OnForest, OnStored, OnAlternates, OnListed};
ghost use Rattle.alternate_keys.specs.Faults.{IsReadFault};

use crate::stored::{stored_count, stored_row_tree, stored_tree};
use btree::Tree;
use pages::PageMap;
use records::{KeyOfReference, StoreFault};
use station::Device;
use std::alloc::Global;
use volume_format::to_fault;

/// Gives up all pages of the trees of a file, as a value of the catalog says them.
pub(crate) fn clear_trees<D: Device>(
    alloc: Global,
    pages: &mut PageMap,
    device: &mut D,
    value: &[u8],
) -> Result<(), StoreFault>
    requires sectors { sectors_of pages.old ≤ D.sectors device.old }
    requires value { length value.now ≡ 83 }
    ensures edits { EditsPages D.Device (result ≡ Err StoreFault.Device) pages.old device.old
        pages.new device.new }
    ensures cleared { OnListed D.Device pages.old device.old value.now (λ left right.
        OnOk result (IsForest (pages_on D.Device pages.new device.old) (left ++ right))) }
    ensures damaged { OnListed D.Device pages.old device.old value.now
        (λ left right. result ≡ Err StoreFault.Damaged → ⊥) }
    ensures filled { filled_of pages.new ≤ filled_of pages.old }
    ensures spent { result ≡ Err StoreFault.Spent → is_spent pages.old ≡ true }
    ensures cause { IfErr result IsReadFault }
{
    clear_rows(alloc, pages, device, value)?;
    clear_alternates(alloc, pages, device, value)
}

/// Gives up all pages of a tree. The other trees stay.
pub(crate) fn clear_among<D: Device>(
    tree: &mut Tree,
    pages: &mut PageMap,
    device: &mut D,
) -> Result<(), StoreFault>
    requires sectors { sectors_of pages.old ≤ D.sectors device.old }
    ensures edits { EditsPages D.Device (result ≡ Err StoreFault.Device) pages.old device.old
        pages.new device.new }
    ensures cleared { OnForest D.Device tree.old pages.old device.old (λ left right.
        OnOk result (IsForest (pages_on D.Device pages.new device.old) (left ++ right))) }
    ensures damaged { OnForest D.Device tree.old pages.old device.old
        (λ left right. result ≡ Err StoreFault.Damaged → ⊥) }
    ensures filled { filled_of pages.new ≤ filled_of pages.old }
    ensures spent { result ≡ Err StoreFault.Spent → is_spent pages.old ≡ true }
    ensures cause { IfErr result IsReadFault }
{
    match tree.clear(pages, device) {
        Ok(()) => Ok(()),
        Err(error) => Err(to_fault(error)),
    }
}

/// Gives up all pages of the tree of rows and of its chains, as a value of the catalog says it.
fn clear_rows<D: Device>(
    alloc: Global,
    pages: &mut PageMap,
    device: &mut D,
    value: &[u8],
) -> Result<(), StoreFault>
    requires sectors { sectors_of pages.old ≤ D.sectors device.old }
    requires value { length value.now ≡ 83 }
    ensures edits { EditsPages D.Device (result ≡ Err StoreFault.Device) pages.old device.old
        pages.new device.new }
    ensures cleared { OnStored D.Device value.now KeyOfReference.Prime pages.old device.old
        (λ left right. OnOk result
        (IsForest (pages_on D.Device pages.new device.old) (left ++ right))) }
    ensures damaged { OnStored D.Device value.now KeyOfReference.Prime pages.old device.old
        (λ left right. result ≡ Err StoreFault.Damaged → ⊥) }
    ensures filled { filled_of pages.new ≤ filled_of pages.old }
    ensures spent { result ≡ Err StoreFault.Spent → is_spent pages.old ≡ true }
    ensures cause { IfErr result IsReadFault }
{
    let mut rows = stored_row_tree(alloc, value)?;
    match rows.clear(pages, device) {
        Ok(()) => Ok(()),
        Err(error) => Err(to_fault(error)),
    }
}

/// Gives up all pages of the tree of an alternate key, as a value of the catalog says it.
fn clear_tree<D: Device>(
    alloc: Global,
    pages: &mut PageMap,
    device: &mut D,
    value: &[u8],
    key: u8,
) -> Result<(), StoreFault>
    requires sectors { sectors_of pages.old ≤ D.sectors device.old }
    requires value { length value.now ≡ 83 }
    requires key { key_count (KeyOfReference.Alternate key) ≤ 7 }
    ensures edits { EditsPages D.Device (result ≡ Err StoreFault.Device) pages.old device.old
        pages.new device.new }
    ensures cleared { OnStored D.Device value.now (KeyOfReference.Alternate key) pages.old
        device.old (λ left right. OnOk result
        (IsForest (pages_on D.Device pages.new device.old) (left ++ right))) }
    ensures damaged { OnStored D.Device value.now (KeyOfReference.Alternate key) pages.old
        device.old (λ left right. result ≡ Err StoreFault.Damaged → ⊥) }
    ensures filled { filled_of pages.new ≤ filled_of pages.old }
    ensures spent { result ≡ Err StoreFault.Spent → is_spent pages.old ≡ true }
    ensures cause { IfErr result IsReadFault }
{
    let mut tree = stored_tree(alloc, value, KeyOfReference::Alternate(key))?;
    clear_among(&mut tree, pages, device)
}

/// Gives up all pages of the trees of a file's alternate keys, as a value of the catalog says them.
fn clear_alternates<D: Device>(
    alloc: Global,
    pages: &mut PageMap,
    device: &mut D,
    value: &[u8],
) -> Result<(), StoreFault>
    requires sectors { sectors_of pages.old ≤ D.sectors device.old }
    requires value { length value.now ≡ 83 }
    ensures edits { EditsPages D.Device (result ≡ Err StoreFault.Device) pages.old device.old
        pages.new device.new }
    ensures cleared { OnAlternates D.Device pages.old device.old value.now (λ left right.
        OnOk result (IsForest (pages_on D.Device pages.new device.old) (left ++ right))) }
    ensures damaged { OnAlternates D.Device pages.old device.old value.now
        (λ left right. result ≡ Err StoreFault.Damaged → ⊥) }
    ensures filled { filled_of pages.new ≤ filled_of pages.old }
    ensures spent { result ≡ Err StoreFault.Spent → is_spent pages.old ≡ true }
    ensures cause { IfErr result IsReadFault }
{
    let count = stored_count(value);
    for key in 0..count {
        clear_tree(alloc, pages, device, value, key)?;
    }
    Ok(())
}
