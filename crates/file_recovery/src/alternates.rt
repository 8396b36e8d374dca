//! The trees of all alternate keys of a file.
ghost use Rattle.std.specs.Prelude.{◌≡◌, ◌≤◌, false, Err, length, IfErr, OnOk};
ghost use Rattle.std.specs.List.{All};
ghost use Rattle.pages.specs.Pages.{is_spent, sectors_of};
ghost use Rattle.btree.specs.Calls.{OnPages};
ghost use Rattle.records.specs.declared.key.KeyOfReference.TheVariants.{Alternate};
ghost use Rattle.records.specs.Laws.{RowsAscend};
ghost use Rattle.records.specs.Stores.{spec_of, IsKey};
ghost use Rattle.btree_check.specs.Walks.{FindsTree, NoUnmarkedTree};
ghost use Rattle.volume_format.specs.Calls.{LooksAt};
ghost use Rattle.file_recovery.specs.Faults.{IsReadFault};
ghost use Rattle.file_recovery.specs.Found.{FindsIndexes, NoIndexes, FindsIndex, NoIndex};
ghost use Rattle.file_recovery.specs.Rows.{IsSized};
ghost use Rattle.file_bytes.specs.Stored.{rows_of};

use crate::pairs::check_index;
use btree::Tree;
use btree_check::check_tree;
use file_bytes::StoredRow;
use pages::{PageMap, map_bounds};
use records::{FileSpec, KeyOfReference, StoreFault};
use station::Device;
use std::alloc::Global;
use volume_format::{alternate_root, to_fault, tree_layout};

/// Whether the pages under a tree's root are a tree, which are marked.
pub(crate) fn check_pages<D: Device>(
    alloc: Global,
    tree: &Tree,
    pages: &mut PageMap,
    device: &mut D,
    seen: &mut [bool],
) -> Result<(), StoreFault>
    requires unspent { is_spent pages.old ≡ false }
    requires sectors { sectors_of pages.old ≤ D.sectors device.old }
    ensures looks { LooksAt D.Device (result ≡ Err StoreFault.Device) pages.old device.old pages.new
        device.new }
    ensures holds { OnPages D.Device pages.old device.old
        (λ before. OnOk result (FindsTree tree.now.layout before tree.now.root seen.old seen.new)) }
    ensures damaged { OnPages D.Device pages.old device.old
        (NoUnmarkedTree tree.now.layout tree.now.root seen.old (result ≡ Err StoreFault.Damaged)) }
    ensures cause { IfErr result IsReadFault }
{
    match check_tree(alloc, tree, pages, device, seen) {
        Ok(()) => Ok(()),
        Err(error) => Err(to_fault(error)),
    }
}

/// The root of the tree of an alternate key: the value of the catalog that names its page, and the key.
#[derive(Clone, Copy)]
struct AlternateRoot<'a> {
    value: &'a [u8],
    key: u8,
}

/// Whether the tree of an alternate key with this root is exactly the pairs of the rows. Its pages are marked.
fn check_alternate<D: Device>(
    alloc: Global,
    file: &FileSpec,
    rows: &[StoredRow],
    root: AlternateRoot<'_>,
    pages: &mut PageMap,
    device: &mut D,
    seen: &mut [bool],
) -> Result<(), StoreFault>
    requires unspent { is_spent pages.old ≡ false }
    requires sectors { sectors_of pages.old ≤ D.sectors device.old }
    requires key { IsKey (spec_of file.now) (Alternate root.key) }
    requires value { length root.value.now ≡ 83 }
    requires rows { All (IsSized (spec_of file.now)) (rows_of rows.now) }
    ensures looks { LooksAt D.Device (result ≡ Err StoreFault.Device) pages.old device.old pages.new
        device.new }
    ensures index { RowsAscend file.now.organization (rows_of rows.now)
        → OnPages D.Device pages.old device.old
        (λ before. OnOk result (FindsIndex before (spec_of file.now) (rows_of rows.now)
        root.entry.value.now root.entry.key seen.old seen.new)) }
    ensures damaged { RowsAscend file.now.organization (rows_of rows.now)
        → OnPages D.Device pages.old device.old
        (λ before. result ≡ Err StoreFault.Damaged
        → NoIndex before (spec_of file.now) (rows_of rows.now) root.entry.value.now root.entry.key
        seen.old) }
    ensures cause { IfErr result IsReadFault }
{
    let layout = tree_layout(file, KeyOfReference::Alternate(root.key));
    let tree = Tree::new(alloc, layout, alternate_root(root.value, root.key));
    check_pages(alloc, &tree, pages, device, seen)?;
    check_index(alloc, file, root.key, rows, &tree, pages, device)
}

/// Whether the trees of all alternate keys are exactly the pairs of the rows. Their pages are marked.
pub(crate) fn check_alternates<D: Device>(
    alloc: Global,
    file: &FileSpec,
    value: &[u8],
    rows: &[StoredRow],
    pages: &mut PageMap,
    device: &mut D,
    seen: &mut [bool],
) -> Result<(), StoreFault>
    requires unspent { is_spent pages.old ≡ false }
    requires sectors { sectors_of pages.old ≤ D.sectors device.old }
    requires value { length value.now ≡ 83 }
    requires rows { All (IsSized (spec_of file.now)) (rows_of rows.now) }
    ensures looks { LooksAt D.Device (result ≡ Err StoreFault.Device) pages.old device.old pages.new
        device.new }
    ensures indexes { RowsAscend file.now.organization (rows_of rows.now)
        → OnPages D.Device pages.old device.old
        (λ before. OnOk result (FindsIndexes before (spec_of file.now) (rows_of rows.now) value.now
        (length file.now.alternates.items) seen.old seen.new)) }
    ensures damaged { RowsAscend file.now.organization (rows_of rows.now)
        → OnPages D.Device pages.old device.old
        (λ before. result ≡ Err StoreFault.Damaged → NoIndexes before (spec_of file.now)
        (rows_of rows.now) value.now (length file.now.alternates.items) seen.old) }
    ensures cause { IfErr result IsReadFault }
{
    map_bounds();
    let count = file.alternates.len() as u8;
    for key in 0..count {
        let root = AlternateRoot { value, key };
        check_alternate(alloc, file, rows, root, pages, device, seen)?;
    }
    Ok(())
}
