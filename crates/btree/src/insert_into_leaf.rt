//! A new row comes into a tree.
ghost use Rattle.std.specs.Prelude.{◌≡◌, ◌≤◌, ◌<◌, ◌+◌, ◌*◌, Err, List, length, IfOk, IfErr, IfSome};
ghost use Rattle.station.specs.Disk.{Sector};
ghost use Rattle.pages.specs.Pages.{SameCommitted, changed_pages_of, filled_of, KeepsCommitted};
ghost use Rattle.pages.specs.Devices.{FitsDevice};
ghost use Rattle.btree_pages.specs.RowLayouts.{IsRowLayout};
ghost use Rattle.btree.specs.Tree.{TreeNode, IsTree};
ghost use Rattle.btree.specs.Path.{EndsAt};
ghost use Rattle.btree.specs.Changes.{pages_of_map, HasKeys, IsRootAfter, InsertsIntoLeaf};
ghost use Rattle.btree.specs.Refusals.{IsWriteRefusal, IsInsertRefusal};
ghost use Rattle.btree.specs.Calls.{OnPages, OnChange, EditsPagesFor};
ghost use Rattle.btree.specs.Results.{OnlyIfSpent, FullIfUsed, FewChanged, FewFilled, SameCatalog};

use crate::descend::Way;
use crate::propagate_split::propagate_split;
use crate::put_new::new_root;
use crate::put_row::put_row;
use crate::shrink_page::is_page;
use crate::split_result::SplitResult;
use crate::update_parent::told;
use btree_pages::{Kind, RowLayout, TreePage};
use pages::{PageMap, PagesError};
use station::Device;

/// A new row of a leaf: its place, its key and its value.
#[derive(Clone, Copy)]
pub(crate) struct NewRow<'a> {
    pub(crate) place: usize,
    pub(crate) key: &'a [u8],
    pub(crate) value: &'a [u8],
}

/// The page of the root, after what is told of the one there was.
pub(crate) fn root_after_split(
    pages: &mut PageMap,
    layout: RowLayout,
    root: u32,
    told: Option<SplitResult>,
) -> Result<u32, PagesError>
    requires layout { IsRowLayout layout }
    requires keys { IfSome told (HasKeys layout) }
    ensures settles { IfOk result (λ new. (image : List Sector) → IsRootAfter layout root told
        (pages_of_map pages.old image) (pages_of_map pages.new image) new) }
    ensures some { 0 < root → IfOk result (λ new. 0 < new) }
    ensures changed_pages { FewChanged 1 pages.old pages.new }
    ensures filled { FewFilled 1 pages.old pages.new }
    ensures keeps { KeepsCommitted pages.old pages.new }
    ensures cause { IfErr result IsWriteRefusal }
    ensures full { FullIfUsed pages.new result }
    ensures spent { OnlyIfSpent pages.old result }
{
    let split = match told {
        Some(split) => split,
        None => return Ok(root),
    };
    match &split.right {
        Some(right) => {
            let new = new_root(pages, layout, &split, right)?;
            Ok(new)
        }
        None => Ok(root),
    }
}

/// Puts a row into the leaf that a descent ended at, and tells the pages above it. The answer is the page of the root then.
pub(crate) fn insert_into_leaf<D: Device>(
    pages: &mut PageMap,
    device: &mut D,
    layout: RowLayout,
    root: u32,
    way: &Way,
    leaf: TreePage,
    row: NewRow<'_>,
) -> Result<u32, PagesError>
    requires sectors { FitsDevice D.Device pages.old device.old }
    requires layout { IsRowLayout layout }
    requires leaf { (leaf.layout ≡ layout) × (leaf.kind ≡ Kind.Leaf) }
    requires place { row.place ≤ length leaf.rows }
    requires key { length row.key.now ≡ layout.key_length }
    requires value { length row.value.now ≡ layout.value_length }
    ensures edits { EditsPagesFor D.Device pages.old device.old pages.new device.new result }
    ensures entered { OnChange D.Device pages.old pages.new device.old
        (λ before after.
        IfOk result (λ new. InsertsIntoLeaf layout root before after way.now.path.items
        way.now.page leaf.rows way.now.right row.entry.place row.entry.key.now
        row.entry.value.now new)) }
    ensures damaged { OnPages D.Device pages.old device.old
        (λ before. result ≡ Err PagesError.Damaged → (levels : List (List TreeNode))
        → IsTree layout before root levels
        → EndsAt layout row.entry.key.now levels way.now.path.items
        way.now.page leaf.rows way.now.right → ⊥) }
    ensures some { 0 < root → IfOk result (λ new. 0 < new) }
    ensures changed_pages { length (changed_pages_of pages.new)
        ≤ length (changed_pages_of pages.old) + 2 * length way.now.path.items + 3 }
    ensures filled { filled_of pages.new ≤ filled_of pages.old + 2 * length way.now.path.items + 3 }
    ensures cause { IfErr result IsInsertRefusal }
    ensures full { FullIfUsed pages.new result }
    ensures spent { OnlyIfSpent pages.old result }
{
    if !is_page(pages, way.page) {
        return Err(PagesError::Damaged);
    }
    let put = put_row(pages, way.page, leaf, row.place, row.key, row.value)?;
    let split = match told(put, row.place) {
        Some(split) => split,
        None => return Ok(root),
    };
    let up = propagate_split(pages, device, layout, way.path.as_slice(), split)?;
    let new = root_after_split(pages, layout, root, up)?;
    Ok(new)
}
