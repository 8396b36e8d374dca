//! An entry leaves a tree.
ghost use Rattle.std.specs.Prelude.{◌≡◌, ◌<◌, ◌+◌, ◌*◌, Err, Ok, None, List, length, IfOk, IfErr, OnOk};
ghost use Rattle.station.specs.Disk.{Sector};
ghost use Rattle.pages.specs.Pages.{SameCommitted, KeepsCommitted, IsUnchanged};
ghost use Rattle.pages.specs.Devices.{FitsDevice};
ghost use Rattle.btree_pages.specs.RowLayouts.{IsRowLayout};
ghost use Rattle.btree.specs.Tree.{TreeNode, IsTree};
ghost use Rattle.btree.specs.Path.{EndsAt};
ghost use Rattle.btree.specs.Changes.{pages_of_map};
ghost use Rattle.btree.specs.Outcomes.{spare};
ghost use Rattle.btree.specs.Shrinks.{HasCollapsed, HasStayed, IsShrunkRoot, NeverIsShrunkRoot, Collapses};
ghost use Rattle.btree.specs.Removals.{Removes};
ghost use Rattle.btree.specs.Refusals.{IsRestRefusal, ErrOnlyIfChangeRefusal};
ghost use Rattle.btree.specs.Calls.{OnNoTree, OnTree, OnTreeChange, OnPages, OnChange, OnlyReadsFor, EditsPagesFor, KeepsAgreement, DamagedOnlyIfNoTree};
ghost use Rattle.btree.specs.Results.{ReturnsDamaged, OnlyIfSpent, ExactlyIfSpentAt, FewChanged, FewFilled, FalseOnlyIfSame, ErrOnlyIfSame, SameLayout, SameCatalog};
ghost use Rattle.btree.specs.Puts.{NeverIn};
ghost use Rattle.btree.specs.TreeEdits.{FalseOnlyIfAbsent, TrueOnlyIfRemoved, OkOnlyIfEditsFew};

use crate::descend::{Descent, Way, descend};
use crate::removal_outcome::{Child, RemovalOutcome};
use crate::shrink::shrink;
use crate::shrink_page::{is_page, take_out};
use crate::tree::Tree;
use btree_pages::{Kind, RowLayout, TreePage};
use pages::{PageMap, PagesError};
use station::Device;
use std::alloc::Global;

impl Tree {
    /// Takes the entry of a key out of the tree. `false` means that there is none, and then nothing was changed. After a refusal the pages
    /// that aren't committed are given up with the map of pages. `Damaged` means that the pages under the root are no tree.
    pub fn remove<D: Device>(
        &mut self,
        pages: &mut PageMap,
        device: &mut D,
        key: &[u8],
    ) -> Result<bool, PagesError>
        requires sectors { FitsDevice D.Device pages.old device.old }
        ensures edits { EditsPagesFor D.Device pages.old device.old pages.new device.new result }

        // The list of entries is without the one of the key, and the pages around the tree stay. No more leaves than before have less
        // than a quarter of the rows that they have room for, unless one leaf is all that is left.
        ensures removed { TrueOnlyIfRemoved D.Device self.old pages.old device.old key.now self.new
            pages.new result }
        ensures missing { FalseOnlyIfAbsent D.Device self.old pages.old device.old key.now result }
        ensures same { FalseOnlyIfSame self.old pages.old self.new pages.new result }
        ensures damaged { DamagedOnlyIfNoTree D.Device self.old pages.old device.old result }
        ensures layout { SameLayout self.old self.new }

        // At most so many pages are changed.
        ensures few { OkOnlyIfEditsFew D.Device 42 self.old pages.old device.old pages.new
            result }
        ensures refused { ErrOnlyIfSame self.old self.new result }
        ensures spent { ExactlyIfSpentAt self.old.root pages.old result }
        ensures cause { ErrOnlyIfChangeRefusal result }
    {
        let alloc = self.alloc;
        let layout = self.layout();
        let top = self.root();
        let removed = remove_entry(alloc, pages, device, layout, top, key)?;
        match removed {
            Some(root) => {
                self.set_root(root);
                Ok(true)
            }
            None => Ok(false),
        }
    }
}

/// An inner page with one row gives way to the child that it names.
fn collapse_root(pages: &mut PageMap, lone: Child) -> Result<u32, PagesError>
    requires lone { (lone.node.kind ≡ Kind.Inner) × (length lone.node.rows ≡ 1) }
    ensures gives { IfOk result (λ new. (image : List Sector)
        → HasCollapsed (pages_of_map pages.old image) (pages_of_map pages.new image) lone new) }
    ensures changed_pages { OnOk result (FewChanged 1 pages.old pages.new) }
    ensures filled { OnOk result (FewFilled 1 pages.old pages.new) }
    ensures keeps { KeepsCommitted pages.old pages.new }
    ensures damaged { NeverIn pages.old lone.page (ReturnsDamaged result) }
    ensures spent { OnlyIfSpent pages.old result }
    ensures cause { IfErr result IsRestRefusal }
{
    if !is_page(pages, lone.page) {
        return Err(PagesError::Damaged);
    }
    pages.release(lone.page)?;
    Ok(lone.node.child(0))
}

/// A leaf that is the root stays, however few rows it has.
fn keep_leaf(pages: &mut PageMap, lone: Child) -> Result<u32, PagesError>
    requires lone { (lone.node.kind ≡ Kind.Leaf) × (0 < length lone.node.rows) }
    ensures stays { IfOk result (λ new. (image : List Sector)
        → HasStayed (pages_of_map pages.old image) (pages_of_map pages.new image) lone new) }
    ensures changed_pages { OnOk result (FewChanged 1 pages.old pages.new) }
    ensures filled { OnOk result (FewFilled 1 pages.old pages.new) }
    ensures keeps { KeepsCommitted pages.old pages.new }
    ensures damaged { NeverIn pages.old lone.page (ReturnsDamaged result) }
    ensures spent { OnlyIfSpent pages.old result }
    ensures cause { IfErr result IsRestRefusal }
{
    if !is_page(pages, lone.page) {
        return Err(PagesError::Damaged);
    }
    // What this tells is needed below: each row has its length.
    let _count = lone.node.count();
    let spelled = lone.node.bytes();
    pages.edit(lone.page, &spelled)?;
    Ok(lone.page)
}

/// The page of the root, after what became of the one there was: 0 where it is gone.
fn root_after_removal(
    pages: &mut PageMap,
    root: u32,
    outcome: RemovalOutcome,
) -> Result<u32, PagesError>
    requires one { Collapses outcome }
    ensures settles { IfOk result (λ new. (image : List Sector) (layout : RowLayout) → IsShrunkRoot
        layout root outcome (pages_of_map pages.old image) (pages_of_map pages.new image) new) }
    ensures changed_pages { OnOk result (FewChanged (spare outcome) pages.old pages.new) }
    ensures filled { OnOk result (FewFilled (spare outcome) pages.old pages.new) }
    ensures keeps { KeepsCommitted pages.old pages.new }
    ensures damaged { result ≡ Err PagesError.Damaged → (image : List Sector) (layout : RowLayout)
        → NeverIsShrunkRoot layout root outcome (pages_of_map pages.old image) }
    ensures spent { OnlyIfSpent pages.old result }
    ensures cause { IfErr result IsRestRefusal }
{
    match outcome {
        RemovalOutcome::Kept => Ok(root),
        RemovalOutcome::Renamed(_child) => Ok(root),
        RemovalOutcome::Gone => Ok(0),
        RemovalOutcome::Underfull(child) => match child.node.kind() {
            Kind::Leaf => keep_leaf(pages, child),
            Kind::Inner => collapse_root(pages, child),
        },
    }
}

/// Takes the entry of a key out of the tree under a root. The answer is the root's page then, or `None` where the key isn't there, and
/// then nothing was changed.
fn remove_entry<D: Device>(
    alloc: Global,
    pages: &mut PageMap,
    device: &mut D,
    layout: RowLayout,
    root: u32,
    key: &[u8],
) -> Result<Option<u32>, PagesError>
    requires sectors { FitsDevice D.Device pages.old device.old }
    requires layout { IsRowLayout layout }
    ensures edits { EditsPagesFor D.Device pages.old device.old pages.new device.new result }
    ensures removed { OnTreeChange D.Device layout root pages.old pages.new device.old
        (λ before levels after. IfOk result (Removes layout before levels after key.now)) }
    ensures damaged { OnNoTree D.Device layout root pages.old device.old (ReturnsDamaged result) }
    ensures missing { result ≡ Ok None → IsUnchanged pages.old pages.new }
    ensures changed_pages { OnTree D.Device layout root pages.old device.old
        (λ levels. OnOk result (FewChanged 42 pages.old pages.new)) }
    ensures filled { OnTree D.Device layout root pages.old device.old
        (λ levels. OnOk result (FewFilled 42 pages.old pages.new)) }
    ensures spent { ExactlyIfSpentAt root pages.old result }
    ensures cause { ErrOnlyIfChangeRefusal result }
{
    if root == 0 {
        return Ok(None);
    }
    // How many page numbers there are is needed below.
    let _page_count = pages.page_count();
    let Descent { way, leaf } = descend(alloc, pages, device, layout, root, key)?;
    let removed = remove_from_leaf(pages, device, layout, root, &way, leaf, key);
    drop(way);
    removed
}

/// Takes the entry of a key out of the leaf at the end of its way, and adjusts the pages above it. The answer is the root's page then,
/// or `None` if the key isn't there. Nothing was changed then.
fn remove_from_leaf<D: Device>(
    pages: &mut PageMap,
    device: &mut D,
    layout: RowLayout,
    root: u32,
    way: &Way,
    leaf: TreePage,
    key: &[u8],
) -> Result<Option<u32>, PagesError>
    requires sectors { FitsDevice D.Device pages.old device.old }
    requires layout { IsRowLayout layout }
    requires leaf { (leaf.layout ≡ layout) × (leaf.kind ≡ Kind.Leaf) }
    ensures edits { EditsPagesFor D.Device pages.old device.old pages.new device.new result }
    ensures removed { OnChange D.Device pages.old pages.new device.old
        (λ before after. (levels : List (List TreeNode)) → IsTree layout before root levels
        → EndsAt layout key.now levels way.now.path.items way.now.page leaf.rows way.now.right
        → IfOk result (Removes layout before levels after key.now)) }
    ensures damaged { OnPages D.Device pages.old device.old
        (λ before. result ≡ Err PagesError.Damaged → (levels : List (List TreeNode))
        → IsTree layout before root levels
        → EndsAt layout key.now levels way.now.path.items
        way.now.page leaf.rows way.now.right → ⊥) }
    ensures missing { result ≡ Ok None → IsUnchanged pages.old pages.new }
    ensures changed_pages { OnOk result
        (FewChanged (2 * length way.now.path.items + 1) pages.old pages.new) }
    ensures filled { OnOk result
        (FewFilled (2 * length way.now.path.items + 1) pages.old pages.new) }
    ensures spent { OnlyIfSpent pages.old result }
    ensures cause { ErrOnlyIfChangeRefusal result }
{
    let place = match leaf.find(key) {
        Ok(place) => place,
        Err(_) => return Ok(None),
    };
    if !is_page(pages, way.page) {
        return Err(PagesError::Damaged);
    }
    let out = take_out(pages, way.page, leaf, place)?;
    let outcome = shrink(pages, device, layout, way.path.as_slice(), out)?;
    let new = root_after_removal(pages, root, outcome)?;
    Ok(Some(new))
}
