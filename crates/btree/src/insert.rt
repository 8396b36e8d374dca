//! A new entry.
ghost use Rattle.std.specs.Prelude.{◌≡◌, ◌≢◌, Ok, None, length, IfOk};
ghost use Rattle.pages.specs.Pages.{SameCommitted, IsUnchanged};
ghost use Rattle.pages.specs.Devices.{FitsDevice};
ghost use Rattle.btree_pages.specs.RowLayouts.{IsRowLayout};
ghost use Rattle.btree.specs.Changes.{Inserts};
ghost use Rattle.btree.specs.Refusals.{ErrOnlyIfInsertRefusal};
ghost use Rattle.btree.specs.Calls.{OnNoTree, OnTree, OnTreeChange, OnlyReadsFor, EditsPagesFor, KeepsAgreement, DamagedOnlyIfNoTree};
ghost use Rattle.btree.specs.Results.{ReturnsDamaged, ExactlyIfSpent, FullIfUsed, FewChanged, FewFilled, FalseOnlyIfSame, ErrOnlyIfSame, SameLayout, SameCatalog};
ghost use Rattle.btree.specs.TreeEdits.{FalseOnlyIfPresent, TrueOnlyIfInserted, TakesFewPages};

use crate::descend::{Descent, descend, follow};
use crate::enter_leaf::enter_leaf;
use crate::insert_into_leaf::{NewRow, insert_into_leaf};
use crate::put_new::first_leaf;
use crate::tree::Tree;
use btree_pages::RowLayout;
use pages::{PageMap, PagesError, few_free};
use station::Device;
use std::alloc::Global;

impl Tree {
    /// The root is another page from now on.
    pub(crate) fn set_root(&mut self, root: u32)
        ensures layout { self.new.layout ≡ self.old.layout }
        ensures root { self.new.root ≡ root }
    {
        self.root = root;
    }

    /// Puts a new entry into the tree. `false` means that its key is there, and then nothing was changed. After a refusal the pages that
    /// aren't committed are given up with the map of pages, and the tree has the root that it had. `Damaged` means that the pages under
    /// the root are no tree, `Full` that no page number is left.
    pub fn insert<D: Device>(
        &mut self,
        pages: &mut PageMap,
        device: &mut D,
        key: &[u8],
        value: &[u8],
    ) -> Result<bool, PagesError>
        requires sectors { FitsDevice D.Device pages.old device.old }
        requires key { length key.now ≡ self.old.layout.key_length }
        requires value { length value.now ≡ self.old.layout.value_length }
        ensures edits { EditsPagesFor D.Device pages.old device.old pages.new device.new result }

        // The list of entries has the new one at its place, and the pages around the tree stay.
        ensures inserted { TrueOnlyIfInserted D.Device self.old pages.old device.old key.now
            value.now self.new pages.new result }
        ensures there { FalseOnlyIfPresent D.Device self.old pages.old device.old key.now result }
        ensures same { FalseOnlyIfSame self.old pages.old self.new pages.new result }
        ensures damaged { DamagedOnlyIfNoTree D.Device self.old pages.old device.old result }
        ensures layout { SameLayout self.old self.new }
        ensures refused { ErrOnlyIfSame self.old self.new result }

        // At most so many pages are changed, whatever the answer. `Full` means that each page number is used, and so that few sectors were
        // free.
        ensures few { TakesFewPages D.Device 42 self.old pages.old device.old pages.new result }

        // `Spent` comes exactly where the map is spent.
        ensures spent { ExactlyIfSpent pages.old result }
        ensures cause { ErrOnlyIfInsertRefusal result }
    {
        let alloc = self.alloc;
        let layout = self.layout();
        let top = self.root();
        // What `Full` tells of the free sectors.
        few_free();
        let added = insert_entry(alloc, pages, device, layout, top, key, value)?;
        match added {
            Some(root) => {
                self.set_root(root);
                Ok(true)
            }
            None => Ok(false),
        }
    }
}

/// Puts a new entry into the tree under a root that isn't 0, whatever it takes. Answers and refusals are those of `insert_entry`.
#[cold]
#[inline(never)]
fn insert_slowly<D: Device>(
    alloc: Global,
    pages: &mut PageMap,
    device: &mut D,
    layout: RowLayout,
    root: u32,
    key: &[u8],
    value: &[u8],
) -> Result<Option<u32>, PagesError>
    requires sectors { FitsDevice D.Device pages.old device.old }
    requires root { root ≢ 0 }
    requires layout { IsRowLayout layout }
    requires key { length key.now ≡ layout.key_length }
    requires value { length value.now ≡ layout.value_length }
    ensures edits { EditsPagesFor D.Device pages.old device.old pages.new device.new result }
    ensures full { FullIfUsed pages.new result }
    ensures spent { ExactlyIfSpent pages.old result }
    ensures cause { ErrOnlyIfInsertRefusal result }
    ensures inserted { OnTreeChange D.Device layout root pages.old pages.new device.old
        (λ before levels after.
        IfOk result (Inserts layout before levels after key.now value.now)) }
    ensures damaged { OnNoTree D.Device layout root pages.old device.old (ReturnsDamaged result) }
    ensures there { result ≡ Ok None → IsUnchanged pages.old pages.new }
    ensures changed_pages { OnTree D.Device layout root pages.old device.old
        (λ levels. FewChanged 42 pages.old pages.new) }
    ensures filled { OnTree D.Device layout root pages.old device.old
        (λ levels. FewFilled 42 pages.old pages.new) }
{
    // How many page numbers there are is needed below.
    let _page_count = pages.page_count();
    let Descent { way, leaf } = descend(alloc, pages, device, layout, root, key)?;
    let place = match leaf.find(key) {
        Ok(_) => {
            drop(way);
            return Ok(None);
        }
        Err(place) => place,
    };
    let row = NewRow { place, key, value };
    let inserted = insert_into_leaf(pages, device, layout, root, &way, leaf, row);
    drop(way);
    let entered = inserted?;
    Ok(Some(entered))
}

/// Puts a new entry into the tree under a root. The answer is the root's page then, or `None` where the key is there, and then
/// nothing was changed.
fn insert_entry<D: Device>(
    alloc: Global,
    pages: &mut PageMap,
    device: &mut D,
    layout: RowLayout,
    root: u32,
    key: &[u8],
    value: &[u8],
) -> Result<Option<u32>, PagesError>
    requires sectors { FitsDevice D.Device pages.old device.old }
    requires layout { IsRowLayout layout }
    requires key { length key.now ≡ layout.key_length }
    requires value { length value.now ≡ layout.value_length }
    ensures edits { EditsPagesFor D.Device pages.old device.old pages.new device.new result }
    ensures inserted { OnTreeChange D.Device layout root pages.old pages.new device.old
        (λ before levels after.
        IfOk result (Inserts layout before levels after key.now value.now)) }
    ensures damaged { OnNoTree D.Device layout root pages.old device.old (ReturnsDamaged result) }
    ensures there { result ≡ Ok None → IsUnchanged pages.old pages.new }
    ensures changed_pages { OnTree D.Device layout root pages.old device.old
        (λ levels. FewChanged 42 pages.old pages.new) }
    ensures filled { OnTree D.Device layout root pages.old device.old
        (λ levels. FewFilled 42 pages.old pages.new) }
    ensures full { FullIfUsed pages.new result }
    ensures spent { ExactlyIfSpent pages.old result }
    ensures cause { ErrOnlyIfInsertRefusal result }
{
    if root == 0 {
        let new = first_leaf(pages, layout, key, value)?;
        return Ok(Some(new));
    }
    let way = follow(alloc, pages, device, layout, root, key)?;
    let page = way.page;
    drop(way);
    if enter_leaf(pages, layout, page, key, value)? {
        return Ok(Some(root));
    }
    insert_slowly(alloc, pages, device, layout, root, key, value)
}
