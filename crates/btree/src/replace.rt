//! Another value for an entry.
ghost use Rattle.std.specs.Prelude.{◌≡◌, ◌<◌, length, IfErr, OnOk};
ghost use Rattle.pages.specs.Pages.{SameCommitted, KeepsCommitted};
ghost use Rattle.pages.specs.Devices.{FitsDevice};
ghost use Rattle.btree_pages.specs.RowLayouts.{rest_length};
ghost use Rattle.btree.specs.Refusals.{IsRestRefusal, ErrOnlyIfChangeRefusal};
ghost use Rattle.btree.specs.Calls.{OnlyReadsFor, EditsPagesFor, KeepsAgreement, DamagedOnlyIfNoTree};
ghost use Rattle.btree.specs.Results.{ReturnsDamaged, OnlyIfSpent, ExactlyIfSpentAt, FewChanged, FewFilled, FalseOnlyIfUnchanged, SameCatalog};
ghost use Rattle.btree.specs.Puts.{PutsRest, NeverIn};
ghost use Rattle.btree.specs.TreeEdits.{FalseOnlyIfAbsent, TrueOnlyIfReplaced};

use crate::descend::{Descent, descend, follow};
use crate::set_value::set_value_in;
use crate::shrink_page::is_page;
use crate::tree::Tree;
use crate::update_parent::put_back;
use btree_pages::TreePage;
use pages::{PageMap, PagesError};
use station::Device;

impl Tree {
    /// Gives the entry of a key another value. `false` means that there is none, and then nothing was changed. Refusals are as those of
    /// `insert`, but `Full` doesn't come.
    pub fn replace<D: Device>(
        &mut self,
        pages: &mut PageMap,
        device: &mut D,
        key: &[u8],
        value: &[u8],
    ) -> Result<bool, PagesError>
        requires sectors { FitsDevice D.Device pages.old device.old }
        requires value { length value.now ≡ self.old.layout.value_length }
        ensures edits { EditsPagesFor D.Device pages.old device.old pages.new device.new result }

        // The entry of the key has the new value, and the pages around the tree stay.
        ensures replaced { TrueOnlyIfReplaced D.Device self.old pages.old device.old key.now
            value.now pages.new result }
        ensures missing { FalseOnlyIfAbsent D.Device self.old pages.old device.old key.now result }
        ensures same { FalseOnlyIfUnchanged pages.old pages.new result }
        ensures damaged { DamagedOnlyIfNoTree D.Device self.old pages.old device.old result }
        ensures tree { self.new ≡ self.old }
        ensures changed_pages { FewChanged 1 pages.old pages.new }
        ensures filled { FewFilled 1 pages.old pages.new }
        ensures spent { ExactlyIfSpentAt self.old.root pages.old result }
        ensures cause { ErrOnlyIfChangeRefusal result }
    {
        let alloc = self.alloc;
        let layout = self.layout();
        let top = self.root();
        if top == 0 {
            return Ok(false);
        }
        let way = follow(alloc, pages, device, layout, top, key)?;
        let page = way.page;
        drop(way);
        if set_value_in(pages, layout, page, key, value)? {
            return Ok(true);
        }
        self.replace_slowly(pages, device, key, value)
    }

    /// The same, whatever it takes.
    #[cold]
    #[inline(never)]
    fn replace_slowly<D: Device>(
        &mut self,
        pages: &mut PageMap,
        device: &mut D,
        key: &[u8],
        value: &[u8],
    ) -> Result<bool, PagesError>
        requires sectors { FitsDevice D.Device pages.old device.old }
        requires value { length value.now ≡ self.old.layout.value_length }
        ensures edits { EditsPagesFor D.Device pages.old device.old pages.new device.new result }
        ensures tree { self.new ≡ self.old }
        ensures changed_pages { FewChanged 1 pages.old pages.new }
        ensures filled { FewFilled 1 pages.old pages.new }
        ensures spent { ExactlyIfSpentAt self.old.root pages.old result }
        ensures cause { ErrOnlyIfChangeRefusal result }

        // The entry of the key has the new value, and the pages around the tree stay.
        ensures replaced { TrueOnlyIfReplaced D.Device self.old pages.old device.old key.now
            value.now pages.new result }
        ensures missing { FalseOnlyIfAbsent D.Device self.old pages.old device.old key.now result }
        ensures same { FalseOnlyIfUnchanged pages.old pages.new result }
        ensures damaged { DamagedOnlyIfNoTree D.Device self.old pages.old device.old result }
    {
        let alloc = self.alloc;
        let layout = self.layout();
        let top = self.root();
        if top == 0 {
            return Ok(false);
        }
        let Descent { way, leaf } = descend(alloc, pages, device, layout, top, key)?;
        let page = way.page;
        drop(way);
        let place = match leaf.find(key) {
            Ok(place) => place,
            Err(_) => return Ok(false),
        };
        put_rest(pages, page, leaf, place, value)?;
        Ok(true)
    }
}

/// The row at a place of the node on a page gets another rest. `Damaged` means that there is no such page.
fn put_rest(
    pages: &mut PageMap,
    page: u32,
    mut node: TreePage,
    place: usize,
    rest: &[u8],
) -> Result<(), PagesError>
    requires place { place < length node.rows }
    requires rest { length rest.now ≡ rest_length node.layout node.kind }
    ensures pages { OnOk result (PutsRest pages.old pages.new page node place rest.now) }
    ensures changed_pages { FewChanged 1 pages.old pages.new }
    ensures filled { FewFilled 1 pages.old pages.new }
    ensures keeps { KeepsCommitted pages.old pages.new }
    ensures damaged { NeverIn pages.old page (ReturnsDamaged result) }
    ensures cause { IfErr result IsRestRefusal }
    ensures spent { OnlyIfSpent pages.old result }
{
    if !is_page(pages, page) {
        return Err(PagesError::Damaged);
    }
    node.set_rest(place, rest);
    let _put = put_back(pages, page, node)?;
    Ok(())
}
