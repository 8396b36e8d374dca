//! A tree of rows gives up its pages.
ghost use Rattle.std.specs.Prelude.{◌≡◌, ◌≢◌, ◌≤◌, [], Err, OnOk, OnErr, IfErr};
ghost use Rattle.pages.specs.Pages.{filled_of};
ghost use Rattle.pages.specs.Devices.{FitsDevice};
ghost use Rattle.btree.specs.Calls.{pages_on};
ghost use Rattle.btree.specs.Moves.{Moves};
ghost use Rattle.btree.specs.Refusals.{IsChangeRefusal};
ghost use Rattle.btree.specs.Results.{OnlyIfSpent};
ghost use Rattle.row_trees.specs.Calls.{EditsPagesFor, OnRowTree, ClearsTree, ReturnsNoDamage};
ghost use Rattle.row_trees.specs.RowTree.{FitsForm};

use crate::row_tree::RowTree;
use crate::stored_value::first_page;
use btree::Tree;
use chains::release;
use pages::{PageMap, PagesError};
use station::Device;

impl RowTree {
    /// Gives up all pages of the tree and of its chains. Other trees of the map are unchanged. Refusals are those of `remove`.
    pub fn clear<D: Device>(
        &mut self,
        pages: &mut PageMap,
        device: &mut D,
    ) -> Result<(), PagesError>
        requires sectors { FitsDevice D.Device pages.old device.old }
        ensures edits { EditsPagesFor D.Device pages.old device.old pages.new device.new result }
        ensures cleared { ClearsTree D.Device self.old pages.old device.old pages.new result }
        ensures damaged { ReturnsNoDamage D.Device self.old pages.old device.old result }
        ensures filled { filled_of pages.new ≤ filled_of pages.old }
        ensures layout { self.new.tree.layout ≡ self.old.tree.layout }
        ensures form { self.new.record_bytes ≡ self.old.record_bytes }
        ensures root { OnOk result (self.new.tree.root ≡ 0) }
        ensures same { OnErr result (self.new ≡ self.old) }
        ensures spent { OnlyIfSpent pages.old result }
        ensures cause { IfErr result IsChangeRefusal }
    {
        if self.record_bytes == 0 {
            return self.tree.clear(pages, device);
        }
        release_chains(&self.tree, self.record_bytes, pages, device)?;
        self.tree.clear(pages, device)
    }
}

/// Takes the pages of all chains of a tree out of the map. The entries stay.
fn release_chains<D: Device>(
    tree: &Tree,
    record_bytes: u16,
    pages: &mut PageMap,
    device: &mut D,
) -> Result<(), PagesError>
    requires sectors { FitsDevice D.Device pages.old device.old }
    requires chains { record_bytes ≢ 0 }
    requires form { FitsForm record_bytes tree.now.layout }
    ensures edits { EditsPagesFor D.Device pages.old device.old pages.new device.new result }
    ensures released { OnRowTree D.Device (record { tree = tree.now; record_bytes = record_bytes })
        pages.old device.old (λ planted. OnOk result
        (Moves (pages_on D.Device pages.old device.old) planted.chains
        (pages_on D.Device pages.new device.old) [])) }
    ensures damaged { OnRowTree D.Device (record { tree = tree.now; record_bytes = record_bytes })
        pages.old device.old (λ planted. result ≡ Err PagesError.Damaged → ⊥) }
    ensures filled { filled_of pages.new ≤ filled_of pages.old }
    ensures spent { OnlyIfSpent pages.old result }
    ensures cause { IfErr result IsChangeRefusal }
{
    let count = tree.count(pages, device)?;
    let mut next = tree.first(pages, device)?;
    for place in 0..count {
        let entry = match next {
            Some(entry) => entry,
            None => return Err(PagesError::Damaged),
        };
        release(
            pages,
            device,
            first_page(entry.value()),
            record_bytes as usize,
        )?;
        next = tree.next(pages, device, entry.key())?;
    }
    Ok(())
}
