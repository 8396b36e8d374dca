//! A new row is added to a tree.
ghost use Rattle.std.specs.Prelude.{◌≡◌, length, OnErr};
ghost use Rattle.pages.specs.Devices.{FitsDevice};
ghost use Rattle.btree.specs.Refusals.{ErrOnlyIfInsertRefusal};
ghost use Rattle.btree.specs.Results.{OnlyIfSpent};
ghost use Rattle.row_trees.specs.Calls.{EditsPagesFor, LeavesTree, AnswersInsertion, ChangesFewPages, LacksPages};
ghost use Rattle.row_trees.specs.RowTree.{value_length};

use crate::row_tree::RowTree;
use crate::stored_value::StoredValue;
use chains::lay;
use pages::{PageMap, PagesError, few_free};
use station::Device;

impl RowTree {
    /// Puts a new row into the tree. Other trees of the map are unchanged. `false` means that its key is there, and then nothing was
    /// changed. After a refusal the pages that aren't committed are given up with the map of pages, and the tree has the root that it had.
    pub fn insert<D: Device>(
        &mut self,
        pages: &mut PageMap,
        device: &mut D,
        key: &[u8],
        value: &[u8],
    ) -> Result<bool, PagesError>
        requires sectors { FitsDevice D.Device pages.old device.old }
        requires key { length key.now ≡ self.old.tree.layout.key_length }
        requires value { length value.now ≡ value_length self.old }
        ensures edits { EditsPagesFor D.Device pages.old device.old pages.new device.new result }
        ensures answers { AnswersInsertion D.Device self.old pages.old device.old self.new
            pages.new key.now value.now result }
        ensures same { LeavesTree self.old pages.old self.new pages.new result }
        ensures changed_pages { ChangesFewPages D.Device 42 self.old pages.old device.old
            pages.new }
        ensures room { LacksPages D.Device 42 self.old pages.old device.old result }
        ensures layout { self.new.tree.layout ≡ self.old.tree.layout }
        ensures form { self.new.record_bytes ≡ self.old.record_bytes }
        ensures refused { OnErr result (self.new ≡ self.old) }
        ensures spent { OnlyIfSpent pages.old result }
        ensures cause { ErrOnlyIfInsertRefusal result }
    {
        if self.record_bytes == 0 {
            return self.tree.insert(pages, device, key, value);
        }
        // What `Full` says about the free sectors.
        few_free();
        if self.tree.get(pages, device, key)?.is_some() {
            return Ok(false);
        }
        let (record, rest) = value.split_at(self.record_bytes as usize);
        let first = lay(pages, record)?;
        let stored = StoredValue::new(first, rest);
        let added = self.tree.insert(pages, device, key, stored.bytes())?;
        if !added {
            return Err(PagesError::Damaged);
        }
        Ok(true)
    }
}
