//! A row leaves a tree.
ghost use Rattle.std.specs.Prelude.{◌≡◌, IfErr};
ghost use Rattle.pages.specs.Devices.{FitsDevice};
ghost use Rattle.btree.specs.Refusals.{IsChangeRefusal};
ghost use Rattle.btree.specs.Results.{OnlyIfSpent};
ghost use Rattle.row_trees.specs.Calls.{EditsPagesFor, LeavesTree, RemovesRow, MissesKey, ReturnsNoDamage, ChangesFewPagesOnOk};

use crate::row_tree::RowTree;
use crate::stored_value::first_page;
use chains::release;
use pages::{PageMap, PagesError};
use station::Device;

impl RowTree {
    /// Takes the row of a key out of the tree, and the pages of its chain out of the map. `false` means that there is no such row, and
    /// then nothing was changed. Refusals are those of `insert`, but `Full` doesn't come.
    pub fn remove<D: Device>(
        &mut self,
        pages: &mut PageMap,
        device: &mut D,
        key: &[u8],
    ) -> Result<bool, PagesError>
        requires sectors { FitsDevice D.Device pages.old device.old }
        ensures edits { EditsPagesFor D.Device pages.old device.old pages.new device.new result }
        ensures removed { RemovesRow D.Device self.old pages.old device.old self.new pages.new
            key.now result }
        ensures missing { MissesKey D.Device self.old pages.old device.old key.now result }
        ensures same { LeavesTree self.old pages.old self.new pages.new result }
        ensures damaged { ReturnsNoDamage D.Device self.old pages.old device.old result }
        ensures changed_pages { ChangesFewPagesOnOk D.Device 42 self.old pages.old device.old
            pages.new result }
        ensures layout { self.new.tree.layout ≡ self.old.tree.layout }
        ensures form { self.new.record_bytes ≡ self.old.record_bytes }
        ensures spent { OnlyIfSpent pages.old result }
        ensures cause { IfErr result IsChangeRefusal }
    {
        if self.record_bytes == 0 {
            return self.tree.remove(pages, device, key);
        }
        let first = match self.tree.get(pages, device, key)? {
            Some(entry) => first_page(entry.value()),
            None => return Ok(false),
        };
        let removed = self.tree.remove(pages, device, key)?;
        if !removed {
            return Err(PagesError::Damaged);
        }
        release(pages, device, first, self.record_bytes as usize)?;
        Ok(true)
    }
}
