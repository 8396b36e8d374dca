//! A row gets another record.
ghost use Rattle.std.specs.Prelude.{◌≡◌, ◌+◌, false, Ok, length, IfErr};
ghost use Rattle.pages.specs.Pages.{IsUnchanged};
ghost use Rattle.pages.specs.Devices.{FitsDevice};
ghost use Rattle.btree.specs.Refusals.{IsChangeRefusal};
ghost use Rattle.btree.specs.Results.{OnlyIfSpent, FewChanged};
ghost use Rattle.chains.specs.Chain.{pages_for};
ghost use Rattle.row_trees.specs.Calls.{EditsPagesFor, ReplacesRow, MissesKey, ReturnsNoDamage};
ghost use Rattle.row_trees.specs.RowTree.{value_length};

use crate::row_tree::RowTree;
use crate::stored_value::{PAGE_NUMBER_BYTES, StoredValue, first_page};
use chains::rewrite;
use pages::{PageMap, PagesError};
use station::Device;

impl RowTree {
    /// Gives the row of a key another record, and what follows it. `false` means that there is no such row, and then nothing was
    /// changed. A record in a chain stays on its pages. Its entry is written only if what follows the record is another. Refusals are
    /// those of `insert`, but `Full` doesn't come.
    pub fn replace<D: Device>(
        &mut self,
        pages: &mut PageMap,
        device: &mut D,
        key: &[u8],
        value: &[u8],
    ) -> Result<bool, PagesError>
        requires sectors { FitsDevice D.Device pages.old device.old }
        requires value { length value.now ≡ value_length self.old }
        ensures edits { EditsPagesFor D.Device pages.old device.old pages.new device.new result }
        ensures replaced { ReplacesRow D.Device self.old pages.old device.old pages.new key.now
            value.now result }
        ensures missing { MissesKey D.Device self.old pages.old device.old key.now result }
        ensures same { result ≡ Ok false → IsUnchanged pages.old pages.new }
        ensures damaged { ReturnsNoDamage D.Device self.old pages.old device.old result }
        ensures changed_pages { FewChanged (1 + pages_for self.old.record_bytes) pages.old
            pages.new }
        ensures tree { self.new ≡ self.old }
        ensures spent { OnlyIfSpent pages.old result }
        ensures cause { IfErr result IsChangeRefusal }
    {
        if self.record_bytes == 0 {
            return self.tree.replace(pages, device, key, value);
        }
        let entry = match self.tree.get(pages, device, key)? {
            Some(entry) => entry,
            None => return Ok(false),
        };
        let (record, rest) = value.split_at(self.record_bytes as usize);
        let first = first_page(entry.value());
        let is_same = &entry.value()[PAGE_NUMBER_BYTES..] == rest;
        drop(entry);
        rewrite(pages, device, first, record)?;
        if is_same {
            return Ok(true);
        }
        let stored = StoredValue::new(first, rest);
        let replaced = self.tree.replace(pages, device, key, stored.bytes())?;
        if !replaced {
            return Err(PagesError::Damaged);
        }
        Ok(true)
    }
}
