//! A row of a key is found.
ghost use Rattle.std.specs.Prelude.{◌≡◌, ◌≤◌, Err, length, IfOk, IfSome, IfErr};
ghost use Rattle.pages.specs.Pages.{sectors_of};
ghost use Rattle.btree.specs.Entries.{entry_with};
ghost use Rattle.btree.specs.Results.{OnlyIfSpent};
ghost use Rattle.volume_format.specs.Calls.{LooksAt};
ghost use Rattle.row_trees.specs.Calls.{OnRowTree};
ghost use Rattle.chains.specs.Refusals.{IsRecordRefusal};
ghost use Rattle.row_trees.specs.RowTree.{HasWholeLengths};

use crate::row::Row;
use crate::row_tree::RowTree;
use crate::stored_value::{PAGE_NUMBER_BYTES, first_page};
use chains::read_record;
use pages::{PageMap, PagesError};
use station::Device;
use std::alloc::Global;

impl RowTree {
    /// The row of a key, if it is there. Whatever the pages hold, its key and value have their lengths. `Damaged` means that the pages
    /// under the root are no tree, or that the row has no record.
    pub fn find<D: Device>(
        &self,
        alloc: Global,
        pages: &mut PageMap,
        device: &mut D,
        key: &[u8],
    ) -> Result<Option<Row>, PagesError>
        requires sectors { sectors_of pages.old ≤ D.sectors device.old }
        ensures looks { LooksAt D.Device (result ≡ Err PagesError.Device) pages.old device.old
            pages.new device.new }
        ensures row { OnRowTree D.Device self.now pages.old device.old
            (λ planted. IfOk result (λ row. row ≡ entry_with planted.entries key.now)) }
        ensures damaged { OnRowTree D.Device self.now pages.old device.old
            (λ planted. result ≡ Err PagesError.Damaged → ⊥) }
        ensures lengths { IfOk result (λ row. IfSome row (HasWholeLengths self.now)) }
        ensures spent { OnlyIfSpent pages.old result }
        ensures cause { IfErr result IsRecordRefusal }
    {
        let entry = match self.tree.get(pages, device, key)? {
            Some(entry) => entry,
            None => return Ok(None),
        };
        if self.record_bytes == 0 {
            return Ok(Some(Row { entry, long: None }));
        }
        let first = first_page(entry.value());
        let rest = &entry.value()[PAGE_NUMBER_BYTES..];
        let size = self.record_bytes as usize;
        let mut value = read_record(alloc, pages, device, first, size, rest.len())?;
        value.extend_from_slice(rest)?;
        Ok(Some(Row {
            entry,
            long: Some(value),
        }))
    }
}
