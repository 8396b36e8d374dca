//! The record of an entry is read, or that of the row of a key.
ghost use Rattle.std.specs.Prelude.{◌≡◌, ◌≤◌, ◌<◌, false, Ok, Err, length, take, IfOk, IfSome, OnOk, OnErr, IfErr};
ghost use Rattle.station.specs.Calls.{OnlyReads};
ghost use Rattle.pages.specs.Pages.{sectors_of};
ghost use Rattle.btree.specs.Calls.{OnPages};
ghost use Rattle.btree.specs.Entries.{entry_with};
ghost use Rattle.btree.specs.Results.{OnlyIfSpent};
ghost use Rattle.volume_format.specs.Calls.{LooksAt};
ghost use Rattle.row_trees.specs.Calls.{OnRowTree};
ghost use Rattle.chains.specs.Refusals.{IsRecordRefusal};
ghost use Rattle.row_trees.specs.Reading.{IsRecordLength, HasRecord, ReadsRecord, ReadsRow};

use crate::row_tree::RowTree;
use crate::stored_value::{PAGE_NUMBER_BYTES, first_page};
use btree::Entry;
use chains::RecordBuffer;
use pages::{PageMap, PagesError};
use station::Device;

impl RowTree {
    /// Fills `into`, which has the length of a record, with the record of an entry. The pages of a chain are read past the cache, into the
    /// buffer. After a refusal `into` is as it was. `Damaged` means that the entry has no such record.
    pub fn read_record<D: Device>(
        &self,
        buffer: &mut RecordBuffer,
        pages: &PageMap,
        device: &mut D,
        entry: &Entry,
        into: &mut [u8],
    ) -> Result<(), PagesError>
        requires sectors { sectors_of pages.now ≤ D.sectors device.old }
        ensures only { OnlyReads D.Device (result ≡ Err PagesError.Device) device.old device.new }
        ensures record { OnPages D.Device pages.now device.old
            (λ before. IsRecordLength self.now.record_bytes (length into.old) → OnOk result
            (ReadsRecord self.now.record_bytes before entry.now into.old into.new)) }
        ensures damaged { OnPages D.Device pages.now device.old
            (λ before. result ≡ Err PagesError.Damaged
            → HasRecord self.now.record_bytes before entry.now (length into.old) → ⊥) }
        ensures kept { OnErr result (into.new ≡ into.old) }
        ensures spent { OnlyIfSpent pages.now result }
        ensures cause { IfErr result IsRecordRefusal }
    {
        let value = entry.value();
        if self.record_bytes == 0 {
            return copy_front(value, into);
        }
        let is_short = value.len() < PAGE_NUMBER_BYTES;
        if is_short {
            return Err(PagesError::Damaged);
        }
        buffer.read(pages, device, first_page(value), into)
    }

    /// Fills `into`, which has the length of a record, with the record of the row of a key, and returns whether that row is there. Its entry
    /// is put into `entry`. `into` is as it was if there is no such row, and after a refusal. `Damaged` means that the pages under the root
    /// are no tree, or that the row has no such record.
    pub fn read_row<D: Device>(
        &self,
        buffer: &mut RecordBuffer,
        pages: &mut PageMap,
        device: &mut D,
        key: &[u8],
        entry: &mut Entry,
        into: &mut [u8],
    ) -> Result<bool, PagesError>
        requires sectors { sectors_of pages.old ≤ D.sectors device.old }
        ensures looks { LooksAt D.Device (result ≡ Err PagesError.Device) pages.old device.old
            pages.new device.new }
        ensures record { OnRowTree D.Device self.now pages.old device.old
            (λ planted. IsRecordLength self.now.record_bytes (length into.old) → IfOk result
            (ReadsRow (entry_with planted.entries key.now) into.old into.new)) }
        ensures damaged { OnRowTree D.Device self.now pages.old device.old
            (λ planted. IsRecordLength self.now.record_bytes (length into.old)
            → IfSome (entry_with planted.entries key.now)
            (λ row. length into.old ≤ length row.value)
            → result ≡ Err PagesError.Damaged → ⊥) }
        ensures kept { OnErr result (into.new ≡ into.old) }
        ensures missing { result ≡ Ok false → into.new ≡ into.old }
        ensures spent { OnlyIfSpent pages.old result }
        ensures cause { IfErr result IsRecordRefusal }
    {
        if !self.tree.find(pages, device, key, entry)? {
            return Ok(false);
        }
        self.read_record(buffer, pages, device, entry, into)?;
        Ok(true)
    }
}

/// Fills a buffer with the beginning of a value. `Damaged` means that the value is shorter.
fn copy_front(value: &[u8], into: &mut [u8]) -> Result<(), PagesError>
    ensures copied { OnOk result ((length into.old ≤ length value.now)
        × (into.new ≡ take (length into.old) value.now)) }
    ensures short { OnErr result (length value.now < length into.old) }
    ensures kept { OnErr result (into.new ≡ into.old) }
    ensures cause { IfErr result (λ error. error ≡ PagesError.Damaged) }
{
    if value.len() < into.len() {
        return Err(PagesError::Damaged);
    }
    into.copy_from_slice(&value[..into.len()]);
    Ok(())
}
