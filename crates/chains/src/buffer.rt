//! Memory for the pages of a record while it is read.
ghost use Rattle.std.specs.Prelude.{◌≡◌, ◌≢◌, ◌≤◌, ◌⊎◌, true, Err, length, take, max, OnOk, OnErr, IfErr};
ghost use Rattle.station.specs.Calls.{OnlyReads};
ghost use Rattle.pages.specs.Pages.{is_spent, sectors_of};
ghost use Rattle.btree.specs.Calls.{OnPages};
ghost use Rattle.btree.specs.Reading.{IsReadRefusal};
ghost use Rattle.btree.specs.Results.{ReturnsDamaged, OnlyIfSpent, ExactlyIfSpentAt};
ghost use Rattle.chains.specs.Chain.{pages_for};
ghost use Rattle.chains.specs.Changes.{IsRecordOf};
ghost use Rattle.chains.specs.Calls.{OnNoChain};
ghost use Rattle.chains.specs.Refusals.{IsRecordRefusal};
ghost use Rattle.chains.specs.Buffers.{parts_on, ReadsChain};

use crate::link::{part_from, put, read_link};
use crate::part::{PART_BYTES, page_count, part_end};
use pages::{PageMap, PagesError};
use station::Device;
use std::alloc::{AllocError, Global};

/// Memory for as many pages as the longest record had that it read.
#[derive(Drop)]
pub struct RecordBuffer {
    pages: Vec<[u8; 4096]>,
}

impl RecordBuffer {
    /// A buffer without memory.
    pub fn new(alloc: Global) -> RecordBuffer {
        RecordBuffer {
            pages: Vec::new(alloc),
        }
    }

    /// Fills `into` with the record in the chain of its first page. The pages are read past the cache, which stays. After a refusal
    /// `into` is as it was. `Damaged` means that no chain of that length is there.
    pub fn read<D: Device>(
        &mut self,
        pages: &PageMap,
        device: &mut D,
        first: u32,
        into: &mut [u8],
    ) -> Result<(), PagesError>
        requires sectors { sectors_of pages.now ≤ D.sectors device.old }
        ensures only { OnlyReads D.Device (result ≡ Err PagesError.Device) device.old device.new }
        ensures record { OnPages D.Device pages.now device.old
            (λ before. OnOk result (IsRecordOf before first into.new)) }
        ensures long { length into.new ≡ length into.old }
        ensures damaged { OnNoChain D.Device (pages_for (length into.old)) first pages.now
            device.old (ReturnsDamaged result) }
        ensures kept { OnErr result (into.new ≡ into.old) }
        ensures spent { OnlyIfSpent pages.now result }
        ensures told { is_spent pages.now ≡ true → length into.old ≢ 0
            → (result ≡ Err PagesError.Spent) ⊎ (result ≡ Err PagesError.Memory) }
        ensures cause { IfErr result IsRecordRefusal }
    {
        let count = page_count(into.len());
        self.grow(count)?;
        self.read_pages(pages, device, first, count)?;
        self.copy_into(into);
        Ok(())
    }

    /// Makes room for so many pages. Room that is there stays.
    fn grow(&mut self, count: usize) -> Result<(), AllocError>
        ensures room { OnOk result (count ≤ length self.new.pages.items) }
        ensures kept { length self.old.pages.items ≤ length self.new.pages.items }
        ensures most { length self.new.pages.items ≤ max count (length self.old.pages.items) }
    {
        while self.pages.len() < count {
            self.pages.push([0; 4096])?;
        }
        Ok(())
    }

    /// Reads a chain of so many pages from its first page on, past the cache. `Damaged` means that no such chain is there.
    fn read_pages<D: Device>(
        &mut self,
        pages: &PageMap,
        device: &mut D,
        first: u32,
        count: usize,
    ) -> Result<(), PagesError>
        requires sectors { sectors_of pages.now ≤ D.sectors device.old }
        requires room { count ≤ length self.old.pages.items }
        ensures only { OnlyReads D.Device (result ≡ Err PagesError.Device) device.old device.new }
        ensures chain { OnPages D.Device pages.now device.old
            (λ before. OnOk result (ReadsChain before count first self.new.pages.items)) }
        ensures room { length self.new.pages.items ≡ length self.old.pages.items }
        ensures damaged { OnNoChain D.Device count first pages.now device.old
            (ReturnsDamaged result) }
        ensures spent { ExactlyIfSpentAt count pages.now result }
        ensures cause { IfErr result IsReadRefusal }
    {
        let mut page = first;
        for place in 0..count {
            page = read_link(pages, device, page, &mut self.pages[place])?;
        }
        if page != 0 {
            return Err(PagesError::Damaged);
        }
        Ok(())
    }

    /// Fills `into` with the parts of a record of its length on the pages.
    fn copy_into(&self, into: &mut [u8])
        requires { pages_for (length into.old) ≤ length self.now.pages.items }
        ensures { into.new ≡ take (length into.old)
            (parts_on (pages_for (length into.old)) self.now.pages.items) }
    {
        let length = into.len();
        for place in 0..page_count(length) {
            let begin = place * PART_BYTES;
            let end = part_end(place, length);
            put(into, begin, part_from(&self.pages[place], end - begin));
        }
    }
}
