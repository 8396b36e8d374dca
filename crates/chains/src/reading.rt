//! The record of a chain is read.
ghost use Rattle.std.specs.Prelude.{◌≡◌, ◌≢◌, ◌≤◌, ◌⊎◌, true, Err, length, IfOk, IfErr};
ghost use Rattle.station.specs.Calls.{OnlyReads};
ghost use Rattle.pages.specs.Pages.{is_spent, sectors_of};
ghost use Rattle.btree.specs.Calls.{OnPages};
ghost use Rattle.btree.specs.Results.{ReturnsDamaged, OnlyIfSpent};
ghost use Rattle.chains.specs.Chain.{pages_for};
ghost use Rattle.chains.specs.Changes.{IsRecordOf};
ghost use Rattle.chains.specs.Calls.{OnNoChain};
ghost use Rattle.chains.specs.Refusals.{IsRecordRefusal};

use crate::link::add_part;
use crate::part::{PART_BYTES, page_count, part_end};
use pages::{PageMap, PagesError};
use station::Device;
use std::alloc::Global;

/// The record of so many bytes in the chain of its first page, in a list with room for so many bytes more. Its pages are read past the
/// cache, which stays. `Damaged` means that no chain of that length stands there. A map that is spent gives no bytes.
pub fn read_record<D: Device>(
    alloc: Global,
    pages: &PageMap,
    device: &mut D,
    first: u32,
    size: usize,
    more: usize,
) -> Result<Vec<u8>, PagesError>
    requires sectors { sectors_of pages.now ≤ D.sectors device.old }
    ensures only { OnlyReads D.Device (result ≡ Err PagesError.Device) device.old device.new }
    ensures bytes { OnPages D.Device pages.now device.old
        (λ before. IfOk result (λ read. IsRecordOf before first read.items)) }
    ensures long { IfOk result (λ read. length read.items ≡ size) }
    ensures damaged { OnNoChain D.Device (pages_for size) first pages.now device.old
        (ReturnsDamaged result) }
    ensures spent { OnlyIfSpent pages.now result }
    ensures told { is_spent pages.now ≡ true → size ≢ 0
        → (result ≡ Err PagesError.Spent) ⊎ (result ≡ Err PagesError.Memory) }
    ensures cause { IfErr result IsRecordRefusal }
{
    let count = page_count(size);
    let mut bytes = Vec::with_capacity(alloc, size.saturating_add(more))?;
    let mut held = [0; 4096];
    let mut page = first;
    for place in 0..count {
        let part = part_end(place, size) - place * PART_BYTES;
        let next = add_part(pages, device, page, part, &mut held, &mut bytes)?;
        page = next;
    }
    if page != 0 {
        return Err(PagesError::Damaged);
    }
    Ok(bytes)
}
