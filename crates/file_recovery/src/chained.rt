//! A record that is in a chain of pages is read, and the pages of its chain are marked.
ghost use Rattle.std.specs.Prelude.{◌≡◌, ◌≤◌, ◌+◌, false, Err, length, IfOk, IfErr, OnOk};
ghost use Rattle.station.specs.Calls.{OnlyReads};
ghost use Rattle.pages.specs.Pages.{is_spent, sectors_of};
ghost use Rattle.btree.specs.Calls.{OnPages};
ghost use Rattle.chains.specs.Chain.{pages_for};
ghost use Rattle.chains.specs.Changes.{IsRecordOf};
ghost use Rattle.chains.specs.Calls.{OnNoChain};
ghost use Rattle.volume_format.specs.Calls.{LooksAt};
ghost use Rattle.file_recovery.specs.Faults.{IsReadFault};
ghost use Rattle.file_recovery.specs.Chained.{MarksChain, MarksLink, NoMarkedChain, NoMarkedLink, ReadsWhole, NoWhole};

use btree_check::mark;
use byteorder::{BigEndian, ByteOrder};
use chains::{next_page, page_count, read_record};
use pages::PageMap;
use records::{FileSpec, StoreFault};
use station::Device;
use std::alloc::Global;
use volume_format::to_fault;

/// The bytes of the number of the first page of a chain, with which a value begins.
const PAGE_NUMBER_BYTES: usize = 4;

/// The value of an entry with its record in place, for a file whose records are in chains. The pages of its chain are marked. `Damaged`
/// means that there is no chain that can be marked.
pub(crate) fn whole_value<D: Device>(
    alloc: Global,
    file: &FileSpec,
    value: &[u8],
    pages: &mut PageMap,
    device: &mut D,
    seen: &mut [bool],
) -> Result<Vec<u8>, StoreFault>
    requires unspent { is_spent pages.old ≡ false }
    requires sectors { sectors_of pages.old ≤ D.sectors device.old }
    requires value { 4 ≤ length value.now }
    ensures looks { LooksAt D.Device (result ≡ Err StoreFault.Device) pages.old device.old pages.new
        device.new }
    ensures whole { OnPages D.Device pages.old device.old (λ before. IfOk result
        (λ whole. ReadsWhole before file.now.record_length value.now whole.items seen.old
        seen.new)) }
    ensures long { IfOk result
        (λ whole. length whole.items + 4 ≡ file.now.record_length + length value.now) }
    ensures damaged { OnPages D.Device pages.old device.old
        (λ before. result ≡ Err StoreFault.Damaged
        → NoWhole before file.now.record_length value.now seen.old) }
    ensures cause { IfErr result IsReadFault }
{
    let size = file.record_length as usize;
    let first = BigEndian::read_u32(value);
    let rest = &value[PAGE_NUMBER_BYTES..];
    check_chain(pages, device, first, size, seen)?;
    let mut whole = record_of(alloc, pages, device, first, size, rest.len())?;
    whole.extend_from_slice(rest)?;
    Ok(whole)
}

/// Whether a chain of a record of so many bytes stands from a page on. Its pages are marked. `Damaged` means that there is none that can
/// be marked.
fn check_chain<D: Device>(
    pages: &mut PageMap,
    device: &mut D,
    first: u32,
    size: usize,
    seen: &mut [bool],
) -> Result<(), StoreFault>
    requires unspent { is_spent pages.old ≡ false }
    requires sectors { sectors_of pages.old ≤ D.sectors device.old }
    ensures looks { LooksAt D.Device (result ≡ Err StoreFault.Device) pages.old device.old pages.new
        device.new }
    ensures chain { OnPages D.Device pages.old device.old
        (λ before. OnOk result (MarksChain before (pages_for size) first seen.old seen.new)) }
    ensures damaged { OnPages D.Device pages.old device.old
        (λ before. result ≡ Err StoreFault.Damaged
        → NoMarkedChain before (pages_for size) first seen.old) }
    ensures cause { IfErr result IsReadFault }
{
    let count = page_count(size);
    let mut page = first;
    for place in 0..count {
        let next = mark_link(pages, device, page, seen)?;
        page = next;
    }
    if page != 0 {
        return Err(StoreFault::Damaged);
    }
    Ok(())
}

/// The page after a page of a chain, which is marked. `Damaged` means that it is none of a chain, or may not be marked.
fn mark_link<D: Device>(
    pages: &mut PageMap,
    device: &mut D,
    page: u32,
    seen: &mut [bool],
) -> Result<u32, StoreFault>
    requires unspent { is_spent pages.old ≡ false }
    requires sectors { sectors_of pages.old ≤ D.sectors device.old }
    ensures looks { LooksAt D.Device (result ≡ Err StoreFault.Device) pages.old device.old pages.new
        device.new }
    ensures link { OnPages D.Device pages.old device.old
        (λ before. IfOk result (MarksLink before page seen.old seen.new)) }
    ensures damaged { OnPages D.Device pages.old device.old
        (λ before. result ≡ Err StoreFault.Damaged → NoMarkedLink before page seen.old) }
    ensures cause { IfErr result IsReadFault }
{
    if !mark(seen, page) {
        return Err(StoreFault::Damaged);
    }
    match next_page(pages, device, page) {
        Ok(next) => Ok(next),
        Err(error) => Err(to_fault(error)),
    }
}

/// The record of so many bytes in the chain of its first page, in a list with room for so many bytes more.
fn record_of<D: Device>(
    alloc: Global,
    pages: &PageMap,
    device: &mut D,
    first: u32,
    size: usize,
    more: usize,
) -> Result<Vec<u8>, StoreFault>
    requires unspent { is_spent pages.now ≡ false }
    requires sectors { sectors_of pages.now ≤ D.sectors device.old }
    ensures only { OnlyReads D.Device (result ≡ Err StoreFault.Device) device.old device.new }
    ensures bytes { OnPages D.Device pages.now device.old
        (λ before. IfOk result (λ read. IsRecordOf before first read.items)) }
    ensures long { IfOk result (λ read. length read.items ≡ size) }
    ensures damaged { OnNoChain D.Device (pages_for size) first pages.now device.old
        (result ≡ Err StoreFault.Damaged) }
    ensures cause { IfErr result IsReadFault }
{
    match read_record(alloc, pages, device, first, size, more) {
        Ok(bytes) => Ok(bytes),
        Err(error) => Err(to_fault(error)),
    }
}
