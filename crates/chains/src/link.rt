//! One page of a chain is read or written.
ghost use Rattle.std.specs.Prelude.{◌≡◌, ◌≤◌, ◌<◌, ◌+◌, Err, Some, suc, List, length, take, IfOk, IfErr, OnOk, OnErr};
ghost use Rattle.station.specs.Disk.{Sector};
ghost use Rattle.station.specs.Calls.{OnlyReads};
ghost use Rattle.pages.specs.Pages.{sectors_of, IsPage, KeepsCommitted};
ghost use Rattle.btree_pages.specs.Bytes.{put_at};
ghost use Rattle.btree.specs.Calls.{OnPages};
ghost use Rattle.btree.specs.Changes.{pages_of_map};
ghost use Rattle.btree.specs.Reading.{IsReadRefusal};
ghost use Rattle.btree.specs.Refusals.{IsWriteRefusal};
ghost use Rattle.btree.specs.Results.{ExactlyIfSpent, FullIfUsed, FewChanged, FewFilled, ReturnsDamaged};
ghost use Rattle.chains.specs.Chain.{IsLink, next_in, part_in, page_at, next_at, link_bytes};
ghost use Rattle.chains.specs.Links.{PutsLink, LinksTo, AddsPart, NoLink};
ghost use Rattle.chains.specs.Refusals.{IsRecordRefusal};
ghost use Rattle.chains.specs.Calls.{OnChain, OnNoChain};

use byteorder::{BigEndian, ByteOrder};
use pages::{PageMap, PagesError};
use station::Device;

/// The first byte of a page of a chain.
const LINK_BYTE: u8 = 3;

/// Where the next page begins, in 4 bytes.
const NEXT_AT: usize = 4;

/// Where the part of the record begins.
const PART_AT: usize = 16;

/// The page after a page of a chain. It is read past the cache of pages, which stays. `Damaged` means that the page is none of a chain.
pub fn next_page<D: Device>(pages: &PageMap, device: &mut D, page: u32) -> Result<u32, PagesError>
    requires sectors { sectors_of pages.now ≤ D.sectors device.old }
    ensures only { OnlyReads D.Device (result ≡ Err PagesError.Device) device.old device.new }
    ensures link { OnPages D.Device pages.now device.old
        (λ before. IfOk result (LinksTo before page)) }
    ensures damaged { OnPages D.Device pages.now device.old
        (NoLink page (ReturnsDamaged result)) }
    ensures spent { ExactlyIfSpent pages.now result }
    ensures cause { IfErr result IsReadRefusal }
{
    read_link(pages, device, page, &mut [0; 4096])
}

/// Puts a part of a record on a page that wasn't in the map, in front of the page of the next part.
pub(crate) fn put_link(pages: &mut PageMap, next: u32, part: &[u8]) -> Result<u32, PagesError>
    requires part { length part.now ≤ 4080 }
    ensures pages { IfOk result (λ page. (image : List Sector)
        → PutsLink (pages_of_map pages.old image) next part.now (pages_of_map pages.new image)
        page) }
    ensures changed_pages { FewChanged 1 pages.old pages.new }
    ensures filled { FewFilled 1 pages.old pages.new }
    ensures keeps { KeepsCommitted pages.old pages.new }
    ensures full { FullIfUsed pages.new result }
    ensures spent { ExactlyIfSpent pages.old result }
    ensures cause { IfErr result IsWriteRefusal }
{
    // How many page numbers there are is needed below.
    let _page_count = pages.page_count();
    let spelled = link(next, part);
    pages.allocate_past(&spelled)
}

/// The bytes of a page of a chain.
pub(crate) fn link(next: u32, part: &[u8]) -> [u8; 4096]
    requires { length part.now ≤ 4080 }
    ensures bytes { result ≡ link_bytes next part.now }
    ensures reads { next_in (link_bytes next part.now) ≡ next }
{
    let mut bytes = [0; 4096];
    put(&mut bytes, PART_AT, part);
    put(&mut bytes, NEXT_AT, &next.to_be_bytes());
    bytes[0] = LINK_BYTE;
    bytes
}

/// Puts bytes into others from this place on.
pub(crate) fn put(bytes: &mut [u8], at: usize, part: &[u8])
    requires { at + length part.now ≤ length bytes.old }
    ensures { bytes.new ≡ put_at at part.now bytes.old }
{
    bytes[at..at + part.len()].copy_from_slice(part);
}

/// The page after a page of a chain, after which there are so many. The last page isn't read. `Damaged` means that no chain of that
/// length stands there.
pub(crate) fn page_after<D: Device>(
    pages: &PageMap,
    device: &mut D,
    page: u32,
    more: usize,
) -> Result<u32, PagesError>
    requires sectors { sectors_of pages.now ≤ D.sectors device.old }
    ensures only { OnlyReads D.Device (result ≡ Err PagesError.Device) device.old device.new }
    ensures page { OnOk result (IsPage pages.now page) }
    ensures next { OnChain D.Device (suc more) page pages.now device.old
        (λ before. IfOk result (λ next. next ≡ next_at before page)) }
    ensures damaged { OnNoChain D.Device (suc more) page pages.now device.old
        (ReturnsDamaged result) }
    ensures spent { ExactlyIfSpent pages.now result }
    ensures cause { IfErr result IsReadRefusal }
{
    if pages.is_spent() {
        return Err(PagesError::Spent);
    }
    if page == 0 {
        return Err(PagesError::Damaged);
    }
    if pages.page_count() <= page as usize {
        return Err(PagesError::Damaged);
    }
    if more == 0 {
        return Ok(0);
    }
    next_page(pages, device, page)
}

/// Adds the beginning of the part that is on a page of a chain to a list, so many bytes, and returns the next page. It reads past the
/// cache of pages, into a buffer first. `Damaged` means that the page is none of a chain.
pub(crate) fn add_part<D: Device>(
    pages: &PageMap,
    device: &mut D,
    page: u32,
    size: usize,
    held: &mut [u8; 4096],
    bytes: &mut Vec<u8>,
) -> Result<u32, PagesError>
    requires sectors { sectors_of pages.now ≤ D.sectors device.old }
    requires size { size ≤ 4080 }
    ensures only { OnlyReads D.Device (result ≡ Err PagesError.Device) device.old device.new }
    ensures part { OnPages D.Device pages.now device.old
        (λ before. IfOk result (AddsPart before page size bytes.old.items bytes.new.items)) }
    ensures long { OnOk result
        (length bytes.new.items ≡ length bytes.old.items + size) }
    ensures damaged { OnPages D.Device pages.now device.old
        (NoLink page (ReturnsDamaged result)) }
    ensures spent { ExactlyIfSpent pages.now result }
    ensures cause { IfErr result IsRecordRefusal }
{
    let next = read_link(pages, device, page, held)?;
    bytes.extend_from_slice(part_from(held, size))?;
    Ok(next)
}

/// The beginning of the part of a record that is on a page, so many bytes.
pub(crate) fn part_from(page: &[u8; 4096], size: usize) -> &[u8]
    requires { size ≤ 4080 }
    ensures long { length (part_in page.now) ≡ 4080 }
    ensures bytes { result.now ≡ take size (part_in page.now) }
{
    &page[PART_AT..PART_AT + size]
}

/// Reads a page of a chain into a buffer, and returns the next page. Refusals are those of `next_page`.
pub(crate) fn read_link<D: Device>(
    pages: &PageMap,
    device: &mut D,
    page: u32,
    held: &mut [u8; 4096],
) -> Result<u32, PagesError>
    requires sectors { sectors_of pages.now ≤ D.sectors device.old }
    ensures only { OnlyReads D.Device (result ≡ Err PagesError.Device) device.old device.new }
    ensures link { OnPages D.Device pages.now device.old
        (λ before. IfOk result (LinksTo before page)) }
    ensures held { OnPages D.Device pages.now device.old
        (λ before. OnOk result (page_at before page ≡ Some held.new)) }
    ensures damaged { OnPages D.Device pages.now device.old
        (NoLink page (ReturnsDamaged result)) }
    ensures spent { ExactlyIfSpent pages.now result }
    ensures cause { IfErr result IsReadRefusal }
{
    let is_there = pages.read_past(device, page, held)?;
    if !is_there {
        return Err(PagesError::Damaged);
    }
    follow(page, held)
}

/// The next page that the bytes of a page of a chain name. `Damaged` means that the page is none of a chain.
fn follow(page: u32, bytes: &[u8; 4096]) -> Result<u32, PagesError>
    ensures long { length bytes.now ≡ 4096 }
    ensures some { OnOk result (0 < page) }
    ensures link { OnOk result (IsLink (Some bytes.now)) }
    ensures next { IfOk result (λ next. next ≡ next_in bytes.now) }
    ensures damaged { OnErr result (0 < page → IsLink (Some bytes.now) → ⊥) }
    ensures cause { OnErr result (result ≡ Err PagesError.Damaged) }
{
    if page == 0 || bytes[0] != LINK_BYTE {
        return Err(PagesError::Damaged);
    }
    Ok(next_of(bytes))
}

/// The next page that the bytes of a page name.
fn next_of(bytes: &[u8; 4096]) -> u32
    ensures { result ≡ next_in bytes.now }
{
    let (_, rest) = bytes.split_at(NEXT_AT);
    BigEndian::read_u32(rest)
}
