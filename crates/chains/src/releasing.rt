//! A chain leaves the map.
ghost use Rattle.std.specs.Prelude.{◌≡◌, ◌≤◌, Err, IfErr};
ghost use Rattle.station.specs.Calls.{OnlyReads};
ghost use Rattle.pages.specs.Pages.{sectors_of, filled_of, SameCommitted};
ghost use Rattle.pages.specs.Commits.{KeepsAgreement};
ghost use Rattle.btree.specs.Refusals.{IsChangeRefusal};
ghost use Rattle.btree.specs.Results.{ReturnsDamaged, ExactlyIfSpentAt, FewChanged};
ghost use Rattle.chains.specs.Chain.{pages_for};
ghost use Rattle.chains.specs.Calls.{OnNoChain, KeepsCatalog, ReleasesChain};

use crate::link::page_after;
use crate::part::page_count;
use pages::{PageMap, PagesError};
use station::Device;

/// Takes the pages of the chain of a record of so many bytes out of the map. Each page but the last is read for its next page. `Damaged`
/// tells that no chain of that length stands there. After a refusal the pages that aren't committed are given up with the map of pages.
pub fn release<D: Device>(
    pages: &mut PageMap,
    device: &mut D,
    first: u32,
    size: usize,
) -> Result<(), PagesError>
    requires sectors { sectors_of pages.old ≤ D.sectors device.old }
    ensures only { OnlyReads D.Device (result ≡ Err PagesError.Device) device.old device.new }
    ensures released { ReleasesChain D.Device first (pages_for size) pages.old pages.new device.old
        result }
    ensures damaged { OnNoChain D.Device (pages_for size) first pages.old device.old
        (ReturnsDamaged result) }
    ensures changed_pages { FewChanged (pages_for size) pages.old pages.new }
    ensures filled { filled_of pages.new ≤ filled_of pages.old }
    ensures committed { SameCommitted pages.old pages.new }
    ensures catalog { KeepsCatalog pages.old pages.new }
    ensures agrees { KeepsAgreement D.Device pages.old pages.new device.old device.new }
    ensures spent { ExactlyIfSpentAt size pages.old result }
    ensures cause { IfErr result IsChangeRefusal }
{
    let count = page_count(size);
    let mut page = first;
    for place in 0..count {
        let next = page_after(pages, device, page, count - 1 - place)?;
        pages.release(page)?;
        page = next;
    }
    Ok(())
}
