//! A chain gets another record.
ghost use Rattle.std.specs.Prelude.{◌≡◌, ◌≤◌, Err, length, IfErr};
ghost use Rattle.station.specs.Calls.{OnlyReads};
ghost use Rattle.pages.specs.Pages.{sectors_of, SameCommitted};
ghost use Rattle.pages.specs.Commits.{KeepsAgreement};
ghost use Rattle.btree.specs.Refusals.{IsChangeRefusal};
ghost use Rattle.btree.specs.Results.{ReturnsDamaged, ExactlyIfSpentAt, FewChanged, FewFilled};
ghost use Rattle.chains.specs.Chain.{pages_for};
ghost use Rattle.chains.specs.Calls.{OnNoChain, KeepsCatalog, RewritesChain};

use crate::link::{link, page_after};
use crate::part::{page_count, part_of};
use pages::{PageMap, PagesError};
use station::Device;

/// Puts a record in the place of another one of the same length, on the same pages. Each page but the last is read for its next page.
/// `Damaged` means that no chain of that length stands there. After a refusal the pages that aren't committed are given up with the map
/// of pages.
pub fn rewrite<D: Device>(
    pages: &mut PageMap,
    device: &mut D,
    first: u32,
    bytes: &[u8],
) -> Result<(), PagesError>
    requires sectors { sectors_of pages.old ≤ D.sectors device.old }
    ensures only { OnlyReads D.Device (result ≡ Err PagesError.Device) device.old device.new }
    ensures rewritten { RewritesChain D.Device first bytes.now pages.old pages.new device.old
        result }
    ensures damaged { OnNoChain D.Device (pages_for (length bytes.now)) first pages.old device.old
        (ReturnsDamaged result) }
    ensures changed_pages { FewChanged (pages_for (length bytes.now)) pages.old pages.new }
    ensures filled { FewFilled (pages_for (length bytes.now)) pages.old pages.new }
    ensures committed { SameCommitted pages.old pages.new }
    ensures catalog { KeepsCatalog pages.old pages.new }
    ensures agrees { KeepsAgreement D.Device pages.old pages.new device.old device.new }
    ensures spent { ExactlyIfSpentAt (length bytes.now) pages.old result }
    ensures cause { IfErr result IsChangeRefusal }
{
    let count = page_count(bytes.len());
    let mut page = first;
    for place in 0..count {
        let next = page_after(pages, device, page, count - 1 - place)?;
        let spelled = link(next, part_of(bytes, place));
        pages.edit_past(page, &spelled)?;
        page = next;
    }
    Ok(())
}
