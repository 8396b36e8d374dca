//! A new chain.
ghost use Rattle.std.specs.Prelude.{◌≡◌, length, IfOk, IfErr};
ghost use Rattle.std.specs.Prelude.{List};
ghost use Rattle.station.specs.Disk.{Sector};
ghost use Rattle.pages.specs.Pages.{KeepsCommitted};
ghost use Rattle.btree.specs.Changes.{pages_of_map};
ghost use Rattle.btree.specs.Refusals.{IsWriteRefusal};
ghost use Rattle.btree.specs.Results.{ExactlyIfSpentAt, FullIfUsed, FewChanged, FewFilled};
ghost use Rattle.chains.specs.Chain.{pages_for};
ghost use Rattle.chains.specs.Changes.{Lays};

use crate::link::put_link;
use crate::part::{page_count, part_of};
use pages::{PageMap, PagesError};

/// Puts a record on new pages, and returns the first page of its chain; the record without bytes has no pages, and first page 0. After a
/// refusal the pages that aren't committed are given up with the map of pages. `Full` means that no page number is left.
pub fn lay(pages: &mut PageMap, bytes: &[u8]) -> Result<u32, PagesError>
    ensures laid { IfOk result (λ first. (image : List Sector)
        → Lays (pages_of_map pages.old image) bytes.now (pages_of_map pages.new image) first) }

    // Each part takes a page.
    ensures changed_pages { FewChanged (pages_for (length bytes.now)) pages.old pages.new }
    ensures filled { FewFilled (pages_for (length bytes.now)) pages.old pages.new }
    ensures keeps { KeepsCommitted pages.old pages.new }
    ensures full { FullIfUsed pages.new result }
    ensures spent { ExactlyIfSpentAt (length bytes.now) pages.old result }
    ensures cause { IfErr result IsWriteRefusal }
{
    let mut place = page_count(bytes.len());
    let mut next = 0;
    'parts: while 0 < place {
        place -= 1;
        let page = put_link(pages, next, part_of(bytes, place))?;
        next = page;
    }
    Ok(next)
}
