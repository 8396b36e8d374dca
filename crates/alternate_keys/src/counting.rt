//! Whether the catalog has room for one more file.
ghost use Rattle.std.specs.Prelude.{◌≡◌, ◌≤◌, ◌<◌, true, false, length, Err, IfOk, IfErr};
ghost use Rattle.pages.specs.Pages.{is_spent, sectors_of};
ghost use Rattle.volume_format.specs.Calls.{LooksAt};
ghost use Rattle.alternate_keys.specs.Created.{OnFiles};
ghost use Rattle.alternate_keys.specs.Faults.{IsReadFault};

use pages::PageMap;
use records::StoreFault;
use station::Device;
use std::alloc::Global;
use volume_format::{catalog_tree, first_in, next_in};

/// How many files a volume may have.
pub(crate) const MOST_FILES: u8 = 255;

/// Whether the catalog lists 255 files, as many as a volume may have.
pub(crate) fn is_full<D: Device>(
    alloc: Global,
    pages: &mut PageMap,
    device: &mut D,
) -> Result<bool, StoreFault>
    requires sectors { sectors_of pages.old ≤ D.sectors device.old }
    ensures looks { LooksAt D.Device (result ≡ Err StoreFault.Device) pages.old device.old pages.new
        device.new }
    ensures full { OnFiles D.Device pages.old device.old
        (λ files holds. IfOk result (λ full. full ≡ true → 255 ≤ length files)) }
    ensures room { OnFiles D.Device pages.old device.old
        (λ files holds. IfOk result (λ full. full ≡ false → length files < 255)) }
    ensures damaged { OnFiles D.Device pages.old device.old
        (λ files holds. result ≡ Err StoreFault.Damaged → ⊥) }
    ensures spent { result ≡ Err StoreFault.Spent → is_spent pages.old ≡ true }
    ensures cause { IfErr result IsReadFault }
{
    let catalog = catalog_tree(alloc, pages.mark(), pages.catalog());
    let mut next = first_in(&catalog, pages, device)?;
    for turn in 0..MOST_FILES {
        match next {
            Some(entry) => next = next_in(&catalog, pages, device, &entry)?,
            None => return Ok(false),
        }
    }
    Ok(true)
}
