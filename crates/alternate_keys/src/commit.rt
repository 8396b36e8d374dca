//! Changed pages are put on the disk.
ghost use Rattle.std.specs.Prelude.{◌≡◌, ◌≤◌, Err, true, false, IfOk, OnOk, IfErr};
ghost use Rattle.station.specs.Calls.{OnlyWrites};
ghost use Rattle.pages.specs.Pages.{is_spent, mark_of, sectors_of, IsFull};
ghost use Rattle.records.specs.Files.{Files};
ghost use Rattle.records.specs.Stores.{is_change};
ghost use Rattle.alternate_keys.specs.Faults.{IsWriteFault};
ghost use Rattle.alternate_keys.specs.Settles.{IsChanged, CommitsFiles};
ghost use Rattle.alternate_keys.specs.Stands.{Represents};

use pages::{PageMap, map_bounds};
use records::{Outcome, StoreFault};
use station::Device;
use volume_format::to_fault;

/// Puts the pages on the disk: each moment leaves the files before, or those after.
pub(crate) fn commit_pages<D: Device>(pages: &mut PageMap, device: &mut D) -> Result<(), StoreFault>
    requires unspent { is_spent pages.old ≡ false }
    requires sectors { sectors_of pages.old ≤ D.sectors device.old }
    ensures only { OnlyWrites D.Device (result ≡ Err StoreFault.Device) device.old device.new }
    ensures settles { (before after : Files) → IsChanged D.Device pages.old device.old before after
        → CommitsFiles D.Device result before after pages.old device.old pages.new device.new }
    ensures unwritten { result ≡ Err StoreFault.Full → D.is_honest device.old
        → D.state device.new ≡ D.state device.old }
    ensures full { result ≡ Err StoreFault.Full → IsFull pages.old }
    ensures mark { mark_of pages.new ≡ mark_of pages.old }
    ensures unspent { OnOk result (is_spent pages.new ≡ false) }
    ensures same_sectors { sectors_of pages.new ≡ sectors_of pages.old }
    ensures spent { result ≡ Err StoreFault.Spent → is_spent pages.old ≡ true }
    ensures cause { IfErr result IsWriteFault }
{
    map_bounds();
    match pages.commit(device) {
        Ok(()) => Ok(()),
        Err(error) => Err(to_fault(error)),
    }
}

/// Whether an outcome tells of a change.
pub(crate) fn is_done(outcome: Outcome) -> bool
    ensures { result ≡ is_change outcome }
{
    match outcome {
        Outcome::Missing => false,
        Outcome::Taken => false,
        Outcome::Done => true,
        Outcome::Duplicate => true,
    }
}

/// Puts the pages on the disk where an outcome tells of a change. Where it doesn't, nothing is done.
pub(crate) fn finish<D: Device>(
    pages: &mut PageMap,
    device: &mut D,
    outcome: Outcome,
) -> Result<Outcome, StoreFault>
    requires unspent { is_spent pages.old ≡ false }
    requires sectors { sectors_of pages.old ≤ D.sectors device.old }
    ensures only { OnlyWrites D.Device (result ≡ Err StoreFault.Device) device.old device.new }
    ensures outcome { IfOk result (λ told. told ≡ outcome) }
    ensures settles { (before after : Files)
        → (is_change outcome ≡ true → IsChanged D.Device pages.old device.old before after) →
        (is_change outcome ≡ false → Represents pages.old (D.state device.old).disk after)
        → CommitsFiles D.Device result before after pages.old device.old pages.new device.new }
    ensures idle { is_change outcome ≡ false → D.is_honest device.old
        → D.state device.new ≡ D.state device.old }
    ensures changes { result ≡ Err StoreFault.Full → is_change outcome ≡ true }
    ensures unwritten { result ≡ Err StoreFault.Full → D.is_honest device.old
        → D.state device.new ≡ D.state device.old }
    ensures unspent { OnOk result (is_spent pages.new ≡ false) }
    ensures same_sectors { sectors_of pages.new ≡ sectors_of pages.old }
    ensures spent { result ≡ Err StoreFault.Spent → is_spent pages.old ≡ true }
    ensures cause { IfErr result IsWriteFault }
{
    if !is_done(outcome) {
        return Ok(outcome);
    }
    commit_pages(pages, device)?;
    Ok(outcome)
}
