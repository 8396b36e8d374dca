//! Going through the entries of a tree.
ghost use Rattle.std.specs.Prelude.{◌≡◌, ◌≤◌, true, Err, IfOk, IfErr, IfSome};
ghost use Rattle.pages.specs.Pages.{is_spent, sectors_of};
ghost use Rattle.btree.specs.Calls.{OnTree};
ghost use Rattle.btree.specs.Entries.{HasLengths, entries_of, first_entry, first_entry_after};
ghost use Rattle.volume_format.specs.Calls.{LooksAt};
ghost use Rattle.volume_format.specs.Faults.{IsReadFault};

use crate::fault::to_fault;
use btree::{Entry, Tree};
use pages::PageMap;
use records::StoreFault;
use station::Device;

/// The first entry of a tree; `None` if it has no entries. `Damaged` means that the pages under the tree's root are no tree, and `Spent`
/// that the map of pages is spent. Else a refusal is the device's, or memory ran out.
pub fn first_in<D: Device>(
    tree: &Tree,
    pages: &mut PageMap,
    device: &mut D,
) -> Result<Option<Entry>, StoreFault>
    requires sectors { sectors_of pages.old ≤ D.sectors device.old }
    ensures looks { LooksAt D.Device (result ≡ Err StoreFault.Device) pages.old device.old pages.new
        device.new }
    ensures entry { OnTree D.Device tree.now.layout tree.now.root pages.old device.old (λ levels.
        IfOk result (λ entry. entry ≡ first_entry (entries_of tree.now.layout levels))) }
    ensures damaged { OnTree D.Device tree.now.layout tree.now.root pages.old device.old
        (λ levels. result ≡ Err StoreFault.Damaged → ⊥) }
    ensures lengths { IfOk result (λ entry. IfSome entry (HasLengths tree.now.layout)) }
    ensures spent { result ≡ Err StoreFault.Spent → is_spent pages.old ≡ true }
    ensures cause { IfErr result IsReadFault }
{
    match tree.first(pages, device) {
        Ok(entry) => Ok(entry),
        Err(error) => Err(to_fault(error)),
    }
}

/// The entry after one of a tree; `None` if no key of the tree is greater. Refusals are those of `first_in`.
pub fn next_in<D: Device>(
    tree: &Tree,
    pages: &mut PageMap,
    device: &mut D,
    entry: &Entry,
) -> Result<Option<Entry>, StoreFault>
    requires sectors { sectors_of pages.old ≤ D.sectors device.old }
    ensures looks { LooksAt D.Device (result ≡ Err StoreFault.Device) pages.old device.old pages.new
        device.new }
    ensures entry { OnTree D.Device tree.now.layout tree.now.root pages.old device.old
        (λ levels. IfOk result
        (λ next. next ≡ first_entry_after (entries_of tree.now.layout levels) entry.now.key)) }
    ensures damaged { OnTree D.Device tree.now.layout tree.now.root pages.old device.old
        (λ levels. result ≡ Err StoreFault.Damaged → ⊥) }
    ensures lengths { IfOk result (λ entry. IfSome entry (HasLengths tree.now.layout)) }
    ensures spent { result ≡ Err StoreFault.Spent → is_spent pages.old ≡ true }
    ensures cause { IfErr result IsReadFault }
{
    match tree.next(pages, device, entry.key()) {
        Ok(next) => Ok(next),
        Err(error) => Err(to_fault(error)),
    }
}
