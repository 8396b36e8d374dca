//! Whether a value of an alternate key is there already.
ghost use Rattle.std.specs.Prelude.{◌≡◌, ◌≤◌, ℕ, List, Err, true, length, IfOk, IfErr};
ghost use Rattle.std.specs.List.{list_any};
ghost use Rattle.station.specs.Calls.{OnlyReads};
ghost use Rattle.pages.specs.Pages.{is_spent, sectors_of, Agrees, IsUnchanged};
ghost use Rattle.btree.specs.Calls.{IfAgrees, pages_on};
ghost use Rattle.records.specs.Spec.{Spec};
ghost use Rattle.records.specs.Rows.{Row, part, place_of, same_bytes};
ghost use Rattle.records.specs.Stores.{key_length};
ghost use Rattle.alternate_keys.specs.Faults.{IsReadFault};
ghost use Rattle.alternate_keys.specs.Seen.{HasPairs};

use crate::found_rows::begins_with;
use crate::look::look;
use crate::search_keys::pair_bytes;
use crate::search_start::SearchStart;
use btree::Tree;
use pages::PageMap;
use records::{KeyOfReference, StoreFault};
use station::Device;
use std::alloc::Global;
use volume_format::to_fault;

/// Whether a row has this value of an alternate key, by the key's tree. It isn't built into its callers, so that its entry takes no
/// room in addition to what they have.
#[inline(never)]
pub(crate) fn is_value_there<D: Device>(
    alloc: Global,
    tree: &Tree,
    pages: &mut PageMap,
    device: &mut D,
    value: &[u8],
) -> Result<bool, StoreFault>
    requires sectors { sectors_of pages.old ≤ D.sectors device.old }
    requires short { tree.now.layout.key_length ≤ 128 }
    ensures only { OnlyReads D.Device (result ≡ Err StoreFault.Device) device.old device.new }
    ensures unchanged { IsUnchanged pages.old pages.new }
    ensures agrees { IfAgrees D.Device pages.old device.old
        (Agrees pages.new (D.state device.new).disk) }
    ensures there { IfAgrees D.Device pages.old device.old ((spec : Spec) (i : ℕ) (rows : List Row)
        → HasPairs spec (KeyOfReference.Alternate i) (pages_on D.Device pages.old device.old) rows
        tree.now →
        length value.now ≡ key_length spec (KeyOfReference.Alternate i)
        → IfOk result (λ there. there ≡ list_any (λ row. same_bytes
        (part (place_of spec (KeyOfReference.Alternate i)) row.bytes) value.now) rows)) }
    ensures damaged { IfAgrees D.Device pages.old device.old
        ((spec : Spec) (i : ℕ) (rows : List Row) → HasPairs spec (KeyOfReference.Alternate i)
        (pages_on D.Device pages.old device.old) rows tree.now → result ≡ Err StoreFault.Damaged
        → ⊥) }
    ensures spent { result ≡ Err StoreFault.Spent → is_spent pages.old ≡ true }
    ensures cause { IfErr result IsReadFault }
{
    let at = pair_bytes(alloc, value, 0)?;
    match look(tree, pages, device, SearchStart::From, &at) {
        Ok(entry) => Ok(begins_with(&entry, value)),
        Err(error) => Err(to_fault(error)),
    }
}
