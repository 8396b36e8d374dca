//! Whether a file is there.
ghost use Rattle.std.specs.Prelude.{◌≡◌, ◌≤◌, Err, true, length, take, IfOk, IfErr};
ghost use Rattle.station.specs.Calls.{OnlyReads};
ghost use Rattle.pages.specs.Pages.{map_now, is_spent, sectors_of, Agrees, IsUnchanged};
ghost use Rattle.btree.specs.Calls.{IfAgrees};
ghost use Rattle.records.specs.Rows.{same_bytes};
ghost use Rattle.records.specs.Files.{Files, file_at, presence};
ghost use Rattle.records.specs.Stores.{spec_of};
ghost use Rattle.volume_format.specs.Volume.{MapHolds};
ghost use Rattle.alternate_keys.specs.Faults.{IsReadFault};

use crate::listing::find_listing;
use file_bytes::{DESCRIPTION_BYTES, spell_description};
use pages::PageMap;
use records::{FileSpec, Presence, StoreFault};
use station::Device;
use std::alloc::Global;
use volume_format::listing_part;

/// Tells whether a file is there, and whether it is as the program says.
pub(crate) fn find_in<D: Device>(
    alloc: Global,
    pages: &mut PageMap,
    device: &mut D,
    file: &FileSpec,
) -> Result<Presence, StoreFault>
    requires sectors { sectors_of pages.old ≤ D.sectors device.old }
    ensures only { OnlyReads D.Device (result ≡ Err StoreFault.Device) device.old device.new }
    ensures unchanged { IsUnchanged pages.old pages.new }
    ensures agrees { IfAgrees D.Device pages.old device.old
        (Agrees pages.new (D.state device.new).disk) }
    ensures presence { IfAgrees D.Device pages.old device.old
        ((files : Files) → MapHolds (map_now pages.old (D.state device.old).disk.present) files →
        IfOk result
        (λ answer. answer ≡ presence (file_at file.now.name.items files) (spec_of file.now))) }
    ensures damaged { IfAgrees D.Device pages.old device.old
        ((files : Files) → MapHolds (map_now pages.old (D.state device.old).disk.present) files
        → result ≡ Err StoreFault.Damaged → ⊥) }
    ensures spent { result ≡ Err StoreFault.Spent → is_spent pages.old ≡ true }
    ensures cause { IfErr result IsReadFault }
{
    let entry = match find_listing(alloc, pages, device, &file.name)? {
        Some(entry) => entry,
        None => return Ok(Presence::Absent),
    };
    let spec = spell_description(alloc, file)?;
    if says(listing_part(&entry), &spec) {
        Ok(Presence::Present)
    } else {
        Ok(Presence::Different)
    }
}

/// Whether a value of the catalog begins with these bytes, which say what a file is.
fn says(value: &[u8], spec: &[u8]) -> bool
    requires { length value.now ≡ 83 }
    ensures { result ≡ same_bytes (take 43 value.now) spec.now }
{
    value[..DESCRIPTION_BYTES] == spec[..]
}
