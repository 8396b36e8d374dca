//! A change of a row of a file, in its trees, in the catalog, and on the disk.
ghost use Rattle.std.specs.Prelude.{◌≡◌, ◌⊎◌, ◌≤◌, ◌<◌, ◌+◌, ◌*◌, true, false, Err, length, IfOk, OnOk, IfErr};
ghost use Rattle.station.specs.Calls.{OnlyWrites};
ghost use Rattle.pages.specs.Pages.{map_now, is_spent, committed_of, sectors_of, changed_pages_of, next_generation, IsUnchanged};
ghost use Rattle.pages.specs.Use.{free_count};
ghost use Rattle.btree.specs.Results.{FewChanged};
ghost use Rattle.chains.specs.Chain.{pages_for};
ghost use Rattle.records.specs.Files.{File, Files};
ghost use Rattle.records.specs.Stores.{spec_of, Has, is_change, files_after};
ghost use Rattle.volume_format.specs.Chained.{chained_bytes};
ghost use Rattle.volume_format.specs.Volume.{MapHolds};
ghost use Rattle.row_trees.specs.Calls.{EditsPages};
ghost use Rattle.alternate_keys.specs.Faults.{IsWriteFault};
ghost use Rattle.alternate_keys.specs.Moved.{changed_by, IsAsked, IsCountAfter};
ghost use Rattle.alternate_keys.specs.Stands.{Represents};
ghost use Rattle.alternate_keys.specs.Turned.{OnFile, HasChangedFiles};

use crate::commit::{finish, is_done};
use crate::listing::{find_listing, replace_listing};
use crate::row_changes::{RowChange, change_trees};
use crate::row_verb::RowVerb;
use pages::{PageMap, few_needed, map_bounds};
use records::{FileSpec, Outcome, StoreFault};
use station::Device;
use std::alloc::Global;
use volume_format::{listing_part, stored_rows};

/// Changes a row of a file, and puts the file on the disk.
pub(crate) fn change_in<D: Device>(
    alloc: Global,
    pages: &mut PageMap,
    device: &mut D,
    file: &FileSpec,
    verb: RowVerb,
    number: u64,
    bytes: &[u8],
) -> Result<Outcome, StoreFault>
    requires unspent { is_spent pages.old ≡ false }
    requires sectors { sectors_of pages.old ≤ D.sectors device.old }
    requires asked { IsAsked verb (spec_of file.now) number bytes.now }
    ensures only { OnlyWrites D.Device (result ≡ Err StoreFault.Device) device.old device.new }
    ensures outcome { OnFile D.Device
        file.now pages.old device.old (λ files held. IfOk result (λ outcome. outcome
        ≡ (changed_by verb file.now.organization number bytes.now held).outcome)) }
    ensures turned { D.is_honest device.old → (files : Files) (held : File)
        → Represents pages.old (D.state device.old).disk files → Has files file.now held →
        HasChangedFiles D.Device result false file.now.name.items files (files_after
        file.now.name.items files (changed_by verb file.now.organization number bytes.now held))
        pages.old device.old pages.new device.new }
    ensures idle { D.is_honest device.old → IfOk result (λ outcome. is_change outcome ≡ false
        → D.state device.new ≡ D.state device.old) }
    ensures full { D.is_honest device.old → (files : Files) (held : File)
        → Represents pages.old (D.state device.old).disk files → Has files file.now held →
        result ≡ Err StoreFault.Full → is_change
        (changed_by verb file.now.organization number bytes.now held).outcome ≡ true }
    ensures unwritten { (result ≡ Err StoreFault.Full) ⊎ (result ≡ Err StoreFault.Old)
        → D.is_honest device.old → D.state device.new ≡ D.state device.old }
    ensures unspent { OnOk result (is_spent pages.new ≡ false) }
    ensures same_sectors { sectors_of pages.new ≡ sectors_of pages.old }
    ensures spent { result ≡ Err StoreFault.Spent → is_spent pages.old ≡ true }
    ensures cause { IfErr result IsWriteFault }
{
    // How many sectors a commit needs.
    few_needed();
    let outcome = prepare(alloc, pages, device, file, verb, number, bytes)?;
    finish(pages, device, outcome)
}

/// Changes a row in the pages of its file, and what the catalog says of it. The pages aren't put on the disk yet.
fn prepare<D: Device>(
    alloc: Global,
    pages: &mut PageMap,
    device: &mut D,
    file: &FileSpec,
    verb: RowVerb,
    number: u64,
    bytes: &[u8],
) -> Result<Outcome, StoreFault>
    requires unspent { is_spent pages.old ≡ false }
    requires sectors { sectors_of pages.old ≤ D.sectors device.old }
    requires asked { IsAsked verb (spec_of file.now) number bytes.now }
    ensures edits { EditsPages D.Device (result ≡ Err StoreFault.Device) pages.old device.old
        pages.new device.new }
    ensures outcome { OnFile D.Device
        file.now pages.old device.old (λ files held. IfOk result (λ outcome. outcome
        ≡ (changed_by verb file.now.organization number bytes.now held).outcome)) }
    ensures will { OnFile D.Device file.now pages.old device.old
        (λ files held. IfOk result (λ outcome. is_change outcome ≡ true →
        MapHolds (next_generation (map_now pages.new (D.state device.old).disk.present))
        (files_after file.now.name.items files
        (changed_by verb file.now.organization number bytes.now held)))) }
    ensures few { OnFile D.Device file.now pages.old device.old (λ files held.
        OnOk result (FewChanged (84 * length file.now.alternates.items
        + (43 + pages_for (chained_bytes (spec_of file.now)))) pages.old pages.new)) }
    ensures room { OnFile D.Device file.now pages.old device.old
        (λ files held. result ≡ Err StoreFault.Full →
        free_count (committed_of pages.old)
        < length (changed_pages_of pages.old) + (84 * length file.now.alternates.items
        + (43 + pages_for (chained_bytes (spec_of file.now))))) }
    ensures full { OnFile D.Device file.now pages.old device.old
        (λ files held. result ≡ Err StoreFault.Full →
        is_change (changed_by verb file.now.organization number bytes.now held).outcome ≡ true) }
    ensures damaged { OnFile D.Device file.now pages.old device.old
        (λ files held. result ≡ Err StoreFault.Damaged → ⊥) }
    ensures same { IfOk result (λ outcome. is_change outcome ≡ false
        → IsUnchanged pages.old pages.new) }
    ensures spent { result ≡ Err StoreFault.Spent → is_spent pages.old ≡ true }
    ensures cause { IfErr result IsWriteFault }
{
    map_bounds();
    let entry = match find_listing(alloc, pages, device, &file.name)? {
        Some(entry) => entry,
        None => return Ok(Outcome::Missing),
    };
    let rows = rows_after(verb, stored_rows(pages.mark(), entry.value()));
    let change = RowChange {
        verb,
        number,
        bytes,
    };
    let turn = change_trees(alloc, pages, device, file, listing_part(&entry), change)?;
    let outcome = turn.outcome;
    if !is_done(outcome) {
        return Ok(outcome);
    }
    replace_listing(alloc, pages, device, &file.name, &turn.listing, rows)?;
    Ok(outcome)
}

/// The number of rows of a file after a change that was made, by the number before. It is computed in eight bytes, as it is stored.
fn rows_after(verb: RowVerb, rows: u64) -> u64
    ensures { IsCountAfter verb rows result }
{
    match verb {
        RowVerb::Insert => rows.wrapping_add(1),
        RowVerb::Replace => rows,
        RowVerb::Remove => rows.wrapping_sub(1),
    }
}
