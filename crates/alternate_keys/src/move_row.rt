//! The trees of a file after a change of a row.
ghost use Rattle.std.specs.Prelude.{◌≡◌, ◌≤◌, ◌<◌, ◌+◌, ◌*◌, true, Err, length, OnOk, IfOk, IfErr};
ghost use Rattle.pages.specs.Pages.{is_spent, committed_of, sectors_of, changed_pages_of};
ghost use Rattle.pages.specs.Use.{free_count};
ghost use Rattle.btree.specs.Calls.{pages_on};
ghost use Rattle.btree.specs.Results.{FewChanged};
ghost use Rattle.records.specs.Stores.{spec_of};
ghost use Rattle.row_trees.specs.Calls.{EditsPages};
ghost use Rattle.alternate_keys.specs.Faults.{IsWriteFault};
ghost use Rattle.alternate_keys.specs.Moved.{HasValues, OnMoving, PairsMayMove};
ghost use Rattle.alternate_keys.specs.Placed.{HasFileTrees};

use crate::move_pairs::move_pairs;
use crate::row_move::RowMove;
use pages::PageMap;
use records::{FileSpec, StoreFault};
use station::Device;
use std::alloc::Global;
use volume_format::spell_listing;

/// Moves the pairs of a row, after the tree of rows has changed. The answer is what the catalog is to say of the file then.
pub(crate) fn move_row<D: Device>(
    alloc: Global,
    pages: &mut PageMap,
    device: &mut D,
    file: &FileSpec,
    listing: &[u8],
    row_move: RowMove<'_>,
    root: u32,
) -> Result<Vec<u8>, StoreFault>
    requires sectors { sectors_of pages.old ≤ D.sectors device.old }
    requires listing { length listing.now ≡ 83 }
    requires values { HasValues row_move.verb (spec_of file.now) row_move.old_value.now
        row_move.bytes.now }
    ensures edits { EditsPages D.Device (result ≡ Err StoreFault.Device) pages.old device.old
        pages.new device.new }
    ensures placed { OnMoving D.Device row_move.entry.verb
        (spec_of file.now) pages.old device.old listing.now root row_move.entry.old_value.now
        row_move.entry.bytes.now row_move.entry.arrival row_move.entry.next
        (λ held after generation left right. IfOk result (λ new. HasFileTrees after (generation + 1)
        (pages_on D.Device pages.new device.old) left right new.items)) }
    ensures few { OnMoving D.Device row_move.entry.verb (spec_of file.now)
        pages.old device.old listing.now root row_move.entry.old_value.now row_move.entry.bytes.now
        row_move.entry.arrival row_move.entry.next (λ held after generation left right.
        OnOk result (FewChanged (84 * length file.now.alternates.items) pages.old pages.new)) }
    ensures room { OnMoving D.Device row_move.entry.verb (spec_of file.now)
        pages.old device.old listing.now root row_move.entry.old_value.now row_move.entry.bytes.now
        row_move.entry.arrival row_move.entry.next (λ held after generation left right.
        result ≡ Err StoreFault.Full → free_count (committed_of pages.old) < length
        (changed_pages_of pages.old) + 84 * length file.now.alternates.items) }
    ensures damaged { OnMoving D.Device row_move.entry.verb (spec_of file.now)
        pages.old device.old listing.now root row_move.entry.old_value.now row_move.entry.bytes.now
        row_move.entry.arrival row_move.entry.next (λ held after generation left right.
        PairsMayMove row_move.entry.verb held.file row_move.entry.old_value.now
        row_move.entry.bytes.now row_move.entry.arrival → result ≡ Err StoreFault.Damaged → ⊥) }
    ensures long { IfOk result (λ new. length new.items ≡ 83) }
    ensures spent { result ≡ Err StoreFault.Spent → is_spent pages.old ≡ true }
    ensures cause { IfErr result IsWriteFault }
{
    let roots = move_pairs(alloc, pages, device, file, listing, row_move)?;
    let new = spell_listing(alloc, file, root, &roots, row_move.next)?;
    Ok(new)
}
