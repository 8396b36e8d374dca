//! A removal goes up from a leaf, along the way that led down to it.
ghost use Rattle.std.specs.Prelude.{◌≡◌, ◌≤◌, ◌+◌, ◌*◌, Err, length, IfOk, IfErr};
ghost use Rattle.pages.specs.Pages.{SameCommitted, changed_pages_of, filled_of};
ghost use Rattle.pages.specs.Devices.{FitsDevice};
ghost use Rattle.btree_pages.specs.RowLayouts.{IsRowLayout};
ghost use Rattle.btree.specs.Outcomes.{FitsAbove, spare};
ghost use Rattle.btree.specs.Shrinks.{ShrinksBy, NeverShrinks, ShrinksOn, NeverShrinksOn};
ghost use Rattle.btree.specs.Refusals.{ErrOnlyIfChangeRefusal};
ghost use Rattle.btree.specs.Calls.{OnPages, OnChange, OnlyReadsFor, KeepsAgreement};
ghost use Rattle.btree.specs.Results.{OnlyIfSpent, SameCatalog};

use crate::node::read_node;
use crate::path_step::PathStep;
use crate::rebalance::rebalance_at;
use crate::removal_outcome::RemovalOutcome;
use crate::shrink_page::{lose_at, rename_at};
use btree_pages::RowLayout;
use pages::{PageMap, PagesError};
use station::Device;

/// Tells the pages on the way, from its end on, what became of the page below each: of the leaf at the end became `outcome`. The answer
/// is what became of the page at the beginning.
pub(crate) fn shrink<D: Device>(
    pages: &mut PageMap,
    device: &mut D,
    layout: RowLayout,
    path: &[PathStep],
    outcome: RemovalOutcome,
) -> Result<RemovalOutcome, PagesError>
    requires sectors { FitsDevice D.Device pages.old device.old }
    requires layout { IsRowLayout layout }
    requires fits { FitsAbove layout outcome }
    ensures only { OnlyReadsFor D.Device device.old device.new result }
    ensures shrinks { OnChange D.Device pages.old pages.new device.old
        (λ before after. IfOk result (ShrinksBy layout path.now before after outcome)) }
    ensures damaged { OnPages D.Device pages.old device.old
        (λ before. result ≡ Err PagesError.Damaged → NeverShrinks layout path.now before outcome) }
    ensures fits { IfOk result (FitsAbove layout) }
    ensures changed_pages { IfOk result (λ up. length (changed_pages_of pages.new) + spare up
        ≤ length (changed_pages_of pages.old) + spare outcome + 2 * length path.now) }
    ensures filled { IfOk result (λ up. filled_of pages.new + spare up
        ≤ filled_of pages.old + spare outcome + 2 * length path.now) }
    ensures committed { SameCommitted pages.old pages.new }
    ensures catalog { SameCatalog pages.old pages.new }
    ensures agrees { KeepsAgreement D.Device pages.old device.old pages.new device.new }
    ensures spent { OnlyIfSpent pages.old result }
    ensures cause { ErrOnlyIfChangeRefusal result }
{
    let (step, rest) = match path.split_first() {
        Some(pair) => pair,
        None => return Ok(outcome),
    };
    match shrink(pages, device, layout, rest, outcome)? {
        RemovalOutcome::Kept => Ok(RemovalOutcome::Kept),
        below => shrink_at(pages, device, layout, *step, below),
    }
}

/// The page at a step learns what became of the child that the step led to.
fn shrink_at<D: Device>(
    pages: &mut PageMap,
    device: &mut D,
    layout: RowLayout,
    step: PathStep,
    below: RemovalOutcome,
) -> Result<RemovalOutcome, PagesError>
    requires sectors { FitsDevice D.Device pages.old device.old }
    requires layout { IsRowLayout layout }
    requires fits { FitsAbove layout below }
    ensures only { OnlyReadsFor D.Device device.old device.new result }
    ensures shrinks { OnChange D.Device pages.old pages.new device.old
        (λ before after. IfOk result (ShrinksOn layout step before after below)) }
    ensures damaged { OnPages D.Device pages.old device.old
        (λ before. result ≡ Err PagesError.Damaged → NeverShrinksOn layout step before below) }
    ensures fits { IfOk result (FitsAbove layout) }
    ensures changed_pages { IfOk result (λ up. length (changed_pages_of pages.new) + spare up
        ≤ length (changed_pages_of pages.old) + spare below + 2) }
    ensures filled { IfOk result
        (λ up. filled_of pages.new + spare up ≤ filled_of pages.old + spare below + 2) }
    ensures committed { SameCommitted pages.old pages.new }
    ensures catalog { SameCatalog pages.old pages.new }
    ensures agrees { KeepsAgreement D.Device pages.old device.old pages.new device.new }
    ensures spent { OnlyIfSpent pages.old result }
    ensures cause { ErrOnlyIfChangeRefusal result }
{
    let node = read_node(pages, device, layout, step.page)?;
    match below {
        RemovalOutcome::Kept => Ok(RemovalOutcome::Kept),
        RemovalOutcome::Renamed(child) => rename_at(pages, step, node, &child),
        RemovalOutcome::Gone => lose_at(pages, step, node),
        RemovalOutcome::Underfull(child) => rebalance_at(pages, device, layout, step, node, child),
    }
}
