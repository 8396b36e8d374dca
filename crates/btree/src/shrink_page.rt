//! A page is written with fewer rows, or given up.
ghost use Rattle.std.specs.Prelude.{◌≡◌, ◌<◌, ◌↔◌, Err, length, IfOk, IfErr, IsTrue, false};
ghost use Rattle.pages.specs.Pages.{IsPage, page_count, KeepsCommitted};
ghost use Rattle.btree.specs.Changes.{CountsPages, FewNumbers};
ghost use Rattle.btree.specs.Outcomes.{FitsAbove};
ghost use Rattle.btree.specs.Fills.{HasTooFewRows};
ghost use Rattle.btree.specs.Refusals.{IsPutRefusal, IsRestRefusal};
ghost use Rattle.btree.specs.Results.{ReturnsDamaged, OnlyIfSpent, LeavesFewChanged, LeavesFewFilled};
ghost use Rattle.btree.specs.Puts.{PutsBack, LosesRow, RenamesRow, NeverLeads};

use crate::path_step::PathStep;
use crate::removal_outcome::{Child, RemovalOutcome};
use btree_pages::{Kind, TreePage};
use pages::{PageMap, PagesError};

/// Puts a node back on its page. A node without rows gives its page up, and one with too few rows isn't written.
pub(crate) fn write_back(
    pages: &mut PageMap,
    page: u32,
    node: TreePage,
    keeps_least: bool,
) -> Result<RemovalOutcome, PagesError>
    requires page { IsPage pages.old page }
    ensures pages { IfOk result (PutsBack pages.old pages.new page node keeps_least) }
    ensures fits { IfOk result (FitsAbove node.layout) }
    ensures changed_pages { IfOk result (LeavesFewChanged 1 pages.old pages.new) }
    ensures filled { IfOk result (LeavesFewFilled 1 pages.old pages.new) }
    ensures keeps { KeepsCommitted pages.old pages.new }
    ensures spent { OnlyIfSpent pages.old result }
    ensures cause { IfErr result IsPutRefusal }
{
    let count = node.count();
    if count == 0 {
        pages.release(page)?;
        return Ok(RemovalOutcome::Gone);
    }
    if is_short(&node) {
        return Ok(RemovalOutcome::Underfull(Child { page, node }));
    }
    let spelled = node.bytes();
    pages.edit(page, &spelled)?;
    if keeps_least {
        return Ok(RemovalOutcome::Kept);
    }
    Ok(RemovalOutcome::Renamed(Child { page, node }))
}

/// The row at a place leaves the leaf on a page.
pub(crate) fn take_out(
    pages: &mut PageMap,
    page: u32,
    mut leaf: TreePage,
    place: usize,
) -> Result<RemovalOutcome, PagesError>
    requires page { IsPage pages.old page }
    requires leaf { leaf.kind ≡ Kind.Leaf }
    requires place { place < length leaf.rows }
    ensures pages { IfOk result (LosesRow Kind.Leaf pages.old pages.new page leaf place) }
    ensures fits { IfOk result (FitsAbove leaf.layout) }
    ensures changed_pages { IfOk result (LeavesFewChanged 1 pages.old pages.new) }
    ensures filled { IfOk result (LeavesFewFilled 1 pages.old pages.new) }
    ensures keeps { KeepsCommitted pages.old pages.new }
    ensures spent { OnlyIfSpent pages.old result }
    ensures cause { IfErr result IsPutRefusal }
{
    leaf.remove(place);
    write_back(pages, page, leaf, place > 0)
}

/// The page at a step loses the row of the child that the step led to, since that child is gone. `Damaged` means that the step leads
/// to no such page.
pub(crate) fn lose_at(
    pages: &mut PageMap,
    step: PathStep,
    mut node: TreePage,
) -> Result<RemovalOutcome, PagesError>
    ensures pages { IfOk result
        (LosesRow Kind.Inner pages.old pages.new step.page node step.place) }
    ensures fits { IfOk result (FitsAbove node.layout) }
    ensures changed_pages { IfOk result (LeavesFewChanged 1 pages.old pages.new) }
    ensures filled { IfOk result (LeavesFewFilled 1 pages.old pages.new) }
    ensures keeps { KeepsCommitted pages.old pages.new }
    ensures damaged { NeverLeads pages.old step node (ReturnsDamaged result) }
    ensures spent { OnlyIfSpent pages.old result }
    ensures cause { IfErr result IsRestRefusal }
{
    if !leads(pages, step, &node) {
        return Err(PagesError::Damaged);
    }
    node.remove(step.place);
    let outcome = write_back(pages, step.page, node, step.place > 0)?;
    Ok(outcome)
}

/// The row of the child that a step led to gets that child's least key. `Damaged` means that the step leads to no such page.
pub(crate) fn rename_at(
    pages: &mut PageMap,
    step: PathStep,
    mut node: TreePage,
    child: &Child,
) -> Result<RemovalOutcome, PagesError>
    requires layout { child.now.node.layout ≡ node.layout }
    requires some { 0 < length child.now.node.rows }
    ensures pages { IfOk result (RenamesRow pages.old pages.new step node child.now) }
    ensures fits { IfOk result (FitsAbove node.layout) }
    ensures changed_pages { IfOk result (LeavesFewChanged 1 pages.old pages.new) }
    ensures filled { IfOk result (LeavesFewFilled 1 pages.old pages.new) }
    ensures keeps { KeepsCommitted pages.old pages.new }
    ensures damaged { NeverLeads pages.old step node (ReturnsDamaged result) }
    ensures spent { OnlyIfSpent pages.old result }
    ensures cause { IfErr result IsRestRefusal }
{
    if !leads(pages, step, &node) {
        return Err(PagesError::Damaged);
    }
    node.set_key(step.place, child.node.key(0));
    let outcome = write_back(pages, step.page, node, step.place > 0)?;
    Ok(outcome)
}

/// A step leads on from a page: the page is an inner one, in the map, with a row at the step's place.
pub(crate) fn leads(pages: &PageMap, step: PathStep, node: &TreePage) -> bool
    ensures is { IsTrue result ↔ ((node.now.kind ≡ Kind.Inner) × (step.place < length node.now.rows)
        × IsPage pages.now step.page) }
    ensures count { CountsPages pages.now }
    ensures few { FewNumbers pages.now }
{
    // How many page numbers there are is told whatever the answer.
    let _page_count = pages.page_count();
    if node.kind() != Kind::Inner {
        return false;
    }
    if node.count() <= step.place {
        return false;
    }
    is_page(pages, step.page)
}

/// A page number that the map has room for.
pub(crate) fn is_page(pages: &PageMap, page: u32) -> bool
    ensures is { IsTrue result ↔ IsPage pages.now page }
    ensures count { CountsPages pages.now }
    ensures few { FewNumbers pages.now }
{
    let count = pages.page_count();
    if page == 0 {
        return false;
    }
    (page as usize) < count
}

/// Whether a page has too few rows: a leaf less than a quarter of those that it has room for, an inner page less than two.
fn is_short(node: &TreePage) -> bool
    ensures { IsTrue result ↔ HasTooFewRows node.now.layout node.now.kind (length node.now.rows) }
{
    let count = node.count();
    match node.kind() {
        Kind::Leaf => count * 4 < node.layout().capacity(Kind::Leaf),
        Kind::Inner => count < 2,
    }
}
