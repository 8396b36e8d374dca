//! A page that too few rows are left for is joined with a neighbour, or takes rows of it.
ghost use Rattle.std.specs.Prelude.{◌≡◌, ◌≢◌, ◌≤◌, ◌<◌, ◌+◌, ◌-◌, ◌++◌, Err, Some, None, [], List, length, map, set, take, drop, slice_index_or, IfSome, IfOk, IfErr, OnOk};
ghost use Rattle.byteorder.specs.Endian.{big_bytes};
ghost use Rattle.station.specs.Disk.{Sector};
ghost use Rattle.pages.specs.Pages.{IsPage, SameCommitted, KeepsCommitted, IsUnchanged};
ghost use Rattle.pages.specs.Devices.{FitsDevice};
ghost use Rattle.btree_pages.specs.RowLayouts.{IsRowLayout, capacity};
ghost use Rattle.btree_pages.specs.Keys.{rest_of};
ghost use Rattle.btree.specs.Tree.{TreeNode, node_at, row_of, fewest};
ghost use Rattle.btree.specs.Fills.{IsEven};
ghost use Rattle.btree.specs.Reading.{IsReadRefusal, NoneOfKind};
ghost use Rattle.btree.specs.Nodes.{SameNode};
ghost use Rattle.btree.specs.Propagates.{run_of};
ghost use Rattle.btree.specs.Changes.{pages_of_map, CanStand, HasKeys};
ghost use Rattle.btree.specs.Outcomes.{FitsAbove, IsJoined, IsPair, RebalancesNeighbours};
ghost use Rattle.btree.specs.Refusals.{IsPutRefusal, IsRestRefusal};
ghost use Rattle.btree.specs.Calls.{OnPages, OnChange, OnlyReadsFor, KeepsAgreement};
ghost use Rattle.btree.specs.Results.{ReturnsDamaged, OnlyIfSpent, ExactlyIfSpent, FewChanged, FewFilled, LeavesFewChanged, LeavesFewFilled, SameCatalog};
ghost use Rattle.btree.specs.Puts.{PutsTogether, JoinsPair, NeverTwo, HasBothRows};

use crate::node::read_kind;
use crate::path_step::PathStep;
use crate::removal_outcome::{Child, RemovalOutcome};
use crate::shrink_page::{is_page, leads, write_back};
use crate::split_result::{Right, SplitResult};
use btree_pages::{Kind, RowLayout, TreePage};
use pages::{PageMap, PagesError};
use station::Device;

/// Too few rows are left for the child that a step led to. It is joined with the neighbour to its left, or to its right where it is
/// the first. `Damaged` means that the step leads to no such page.
pub(crate) fn rebalance_at<D: Device>(
    pages: &mut PageMap,
    device: &mut D,
    layout: RowLayout,
    step: PathStep,
    node: TreePage,
    lone: Child,
) -> Result<RemovalOutcome, PagesError>
    requires sectors { FitsDevice D.Device pages.old device.old }
    requires layout { IsRowLayout layout }
    requires node { node.layout ≡ layout }
    requires lone { (lone.node.layout ≡ layout) × (0 < length lone.node.rows) }
    ensures only { OnlyReadsFor D.Device device.old device.new result }
    ensures rebalances { OnChange D.Device pages.old pages.new device.old
        (λ before after. IfOk result (λ outcome. (left right : TreeNode)
        → CanStand before step.page node → IsPair layout lone.node.kind before step.page
        node.rows step.place lone.page left right → RebalancesNeighbours layout lone.node.kind
        before after step.page node.rows step.place lone.node.rows left right outcome)) }
    ensures damaged { OnPages D.Device pages.old device.old
        (λ before. result ≡ Err PagesError.Damaged → (left right : TreeNode)
        → node.kind ≡ Kind.Inner → step.place < length node.rows → 0 < step.page → 0 < left.page
        → 0 < right.page → IsPair layout lone.node.kind before step.page node.rows step.place
        lone.page left right → ⊥) }
    ensures fits { IfOk result (FitsAbove layout) }
    ensures changed_pages { IfOk result (LeavesFewChanged 3 pages.old pages.new) }
    ensures filled { IfOk result (LeavesFewFilled 3 pages.old pages.new) }
    ensures committed { SameCommitted pages.old pages.new }
    ensures catalog { SameCatalog pages.old pages.new }
    ensures agrees { KeepsAgreement D.Device pages.old device.old pages.new device.new }
    ensures spent { OnlyIfSpent pages.old result }
    ensures cause { result ≢ Err PagesError.Full × result ≢ Err PagesError.ForeignMark }
{
    if !leads(pages, step, &node) {
        return Err(PagesError::Damaged);
    }
    if node.count() < 2 {
        return Err(PagesError::Damaged);
    }
    let kind = lone.node.kind();
    let page = node.child(near_place(step.place));
    let beside = read_kind(pages, device, layout, kind, page)?;
    let near = Child { page, node: beside };
    if step.place == 0 {
        return rebalance_pair(pages, step.page, node, 0, lone, near);
    }
    rebalance_pair(pages, step.page, node, step.place - 1, near, lone)
}

/// The place of the neighbour that a child is joined with: the one before it, or the one after it where it is the first.
fn near_place(place: usize) -> usize
    ensures first { place ≡ 0 → result ≡ 1 }
    ensures other { place ≢ 0 → result ≡ place - 1 }
{
    if place == 0 {
        return 1;
    }
    place - 1
}

/// Two neighbours share their rows evenly.
fn share_rows(left: &mut TreePage, right: &mut TreePage)
    requires like { SameNode left.old right.old }
    ensures rows { left.new.rows ++ right.new.rows ≡ left.old.rows ++ right.old.rows }
    ensures left { SameNode left.old left.new }
    ensures right { SameNode left.old right.new }
    ensures left_even { length left.new.rows ≤ length right.new.rows + 1 }
    ensures right_even { length right.new.rows ≤ length left.new.rows + 1 }
{
    if left.count() < right.count() {
        let moved = (right.count() - left.count()) / 2;
        let rest = right.split_off(moved);
        left.append(right);
        *right = rest;
        return;
    }
    let moved = (left.count() - right.count()) / 2;
    let mut rest = left.split_off(left.count() - moved);
    rest.append(right);
    *right = rest;
}

/// Puts the rows of two neighbours on the left one's page, if they fit, and gives up the right one's. Else they share them. `Damaged`
/// tells that one of the two pages is none.
fn rebalance(pages: &mut PageMap, left: Child, right: Child) -> Result<SplitResult, PagesError>
    requires like { SameNode left.node right.node }
    requires many { 2 ≤ length left.node.rows + length right.node.rows }
    ensures rows { IfOk result (HasBothRows left.node.rows right.node.rows) }
    ensures pages { IfOk result (PutsTogether pages.old pages.new left right) }
    ensures joined { IfOk result (IsJoined left.node.layout left.page right.page) }
    ensures even { IfOk result (λ joined. IsEven left.node.layout left.node.kind (run_of joined)) }
    ensures changed_pages { OnOk result (FewChanged 2 pages.old pages.new) }
    ensures filled { OnOk result (FewFilled 2 pages.old pages.new) }
    ensures keeps { KeepsCommitted pages.old pages.new }
    ensures damaged { NeverTwo pages.old left.page right.page (ReturnsDamaged result) }
    ensures spent { OnlyIfSpent pages.old result }
    ensures cause { IfErr result IsRestRefusal }
{
    if !is_page(pages, left.page) {
        return Err(PagesError::Damaged);
    }
    if !is_page(pages, right.page) {
        return Err(PagesError::Damaged);
    }
    let room = left.node.layout().capacity(left.node.kind());
    if left.node.count() + right.node.count() <= room {
        return merge(pages, left, right);
    }
    redistribute(pages, left, right)
}

/// Their rows fit on one page.
fn merge(pages: &mut PageMap, left: Child, right: Child) -> Result<SplitResult, PagesError>
    requires left_page { IsPage pages.old left.page }
    requires right_page { IsPage pages.old right.page }
    requires like { SameNode left.node right.node }
    requires many { 2 ≤ length left.node.rows + length right.node.rows }
    requires room { length left.node.rows + length right.node.rows
        ≤ capacity left.node.layout left.node.kind }
    ensures rows { IfOk result (HasBothRows left.node.rows right.node.rows) }
    ensures pages { IfOk result (PutsTogether pages.old pages.new left right) }
    ensures joined { IfOk result (IsJoined left.node.layout left.page right.page) }
    ensures even { IfOk result (λ joined. IsEven left.node.layout left.node.kind (run_of joined)) }
    ensures changed_pages { OnOk result (FewChanged 2 pages.old pages.new) }
    ensures filled { OnOk result (FewFilled 2 pages.old pages.new) }
    ensures keeps { KeepsCommitted pages.old pages.new }
    ensures spent { OnlyIfSpent pages.old result }
    ensures cause { IfErr result IsPutRefusal }
{
    let Child { page, mut node } = left;
    node.append(&right.node);
    // What this tells is needed below: each row has its length.
    let _count = node.count();
    let spelled = node.bytes();
    edit_and_release(pages, page, &spelled, right.page)?;
    Ok(SplitResult {
        page,
        left: node,
        right: None,
    })
}

/// A page gets other bytes, and another one is given up.
fn edit_and_release(
    pages: &mut PageMap,
    left: u32,
    bytes: &[u8; 4096],
    right: u32,
) -> Result<(), PagesError>
    requires left { IsPage pages.old left }
    requires right { IsPage pages.old right }
    ensures map { OnOk result ((image : List Sector) → pages_of_map pages.new image
        ≡ set (set (pages_of_map pages.old image) left (Some bytes.now)) right None) }
    ensures changed_pages { OnOk result (FewChanged 2 pages.old pages.new) }
    ensures filled { OnOk result (FewFilled 2 pages.old pages.new) }
    ensures keeps { KeepsCommitted pages.old pages.new }
    ensures spent { OnlyIfSpent pages.old result }
    ensures cause { IfErr result IsPutRefusal }
{
    pages.edit(left, bytes)?;
    pages.release(right)?;
    Ok(())
}

/// They have too many rows for one page.
fn redistribute(pages: &mut PageMap, left: Child, right: Child) -> Result<SplitResult, PagesError>
    requires left_page { IsPage pages.old left.page }
    requires right_page { IsPage pages.old right.page }
    requires like { SameNode left.node right.node }
    requires many { 4 ≤ length left.node.rows + length right.node.rows }
    requires full { capacity left.node.layout left.node.kind
        < length left.node.rows + length right.node.rows }
    ensures rows { IfOk result (HasBothRows left.node.rows right.node.rows) }
    ensures pages { IfOk result (PutsTogether pages.old pages.new left right) }
    ensures joined { IfOk result (IsJoined left.node.layout left.page right.page) }
    ensures even { IfOk result (λ joined. IsEven left.node.layout left.node.kind (run_of joined)) }
    ensures changed_pages { OnOk result (FewChanged 2 pages.old pages.new) }
    ensures filled { OnOk result (FewFilled 2 pages.old pages.new) }
    ensures keeps { KeepsCommitted pages.old pages.new }
    ensures spent { OnlyIfSpent pages.old result }
    ensures cause { IfErr result IsPutRefusal }
{
    let Child { page, mut node } = left;
    let Child {
        page: beside,
        node: mut rest,
    } = right;
    share_rows(&mut node, &mut rest);
    // What these two tell is needed below: each row has its length.
    let _left_count = node.count();
    let _right_count = rest.count();
    let lower = node.bytes();
    let upper = rest.bytes();
    edit_two(pages, page, &lower, beside, &upper)?;
    Ok(SplitResult {
        page,
        left: node,
        right: Some(Right {
            page: beside,
            node: rest,
        }),
    })
}

/// Two pages get other bytes.
fn edit_two(
    pages: &mut PageMap,
    left: u32,
    lower: &[u8; 4096],
    right: u32,
    upper: &[u8; 4096],
) -> Result<(), PagesError>
    requires left { IsPage pages.old left }
    requires right { IsPage pages.old right }
    ensures map { OnOk result ((image : List Sector) → pages_of_map pages.new image
        ≡ set (set (pages_of_map pages.old image) left (Some lower.now)) right
        (Some upper.now)) }
    ensures changed_pages { OnOk result (FewChanged 2 pages.old pages.new) }
    ensures filled { OnOk result (FewFilled 2 pages.old pages.new) }
    ensures keeps { KeepsCommitted pages.old pages.new }
    ensures spent { OnlyIfSpent pages.old result }
    ensures cause { IfErr result IsPutRefusal }
{
    pages.edit(left, lower)?;
    pages.edit(right, upper)?;
    Ok(())
}

/// The two rows from a place on, which named two neighbours, name what became of them.
fn name_pair(node: &mut TreePage, place: usize, joined: &SplitResult)
    requires place { place + 1 < length node.old.rows }
    requires keys { HasKeys node.old.layout joined.now }
    ensures like { SameNode node.old node.new }
    ensures rows { rest_of node.old.layout (slice_index_or node.old.rows place []) ≡ big_bytes 4
        joined.now.page →
        IfSome joined.now.right (λ right. rest_of node.old.layout
        (slice_index_or node.old.rows (place + 1) []) ≡ big_bytes 4 right.page) →
        node.new.rows ≡ take place node.old.rows ++ (map (row_of node.old.layout)
        (run_of joined.now) ++ drop (place + 2) node.old.rows) }
{
    // That a place after the row fits is needed below.
    let _count = node.count();
    node.set_key(place, joined.left.key(0));
    match &joined.right {
        Some(right) => node.set_key(place + 1, right.node.key(0)),
        None => node.remove(place + 1),
    }
}

/// Joins the two neighbours that the rows from a place on name, and puts the page above them back.
fn rebalance_pair(
    pages: &mut PageMap,
    page: u32,
    mut node: TreePage,
    place: usize,
    left: Child,
    right: Child,
) -> Result<RemovalOutcome, PagesError>
    requires page { IsPage pages.old page }
    requires inner { node.kind ≡ Kind.Inner }
    requires place { place + 1 < length node.rows }
    requires layout { left.node.layout ≡ node.layout }
    requires like { SameNode left.node right.node }
    requires many { 2 ≤ length left.node.rows + length right.node.rows }
    ensures joins { IfOk result (JoinsPair pages.old pages.new page node place left right) }
    ensures fits { IfOk result (FitsAbove node.layout) }
    ensures changed_pages { IfOk result (LeavesFewChanged 3 pages.old pages.new) }
    ensures filled { IfOk result (LeavesFewFilled 3 pages.old pages.new) }
    ensures keeps { KeepsCommitted pages.old pages.new }
    ensures damaged { NeverTwo pages.old left.page right.page (ReturnsDamaged result) }
    ensures spent { OnlyIfSpent pages.old result }
    ensures cause { IfErr result IsRestRefusal }
{
    let joined = rebalance(pages, left, right)?;
    name_pair(&mut node, place, &joined);
    let outcome = write_back(pages, page, node, place > 0)?;
    Ok(outcome)
}
