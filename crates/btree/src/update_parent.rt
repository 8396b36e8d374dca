//! A page learns what became of one of its children.
ghost use Rattle.std.specs.Prelude.{◌≡◌, ◌<◌, ◌+◌, ◌⊎◌, None, length, IfOk, IfErr, IfSome, IsSome, MatchOption};
ghost use Rattle.pages.specs.Pages.{IsPage, KeepsCommitted};
ghost use Rattle.btree.specs.Tree.{row_of};
ghost use Rattle.btree.specs.Propagates.{node_with};
ghost use Rattle.btree.specs.Changes.{CanStand, IsSplit, HasKeys};
ghost use Rattle.btree.specs.Refusals.{IsPutRefusal, IsWriteRefusal};
ghost use Rattle.btree.specs.Results.{ExactlyIfSpent, FullIfUsed, FewChanged, FewFilled};
ghost use Rattle.btree.specs.Puts.{PutsWhere, PutsParent, HasInserted};

use crate::put_row::put_row;
use crate::split_result::{Right, SplitResult};
use btree_pages::{Kind, TreePage};
use pages::{PageMap, PagesError};

/// What the page above has to know of a page that a row came to at a place: nothing, where the page kept its least key and gave no
/// row away.
pub(crate) fn told(split: SplitResult, place: usize) -> Option<SplitResult>
    ensures is { MatchOption result ((0 < place) × (split.right ≡ None)) (λ told. told ≡ split) }
    ensures needed { IfSome result (λ told. (place ≡ 0) ⊎ IsSome told.right) }
{
    if place == 0 || split.right.is_some() {
        return Some(split);
    }
    None
}

/// Puts a node back on its page.
pub(crate) fn put_back(
    pages: &mut PageMap,
    page: u32,
    node: TreePage,
) -> Result<SplitResult, PagesError>
    requires page { IsPage pages.old page }
    ensures is { IfOk result
        (λ split. (split.page ≡ page) × (split.left ≡ node) × (split.right ≡ None)) }
    ensures pages { IfOk result (PutsWhere CanStand pages.old pages.new page node) }
    ensures changed_pages { FewChanged 1 pages.old pages.new }
    ensures filled { FewFilled 1 pages.old pages.new }
    ensures keeps { KeepsCommitted pages.old pages.new }
    ensures cause { IfErr result IsPutRefusal }
    ensures spent { ExactlyIfSpent pages.old result }
{
    let spelled = node.bytes();
    pages.edit(page, &spelled)?;
    Ok(SplitResult {
        page,
        left: node,
        right: None,
    })
}

/// A row that names a page follows that at a place.
fn put_beside(
    pages: &mut PageMap,
    page: u32,
    node: TreePage,
    place: usize,
    right: &Right,
) -> Result<SplitResult, PagesError>
    requires page { IsPage pages.old page }
    requires inner { node.kind ≡ Kind.Inner }
    requires place { place < length node.rows }
    requires layout { right.now.node.layout ≡ node.layout }
    requires some { 0 < length right.now.node.rows }
    ensures rows { IfOk result (HasInserted node.rows (place + 1)
        (row_of node.layout (node_with right.now.page right.now.node.rows))) }
    ensures pages { IfOk result (PutsWhere CanStand pages.old pages.new page node) }
    ensures split { IfOk result (λ split. IsSplit page node split) }
    ensures changed_pages { FewChanged 2 pages.old pages.new }
    ensures filled { FewFilled 2 pages.old pages.new }
    ensures keeps { KeepsCommitted pages.old pages.new }
    ensures cause { IfErr result IsWriteRefusal }
    ensures full { FullIfUsed pages.new result }
    ensures spent { ExactlyIfSpent pages.old result }
{
    // That a place after the row fits is needed below.
    let _count = node.count();
    let number = right.page.to_be_bytes();
    let split = put_row(pages, page, node, place + 1, right.node.key(0), &number)?;
    Ok(split)
}

/// The row at a place of an inner page gets the least key of the page that it names, and a row for that page's new neighbour comes
/// after it.
pub(crate) fn update_parent(
    pages: &mut PageMap,
    page: u32,
    mut node: TreePage,
    place: usize,
    split: &SplitResult,
) -> Result<Option<SplitResult>, PagesError>
    requires page { IsPage pages.old page }
    requires inner { node.kind ≡ Kind.Inner }
    requires place { place < length node.rows }
    requires keys { HasKeys node.layout split.now }
    ensures pages { IfOk result (PutsParent pages.old pages.new page node place split.now) }
    ensures keys { IfOk result (λ up. IfSome up (HasKeys node.layout)) }
    ensures changed_pages { FewChanged 2 pages.old pages.new }
    ensures filled { FewFilled 2 pages.old pages.new }
    ensures keeps { KeepsCommitted pages.old pages.new }
    ensures cause { IfErr result IsWriteRefusal }
    ensures full { FullIfUsed pages.new result }
    ensures spent { ExactlyIfSpent pages.old result }
{
    node.set_key(place, split.left.key(0));
    match &split.right {
        Some(right) => {
            let beside = put_beside(pages, page, node, place, right)?;
            let up = told(beside, place);
            Ok(up)
        }
        None => {
            let back = put_back(pages, page, node)?;
            let same = told(back, place);
            Ok(same)
        }
    }
}
