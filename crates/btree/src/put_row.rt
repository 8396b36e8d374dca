//! A row comes into a page.
ghost use Rattle.std.specs.Prelude.{◌≡◌, ◌≤◌, ◌<◌, ◌+◌, ◌++◌, length, IfOk, IfErr};
ghost use Rattle.std.specs.List.{insert};
ghost use Rattle.pages.specs.Pages.{IsPage, KeepsCommitted};
ghost use Rattle.btree_pages.specs.RowLayouts.{rest_length, capacity};
ghost use Rattle.btree.specs.Changes.{CanTake, IsSplit};
ghost use Rattle.btree.specs.Refusals.{IsPutRefusal, IsWriteRefusal};
ghost use Rattle.btree.specs.Results.{ExactlyIfSpent, FullIfUsed, FewChanged, FewFilled};
ghost use Rattle.btree.specs.Puts.{PutsWhere, HasInserted, HasRowLengths};

use crate::split_node::split_node;
use crate::split_result::{Right, SplitResult};
use btree_pages::TreePage;
use pages::{PageMap, PagesError};

/// Puts a row at a place of the node on a page. If the page is full, it gives rows to a new one to its right.
pub(crate) fn put_row(
    pages: &mut PageMap,
    page: u32,
    node: TreePage,
    place: usize,
    key: &[u8],
    rest: &[u8],
) -> Result<SplitResult, PagesError>
    requires page { IsPage pages.old page }
    requires place { place ≤ length node.rows }
    requires key { length key.now ≡ node.layout.key_length }
    requires rest { length rest.now ≡ rest_length node.layout node.kind }
    ensures rows { IfOk result (HasInserted node.rows place (key.now ++ rest.now)) }
    ensures pages { IfOk result (PutsWhere CanTake pages.old pages.new page node) }
    ensures split { IfOk result (λ split. IsSplit page node split) }
    ensures changed_pages { FewChanged 2 pages.old pages.new }
    ensures filled { FewFilled 2 pages.old pages.new }
    ensures keeps { KeepsCommitted pages.old pages.new }
    ensures cause { IfErr result IsWriteRefusal }
    ensures full { FullIfUsed pages.new result }
    ensures spent { ExactlyIfSpent pages.old result }
{
    if node.is_full() {
        put_in_two(pages, page, node, place, key, rest)
    } else {
        put_in_one(pages, page, node, place, key, rest)
    }
}

/// The page has room.
fn put_in_one(
    pages: &mut PageMap,
    page: u32,
    mut node: TreePage,
    place: usize,
    key: &[u8],
    rest: &[u8],
) -> Result<SplitResult, PagesError>
    requires page { IsPage pages.old page }
    requires room { length node.rows < capacity node.layout node.kind }
    requires place { place ≤ length node.rows }
    requires row { HasRowLengths node key.now rest.now }
    ensures rows { IfOk result (HasInserted node.rows place (key.now ++ rest.now)) }
    ensures pages { IfOk result (PutsWhere CanTake pages.old pages.new page node) }
    ensures split { IfOk result (λ split. IsSplit page node split) }
    ensures changed_pages { FewChanged 1 pages.old pages.new }
    ensures filled { FewFilled 1 pages.old pages.new }
    ensures keeps { KeepsCommitted pages.old pages.new }
    ensures cause { IfErr result IsPutRefusal }
    ensures spent { ExactlyIfSpent pages.old result }
{
    node.insert(place, key, rest);
    let spelled = node.bytes();
    pages.edit(page, &spelled)?;
    Ok(SplitResult {
        page,
        left: node,
        right: None,
    })
}

/// The page is full.
fn put_in_two(
    pages: &mut PageMap,
    page: u32,
    mut node: TreePage,
    place: usize,
    key: &[u8],
    rest: &[u8],
) -> Result<SplitResult, PagesError>
    requires page { IsPage pages.old page }
    requires full { capacity node.layout node.kind ≤ length node.rows }
    requires place { place ≤ length node.rows }
    requires row { HasRowLengths node key.now rest.now }
    ensures rows { IfOk result (HasInserted node.rows place (key.now ++ rest.now)) }
    ensures pages { IfOk result (PutsWhere CanTake pages.old pages.new page node) }
    ensures split { IfOk result (λ split. IsSplit page node split) }
    ensures changed_pages { FewChanged 2 pages.old pages.new }
    ensures filled { FewFilled 2 pages.old pages.new }
    ensures keeps { KeepsCommitted pages.old pages.new }
    ensures cause { IfErr result IsWriteRefusal }
    ensures full { FullIfUsed pages.new result }
    ensures spent { ExactlyIfSpent pages.old result }
{
    // What these two tell is needed below: the page's layout is sound, and how many page numbers there are.
    let _count = node.count();
    let _page_count = pages.page_count();
    let new = pages.allocate()?;
    let right = split_node(&mut node, place, key, rest);
    let lower = node.bytes();
    pages.edit(page, &lower)?;
    let upper = right.bytes();
    pages.edit(new, &upper)?;
    Ok(SplitResult {
        page,
        left: node,
        right: Some(Right {
            page: new,
            node: right,
        }),
    })
}
