//! A new page of a tree.
ghost use Rattle.std.specs.Prelude.{◌≡◌, ◌<◌, ◌+◌, ◌++◌, [], ◌∷◌, length, IfOk, IfErr};
ghost use Rattle.pages.specs.Pages.{KeepsCommitted};
ghost use Rattle.btree_pages.specs.RowLayouts.{IsRowLayout};
ghost use Rattle.btree.specs.Refusals.{IsWriteRefusal};
ghost use Rattle.btree.specs.Results.{ExactlyIfSpent, FullIfUsed, FewChanged, FewFilled};
ghost use Rattle.btree.specs.Puts.{PutsNew, PutsRows, two_rows};

use crate::split_result::{Right, SplitResult};
use btree_pages::{Kind, RowLayout, TreePage};
use pages::{PageMap, PagesError};

/// The first page of a tree: a leaf with one row.
#[tactic(auto, using(crate::proofs::SplitNodes::three_fit))]
pub(crate) fn first_leaf(
    pages: &mut PageMap,
    layout: RowLayout,
    key: &[u8],
    value: &[u8],
) -> Result<u32, PagesError>
    requires layout { IsRowLayout layout }
    requires key { length key.now ≡ layout.key_length }
    requires value { length value.now ≡ layout.value_length }
    ensures some { IfOk result (λ page. 0 < page) }
    ensures pages { IfOk result
        (PutsRows layout Kind.Leaf pages.old pages.new ((key.now ++ value.now) ∷ [])) }
    ensures changed_pages { FewChanged 1 pages.old pages.new }
    ensures filled { FewFilled 1 pages.old pages.new }
    ensures keeps { KeepsCommitted pages.old pages.new }
    ensures cause { IfErr result IsWriteRefusal }
    ensures full { FullIfUsed pages.new result }
    ensures spent { ExactlyIfSpent pages.old result }
{
    let mut leaf = TreePage::new(layout, Kind::Leaf);
    leaf.insert(0, key, value);
    let page = put_new(pages, &leaf)?;
    Ok(page)
}

/// A page above a page and its new neighbour, which names both.
#[tactic(auto, using(crate::proofs::SplitNodes::three_fit))]
pub(crate) fn new_root(
    pages: &mut PageMap,
    layout: RowLayout,
    split: &SplitResult,
    right: &Right,
) -> Result<u32, PagesError>
    requires layout { IsRowLayout layout }
    requires left_layout { split.now.left.layout ≡ layout }
    requires left_some { 0 < length split.now.left.rows }
    requires right_layout { right.now.node.layout ≡ layout }
    requires right_some { 0 < length right.now.node.rows }
    ensures some { IfOk result (λ page. 0 < page) }
    ensures pages { IfOk result
        (PutsRows layout Kind.Inner pages.old pages.new (two_rows layout split.now right.now)) }
    ensures changed_pages { FewChanged 1 pages.old pages.new }
    ensures filled { FewFilled 1 pages.old pages.new }
    ensures keeps { KeepsCommitted pages.old pages.new }
    ensures cause { IfErr result IsWriteRefusal }
    ensures full { FullIfUsed pages.new result }
    ensures spent { ExactlyIfSpent pages.old result }
{
    let mut top = TreePage::new(layout, Kind::Inner);
    top.insert_child(0, split.left.key(0), split.page);
    top.insert_child(1, right.node.key(0), right.page);
    let page = put_new(pages, &top)?;
    Ok(page)
}

/// Puts a node on a page that wasn't in the map.
pub(crate) fn put_new(pages: &mut PageMap, node: &TreePage) -> Result<u32, PagesError>
    ensures some { IfOk result (λ page. 0 < page) }
    ensures pages { IfOk result (PutsNew pages.old pages.new node.now) }
    ensures changed_pages { FewChanged 1 pages.old pages.new }
    ensures filled { FewFilled 1 pages.old pages.new }
    ensures keeps { KeepsCommitted pages.old pages.new }
    ensures cause { IfErr result IsWriteRefusal }
    ensures full { FullIfUsed pages.new result }
    ensures spent { ExactlyIfSpent pages.old result }
{
    // How many page numbers there are is needed below.
    let _page_count = pages.page_count();
    let page = pages.allocate()?;
    let spelled = node.bytes();
    pages.edit(page, &spelled)?;
    Ok(page)
}
