//! A tree is built of its leaves.
ghost use Rattle.std.specs.Prelude.{◌≡◌, ◌≤◌, ◌+◌, length, IfOk, IfErr};
ghost use Rattle.std.specs.List.{All};
ghost use Rattle.pages.specs.Pages.{KeepsCommitted};
ghost use Rattle.btree_pages.specs.RowLayouts.{IsRowLayout, capacity};
ghost use Rattle.btree.specs.Builds.{IsLeafOf, OkOnlyIfBuilt};
ghost use Rattle.btree.specs.Refusals.{IsWriteRefusal};
ghost use Rattle.btree.specs.Results.{OnlyIfSpent, FullIfUsed, FewChanged, FewFilled};

use crate::put_new::put_new;
use crate::tree::Tree;
use btree_pages::{Kind, RowLayout, TreePage};
use pages::{PageMap, PagesError};
use std::alloc::Global;

impl Tree {
    /// A tree of these leaves, from left to right, which one inner page can name. Its pages were in no tree. After a refusal the pages
    /// that aren't committed are given up with the map of pages. `Full` says that no page number is left.
    pub fn build(
        alloc: Global,
        layout: RowLayout,
        pages: &mut PageMap,
        leaves: &[TreePage],
    ) -> Result<Tree, PagesError>
        requires layout { IsRowLayout layout }
        requires leaves { All (IsLeafOf layout) leaves.now }
        requires few { length leaves.now ≤ capacity layout Kind.Inner }

        // If their keys ascend, it is a tree.
        ensures built { OkOnlyIfBuilt layout pages.old leaves.now pages.new result }
        ensures layout { IfOk result (λ tree. tree.layout ≡ layout) }

        // Each leaf takes a page, and so does the page above them.
        ensures changed_pages { FewChanged (length leaves.now + 1) pages.old pages.new }
        ensures filled { FewFilled (length leaves.now + 1) pages.old pages.new }
        ensures keeps { KeepsCommitted pages.old pages.new }
        ensures full { FullIfUsed pages.new result }
        ensures spent { OnlyIfSpent pages.old result }
        ensures cause { IfErr result IsWriteRefusal }
    {
        let mut top = TreePage::new(layout, Kind::Inner);
        let mut root = 0;
        // From the last leaf to the first: each comes before those that stand.
        for turn in 0..leaves.len() {
            let leaf = &leaves[leaves.len() - 1 - turn];
            // A clause of `count` says that its rows have their lengths.
            let _count = leaf.count();
            root = put_new(pages, leaf)?;
            top.insert_child(0, leaf.key(0), root);
        }
        if leaves.len() <= 1 {
            return Ok(Tree::new(alloc, layout, root));
        }
        let above = put_new(pages, &top)?;
        Ok(Tree::new(alloc, layout, above))
    }
}
