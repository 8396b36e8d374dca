//! A tree of rows.
ghost use Rattle.std.specs.Prelude.{◌≡◌};
ghost use Rattle.btree_pages.specs.RowLayouts.{IsRowLayout};
ghost use Rattle.row_trees.specs.RowTree.{FitsForm};

use btree::Tree;
use btree_pages::RowLayout;
use std::alloc::Global;
use std::marker::Model;

/// A tree of rows. An entry's value is a record and what follows it. If records are in chains, the tree has the first page of the chain
/// in the place of the record.
#[derive(Drop)]
pub struct RowTree {
    pub(crate) tree: Tree,
    pub(crate) record_bytes: u16,
}

impl Model for RowTree {
    ghost use Rattle.row_trees.specs.RowTree.{ChainedTree, FitsForm};

    ghost Value = { ChainedTree };

    ghost view = { λ rows. record { tree = rows.tree; record_bytes = rows.record_bytes } };

    ghost invariant = { λ rows. FitsForm rows.record_bytes rows.tree.layout };
}

impl RowTree {
    /// The tree with that root page, and with records of so many bytes in chains, or 0 if it has its records itself. Nothing is read.
    pub fn new(alloc: Global, layout: RowLayout, record_bytes: u16, root: u32) -> RowTree
        requires layout { IsRowLayout layout }
        requires form { FitsForm record_bytes layout }
        ensures layout { result.tree.layout ≡ layout }
        ensures root { result.tree.root ≡ root }
        ensures form { result.record_bytes ≡ record_bytes }
    {
        RowTree {
            tree: Tree::new(alloc, layout, root),
            record_bytes,
        }
    }

    /// The page of its root, 0 if it has no entries.
    pub fn root(&self) -> u32
        ensures { result ≡ self.now.tree.root }
    {
        self.tree.root()
    }

    /// The tree without its chains, in which keys are sought.
    pub fn tree(&self) -> &Tree
        ensures { result.now ≡ self.now.tree }
    {
        &self.tree
    }
}
