//! The trees of a file, as the catalog names them.
ghost use Rattle.std.specs.Prelude.{◌≡◌, length};
ghost use Rattle.records.specs.Stores.{spec_of, IsKey};
ghost use Rattle.volume_format.specs.Chained.{chained_bytes};
ghost use Rattle.volume_format.specs.Trees.{layout_under};
ghost use Rattle.alternate_keys.specs.Listed.{root_in};

use btree::Tree;
use records::{FileSpec, KeyOfReference};
use row_trees::RowTree;
use std::alloc::Global;
use volume_format::{alternate_root, chained_bytes, prime_root, tree_layout};

/// The tree of a key, by a value of the catalog.
pub(crate) fn file_tree(alloc: Global, file: &FileSpec, key: KeyOfReference, value: &[u8]) -> Tree
    requires key { IsKey (spec_of file.now) key }
    requires value { length value.now ≡ 83 }
    ensures layout { result.layout ≡ layout_under (spec_of file.now) key }
    ensures root { result.root ≡ root_in key value.now }
{
    let layout = tree_layout(file, key);
    let root = match key {
        KeyOfReference::Prime => prime_root(value),
        KeyOfReference::Alternate(i) => alternate_root(value, i),
    };
    Tree::new(alloc, layout, root)
}

/// The tree of rows, by a value of the catalog.
pub(crate) fn row_tree(alloc: Global, file: &FileSpec, value: &[u8]) -> RowTree
    requires { length value.now ≡ 83 }
    ensures layout { result.tree.layout ≡ layout_under (spec_of file.now) KeyOfReference.Prime }
    ensures root { result.tree.root ≡ root_in KeyOfReference.Prime value.now }
    ensures form { result.record_bytes ≡ chained_bytes (spec_of file.now) }
{
    let layout = tree_layout(file, KeyOfReference::Prime);
    RowTree::new(alloc, layout, chained_bytes(file), prime_root(value))
}
