//! A full page is divided in two.
ghost use Rattle.std.specs.Prelude.{◌≡◌, ◌≤◌, ◌++◌, length};
ghost use Rattle.std.specs.List.{insert};
ghost use Rattle.btree_pages.specs.RowLayouts.{rest_length};
ghost use Rattle.btree.specs.Tree.{fewest};
ghost use Rattle.btree.specs.Nodes.{SameNode};

use btree_pages::{Kind, TreePage};

/// Puts a row into a page of at least three rows that gives rows to another one, which is answered: the lower rows stay. A row after
/// the last one goes into a page of its own, so that ascending rows leave full pages, or, in an inner page, into one with the last row.
pub(crate) fn split_node(node: &mut TreePage, place: usize, key: &[u8], rest: &[u8]) -> TreePage
    requires full { 3 ≤ length node.old.rows }
    requires place { place ≤ length node.old.rows }
    requires key { length key.now ≡ node.old.layout.key_length }
    requires rest { length rest.now ≡ rest_length node.old.layout node.old.kind }
    ensures rows { node.new.rows ++ result.rows ≡ insert node.old.rows place (key.now ++ rest.now) }
    ensures left { SameNode node.old node.new }
    ensures right { SameNode node.old result }
    ensures left_enough { fewest node.old.kind ≤ length node.new.rows }
    ensures right_enough { fewest node.old.kind ≤ length result.rows }
{
    let count = node.count();
    if place == count {
        return split_end(node, key, rest);
    }
    let half = (count + 1) / 2;
    if place < half {
        let right = node.split_off(half - 1);
        node.insert(place, key, rest);
        return right;
    }
    let mut right = node.split_off(half);
    right.insert(place - half, key, rest);
    right
}

/// A row after the last one.
fn split_end(node: &mut TreePage, key: &[u8], rest: &[u8]) -> TreePage
    requires full { 3 ≤ length node.old.rows }
    requires key { length key.now ≡ node.old.layout.key_length }
    requires rest { length rest.now ≡ rest_length node.old.layout node.old.kind }
    ensures rows { node.new.rows ++ result.rows
        ≡ insert node.old.rows (length node.old.rows) (key.now ++ rest.now) }
    ensures left { SameNode node.old node.new }
    ensures right { SameNode node.old result }
    ensures left_enough { fewest node.old.kind ≤ length node.new.rows }
    ensures right_enough { fewest node.old.kind ≤ length result.rows }
{
    let count = node.count();
    let stays = match node.kind() {
        Kind::Leaf => count,
        Kind::Inner => count - 1,
    };
    let mut right = node.split_off(stays);
    right.insert(count - stays, key, rest);
    right
}
