//! The child of an inner page that a key leads to.
ghost use Rattle.std.specs.Prelude.{◌≡◌, ◌≤◌, ◌<◌, ◌+◌, Some, [], length, slice_index_or, OnOk, IsOk};
ghost use Rattle.btree_pages.specs.Keys.{key_of, keys_of, Ascend};
ghost use Rattle.btree.specs.Path.{IsChosen};

use crate::key::Key;
use btree_pages::NodeView;
use std::alloc::{AllocError, Global};

/// The child that a row of an inner page names: the row's place, and the child's page.
#[derive(Clone, Copy)]
pub(crate) struct Child {
    pub place: usize,
    pub page: u32,
}

/// The place of the last row whose key isn't above this one, or of the first row.
pub(crate) fn child_place(node: &NodeView, key: &[u8]) -> usize
    requires { 0 < length node.now.rows }
    ensures low { result < length node.now.rows }
    ensures chosen { Ascend (keys_of node.now.layout node.now.rows)
        → IsChosen node.now.layout key.now node.now.rows result }
{
    match node.find(key) {
        Ok(place) => place,
        Err(place) => {
            if place == 0 {
                return 0;
            }
            place - 1
        }
    }
}

/// Notes the key after a place, if the page has one. Else what is to the right of the page stays noted.
pub(crate) fn note_right(
    alloc: Global,
    node: &NodeView,
    place: usize,
    right: &mut Option<Key>,
) -> Result<(), AllocError>
    requires { place < length node.now.rows }
    ensures within { place + 1 < length node.now.rows → OnOk result
        (right.new ≡ Some (key_of node.now.layout (slice_index_or node.now.rows (place + 1) []))) }
    ensures beyond { length node.now.rows ≤ place + 1 → OnOk result (right.new ≡ right.old) }
    ensures succeeds { node.now.layout.key_length ≤ 128 → IsOk result }
{
    if node.count() - place > 1 {
        *right = Some(Key::copy(alloc, node.key(place + 1))?);
    }
    Ok(())
}
