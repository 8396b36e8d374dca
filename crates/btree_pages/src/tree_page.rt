//! A page of a tree.
ghost use Rattle.std.specs.Prelude.{◌≡◌, ◌≤◌, ◌<◌, ◌↔◌, [], IsTrue, length, slice_index_or};
ghost use Rattle.btree_pages.specs.RowLayouts.{IsRowLayout, capacity, rest_length};
ghost use Rattle.btree_pages.specs.Keys.{key_of, rest_of, child_of};
ghost use Rattle.btree_pages.specs.Node.{IsNode, node_in};

use crate::node_view::NodeView;
use crate::row_layout::{Kind, RowLayout};
use std::marker::Model;

/// A page of a tree, as its rows.
#[derive(Drop)]
pub struct TreePage {
    pub(crate) bytes: [u8; 4080],
    pub(crate) layout: RowLayout,
    pub(crate) kind: Kind,
    pub(crate) count: usize,
}

impl Model for TreePage {
    ghost use Rattle.std.specs.Prelude.{◌≤◌};
    ghost use Rattle.btree_pages.specs.RowLayouts.{IsRowLayout, row_length, capacity};
    ghost use Rattle.btree_pages.specs.Node.{Node, rows_in};

    ghost Value = { Node };

    ghost view = { λ page. record {
      layout = page.layout;
      kind = page.kind;
      rows = rows_in (row_length page.layout page.kind) page.count page.bytes;
    } };

    ghost invariant = { λ page. IsRowLayout page.layout
        × (page.count ≤ capacity page.layout page.kind) };
}

impl TreePage {
    /// The page of a tree of this layout that these bytes spell: the kind in byte 0 (1 for a leaf, 2 for an inner page), the number
    /// of rows in bytes 2 and 3, big-endian, and the rows from byte 16 on. `None` where the kind is neither or the rows don't fit.
    pub fn read(bytes: [u8; 4096], layout: RowLayout) -> Option<TreePage>
        requires { IsRowLayout layout }
        ensures { result ≡ node_in layout bytes }
    {
        Some(NodeView::read(&bytes, layout)?.to_page())
    }

    /// The page where it stands.
    pub fn view(&self) -> NodeView<'_>
        ensures { result ≡ self.now }
    {
        NodeView {
            rows: &self.bytes,
            layout: self.layout,
            kind: self.kind,
            count: self.count,
        }
    }

    pub fn layout(&self) -> RowLayout
        ensures { result ≡ self.now.layout }
    {
        self.layout
    }

    pub fn kind(&self) -> Kind
        ensures { result ≡ self.now.kind }
    {
        self.kind
    }

    /// How many rows there are.
    pub fn count(&self) -> usize
        ensures rows { result ≡ length self.now.rows }
        ensures node { IsNode self.now }
    {
        self.count
    }

    /// Whether no further row has room.
    pub fn is_full(&self) -> bool
        ensures { IsTrue result ↔ (capacity self.now.layout self.now.kind ≤ length self.now.rows) }
    {
        let count = self.count();
        self.layout().capacity(self.kind()) <= count
    }

    /// The key of the row at this place.
    pub fn key(&self, place: usize) -> &[u8]
        requires { place < length self.now.rows }
        ensures key { result.now ≡ key_of self.now.layout (slice_index_or self.now.rows place []) }
        ensures length { length result.now ≡ self.now.layout.key_length }
    {
        self.view().key(place)
    }

    /// What follows the key of the row at this place: a leaf's value, or an inner page's page number in 4 bytes.
    pub fn rest(&self, place: usize) -> &[u8]
        requires { place < length self.now.rows }
        ensures rest { result.now
            ≡ rest_of self.now.layout (slice_index_or self.now.rows place []) }
        ensures length { length result.now ≡ rest_length self.now.layout self.now.kind }
    {
        self.view().rest(place)
    }

    /// The page of the child that the row at this place of an inner page names.
    pub fn child(&self, place: usize) -> u32
        requires inner { self.now.kind ≡ Kind.Inner }
        requires place { place < length self.now.rows }
        ensures { result ≡ child_of self.now.layout (slice_index_or self.now.rows place []) }
    {
        self.view().child(place)
    }
}
