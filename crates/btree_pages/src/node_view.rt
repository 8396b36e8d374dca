//! A page of a tree where its bytes stand.
ghost use Rattle.std.specs.Prelude.{◌≡◌, ◌<◌, [], length, slice_index_or};
ghost use Rattle.btree_pages.specs.RowLayouts.{IsRowLayout, rest_length, row_length};
ghost use Rattle.btree_pages.specs.Keys.{key_of, rest_of, child_of};
ghost use Rattle.btree_pages.specs.Node.{IsNode, node_in};

use crate::header::{COUNT_AT, ROWS_AT, kind_of};
use crate::row_layout::{Kind, RowLayout};
use crate::tree_page::TreePage;
use byteorder::{BigEndian, ByteOrder};
use std::marker::Model;

/// The rows of a page in bytes that another keeps. They are read and not copied.
#[derive(Drop)]
pub struct NodeView<'a> {
    pub(crate) rows: &'a [u8],
    pub(crate) layout: RowLayout,
    pub(crate) kind: Kind,
    pub(crate) count: usize,
}

impl<'a> Model for NodeView<'a> {
    ghost use Rattle.std.specs.Prelude.{◌≡◌, ◌≤◌, length};
    ghost use Rattle.btree_pages.specs.RowLayouts.{IsRowLayout, row_length, capacity};
    ghost use Rattle.btree_pages.specs.Node.{Node, rows_in};

    ghost Value = { Node };

    ghost view = { λ node. record {
      layout = node.layout;
      kind = node.kind;
      rows = rows_in (row_length node.layout node.kind) node.count node.rows.now;
    } };

    ghost invariant = { λ node. IsRowLayout node.layout
        × (node.count ≤ capacity node.layout node.kind) × (length node.rows.now ≡ 4080) };
}

impl<'a> NodeView<'a> {
    /// The page of a tree of this layout that these bytes spell: the kind in byte 0 (1 for a leaf, 2 for an inner page), the number
    /// of rows in bytes 2 and 3, big-endian, and the rows from byte 16 on. `None` where the kind is neither or the rows don't fit.
    pub fn read(bytes: &'a [u8; 4096], layout: RowLayout) -> Option<NodeView<'a>>
        requires { IsRowLayout layout }
        ensures { result ≡ node_in layout bytes.now }
    {
        let kind = kind_of(bytes[0])?;
        let (_, number) = bytes.split_at(COUNT_AT);
        let count = BigEndian::read_u16(number) as usize;
        if layout.capacity(kind) < count {
            return None;
        }
        let (_, rows) = bytes.split_at(ROWS_AT);
        Some(NodeView {
            rows,
            layout,
            kind,
            count,
        })
    }

    /// A page of its own with these rows.
    pub fn to_page(&self) -> TreePage
        ensures { result ≡ self.now }
    {
        let mut bytes = [0; 4080];
        bytes.copy_from_slice(self.rows);
        TreePage {
            bytes,
            layout: self.layout,
            kind: self.kind,
            count: self.count,
        }
    }

    /// How many rows there are.
    pub fn count(&self) -> usize
        ensures rows { result ≡ length self.now.rows }
        ensures node { IsNode self.now }
    {
        self.count
    }

    pub fn kind(&self) -> Kind
        ensures { result ≡ self.now.kind }
    {
        self.kind
    }

    pub fn layout(&self) -> RowLayout
        ensures { result ≡ self.now.layout }
    {
        self.layout
    }

    /// The row at this place.
    pub fn row(&self, place: usize) -> &'a [u8]
        requires { place < length self.now.rows }
        ensures row { result.now ≡ slice_index_or self.now.rows place [] }
        ensures length { length result.now ≡ row_length self.now.layout self.now.kind }
    {
        let length = self.layout.row_length(self.kind);
        let (_, from) = self.rows.split_at(place * length);
        let (row, _) = from.split_at(length);
        row
    }

    /// The key of the row at this place.
    pub fn key(&self, place: usize) -> &'a [u8]
        requires { place < length self.now.rows }
        ensures key { result.now ≡ key_of self.now.layout (slice_index_or self.now.rows place []) }
        ensures length { length result.now ≡ self.now.layout.key_length }
    {
        let (key, _) = self.row(place).split_at(self.layout().key_length);
        key
    }

    /// What follows the key of the row at this place: a leaf's value, or an inner page's page number in 4 bytes.
    pub fn rest(&self, place: usize) -> &'a [u8]
        requires { place < length self.now.rows }
        ensures rest { result.now
            ≡ rest_of self.now.layout (slice_index_or self.now.rows place []) }
        ensures length { length result.now ≡ rest_length self.now.layout self.now.kind }
    {
        let (_, rest) = self.row(place).split_at(self.layout().key_length);
        rest
    }

    /// The page of the child that the row at this place of an inner page names.
    pub fn child(&self, place: usize) -> u32
        requires inner { self.now.kind ≡ Kind.Inner }
        requires place { place < length self.now.rows }
        ensures { result ≡ child_of self.now.layout (slice_index_or self.now.rows place []) }
    {
        BigEndian::read_u32(self.rest(place))
    }
}
