//! Changes of a page, and its bytes.
ghost use Rattle.std.specs.Prelude.{◌≡◌, ◌≤◌, ◌<◌, ◌+◌, ◌++◌, length, take, drop, Some};
ghost use Rattle.byteorder.specs.Endian.{big_bytes};
ghost use Rattle.btree_pages.specs.RowLayouts.{IsRowLayout, capacity, rest_length};
ghost use Rattle.btree_pages.specs.Node.{HasZeros, node_in};
ghost use Rattle.btree_pages.specs.Edits.{empty_node, node_with_row, node_without_row, with_key, with_rest, with_rows};

use crate::header::{head, joined};
use crate::row_bytes::{append_rows, front, insert_row, put_key, put_rest, remove_row, split_rows};
use crate::row_layout::{Kind, RowLayout};
use crate::tree_page::TreePage;

impl TreePage {
    /// A page without rows.
    pub fn new(layout: RowLayout, kind: Kind) -> TreePage
        requires { IsRowLayout layout }
        ensures { result ≡ empty_node layout kind }
    {
        TreePage {
            bytes: [0; 4080],
            layout,
            kind,
            count: 0,
        }
    }

    /// The bytes that `read` reads this page from. Those that name nothing are zeros.
    pub fn bytes(&self) -> [u8; 4096]
        ensures reads { node_in self.now.layout result ≡ Some self.now }
        ensures zeros { HasZeros self.now result }
    {
        let end = self.count * self.layout.row_length(self.kind);
        let rows = front(&self.bytes, end);
        joined(&head(self.kind, self.count), &rows)
    }

    /// A row comes to this place. There must be room for it.
    pub fn insert(&mut self, place: usize, key: &[u8], rest: &[u8])
        requires place { place ≤ length self.old.rows }
        requires room { length self.old.rows < capacity self.old.layout self.old.kind }
        requires key { length key.now ≡ self.old.layout.key_length }
        requires rest { length rest.now ≡ rest_length self.old.layout self.old.kind }
        ensures { self.new ≡ node_with_row self.old place (key.now ++ rest.now) }
    {
        let row = self.layout.row_length(self.kind);
        insert_row(&mut self.bytes, row, self.count, place, key, rest);
        self.count += 1;
    }

    /// A row for a child comes to this place of an inner page. There must be room for it.
    pub fn insert_child(&mut self, place: usize, key: &[u8], page: u32)
        requires inner { self.old.kind ≡ Kind.Inner }
        requires place { place ≤ length self.old.rows }
        requires room { length self.old.rows < capacity self.old.layout self.old.kind }
        requires key { length key.now ≡ self.old.layout.key_length }
        ensures { self.new ≡ node_with_row self.old place (key.now ++ big_bytes 4 page) }
    {
        self.insert(place, key, &page.to_be_bytes());
    }

    /// The row at this place goes.
    pub fn remove(&mut self, place: usize)
        requires { place < length self.old.rows }
        ensures { self.new ≡ node_without_row self.old place }
    {
        let row = self.layout.row_length(self.kind);
        remove_row(&mut self.bytes, row, self.count, place);
        self.count -= 1;
    }

    /// The row at this place gets another key.
    pub fn set_key(&mut self, place: usize, key: &[u8])
        requires place { place < length self.old.rows }
        requires key { length key.now ≡ self.old.layout.key_length }
        ensures { self.new ≡ with_key self.old place key.now }
    {
        let row = self.layout.row_length(self.kind);
        put_key(&mut self.bytes, row, self.count, place, key);
    }

    /// What follows the key of the row at this place becomes this.
    pub fn set_rest(&mut self, place: usize, rest: &[u8])
        requires place { place < length self.old.rows }
        requires rest { length rest.now ≡ rest_length self.old.layout self.old.kind }
        ensures { self.new ≡ with_rest self.old place rest.now }
    {
        let row = self.layout.row_length(self.kind);
        put_rest(
            &mut self.bytes,
            row,
            self.count,
            place,
            self.layout.key_length,
            rest,
        );
    }

    /// Takes the rows from this place on out of the page, as a page of their own.
    pub fn split_off(&mut self, place: usize) -> TreePage
        requires { place ≤ length self.old.rows }
        ensures left { self.new ≡ with_rows self.old (take place self.old.rows) }
        ensures right { result ≡ with_rows self.old (drop place self.old.rows) }
    {
        let row = self.layout.row_length(self.kind);
        let right = TreePage {
            bytes: split_rows(&mut self.bytes, row, self.count, place),
            layout: self.layout,
            kind: self.kind,
            count: self.count - place,
        };
        self.count = place;
        right
    }

    /// The rows of another page of the same kind follow the last one. There must be room for them.
    pub fn append(&mut self, other: &TreePage)
        requires layout { other.now.layout ≡ self.old.layout }
        requires kind { other.now.kind ≡ self.old.kind }
        requires room { length self.old.rows + length other.now.rows
            ≤ capacity self.old.layout self.old.kind }
        ensures { self.new ≡ with_rows self.old (self.old.rows ++ other.now.rows) }
    {
        let row = self.layout.row_length(self.kind);
        append_rows(&mut self.bytes, row, self.count, &other.bytes, other.count);
        self.count += other.count;
    }
}
