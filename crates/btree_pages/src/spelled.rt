//! The bytes of a page after a change, written where they go, without a page between.
ghost use Rattle.std.specs.Prelude.{◌≡◌, ◌≤◌, ◌<◌, ◌+◌, ◌-◌, ◌*◌, ◌++◌, length, take, drop, replicate, Some};
ghost use Rattle.btree_pages.specs.RowLayouts.{capacity, rest_length, row_length};
ghost use Rattle.btree_pages.specs.Node.{HasZeros, node_in, rows_in};
ghost use Rattle.btree_pages.specs.Edits.{node_with_row, with_rest};

use crate::header::head;
use crate::node_view::NodeView;
use crate::row_bytes::put;

impl<'a> NodeView<'a> {
    /// The bytes of the rows before this place, and of those from it on.
    fn split_at_row(&self, place: usize) -> (&'a [u8], &'a [u8])
        requires { place ≤ length self.now.rows }
        ensures before { rows_in (row_length self.now.layout self.now.kind) place result.0.now
            ≡ take place self.now.rows }
        ensures before_length { length result.0.now
            ≡ place * row_length self.now.layout self.now.kind }
        ensures behind { rows_in (row_length self.now.layout self.now.kind)
            (length self.now.rows - place) result.1.now ≡ drop place self.now.rows }
        ensures behind_length { length result.1.now
            ≡ (length self.now.rows - place) * row_length self.now.layout self.now.kind }
    {
        let length = self.layout.row_length(self.kind);
        let (rows, _) = self.rows.split_at(self.count * length);
        rows.split_at(place * length)
    }

    /// Writes the bytes of this page once a row came to this place. There must be room for it. Those that name nothing become zeros.
    pub fn spell_inserted(&self, place: usize, key: &[u8], rest: &[u8], spelled: &mut [u8; 4096])
        requires place { place ≤ length self.now.rows }
        requires room { length self.now.rows < capacity self.now.layout self.now.kind }
        requires key { length key.now ≡ self.now.layout.key_length }
        requires rest { length rest.now ≡ rest_length self.now.layout self.now.kind }
        ensures reads { node_in self.now.layout spelled.new
            ≡ Some (node_with_row self.now place (key.now ++ rest.now)) }
        ensures zeros { HasZeros (node_with_row self.now place (key.now ++ rest.now)) spelled.new }
    {
        let head = head(self.kind(), self.count() + 1);
        let (before, behind) = self.split_at_row(place);
        spell_around(&head, before, key, rest, behind, spelled);
    }

    /// Writes the bytes of this page once what follows the key of the row at this place became this. Those that name nothing
    /// become zeros.
    pub fn spell_with_rest(&self, place: usize, rest: &[u8], spelled: &mut [u8; 4096])
        requires place { place < length self.now.rows }
        requires rest { length rest.now ≡ rest_length self.now.layout self.now.kind }
        ensures reads { node_in self.now.layout spelled.new
            ≡ Some (with_rest self.now place rest.now) }
        ensures zeros { HasZeros (with_rest self.now place rest.now) spelled.new }
    {
        let head = head(self.kind(), self.count());
        let (before, _) = self.split_at_row(place);
        let (_, behind) = self.split_at_row(place + 1);
        spell_around(&head, before, self.key(place), rest, behind, spelled);
    }
}

/// Puts bytes into a page from this place on, and tells where they end.
fn put_next(page: &mut [u8; 4096], at: usize, part: &[u8]) -> usize
    requires { at + length part.now ≤ 4096 }
    ensures end { result ≡ at + length part.now }
    ensures front { take result page.new ≡ take at page.old ++ part.now }
{
    put(page, at, part);
    at + part.len()
}

/// Writes zeros from this place of a page on.
fn clear_from(page: &mut [u8; 4096], at: usize)
    requires { at ≤ 4096 }
    ensures { page.new ≡ take at page.old ++ replicate (4096 - at) 0 }
{
    page[at..].fill(0);
}

/// Writes a head, the rows before a row, that row's key and rest, the rows after it, and zeros.
fn spell_around(
    head: &[u8; 16],
    before: &[u8],
    key: &[u8],
    rest: &[u8],
    behind: &[u8],
    spelled: &mut [u8; 4096],
)
    requires { length before.now + (length key.now + length rest.now) + length behind.now ≤ 4080 }
    ensures { let rows = before.now ++ ((key.now ++ rest.now) ++ behind.now) in
        spelled.new ≡ head.now ++ (rows ++ replicate (4080 - length rows) 0) }
{
    let before_at = put_next(spelled, 0, head);
    let key_at = put_next(spelled, before_at, before);
    let rest_at = put_next(spelled, key_at, key);
    let behind_at = put_next(spelled, rest_at, rest);
    let end = put_next(spelled, behind_at, behind);
    clear_from(spelled, end);
}
