//! An entry of a tree.
ghost use Rattle.std.specs.Prelude.{◌≡◌, ◌≤◌, length, take};

use btree_pages::{Kind, MOST_ROW_BYTES, NodeView};
use std::marker::Model;

/// An entry, of its own: the row of its leaf in place, with room for the longest one. `place` is where its leaf had it, and a search for
/// the entry after it looks there first.
#[derive(Drop)]
pub struct Entry {
    bytes: [u8; MOST_ROW_BYTES],
    length: usize,
    key_length: usize,
    pub(crate) place: usize,
}

impl Model for Entry {
    ghost use Rattle.std.specs.Prelude.{◌≤◌, take, drop};
    ghost use Rattle.btree.specs.Entries.{Entry as Listed};

    ghost Value = { Listed };

    ghost view = { λ entry. record {
      key = take entry.key_length (take entry.length entry.bytes);
      value = drop entry.key_length (take entry.length entry.bytes);
    } };

    ghost invariant = { λ entry. (entry.key_length ≤ entry.length) × (entry.length ≤ 1360) };
}

/// Puts bytes in front.
fn put_front(bytes: &mut [u8; MOST_ROW_BYTES], part: &[u8])
    requires { length part.now ≤ 1360 }
    ensures { take (length part.now) bytes.new ≡ part.now }
{
    bytes[..part.len()].copy_from_slice(part);
}

impl Entry {
    ghost use Rattle.std.specs.Prelude.{◌<◌, [], slice_index_or};
    ghost use Rattle.btree_pages.specs.Node.{IsNode};
    ghost use Rattle.btree.specs.Entries.{HasLengths, entry_of};
    ghost use Rattle.btree.specs.Places.{if_found};

    /// An entry without bytes.
    pub fn blank() -> Entry
        ensures { result ≡ record { key = []; value = [] } }
    {
        Entry {
            bytes: [0; MOST_ROW_BYTES],
            length: 0,
            key_length: 0,
            place: 0,
        }
    }

    /// It becomes the entry at a place of a leaf.
    pub(crate) fn take_row(&mut self, leaf: &NodeView, place: usize)
        requires place { place < length leaf.now.rows }
        requires node { IsNode leaf.now }
        requires kind { leaf.now.kind ≡ Kind.Leaf }
        ensures is { self.new ≡ entry_of leaf.now.layout (slice_index_or leaf.now.rows place []) }
        ensures lengths { HasLengths leaf.now.layout self.new }
    {
        let row = leaf.row(place);
        put_front(&mut self.bytes, row);
        self.length = row.len();
        self.key_length = leaf.layout().key_length;
        self.place = place;
    }

    /// The entry, if it was found.
    pub(crate) fn if_found(self, found: bool) -> Option<Entry>
        ensures { result ≡ if_found found self }
    {
        if found { Some(self) } else { None }
    }

    /// Its key, of the tree's key length.
    pub fn key(&self) -> &[u8]
        ensures { result.now ≡ self.now.key }
    {
        let row = &self.bytes[..self.length];
        &row[..self.key_length]
    }

    /// Its value, of the tree's value length.
    pub fn value(&self) -> &[u8]
        ensures { result.now ≡ self.now.value }
    {
        let row = &self.bytes[..self.length];
        &row[self.key_length..]
    }
}
