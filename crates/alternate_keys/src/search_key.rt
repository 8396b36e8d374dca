//! The key of a search.
ghost use Rattle.std.specs.Prelude.{◌≡◌, ◌≤◌, ◌++◌, [], length};
ghost use Rattle.byteorder.specs.Endian.{big_bytes};
ghost use Rattle.alternate_keys.specs.Aims.{extended_bytes};

use crate::search_keys::ARRIVAL_BYTES;
use std::marker::Model;

/// How many bytes a key of a search has at most.
const MOST_KEY_BYTES: usize = 200;

/// The bytes of a key from which a tree is searched, in place.
#[derive(Drop)]
pub(crate) struct SearchKey {
    bytes: [u8; MOST_KEY_BYTES],
    length: usize,
}

impl Model for SearchKey {
    ghost use Rattle.std.specs.Prelude.{◌≤◌, ℕ, List, take};

    ghost Value = { List ℕ };

    ghost view = { λ key. take key.length key.bytes };

    ghost invariant = { λ key. key.length ≤ 200 };
}

impl SearchKey {
    /// A key without bytes.
    pub(crate) fn blank() -> SearchKey
        ensures { result ≡ [] }
    {
        SearchKey {
            bytes: [0; MOST_KEY_BYTES],
            length: 0,
        }
    }

    /// Sets the key to a value, filled up with `byte` to `count` bytes.
    pub(crate) fn set_filled(&mut self, value: &[u8], count: usize, byte: u8)
        requires count { count ≤ 200 }
        requires fits { length value.now ≤ count }
        ensures { self.new ≡ extended_bytes count byte value.now }
    {
        if value.len() < count {
            self.bytes = [byte; MOST_KEY_BYTES];
        }
        self.bytes[..value.len()].copy_from_slice(value);
        self.length = count;
    }

    /// Sets the key to a value, and a number in 8 bytes after it.
    pub(crate) fn set_pair(&mut self, value: &[u8], number: u64)
        requires { length value.now ≤ 192 }
        ensures { self.new ≡ value.now ++ big_bytes 8 number }
    {
        let length = value.len() + ARRIVAL_BYTES;
        self.bytes[..value.len()].copy_from_slice(value);
        self.bytes[value.len()..length].copy_from_slice(&number.to_be_bytes());
        self.length = length;
    }

    /// Sets the key to the number of a row.
    pub(crate) fn set_number(&mut self, number: u64)
        ensures { self.new ≡ big_bytes 4 number }
    {
        self.bytes[..4].copy_from_slice(&number.to_be_bytes()[4..]);
        self.length = 4;
    }

    /// Its bytes.
    pub(crate) fn bytes(&self) -> &[u8]
        ensures { result.now ≡ self.now }
    {
        &self.bytes[..self.length]
    }
}
