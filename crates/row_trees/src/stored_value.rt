//! The value of an entry whose record is in a chain.
ghost use Rattle.std.specs.Prelude.{◌≡◌, ◌≤◌, ◌+◌, ◌++◌, length, drop};
ghost use Rattle.byteorder.specs.Endian.{big_bytes, big_number};

use byteorder::{BigEndian, ByteOrder};
use std::marker::Model;

/// The bytes of a page's number.
pub(crate) const PAGE_NUMBER_BYTES: usize = 4;

/// The bytes of the longest value.
const MOST_BYTES: usize = 64;

/// A value: the first page of a chain, and what follows the record.
#[derive(Drop)]
pub(crate) struct StoredValue {
    bytes: [u8; MOST_BYTES],
    length: usize,
}

impl Model for StoredValue {
    ghost use Rattle.std.specs.Prelude.{◌≤◌, ℕ, List, take};

    ghost Value = { List ℕ };

    ghost view = { λ value. take value.length value.bytes };

    ghost invariant = { λ value. value.length ≤ 64 };
}

impl StoredValue {
    /// The value of a record in the chain from this page on.
    pub(crate) fn new(first: u32, rest: &[u8]) -> StoredValue
        requires { length rest.now ≤ 60 }
        ensures { result ≡ big_bytes 4 first ++ rest.now }
    {
        let mut bytes = [0; MOST_BYTES];
        BigEndian::write_u32(&mut bytes[..PAGE_NUMBER_BYTES], first);
        let length = PAGE_NUMBER_BYTES + rest.len();
        bytes[PAGE_NUMBER_BYTES..length].copy_from_slice(rest);
        StoredValue { bytes, length }
    }

    /// Its bytes.
    pub(crate) fn bytes(&self) -> &[u8]
        ensures { result.now ≡ self.now }
    {
        &self.bytes[..self.length]
    }
}

/// The first page of the chain of a value, which has at least four bytes.
pub(crate) fn first_page(value: &[u8]) -> u32
    requires { 4 ≤ length value.now }
    ensures { result ≡ big_number 4 value.now }
{
    BigEndian::read_u32(value)
}
