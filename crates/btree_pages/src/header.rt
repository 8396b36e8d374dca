//! Where what stands in a page's bytes. This project's own choice.
ghost use Rattle.std.specs.Prelude.{◌≡◌, ◌⊎◌, ◌≤◌, ◌++◌, ℕ, length, drop, Some, slice_index};
ghost use Rattle.byteorder.specs.Endian.{big_number};
ghost use Rattle.btree_pages.specs.Node.{kind_in};

use crate::row_bytes::put;
use crate::row_layout::Kind;

/// The first byte of a leaf.
const LEAF_BYTE: u8 = 1;

/// The first byte of an inner page.
const INNER_BYTE: u8 = 2;

/// Where the number of rows begins, in 2 bytes.
pub(crate) const COUNT_AT: usize = 2;

/// Where the rows begin.
pub(crate) const ROWS_AT: usize = 16;

/// The kind that a page's first byte tells.
pub(crate) fn kind_of(byte: u8) -> Option<Kind>
    ensures { result ≡ kind_in byte }
{
    match byte {
        LEAF_BYTE => Some(Kind::Leaf),
        INNER_BYTE => Some(Kind::Inner),
        _ => None,
    }
}

/// The first byte of a page of this kind.
fn kind_byte(kind: Kind) -> u8
    ensures { kind_in result ≡ Some kind }
{
    match kind {
        Kind::Leaf => LEAF_BYTE,
        Kind::Inner => INNER_BYTE,
    }
}

/// The first bytes of a page.
pub(crate) fn head(kind: Kind, count: usize) -> [u8; 16]
    requires { count ≤ 4080 }
    ensures kind { kind_in (slice_index result 0) ≡ Some kind }
    ensures count { big_number 2 (drop 2 result) ≡ count }
    ensures long { length result ≡ 16 }
    ensures zeros { (place : ℕ) → (place ≡ 1) ⊎ (4 ≤ place) → slice_index result place ≡ 0 }
{
    let mut bytes = [0; 16];
    bytes[0] = kind_byte(kind);
    bytes[COUNT_AT] = (count / 256) as u8;
    bytes[COUNT_AT + 1] = (count % 256) as u8;
    bytes
}

/// The bytes of a page.
pub(crate) fn joined(head: &[u8; 16], rows: &[u8; 4080]) -> [u8; 4096]
    ensures { result ≡ head.now ++ rows.now }
{
    let mut bytes = [0; 4096];
    put(&mut bytes, 0, head);
    put(&mut bytes, ROWS_AT, rows);
    bytes
}
