//! The order of keys: by bytes, from the first on.
ghost use Rattle.std.specs.Prelude.{◌≡◌, ◌≤◌, length, take};
ghost use Rattle.btree_pages.specs.Keys.{key_cmp};

use byteorder::{BigEndian, ByteOrder};
use std::cmp::Ordering;

/// The bytes that are compared as one number.
const WORD_BYTES: usize = 8;

/// How two keys compare. Two of one length, from 8 bytes to 16, are compared by their first and their last word, which may overlap.
pub(crate) fn compare_keys(one: &[u8], other: &[u8]) -> Ordering
    ensures { result ≡ key_cmp one.now other.now }
{
    if one.len() < WORD_BYTES || other.len() < WORD_BYTES {
        return one.cmp(other);
    }
    match compare_words(one, other) {
        Ordering::Less => Ordering::Less,
        Ordering::Greater => Ordering::Greater,
        Ordering::Equal => compare_past_word(one, other),
    }
}

/// How two keys compare whose first words are equal.
#[inline]
fn compare_past_word(one: &[u8], other: &[u8]) -> Ordering
    requires one { 8 ≤ length one.now }
    requires other { 8 ≤ length other.now }
    requires equal { take 8 one.now ≡ take 8 other.now }
    ensures { result ≡ key_cmp one.now other.now }
{
    let length = one.len();
    if length == other.len() && length <= 2 * WORD_BYTES {
        let (_, last) = one.split_at(length - WORD_BYTES);
        let (_, other_last) = other.split_at(length - WORD_BYTES);
        return compare_words(last, other_last);
    }
    compare_long(one, other)
}

/// The same, by the words after the first, if both have one, and then by bytes.
fn compare_long(one: &[u8], other: &[u8]) -> Ordering
    requires one { 8 ≤ length one.now }
    requires other { 8 ≤ length other.now }
    requires equal { take 8 one.now ≡ take 8 other.now }
    ensures { result ≡ key_cmp one.now other.now }
{
    let (_, rest) = one.split_at(WORD_BYTES);
    let (_, other_rest) = other.split_at(WORD_BYTES);
    if rest.len() < WORD_BYTES || other_rest.len() < WORD_BYTES {
        return rest.cmp(other_rest);
    }
    match compare_words(rest, other_rest) {
        Ordering::Less => Ordering::Less,
        Ordering::Greater => Ordering::Greater,
        Ordering::Equal => {
            let (_, end) = rest.split_at(WORD_BYTES);
            let (_, other_end) = other_rest.split_at(WORD_BYTES);
            end.cmp(other_end)
        }
    }
}

/// How the first words of two keys compare.
#[inline]
fn compare_words(one: &[u8], other: &[u8]) -> Ordering
    requires one { 8 ≤ length one.now }
    requires other { 8 ≤ length other.now }
    ensures { result ≡ key_cmp (take 8 one.now) (take 8 other.now) }
{
    BigEndian::read_u64(one).cmp(&BigEndian::read_u64(other))
}
