//! The trees of a file as the catalog says, whatever the program says of it.
ghost use Rattle.std.specs.Prelude.{◌≡◌, ◌≤◌, ◌+◌, ◌==◌, true, nat_lt, length, drop, if◌then◌else◌, Err, IfOk, IfErr};
ghost use Rattle.byteorder.specs.Endian.{big_number};
ghost use Rattle.records.specs.Spec.{is_spec};
ghost use Rattle.records.specs.Stores.{IsKey, key_count};
ghost use Rattle.volume_format.specs.Chained.{chained_bytes};
ghost use Rattle.volume_format.specs.Catalog.{Listing, listing_bytes};
ghost use Rattle.volume_format.specs.Trees.{layout_under};
ghost use Rattle.row_trees.specs.RowTree.{FitsForm};
ghost use Rattle.alternate_keys.specs.Listed.{root_in};

use btree::Tree;
use btree_pages::RowLayout;
use byteorder::{BigEndian, ByteOrder};
use records::{KeyOfReference, StoreFault};
use row_trees::RowTree;
use std::alloc::Global;
use volume_format::{alternate_root, prime_root};

/// Where the bytes of a record, the length of the prime key, how many alternate keys, and the length of the first of them stand in a
/// value of the catalog, counted from 0.
const RECORD_AT: usize = 1;

const PRIME_AT: usize = 5;

const COUNT_AT: usize = 7;

const ALTERNATE_AT: usize = 10;

const KEY_BYTES: usize = 5;

const ARRIVAL_BYTES: usize = 8;

/// The bytes of a page's number.
const PAGE_NUMBER_BYTES: usize = 4;

/// The bytes of the longest record that is in the tree of rows itself.
const LONGEST_IN_TREE: u16 = 1000;

/// How many alternate keys the file has, at most seven.
pub(crate) fn stored_count(value: &[u8]) -> u8
    requires { length value.now ≡ 83 }
    ensures count { (l : Listing) → is_spec l.spec ≡ true → value.now ≡ listing_bytes l
        → result ≡ length l.spec.alternates }
    ensures few { result ≤ 7 }
{
    let count = value[COUNT_AT];
    if count <= 7 { count } else { 7 }
}

/// The two bytes at a place.
fn number_at(value: &[u8], at: usize) -> usize
    requires { at + 2 ≤ length value.now }
    ensures { result ≡ big_number 2 (drop at value.now) }
{
    BigEndian::read_u16(&value[at..]) as usize
}

/// The bytes of a key of the tree of rows, by the byte of an organization.
fn key_bytes(organization: u8, prime: usize) -> usize
    ensures { result ≡ (if organization == 0 then 8 else if organization == 1 then 4 else prime) }
{
    if organization == 0 {
        8
    } else if organization == 1 {
        4
    } else {
        prime
    }
}

/// The bytes of each record.
fn stored_record(value: &[u8]) -> u16
    requires { length value.now ≡ 83 }
    ensures { result ≡ big_number 2 (drop 1 value.now) }
{
    BigEndian::read_u16(&value[RECORD_AT..])
}

/// Whether a record of so many bytes is in a chain of pages.
fn is_in_chain(size: u16) -> bool
    ensures { result ≡ nat_lt 1000 size }
{
    LONGEST_IN_TREE < size
}

/// The bytes of each record that are in a chain of pages, by the bytes of a record; 0 if the tree of rows has the record itself.
fn chained_part(size: u16) -> u16
    ensures { result ≡ (if nat_lt 1000 size then size else 0) }
{
    if is_in_chain(size) { size } else { 0 }
}

/// The bytes that a row's entry has for its record, by the bytes of a record.
fn kept_part(size: u16) -> usize
    ensures { result ≡ (if nat_lt 1000 size then 4 else size) }
{
    if is_in_chain(size) {
        PAGE_NUMBER_BYTES
    } else {
        size as usize
    }
}

/// The lengths of keys and values in the tree of rows, by the bytes of a record.
fn stored_row_layout(value: &[u8], size: u16) -> RowLayout
    requires { length value.now ≡ 83 }
    ensures layout { (l : Listing) → is_spec l.spec ≡ true → value.now ≡ listing_bytes l
        → size ≡ l.spec.record_length → result ≡ layout_under l.spec KeyOfReference.Prime }
    ensures form { FitsForm (if nat_lt 1000 size then size else 0) result }
{
    let prime = number_at(value, PRIME_AT);
    let own = key_bytes(value[0], prime);
    let count = stored_count(value);
    RowLayout {
        key_length: own,
        value_length: kept_part(size) + ARRIVAL_BYTES * count as usize,
    }
}

/// The lengths of keys and values in the tree of a key.
fn stored_layout(value: &[u8], key: KeyOfReference) -> RowLayout
    requires value { length value.now ≡ 83 }
    requires key { key_count key ≤ 7 }
    ensures { (l : Listing) → is_spec l.spec ≡ true → value.now ≡ listing_bytes l → IsKey l.spec key
        → result ≡ layout_under l.spec key }
{
    match key {
        KeyOfReference::Prime => {
            let size = stored_record(value);
            stored_row_layout(value, size)
        }
        KeyOfReference::Alternate(i) => {
            let prime = number_at(value, PRIME_AT);
            let own = number_at(value, ALTERNATE_AT + KEY_BYTES * i as usize);
            RowLayout {
                key_length: own + ARRIVAL_BYTES,
                value_length: prime,
            }
        }
    }
}

/// The tree of a key. The volume is damaged if no tree can have the lengths that the value gives.
pub(crate) fn stored_tree(
    alloc: Global,
    value: &[u8],
    key: KeyOfReference,
) -> Result<Tree, StoreFault>
    requires value { length value.now ≡ 83 }
    requires key { key_count key ≤ 7 }
    ensures tree { (l : Listing) → is_spec l.spec ≡ true → value.now ≡ listing_bytes l
        → IsKey l.spec key →
        IfOk result (λ tree. (tree.layout ≡ layout_under l.spec key)
        × (tree.root ≡ root_in key value.now)) }
    ensures damaged { (l : Listing) → is_spec l.spec ≡ true → value.now ≡ listing_bytes l
        → IsKey l.spec key → result ≡ Err StoreFault.Damaged → ⊥ }
    ensures cause { IfErr result (λ fault. fault ≡ StoreFault.Damaged) }
{
    let layout = stored_layout(value, key);
    if !layout.is_possible() {
        return Err(StoreFault::Damaged);
    }
    let root = match key {
        KeyOfReference::Prime => prime_root(value),
        KeyOfReference::Alternate(i) => alternate_root(value, i),
    };
    Ok(Tree::new(alloc, layout, root))
}

/// The tree of rows. The volume is damaged if no tree can have the lengths that the value gives.
pub(crate) fn stored_row_tree(alloc: Global, value: &[u8]) -> Result<RowTree, StoreFault>
    requires { length value.now ≡ 83 }
    ensures tree { (l : Listing) → is_spec l.spec ≡ true → value.now ≡ listing_bytes l →
        IfOk result (λ rows. (rows.tree.layout ≡ layout_under l.spec KeyOfReference.Prime)
        × (rows.tree.root ≡ root_in KeyOfReference.Prime value.now)
        × (rows.record_bytes ≡ chained_bytes l.spec)) }
    ensures damaged { (l : Listing) → is_spec l.spec ≡ true → value.now ≡ listing_bytes l
        → result ≡ Err StoreFault.Damaged → ⊥ }
    ensures cause { IfErr result (λ fault. fault ≡ StoreFault.Damaged) }
{
    let size = stored_record(value);
    let layout = stored_row_layout(value, size);
    if !layout.is_possible() {
        return Err(StoreFault::Damaged);
    }
    let root = prime_root(value);
    Ok(RowTree::new(alloc, layout, chained_part(size), root))
}
