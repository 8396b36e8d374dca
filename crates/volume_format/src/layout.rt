//! The trees of a file.
ghost use Rattle.std.specs.Prelude.{◌≡◌};
ghost use Rattle.btree_pages.specs.RowLayouts.{IsRowLayout};
ghost use Rattle.records.specs.Stores.{spec_of, IsKey};
ghost use Rattle.volume_format.specs.Chained.{chained_bytes, kept_bytes};
ghost use Rattle.volume_format.specs.Trees.{layout_under};

use crate::laws::layouts_fit;
use btree_pages::RowLayout;
use file_bytes::key_length;
use records::{FileSpec, KeyOfReference};

/// The bytes of an arrival.
const ARRIVAL_BYTES: usize = 8;

/// The bytes of a page's number.
const PAGE_NUMBER_BYTES: usize = 4;

/// The lengths of keys and values in the tree of a key: of the rows under the prime key, and of pairs under an alternate key.
pub fn tree_layout(file: &FileSpec, key: KeyOfReference) -> RowLayout
    requires { IsKey (spec_of file.now) key }
    ensures layout { result ≡ layout_under (spec_of file.now) key }
    ensures possible { IsRowLayout result }
{
    layouts_fit();
    let prime = file.key_place(KeyOfReference::Prime).length as usize;
    match key {
        KeyOfReference::Prime => RowLayout {
            key_length: key_length(file.organization),
            value_length: kept_bytes(file) + ARRIVAL_BYTES * file.alternates.len(),
        },
        KeyOfReference::Alternate(_) => RowLayout {
            key_length: file.key_place(key).length as usize + ARRIVAL_BYTES,
            value_length: prime,
        },
    }
}

/// The bytes of each record of a file that are in a chain of pages, or 0 if its tree of rows has the records itself.
pub fn chained_bytes(file: &FileSpec) -> u16
    ensures { result ≡ chained_bytes (spec_of file.now) }
{
    if file.is_long() {
        file.record_length
    } else {
        0
    }
}

/// The bytes of a row's entry that stand for its record: the record, or the first page of its chain.
fn kept_bytes(file: &FileSpec) -> usize
    ensures { result ≡ kept_bytes (spec_of file.now) }
{
    if file.is_long() {
        PAGE_NUMBER_BYTES
    } else {
        file.record_length as usize
    }
}
