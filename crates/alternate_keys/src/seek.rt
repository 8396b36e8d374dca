//! A row that is sought in the trees of its file.
ghost use Rattle.std.specs.Prelude.{◌≡◌, ◌≤◌, Err, OnErr, IfErr};
ghost use Rattle.pages.specs.Pages.{sectors_of};
ghost use Rattle.btree.specs.Calls.{OnPages};
ghost use Rattle.btree.specs.Results.{OnlyIfSpent};
ghost use Rattle.btree.specs.Places.{IsLeafPlace};
ghost use Rattle.records.specs.Stores.{spec_of, IsKey};
ghost use Rattle.volume_format.specs.Calls.{LooksAt};
ghost use Rattle.chains.specs.Refusals.{IsRecordRefusal};
ghost use Rattle.alternate_keys.specs.Searches.{ReturnsSought, ReadsSought, FindsNoDamage};

use crate::found_rows::{read_alternate_row, read_prime_row};
use crate::look::look_near;
use crate::notes::SearchNotes;
use crate::search_start::SearchStart;
use btree::Tree;
use pages::{PageMap, PagesError};
use records::{FileSpec, Found, KeyOfReference};
use row_trees::RowTree;
use station::Device;

/// A search under a key of a file: which entry of the key's tree is looked for, and by which bytes of a key.
#[derive(Clone, Copy)]
pub(crate) struct KeySearch<'a> {
    pub(crate) file: &'a FileSpec,
    pub(crate) key: KeyOfReference,
    pub(crate) aim: SearchStart,
    pub(crate) at: &'a [u8],
}

/// Seeks a row in the trees of a file: the tree of the rows, and that of the key. A search after a key begins in the leaf that is noted.
/// The row's record is put into `bytes`, which stays if there is no such row, and after a refusal.
pub(crate) fn seek_row<D: Device>(
    notes: &mut SearchNotes,
    prime: &RowTree,
    under: &Tree,
    pages: &mut PageMap,
    device: &mut D,
    key_search: KeySearch<'_>,
    bytes: &mut [u8],
) -> Result<Option<Found>, PagesError>
    requires sectors { sectors_of pages.old ≤ D.sectors device.old }
    requires key { IsKey (spec_of key_search.file.now) key_search.key }
    requires short { under.now.layout.key_length ≤ 128 }
    ensures looks { LooksAt D.Device (result ≡ Err PagesError.Device) pages.old device.old pages.new
        device.new }

    // If the leaf that is noted is one of its tree, so is the leaf that is noted then, and this is the answer.
    ensures place { OnPages D.Device pages.old device.old
        (λ before. IsLeafPlace notes.old.place before → IsLeafPlace notes.new.place before) }
    ensures found { ReturnsSought D.Device key_search.entry.file.now key_search.entry.key pages.old
        device.old prime.now under.now key_search.entry.aim key_search.entry.at.now notes.old.place
        result }
    ensures bytes { ReadsSought D.Device key_search.entry.file.now key_search.entry.key pages.old
        device.old prime.now under.now key_search.entry.aim key_search.entry.at.now notes.old.place
        bytes.old bytes.new result }
    ensures damaged { FindsNoDamage D.Device key_search.entry.file.now key_search.entry.key
        pages.old device.old prime.now under.now key_search.entry.aim key_search.entry.at.now
        notes.old.place bytes.old result }
    ensures file { (notes.new.name.items ≡ notes.old.name.items)
        × (notes.new.listing ≡ notes.old.listing) }
    ensures spent { OnlyIfSpent pages.old result }
    ensures kept { OnErr result (bytes.new ≡ bytes.old) }
    ensures cause { IfErr result IsRecordRefusal }
{
    let file = key_search.file;
    let aim = key_search.aim;
    let at = key_search.at;
    let place = &mut notes.place;
    if !look_near(under, pages, device, aim, at, place, &mut notes.entry)? {
        return Ok(None);
    }
    match key_search.key {
        KeyOfReference::Prime => {
            let record = &mut notes.record;
            let entry = &notes.entry;
            let organization = file.organization;
            let told = read_prime_row(record, prime, pages, device, organization, entry, bytes)?;
            Ok(Some(told))
        }
        KeyOfReference::Alternate(_) => {
            let length = file.key_place(key_search.key).length as usize;
            let told = read_alternate_row(notes, prime, under, pages, device, length, bytes)?;
            Ok(Some(told))
        }
    }
}
