//! Seeking a row of a file.
ghost use Rattle.std.specs.Prelude.{◌≡◌, ◌≤◌, Err, true, false, length, IfOk, OnOk, OnErr, IfErr};
ghost use Rattle.std.specs.Option.{option_map};
ghost use Rattle.pages.specs.Pages.{is_spent, sectors_of};
ghost use Rattle.records.specs.Order.{sought_row, found_row};
ghost use Rattle.records.specs.Files.{File, Files};
ghost use Rattle.records.specs.Stores.{spec_of, Has, IsKey, key_length, bound_of, record_of};
ghost use Rattle.volume_format.specs.Calls.{LooksAt};
ghost use Rattle.volume_format.specs.Volume.{MapHolds};
ghost use Rattle.alternate_keys.specs.Faults.{IsReadFault};
ghost use Rattle.alternate_keys.specs.Notes.{AreNotesOf, OnNotes, noted_search};

use crate::file_tree::{file_tree, row_tree};
use crate::notes::SearchNotes;
use crate::search_key::SearchKey;
use crate::search_keys::{put_key, search_start_for};
use crate::seek::{KeySearch, seek_row};
use pages::{PageMap, map_bounds};
use records::{FileSpec, Found, KeyBound, KeyOfReference, StoreFault};
use station::Device;
use volume_format::to_fault;

/// Seeks the first row after a place in the order of a key: a value, or the beginning of one, and a number. The file and the leaf where
/// the search ends are noted. The row's record is put into `bytes`, which stays if there is no such row, and after a refusal.
pub(crate) fn seek_in<D: Device>(
    notes: &mut SearchNotes,
    pages: &mut PageMap,
    device: &mut D,
    file: &FileSpec,
    key: KeyOfReference,
    bound: KeyBound<'_>,
    bytes: &mut [u8],
) -> Result<Option<Found>, StoreFault>
    requires unspent { is_spent pages.old ≡ false }
    requires sectors { sectors_of pages.old ≤ D.sectors device.old }
    requires key { IsKey (spec_of file.now) key }
    requires value { length bound.value.now ≤ key_length (spec_of file.now) key }
    requires bytes { length bytes.old ≡ file.now.record_length }
    ensures looks { LooksAt D.Device (result ≡ Err StoreFault.Device) pages.old device.old pages.new
        device.new }

    // If what was noted is true of the pages, so is what is noted then, and this is the answer.
    ensures notes { OnNotes D.Device (noted_search notes.old) pages.old device.old
        (AreNotesOf (noted_search notes.new)) }
    ensures found { OnNotes D.Device (noted_search notes.old) pages.old
        device.old (λ m. (files : Files) (held : File) → MapHolds m files → Has files file.now held
        → IfOk result (λ answer. answer ≡ option_map (found_row (spec_of file.now) key held.rows)
        (sought_row (spec_of file.now) key (bound_of bound.entry) held.rows))) }
    ensures bytes { OnNotes D.Device (noted_search notes.old) pages.old device.old
        (λ m. (files : Files) (held : File) → MapHolds m files → Has files file.now held → OnOk
        result (bytes.new ≡ record_of bytes.old (sought_row (spec_of file.now) key
        (bound_of bound.entry) held.rows))) }
    ensures kept { OnErr result (bytes.new ≡ bytes.old) }
    ensures damaged { OnNotes D.Device (noted_search notes.old) pages.old device.old
        (λ m. (files : Files) (held : File) → MapHolds m files → Has files file.now held
        → result ≡ Err StoreFault.Damaged → ⊥) }
    ensures spent { result ≡ Err StoreFault.Spent → is_spent pages.old ≡ true }
    ensures cause { IfErr result IsReadFault }
{
    map_bounds();
    if !notes.note_file(pages, device, &file.name)? {
        return Ok(None);
    }
    let alloc = notes.alloc;
    let prime = row_tree(alloc, file, &notes.listing);
    let under = file_tree(alloc, file, key, &notes.listing);
    let mut at = SearchKey::blank();
    put_key(&mut at, file, key, bound.side, bound.value, bound.number);
    let aim = search_start_for(file, key, bound.side, bound.value, bound.number);
    let from = at.bytes();
    let key_search = KeySearch {
        file,
        key,
        aim,
        at: from,
    };
    match seek_row(notes, &prime, &under, pages, device, key_search, bytes) {
        Ok(found) => Ok(found),
        Err(error) => Err(to_fault(error)),
    }
}
