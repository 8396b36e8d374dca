//! What a store notes of its last search.
ghost use Rattle.std.specs.Prelude.{◌≡◌, ◌≤◌, true, length, OnOk, OnErr, []};
ghost use Rattle.pages.specs.Image.{Map};
ghost use Rattle.pages.specs.Pages.{sectors_of};
ghost use Rattle.records.specs.Spec.{is_name};
ghost use Rattle.alternate_keys.specs.Notes.{AreNotesOf, NotesFile, noted_search};

use crate::listing::find_listing;
use btree::{Entry, LeafPlace};
use chains::RecordBuffer;
use pages::PageMap;
use records::StoreFault;
use station::Device;
use std::alloc::{AllocError, Global};
use volume_format::{LISTING_BYTES, listing_part};

/// The file of the last search with its listing in the catalog, and the leaf of a tree that has the entry of a search. No file is noted
/// if the name is empty. The entries and the record are memory that each search uses again.
#[derive(Drop)]
pub(crate) struct SearchNotes {
    pub(crate) alloc: Global,
    pub(crate) name: Vec<u8>,
    pub(crate) listing: [u8; LISTING_BYTES],
    pub(crate) place: LeafPlace,
    pub(crate) entry: Entry,
    pub(crate) next: Entry,
    pub(crate) record: RecordBuffer,
}

impl SearchNotes {
    /// Nothing is noted.
    pub(crate) fn new(alloc: Global) -> SearchNotes
        ensures { (m : Map) → AreNotesOf (noted_search result) m }
    {
        SearchNotes {
            alloc,
            name: Vec::new(alloc),
            listing: [0; LISTING_BYTES],
            place: LeafPlace::none(),
            entry: Entry::blank(),
            next: Entry::blank(),
            record: RecordBuffer::new(alloc),
        }
    }

    /// Forgets what is noted. A call that may change pages does so first.
    pub(crate) fn clear(&mut self)
        ensures { (m : Map) → AreNotesOf (noted_search self.new) m }
    {
        self.name.clear();
        self.place = LeafPlace::none();
    }

    /// Returns whether the file of this name is there. Its listing is noted then. The catalog is searched if another file is noted.
    pub(crate) fn note_file<D: Device>(
        &mut self,
        pages: &mut PageMap,
        device: &mut D,
        name: &[u8],
    ) -> Result<bool, StoreFault>
        requires sectors { sectors_of pages.old ≤ D.sectors device.old }
        requires name { is_name name.now ≡ true }
        ensures { NotesFile D.Device (noted_search self.old) pages.old device.old name.now
            (noted_search self.new) pages.new device.new result }
    {
        if self.name[..].cmp(name).is_eq() {
            return Ok(true);
        }
        self.note_other_file(pages, device, name)
    }

    /// The same if another file is noted.
    #[cold]
    #[inline(never)]
    fn note_other_file<D: Device>(
        &mut self,
        pages: &mut PageMap,
        device: &mut D,
        name: &[u8],
    ) -> Result<bool, StoreFault>
        requires sectors { sectors_of pages.old ≤ D.sectors device.old }
        requires name { is_name name.now ≡ true }
        ensures { NotesFile D.Device (noted_search self.old) pages.old device.old name.now
            (noted_search self.new) pages.new device.new result }
    {
        match find_listing(self.alloc, pages, device, name)? {
            Some(entry) => {
                self.note_listing(name, listing_part(&entry))?;
                Ok(true)
            }
            None => Ok(false),
        }
    }

    /// Notes the listing of the file of this name. No file is noted after a refusal. The leaf stays.
    fn note_listing(&mut self, name: &[u8], listing: &[u8]) -> Result<(), AllocError>
        requires { length listing.now ≡ 83 }
        ensures noted { OnOk result
            ((self.new.name.items ≡ name.now) × (self.new.listing ≡ listing.now)) }
        ensures refused { OnErr result (self.new.name.items ≡ []) }
        ensures place { self.new.place ≡ self.old.place }
    {
        self.name.clear();
        self.listing.copy_from_slice(listing);
        self.name.extend_from_slice(name)
    }
}
