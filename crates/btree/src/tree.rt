//! A tree, and what is read of it.
ghost use Rattle.std.specs.Prelude.{◌≡◌, ◌⊎◌, IfOk, IfErr, IfSome};
ghost use Rattle.pages.specs.Pages.{IsUnchanged};
ghost use Rattle.pages.specs.Devices.{FitsDevice};
ghost use Rattle.btree_pages.specs.RowLayouts.{IsRowLayout};
ghost use Rattle.btree.specs.Entries.{HasLengths, entry_with, first_from, first_entry_after, first_entry};
ghost use Rattle.btree.specs.Reading.{IsSearchRefusal};
ghost use Rattle.btree.specs.Sought.{sought_in};
ghost use Rattle.btree.specs.Calls.{AnswersEntry, OnlyReadsFor, KeepsAgreement, DamagedOnlyIfNoTree, AnswersKey};
ghost use Rattle.btree.specs.Results.{ExactlyIfSpentAt};

use crate::entry::Entry;
use crate::sought::Sought;
use btree_pages::{MOST_ROW_BYTES, RowLayout};
use pages::{PageMap, PagesError};
use station::Device;
use std::alloc::Global;
use std::marker::Model;

/// A key of zeros, which is below each other one.
const ZEROS: [u8; MOST_ROW_BYTES] = [0; MOST_ROW_BYTES];

/// A tree: the lengths of its keys and values, and the page of its root, 0 where it has no entries. Its pages are in a map of pages
/// that each call is given.
#[derive(Drop)]
pub struct Tree {
    pub(crate) alloc: Global,
    pub(crate) layout: RowLayout,
    pub(crate) root: u32,
}

impl Model for Tree {
    ghost use Rattle.btree_pages.specs.RowLayouts.{IsRowLayout};
    ghost use Rattle.btree.specs.Rooted.{RootedTree};

    ghost Value = { RootedTree };

    ghost view = { λ tree. record { layout = tree.layout; root = tree.root } };

    ghost invariant = { λ tree. IsRowLayout tree.layout };
}

impl Tree {
    /// The tree with that root page. Nothing is read.
    pub fn new(alloc: Global, layout: RowLayout, root: u32) -> Tree
        requires { IsRowLayout layout }
        ensures layout { result.layout ≡ layout }
        ensures root { result.root ≡ root }
    {
        Tree {
            alloc,
            layout,
            root,
        }
    }

    /// The lengths of its keys and values, in bytes.
    pub fn layout(&self) -> RowLayout
        ensures is { result ≡ self.now.layout }
        ensures layout { IsRowLayout result }
    {
        self.layout
    }

    /// The page of its root, 0 where it has no entries.
    pub fn root(&self) -> u32
        ensures { result ≡ self.now.root }
    {
        self.root
    }

    /// The entry of a key, if it is there. Whatever the pages hold, its key and value have the lengths of the layout. `Damaged` tells
    /// that the pages under the root are no tree, `Memory` comes only where keys are longer than 128 bytes.
    pub fn get<D: Device>(
        &self,
        pages: &mut PageMap,
        device: &mut D,
        key: &[u8],
    ) -> Result<Option<Entry>, PagesError>
        requires sectors { FitsDevice D.Device pages.old device.old }
        ensures only { OnlyReadsFor D.Device device.old device.new result }
        ensures unchanged { IsUnchanged pages.old pages.new }
        ensures agrees { KeepsAgreement D.Device pages.old device.old pages.new device.new }
        ensures entry { AnswersKey D.Device self.now pages.old device.old entry_with
            key.now result }
        ensures damaged { DamagedOnlyIfNoTree D.Device self.now pages.old device.old result }
        ensures spent { ExactlyIfSpentAt self.now.root pages.old result }
        ensures lengths { IfOk result (λ entry. IfSome entry (HasLengths self.now.layout)) }
        ensures cause { IfErr result (IsSearchRefusal self.now.layout) }
    {
        let mut entry = Entry::blank();
        let found = self.find(pages, device, key, &mut entry)?;
        Ok(entry.if_found(found))
    }

    /// The first entry from a key on. Refusals are those of `get`.
    pub fn seek<D: Device>(
        &self,
        pages: &mut PageMap,
        device: &mut D,
        key: &[u8],
    ) -> Result<Option<Entry>, PagesError>
        requires sectors { FitsDevice D.Device pages.old device.old }
        ensures only { OnlyReadsFor D.Device device.old device.new result }
        ensures unchanged { IsUnchanged pages.old pages.new }
        ensures agrees { KeepsAgreement D.Device pages.old device.old pages.new device.new }
        ensures entry { AnswersKey D.Device self.now pages.old device.old first_from
            key.now result }
        ensures damaged { DamagedOnlyIfNoTree D.Device self.now pages.old device.old result }
        ensures spent { ExactlyIfSpentAt self.now.root pages.old result }
        ensures lengths { IfOk result (λ entry. IfSome entry (HasLengths self.now.layout)) }
        ensures cause { IfErr result (IsSearchRefusal self.now.layout) }
    {
        self.search_on(pages, device, key, Sought::From)
    }

    /// The first entry after a key, whether or not that key is there. Refusals are those of `get`.
    pub fn next<D: Device>(
        &self,
        pages: &mut PageMap,
        device: &mut D,
        key: &[u8],
    ) -> Result<Option<Entry>, PagesError>
        requires sectors { FitsDevice D.Device pages.old device.old }
        ensures only { OnlyReadsFor D.Device device.old device.new result }
        ensures unchanged { IsUnchanged pages.old pages.new }
        ensures agrees { KeepsAgreement D.Device pages.old device.old pages.new device.new }
        ensures entry { AnswersKey D.Device self.now pages.old device.old first_entry_after
            key.now result }
        ensures damaged { DamagedOnlyIfNoTree D.Device self.now pages.old device.old result }
        ensures spent { ExactlyIfSpentAt self.now.root pages.old result }
        ensures lengths { IfOk result (λ entry. IfSome entry (HasLengths self.now.layout)) }
        ensures cause { IfErr result (IsSearchRefusal self.now.layout) }
    {
        self.search_on(pages, device, key, Sought::After)
    }

    /// The first entry. Refusals are those of `get`.
    pub fn first<D: Device>(
        &self,
        pages: &mut PageMap,
        device: &mut D,
    ) -> Result<Option<Entry>, PagesError>
        requires sectors { FitsDevice D.Device pages.old device.old }
        ensures only { OnlyReadsFor D.Device device.old device.new result }
        ensures unchanged { IsUnchanged pages.old pages.new }
        ensures agrees { KeepsAgreement D.Device pages.old device.old pages.new device.new }
        ensures entry { AnswersEntry D.Device self.now pages.old device.old first_entry result }
        ensures damaged { DamagedOnlyIfNoTree D.Device self.now pages.old device.old result }
        ensures spent { ExactlyIfSpentAt self.now.root pages.old result }
        ensures lengths { IfOk result (λ entry. IfSome entry (HasLengths self.now.layout)) }
        ensures cause { IfErr result (IsSearchRefusal self.now.layout) }
    {
        self.seek(pages, device, &ZEROS[..self.layout.key_length])
    }

    /// The entry that is sought by a key, in the leaf where the key belongs or after it. Refusals are those of `get`.
    fn search_on<D: Device>(
        &self,
        pages: &mut PageMap,
        device: &mut D,
        key: &[u8],
        sought: Sought,
    ) -> Result<Option<Entry>, PagesError>
        requires sectors { FitsDevice D.Device pages.old device.old }
        requires sought { (sought ≡ Sought.From) ⊎ (sought ≡ Sought.After) }
        ensures only { OnlyReadsFor D.Device device.old device.new result }
        ensures unchanged { IsUnchanged pages.old pages.new }
        ensures agrees { KeepsAgreement D.Device pages.old device.old pages.new device.new }
        ensures entry { AnswersKey D.Device self.now pages.old device.old (sought_in sought) key.now
            result }
        ensures damaged { DamagedOnlyIfNoTree D.Device self.now pages.old device.old result }
        ensures spent { ExactlyIfSpentAt self.now.root pages.old result }
        ensures lengths { IfOk result (λ entry. IfSome entry (HasLengths self.now.layout)) }
        ensures cause { IfErr result (IsSearchRefusal self.now.layout) }
    {
        let mut entry = Entry::blank();
        let found = self.find_on(pages, device, key, sought, &mut entry)?;
        Ok(entry.if_found(found))
    }
}
