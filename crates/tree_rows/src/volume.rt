//! A volume of pages on a station in memory, with two trees whose entries have numbers.
ghost use Rattle.std.specs.Prelude.{◌≡◌, ◌≤◌, true};
ghost use Rattle.btree_pages.specs.RowLayouts.{IsRowLayout};
ghost use Rattle.pages.specs.Pages.{sectors_of};

use crate::answer::Answer;
use crate::entry_bytes::{key_of, value_of};
use btree::{Entry, Tree};
use btree_check::check_tree;
use btree_pages::{RowLayout, TreePage};
use chains::{RecordBuffer, lay, read_record, release, rewrite};
use pages::{PageMap, PagesError, format};
use row_scripts::{Fault, if_done, put_text};
use station::{Device, MemoryStation};
use std::alloc::Global;
use std::mem;

/// What is sought from a number on: its own entry, the first one from it on, or the first one after it; or the first entry of all.
#[derive(Clone, Copy)]
pub enum Search {
    First,
    Get,
    Seek,
    Next,
}

/// What is put into a tree: a new entry, or a value of an entry that is there.
#[derive(Clone, Copy)]
pub enum Put {
    New,
    Value,
}

/// What a search found.
#[derive(Clone, Copy)]
pub enum Found {
    Nothing,
    /// An entry, and whether it has the expected key and the expected value.
    Entry { has_key: bool, has_value: bool },
    Refused,
}

/// An opened volume on its station, with the tree of the rows and another one. A call that is refused has no effect and returns zero or
/// nothing, and its refusal is what the row gives.
#[derive(Drop)]
pub struct Volume {
    alloc: Global,
    pages: PageMap,
    station: MemoryStation,
    buffer: RecordBuffer,
    tree: Tree,
    other: Tree,
    /// What the row gives, because a call was refused.
    refusal: Option<Answer>,
}

impl Volume {
    /// A new volume of 1,024 sectors, with room for so many pages in memory, and with trees without entries.
    pub fn new(alloc: Global, layout: RowLayout, cached: usize) -> Result<Volume, Fault>
        requires { IsRowLayout layout }
    {
        let mut station = new_station(alloc)?;
        match open_pages(alloc, &mut station, cached) {
            Ok(pages) => Ok(Volume {
                alloc,
                pages,
                station,
                buffer: RecordBuffer::new(alloc),
                tree: Tree::new(alloc, layout, 0),
                other: Tree::new(alloc, layout, 0),
                refusal: None,
            }),
            Err(why) => {
                drop(station);
                Err(Fault::Spelling(why))
            }
        }
    }

    /// The row gives this, because a call was refused. The first refusal is given.
    pub fn refuse(&mut self, answer: Answer) {
        if self.refusal.is_none() {
            self.refusal = Some(answer);
        }
    }

    /// Whether a call of the row was refused.
    pub fn is_refused(&self) -> bool {
        self.refusal.is_some()
    }

    /// What the row gives: this, if no call was refused. The refusal is forgotten.
    pub fn or_refusal(&mut self, answer: Answer) -> Answer {
        match self.refusal {
            Some(refusal) => {
                self.refusal = None;
                refusal
            }
            None => answer,
        }
    }

    /// Forgets a refusal by the device.
    pub fn forgive_device(&mut self) {
        if let Some(Answer::Refused(80)) = self.refusal {
            self.refusal = None;
        }
    }

    /// What a call on pages did, if it wasn't refused.
    fn done<T: Drop>(&mut self, done: Result<T, PagesError>) -> Option<T> {
        match done {
            Ok(value) => Some(value),
            Err(error) => {
                self.refuse(Answer::Refused(error.number()));
                None
            }
        }
    }

    /// Whether the station has each sector of the pages.
    fn fits(&mut self) -> bool
        ensures { result ≡ true
            → sectors_of self.new.pages ≤ ⟦<MemoryStation as Device>⟧.sectors self.new.station }
    {
        let fits = self.pages.sectors() <= self.station.count();
        if !fits {
            self.refuse(SMALL);
        }
        fits
    }

    /// Opens the volume again, with the tree that was committed. What wasn't committed is gone.
    pub fn reopen(&mut self, cached: usize) {
        match open_pages(self.alloc, &mut self.station, cached) {
            Ok(pages) => {
                drop(mem::replace(&mut self.pages, pages));
                let root = self.pages.catalog();
                self.set_root(root);
            }
            Err(why) => self.refuse(Answer::NoRow(why)),
        }
    }

    /// A crash that leaves each sector at the value of this choice. The volume has to be opened again.
    pub fn crash(&mut self, choice: u32) {
        self.station.crash(&[choice; 200]);
    }

    /// Makes the n-th call from now on fail, and all later ones too if it is a stop.
    pub fn disturb(&mut self, n: u32, is_stop: bool) {
        if is_stop {
            self.station.stop_at(n as u64);
        } else {
            self.station.fail_at(n as u64);
        }
    }

    /// How often a sector was to be read, and to be written.
    pub fn calls(&self) -> (u64, u64) {
        (self.station.reads(), self.station.writes())
    }

    /// How many pages were changed since the last commit.
    pub fn changed_pages(&self) -> usize {
        self.pages.changed_pages()
    }

    /// How many sectors are free.
    pub fn free_sectors(&self) -> u32 {
        self.pages.free_sectors()
    }

    /// Commits what was changed, with the tree's root. The answer is whether it was done.
    pub fn commit(&mut self) -> bool {
        if !self.fits() {
            return false;
        }
        self.pages.set_catalog(self.tree.root());
        let committed = self.pages.commit(&mut self.station);
        matches!(self.done(committed), Some(()))
    }

    /// A page of zeros that wasn't used.
    pub fn allocate(&mut self) -> u32 {
        match self.pages.allocate() {
            Ok(page) => page,
            Err(_) => {
                self.refuse(Answer::NoRow("no page is free"));
                0
            }
        }
    }

    /// Puts bytes on a page.
    fn edit(&mut self, page: u32, bytes: &[u8; 4096]) {
        if page == 0 || page as usize >= self.pages.page_count() {
            self.refuse(NO_PAGE);
        } else if self.pages.edit(page, bytes).is_err() {
            self.refuse(Answer::NoRow("the page isn't changed"));
        }
    }

    /// The bytes of a page.
    pub fn page(&mut self, page: u32) -> [u8; 4096] {
        if !self.fits() {
            return [0; 4096];
        }
        match self.pages.read(&mut self.station, page) {
            Ok(Some(bytes)) => bytes,
            _ => {
                self.refuse(NO_PAGE);
                [0; 4096]
            }
        }
    }

    /// Puts a text into the bytes of a page, from a place on.
    pub fn put_text(&mut self, page: u32, place: usize, text: &[u8]) {
        let mut bytes = self.page(page);
        match put_text(&mut bytes, place, text) {
            Ok(()) => self.edit(page, &bytes),
            Err(_) => self.refuse(Answer::NoRow("the text is past the end")),
        }
    }

    /// Puts the bytes of a page of a tree on a page that wasn't used. The answer is the number of that page.
    pub fn put_page(&mut self, page: &TreePage) -> u32 {
        let number = self.allocate();
        self.edit(number, &page.bytes());
        number
    }

    /// A page of the tree.
    pub fn tree_page(&mut self, page: u32) -> Option<TreePage> {
        let page = TreePage::read(self.page(page), self.tree.layout());
        if page.is_none() {
            self.refuse(Answer::NoRow("this is no page of a tree"));
        }
        page
    }

    /// The lengths of keys and values.
    pub fn layout(&self) -> RowLayout
        ensures { IsRowLayout result }
    {
        self.tree.layout()
    }

    /// The page of the tree's root, 0 if it has no entries.
    pub fn root(&self) -> u32 {
        self.tree.root()
    }

    /// The tree is the one below this page.
    pub fn set_root(&mut self, page: u32) {
        self.tree = Tree::new(self.alloc, self.tree.layout(), page);
    }

    /// The other tree takes the place of this one.
    pub fn swap(&mut self) {
        mem::swap(&mut self.tree, &mut self.other);
    }

    /// Puts the entry of a number with the value of another into the tree, or gives the entry that value. The answer is whether it was
    /// done: an entry is put in if it is new, and gets a value if it is there.
    pub fn put(&mut self, put: Put, number: u32, other: u32) -> bool {
        if !self.fits() {
            return false;
        }
        let layout = self.tree.layout();
        let key = key_of(layout.key_length, number);
        let key = &key[..layout.key_length];
        let value = value_of(other);
        let value = &value[..layout.value_length];
        let (tree, pages, station) = (&mut self.tree, &mut self.pages, &mut self.station);
        let done = match put {
            Put::New => tree.insert(pages, station, key, value),
            Put::Value => tree.replace(pages, station, key, value),
        };
        matches!(self.done(done), Some(true))
    }

    /// Takes the entry of a number out of the tree. The answer is whether it was there.
    pub fn remove(&mut self, number: u32) -> bool {
        if !self.fits() {
            return false;
        }
        let length = self.tree.layout().key_length;
        let removed = self.tree.remove(
            &mut self.pages,
            &mut self.station,
            &key_of(length, number)[..length],
        );
        matches!(self.done(removed), Some(true))
    }

    /// What a search from a number finds, next to the key of one number and the value of another.
    pub fn find(&mut self, search: Search, number: u32, keyed: u32, valued: u32) -> Found {
        if !self.fits() {
            return Found::Refused;
        }
        let layout = self.tree.layout();
        let key = key_of(layout.key_length, number);
        let key = &key[..layout.key_length];
        let (tree, pages, station) = (&self.tree, &mut self.pages, &mut self.station);
        let found = match search {
            Search::First => tree.first(pages, station),
            Search::Get => tree.get(pages, station, key),
            Search::Seek => tree.seek(pages, station, key),
            Search::Next => tree.next(pages, station, key),
        };
        match found {
            Ok(Some(entry)) => compare(layout, &entry, keyed, valued),
            Ok(None) => Found::Nothing,
            Err(error) => {
                self.refuse(Answer::Refused(error.number()));
                Found::Refused
            }
        }
    }

    /// Checks the tree, and marks its pages.
    pub fn check(&mut self, seen: &mut [bool]) {
        if self.fits() {
            let checked = check_tree(
                self.alloc,
                &self.tree,
                &mut self.pages,
                &mut self.station,
                seen,
            );
            self.done(checked);
        }
    }

    /// Gives up all pages of the tree. The answer is whether it was done.
    pub fn clear(&mut self) -> bool {
        if !self.fits() {
            return false;
        }
        let cleared = self.tree.clear(&mut self.pages, &mut self.station);
        matches!(self.done(cleared), Some(()))
    }

    /// Puts a record into a new chain. The answer is its first page.
    pub fn lay(&mut self, record: &[u8]) -> u32 {
        let laid = lay(&mut self.pages, record);
        self.done(laid).unwrap_or(0)
    }

    /// Whether a chain has this record.
    pub fn has_record(&mut self, first: u32, record: &[u8]) -> bool {
        if !self.fits() {
            return false;
        }
        let (alloc, size) = (self.alloc, record.len());
        let found = read_record(alloc, &self.pages, &mut self.station, first, size, 0);
        match self.done(found) {
            Some(found) => found.as_slice() == record,
            None => false,
        }
    }

    /// Whether a chain fills bytes with this record. The bytes are of its length.
    pub fn fills(&mut self, first: u32, record: &[u8], bytes: &mut [u8]) -> bool {
        if !self.fits() {
            return false;
        }
        let filled = self
            .buffer
            .read(&self.pages, &mut self.station, first, bytes);
        self.done(filled);
        &*bytes == record
    }

    /// Puts another record into a chain.
    pub fn rewrite(&mut self, first: u32, record: &[u8]) {
        if self.fits() {
            let rewritten = rewrite(&mut self.pages, &mut self.station, first, record);
            self.done(rewritten);
        }
    }

    /// Gives up the pages of the chain of a record of so many bytes.
    pub fn release(&mut self, first: u32, size: usize) {
        if self.fits() {
            let released = release(&mut self.pages, &mut self.station, first, size);
            self.done(released);
        }
    }
}

const SMALL: Answer = Answer::NoRow("the station is too small");

const NO_PAGE: Answer = Answer::NoRow("there is no such page");

/// An entry next to the key of one number and the value of another.
fn compare(layout: RowLayout, entry: &Entry, keyed: u32, valued: u32) -> Found
    requires { IsRowLayout layout }
{
    let RowLayout {
        key_length,
        value_length,
    } = layout;
    Found::Entry {
        has_key: entry.key() == &key_of(key_length, keyed)[..key_length],
        has_value: entry.value() == &value_of(valued)[..value_length],
    }
}

/// A station of 1,024 sectors with a volume without pages.
fn new_station(alloc: Global) -> Result<MemoryStation, Fault> {
    let sectors = vec![in alloc; [0; 4096]; 1024]?;
    let mut station = MemoryStation::new(alloc, sectors, Vec::new(alloc))?;
    let formatted = format_station(&mut station);
    if_done(station, formatted)
}

fn format_station(station: &mut MemoryStation) -> Result<(), Fault> {
    if station.count() != 1024 || format(station).is_err() {
        return Err(Fault::Spelling("the station is too small"));
    }
    Ok(())
}

/// Opens the pages of a station, with room for so many in memory. The error says why there are none.
fn open_pages(
    alloc: Global,
    station: &mut MemoryStation,
    cached: usize,
) -> Result<PageMap, &'static str> {
    if cached < 1 || cached > 4096 {
        return Err("from 1 to 4096 pages are in memory");
    }
    match PageMap::open(alloc, station, cached) {
        Ok(pages) => Ok(pages),
        Err(_) => Err("the volume isn't opened"),
    }
}
