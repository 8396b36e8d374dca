//! Trees by their drawing: how many rows each page has, from left to right, the leaves first and then each level above them, as in
//! `1213/22/2`. A number is the character so far after 0, so `D` is 20 and `W` is 39. Their entries are 10, 20, 30 and so on.
use crate::answer::Answer;
use crate::entry_bytes::{key_of, value_of};
use crate::volume::Volume;
use btree_pages::{Kind, TreePage};

/// The most pages of a tree here.
const MOST_PAGES: usize = 1024;

/// The most characters of a drawing.
const MOST_BYTES: usize = 2048;

/// The drawing of the pages of a tree, which are in order from the root on, each level from right to left.
#[derive(Drop)]
pub struct Drawing {
    pages: [u32; MOST_PAGES],
    count: usize,
    bytes: [u8; MOST_BYTES],
    /// Where the drawing begins.
    start: usize,
}

impl Drawing {
    /// Of no page.
    pub fn new() -> Drawing {
        Drawing {
            pages: [0; MOST_PAGES],
            count: 0,
            bytes: [0; MOST_BYTES],
            start: MOST_BYTES,
        }
    }

    /// Makes it the drawing of no page.
    fn clear(&mut self) {
        self.count = 0;
        self.start = MOST_BYTES;
    }

    /// Its characters.
    pub fn bytes(&self) -> &[u8] {
        self.bytes.get(self.start..).unwrap_or(b"")
    }

    /// Adds a character in front.
    fn push(&mut self, byte: u8) {
        if 1 <= self.start && self.start <= MOST_BYTES {
            self.start -= 1;
            self.bytes[self.start] = byte;
        }
    }

    /// Adds a page after the others.
    fn push_page(&mut self, page: u32) {
        if self.count < MOST_PAGES {
            self.pages[self.count] = page;
            self.count += 1;
        }
    }

    /// Adds the number of rows of a page, and its children after the other pages, from right to left.
    fn push_rows(&mut self, page: &TreePage) {
        let count = page.count();
        self.push(b'0'.wrapping_add((count % 256) as u8));
        if page.kind() == Kind::Inner {
            for place in 0..count {
                self.push_page(page.child(count - 1 - place));
            }
        }
    }
}

/// How many entries the tree of a drawing has.
pub fn entries_in(drawing: &[u8]) -> u32 {
    let mut entries = 0u32;
    for byte in drawing.iter() {
        if *byte == b'/' {
            break;
        }
        entries = entries.wrapping_add(u32::from(byte.wrapping_sub(b'0')));
    }
    entries
}

/// How many leaves the tree of a drawing has, and how many of them have fewer rows than so many.
pub fn leaves_in(drawing: &[u8], least: usize) -> (usize, usize) {
    let mut leaves = 0usize;
    let mut thin = 0usize;
    for byte in drawing.iter() {
        if *byte == b'/' {
            break;
        }
        leaves = leaves.saturating_add(1);
        if rows_in(*byte) < least {
            thin = thin.saturating_add(1);
        }
    }
    (leaves, thin)
}

/// Puts the tree of a drawing on pages.
pub fn plant(volume: &mut Volume, drawing: &[u8]) {
    let mut planting = Planting {
        pages: [NO_PAGE; MOST_PAGES],
        count: 0,
        level: 0,
        below: 0,
        rows: 0,
    };
    for byte in drawing.iter() {
        if *byte == b'/' {
            planting.begin_level();
        } else {
            planting.plant_page(volume, rows_in(*byte));
        }
    }
    match planting.pages.get(planting.level..planting.count) {
        Some([top, ..]) => volume.set_root(top.page),
        _ => volume.refuse(WRONG),
    }
}

/// Draws a tree: from the root on, and turned round.
pub fn draw(volume: &mut Volume, drawing: &mut Drawing) {
    drawing.clear();
    if volume.root() != 0 {
        drawing.push_page(volume.root());
    }
    let mut end = 1;
    for place in 0..MOST_PAGES {
        if place >= drawing.count {
            break;
        }
        if place == end {
            drawing.push(b'/');
            end = drawing.count;
        }
        match volume.tree_page(drawing.pages[place]) {
            Some(page) => drawing.push_rows(&page),
            None => break,
        }
    }
}

const WRONG: Answer = Answer::NoRow("this is no drawing");

/// A page of a tree, and the number of the least key below it.
#[derive(Clone, Copy)]
struct PlacedPage {
    least: u32,
    page: u32,
}

const NO_PAGE: PlacedPage = PlacedPage { least: 0, page: 0 };

/// The pages of a drawing so far.
#[derive(Drop)]
struct Planting {
    pages: [PlacedPage; MOST_PAGES],
    count: usize,
    /// The places of the first page of this level, and of the first one of the level below.
    level: usize,
    below: usize,
    /// How many rows this level has.
    rows: usize,
}

impl Planting {
    /// The next level begins.
    fn begin_level(&mut self) {
        self.below = self.level;
        self.level = self.count;
        self.rows = 0;
    }

    /// Puts the next page of this level on a page, with so many rows. They are entries if there is no page below, and else pages below.
    fn plant_page(&mut self, volume: &mut Volume, count: usize) {
        let first = self.rows;
        self.rows = first.wrapping_add(count);
        let page = if self.below == self.level {
            plant_leaf(volume, first, count)
        } else {
            plant_inner(volume, self.children(first, count))
        };
        if self.count < MOST_PAGES {
            self.pages[self.count] = page;
            self.count += 1;
        }
    }

    /// So many pages of the level below, from a place on; none, if there are fewer.
    fn children(&self, first: usize, count: usize) -> &[PlacedPage] {
        let first = self.below.wrapping_add(first);
        let end = first.wrapping_add(count);
        match self.pages.get(first..end) {
            Some(children) if end <= self.level => children,
            _ => &[],
        }
    }
}

/// The rows of a page of a drawing.
fn rows_in(byte: u8) -> usize {
    byte.wrapping_sub(b'0') as usize
}

/// The number of the entry at a place, counted from 0.
fn entry_number(place: usize) -> u32 {
    ((place % 1_000_000) as u32)
        .wrapping_add(1)
        .wrapping_mul(10)
}

/// Puts a leaf on a page, with so many entries from a place on.
fn plant_leaf(volume: &mut Volume, first: usize, count: usize) -> PlacedPage {
    let layout = volume.layout();
    let mut leaf = TreePage::new(layout, Kind::Leaf);
    for place in 0..count {
        let number = entry_number(first.wrapping_add(place));
        if !push_row(&mut leaf, number, &value_of(number)[..layout.value_length]) {
            volume.refuse(WRONG);
        }
    }
    PlacedPage {
        least: entry_number(first),
        page: volume.put_page(&leaf),
    }
}

/// Puts an inner page with these children on a page.
fn plant_inner(volume: &mut Volume, children: &[PlacedPage]) -> PlacedPage {
    let Some(first) = children.first() else {
        volume.refuse(WRONG);
        return NO_PAGE;
    };
    let mut inner = TreePage::new(volume.layout(), Kind::Inner);
    if !push_children(&mut inner, children) {
        volume.refuse(WRONG);
    }
    PlacedPage {
        least: first.least,
        page: volume.put_page(&inner),
    }
}

/// Adds the rows of these children. The answer is whether they have room there.
fn push_children(page: &mut TreePage, children: &[PlacedPage]) -> bool {
    for child in children.iter() {
        if !push_row(page, child.least, &child.page.to_be_bytes()) {
            return false;
        }
    }
    true
}

/// Adds a row after the last row of a page. The answer is whether it has room there.
fn push_row(page: &mut TreePage, number: u32, rest: &[u8]) -> bool {
    let layout = page.layout();
    let rest_length = match page.kind() {
        Kind::Leaf => layout.value_length,
        Kind::Inner => 4,
    };
    if page.is_full() || rest.len() != rest_length {
        return false;
    }
    let key = key_of(layout.key_length, number);
    page.insert(page.count(), &key[..layout.key_length], rest);
    true
}
