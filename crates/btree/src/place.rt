//! The leaf that has the entry of a search, in which the next search in order begins.
ghost use Rattle.std.specs.Prelude.{◌≡◌, ◌≢◌, ◌<◌, ◌↔◌, List, Option, Ok, true, false, IfErr};
ghost use Rattle.station.specs.Disk.{Disk, Sector};
ghost use Rattle.pages.specs.Pages.{Agrees, IsUnchanged, KeepsCommitted, is_spent, map_now};
ghost use Rattle.pages.specs.Devices.{FitsDevice};
ghost use Rattle.btree_pages.specs.RowLayouts.{IsRowLayout};
ghost use Rattle.btree.specs.Entries.{HasLengths};
ghost use Rattle.btree.specs.Reading.{IsSearchRefusal};
ghost use Rattle.btree.specs.Calls.{OnlyReadsFor, KeepsAgreement};
ghost use Rattle.btree.specs.Results.{ExactlyIfSpentAt};
ghost use Rattle.btree.specs.Places.{IsLeafPlace, SpellsLeaf, IsNextIn, IsNextOf, AnswersNear, DamagedOnlyIfNoTreeNear, KeepsLeafPlace};

use crate::entry::Entry;
use crate::node::view_node;
use crate::sought::{Sought, place_after};
use crate::tree::Tree;
use btree_pages::{Kind, RowLayout};
use pages::{PageMap, PagesError};
use station::Device;

/// A leaf of the tree of that layout and root, or none, as page 0. It is a leaf of the tree as long as the tree's pages are unchanged.
#[derive(Clone, Copy)]
pub struct LeafPlace {
    pub(crate) layout: RowLayout,
    pub(crate) root: u32,
    pub(crate) leaf: u32,
}

impl LeafPlace {
    /// No leaf.
    pub fn none() -> LeafPlace
        ensures { (pages : List (Option Sector)) → IsLeafPlace result pages }
    {
        let layout = RowLayout {
            key_length: 0,
            value_length: 0,
        };
        LeafPlace {
            layout,
            root: 0,
            leaf: 0,
        }
    }

    /// Whether it is a leaf, of that layout and under that root.
    fn is_in(&self, layout: RowLayout, root: u32) -> bool
        ensures { (result ≡ true)
            ↔ ((self.now.leaf ≢ 0) × (self.now.root ≡ root) × (self.now.layout ≡ layout)) }
    {
        self.leaf != 0
            && self.root == root
            && self.layout.key_length == layout.key_length
            && self.layout.value_length == layout.value_length
    }
}

impl Tree {
    /// Puts the first entry after a key into `entry`, and returns whether there is one. The search begins in the noted leaf if it is one
    /// of this tree, and the leaf that has the entry is noted. `entry` may have any bytes if there is none, and after a refusal. Refusals
    /// are those of `get`.
    pub fn next_near<D: Device>(
        &self,
        pages: &mut PageMap,
        device: &mut D,
        key: &[u8],
        place: &mut LeafPlace,
        entry: &mut Entry,
    ) -> Result<bool, PagesError>
        requires sectors { FitsDevice D.Device pages.old device.old }
        ensures only { OnlyReadsFor D.Device device.old device.new result }
        ensures unchanged { IsUnchanged pages.old pages.new }
        ensures agrees { KeepsAgreement D.Device pages.old device.old pages.new device.new }

        // If the noted leaf is one of its own tree, the answer is that of `next`, and the leaf that is noted then is one of this tree.
        ensures entry { AnswersNear D.Device self.now pages.old device.old place.old key.now
            entry.new result }
        ensures place { KeepsLeafPlace D.Device pages.old device.old place.old place.new }
        ensures damaged { DamagedOnlyIfNoTreeNear D.Device self.now pages.old device.old place.old
            result }
        ensures spent { ExactlyIfSpentAt self.now.root pages.old result }
        ensures lengths { result ≡ Ok true → HasLengths self.now.layout entry.new }
        ensures cause { IfErr result (IsSearchRefusal self.now.layout) }
    {
        if self.root == 0 {
            return Ok(false);
        }
        if look_near(pages, place, self.layout, self.root, key, entry) {
            return Ok(true);
        }
        let end = self.search_right(pages, device, key, Sought::After, entry)?;
        if end.found {
            *place = LeafPlace {
                layout: self.layout,
                root: self.root,
                leaf: end.leaf,
            };
        }
        Ok(end.found)
    }
}

/// Whether the leaf at a place has the first entry after a key of the tree of that layout and root. The entry is put into `entry`. No
/// page is read from the device.
fn look_near(
    pages: &mut PageMap,
    place: &LeafPlace,
    layout: RowLayout,
    root: u32,
    key: &[u8],
    entry: &mut Entry,
) -> bool
    requires layout { IsRowLayout layout }
    ensures unchanged { IsUnchanged pages.old pages.new }
    ensures keeps { KeepsCommitted pages.old pages.new }
    ensures entry { result ≡ true → (disk : Disk) → Agrees pages.old disk
        → IsLeafPlace place.now (map_now pages.old disk.present).pages
        → IsNextOf layout (map_now pages.old disk.present).pages root key.now entry.new }
    ensures lengths { result ≡ true → HasLengths layout entry.new }
    ensures unspent { result ≡ true → is_spent pages.old ≡ false }
{
    if !place.is_in(layout, root) {
        return false;
    }
    match pages.visit(place.leaf) {
        Some(bytes) => near_in(bytes, layout, key, entry),
        None => false,
    }
}

/// Whether these bytes spell a leaf whose first key isn't above a key, and that has an entry after it. The first such entry is put into
/// `entry`.
fn near_in(bytes: &[u8; 4096], layout: RowLayout, key: &[u8], entry: &mut Entry) -> bool
    requires { IsRowLayout layout }
    ensures leaf { result ≡ true → SpellsLeaf layout bytes.now }
    ensures next { IsNextIn layout bytes.now key.now entry.new result }
    ensures lengths { result ≡ true → HasLengths layout entry.new }
{
    let node = match view_node(bytes, layout) {
        Ok(node) => node,
        Err(_) => return false,
    };
    if node.kind() == Kind::Inner {
        return false;
    }
    let place = place_after(&node, key, entry.place);
    if !is_past_first(place, node.count()) {
        return false;
    }
    entry.take_row(&node, place);
    true
}

/// Whether a place is that of a row, and not of the first one, in a page of so many rows.
fn is_past_first(place: usize, count: usize) -> bool
    ensures { (result ≡ true) ↔ ((0 < place) × (place < count)) }
{
    0 < place && place < count
}
