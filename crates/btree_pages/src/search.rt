//! The place of a key in a page.
ghost use Rattle.std.specs.Prelude.{◌↔◌, ◌≤◌, IsTrue, length, IfOk, IfErr};
ghost use Rattle.btree_pages.specs.Keys.{Ascend, keys_of};
ghost use Rattle.btree_pages.specs.Searches.{HasKeyAt, SplitsRows};

use crate::key_order::compare_keys;
use crate::node_view::NodeView;
use crate::tree_page::TreePage;
use std::cmp::Ordering;

impl<'a> NodeView<'a> {
    /// The place of the row with this key, or the place where it would go in. A page whose keys don't ascend gives a place of it all
    /// the same.
    pub fn find(&self, key: &[u8]) -> Result<usize, usize>
        ensures found { IfOk result (HasKeyAt self.now key.now) }
        ensures missing { IfErr result (λ place. place ≤ length self.now.rows) }
        ensures around { SplitsRows self.now key.now result }
    {
        let mut low = 0;
        let mut high = self.count();
        while low < high {
            let middle = low + (high - low) / 2;
            match compare_keys(self.key(middle), key) {
                Ordering::Less => low = middle + 1,
                Ordering::Equal => return Ok(middle),
                Ordering::Greater => high = middle,
            }
        }
        Err(low)
    }

    /// As `find`. The search is spared if the row at `place`, which may be any number, has the key.
    pub fn find_near(&self, key: &[u8], place: usize) -> Result<usize, usize>
        ensures found { IfOk result (HasKeyAt self.now key.now) }
        ensures missing { IfErr result (λ place. place ≤ length self.now.rows) }
        ensures around { SplitsRows self.now key.now result }
    {
        if place < self.count() && compare_keys(self.key(place), key).is_eq() {
            return Ok(place);
        }
        self.find(key)
    }

    /// Whether each key is below the next one.
    pub fn is_ascending(&self) -> bool
        ensures { IsTrue result ↔ Ascend (keys_of self.now.layout self.now.rows) }
    {
        for place in 1..self.count() {
            match compare_keys(self.key(place - 1), self.key(place)) {
                Ordering::Less => {}
                _ => return false,
            }
        }
        true
    }
}

impl TreePage {
    /// The place of the row with this key, or the place where it would go in. A page whose keys don't ascend gives a place of it all
    /// the same.
    pub fn find(&self, key: &[u8]) -> Result<usize, usize>
        ensures found { IfOk result (HasKeyAt self.now key.now) }
        ensures missing { IfErr result (λ place. place ≤ length self.now.rows) }
        ensures around { SplitsRows self.now key.now result }
    {
        self.view().find(key)
    }

    /// Whether each key is below the next one.
    pub fn is_ascending(&self) -> bool
        ensures { IsTrue result ↔ Ascend (keys_of self.now.layout self.now.rows) }
    {
        self.view().is_ascending()
    }
}
