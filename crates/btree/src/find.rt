//! An entry is found, and put where the caller says.
ghost use Rattle.std.specs.Prelude.{◌≡◌, ◌≢◌, ◌++◌, ◌⊎◌, Ok, Err, true, ℕ, List, IfOk, IfErr};
ghost use Rattle.pages.specs.Pages.{IsUnchanged};
ghost use Rattle.pages.specs.Devices.{FitsDevice};
ghost use Rattle.btree.specs.Tree.{TreeNode, IsTree, rows_in_order};
ghost use Rattle.btree.specs.Path.{first_key};
ghost use Rattle.btree.specs.Entries.{HasLengths, entry_with, first_from, first_entry, entries_of, entries_of_rows};
ghost use Rattle.btree.specs.Places.{HasLeaf, if_found, FindsKey};
ghost use Rattle.btree.specs.Reading.{IsSearchRefusal};
ghost use Rattle.btree.specs.Sought.{sought_in};
ghost use Rattle.btree.specs.Calls.{OnPages, OnTree, OnlyReadsFor, KeepsAgreement, DamagedOnlyIfNoTree};
ghost use Rattle.btree.specs.Results.{OnlyIfSpent, ExactlyIfSpent, ExactlyIfSpentAt};

use crate::descend::follow;
use crate::entry::Entry;
use crate::key::Key;
use crate::sought::{SearchEnd, Sought, entry_at, search};
use crate::tree::Tree;
use pages::{PageMap, PagesError};
use station::Device;

impl Tree {
    /// Puts the entry of a key into `entry`, and returns whether it is there. `entry` may have any bytes if it isn't, and after a refusal.
    /// Refusals are those of `get`.
    pub fn find<D: Device>(
        &self,
        pages: &mut PageMap,
        device: &mut D,
        key: &[u8],
        entry: &mut Entry,
    ) -> Result<bool, PagesError>
        requires sectors { FitsDevice D.Device pages.old device.old }
        ensures only { OnlyReadsFor D.Device device.old device.new result }
        ensures unchanged { IsUnchanged pages.old pages.new }
        ensures agrees { KeepsAgreement D.Device pages.old device.old pages.new device.new }
        ensures entry { FindsKey D.Device self.now pages.old device.old entry_with key.now entry.new
            result }
        ensures damaged { DamagedOnlyIfNoTree D.Device self.now pages.old device.old result }
        ensures spent { ExactlyIfSpentAt self.now.root pages.old result }
        ensures lengths { result ≡ Ok true → HasLengths self.now.layout entry.new }
        ensures cause { IfErr result (IsSearchRefusal self.now.layout) }
    {
        if self.root == 0 {
            return Ok(false);
        }
        let root = self.root;
        let end = search(pages, device, self.layout, root, key, Sought::With, entry)?;
        Ok(end.found)
    }

    /// Puts the first entry from a key on into `entry`, and returns whether there is one. Otherwise as `find`.
    pub fn find_from<D: Device>(
        &self,
        pages: &mut PageMap,
        device: &mut D,
        key: &[u8],
        entry: &mut Entry,
    ) -> Result<bool, PagesError>
        requires sectors { FitsDevice D.Device pages.old device.old }
        ensures only { OnlyReadsFor D.Device device.old device.new result }
        ensures unchanged { IsUnchanged pages.old pages.new }
        ensures agrees { KeepsAgreement D.Device pages.old device.old pages.new device.new }
        ensures entry { FindsKey D.Device self.now pages.old device.old first_from key.now entry.new
            result }
        ensures damaged { DamagedOnlyIfNoTree D.Device self.now pages.old device.old result }
        ensures spent { ExactlyIfSpentAt self.now.root pages.old result }
        ensures lengths { result ≡ Ok true → HasLengths self.now.layout entry.new }
        ensures cause { IfErr result (IsSearchRefusal self.now.layout) }
    {
        self.find_on(pages, device, key, Sought::From, entry)
    }

    /// The same of the entry that is sought by a key, in the leaf where the key belongs or after it.
    pub(crate) fn find_on<D: Device>(
        &self,
        pages: &mut PageMap,
        device: &mut D,
        key: &[u8],
        sought: Sought,
        entry: &mut Entry,
    ) -> Result<bool, PagesError>
        requires sectors { FitsDevice D.Device pages.old device.old }
        requires sought { (sought ≡ Sought.From) ⊎ (sought ≡ Sought.After) }
        ensures only { OnlyReadsFor D.Device device.old device.new result }
        ensures unchanged { IsUnchanged pages.old pages.new }
        ensures agrees { KeepsAgreement D.Device pages.old device.old pages.new device.new }
        ensures entry { FindsKey D.Device self.now pages.old device.old (sought_in sought) key.now
            entry.new result }
        ensures damaged { DamagedOnlyIfNoTree D.Device self.now pages.old device.old result }
        ensures spent { ExactlyIfSpentAt self.now.root pages.old result }
        ensures lengths { result ≡ Ok true → HasLengths self.now.layout entry.new }
        ensures cause { IfErr result (IsSearchRefusal self.now.layout) }
    {
        if self.root == 0 {
            return Ok(false);
        }
        let root = self.root;
        let end = search(pages, device, self.layout, root, key, sought, entry)?;
        if end.found {
            return Ok(true);
        }
        let end = self.search_right(pages, device, key, sought, entry)?;
        Ok(end.found)
    }

    /// The same in a tree that has a root, by a way that keeps what is to the right of its leaf. Returns whether the entry is there, and
    /// the leaf that has it.
    #[cold]
    #[inline(never)]
    pub(crate) fn search_right<D: Device>(
        &self,
        pages: &mut PageMap,
        device: &mut D,
        key: &[u8],
        sought: Sought,
        entry: &mut Entry,
    ) -> Result<SearchEnd, PagesError>
        requires root { self.now.root ≢ 0 }
        requires sectors { FitsDevice D.Device pages.old device.old }
        requires sought { (sought ≡ Sought.From) ⊎ (sought ≡ Sought.After) }
        ensures only { OnlyReadsFor D.Device device.old device.new result }
        ensures unchanged { IsUnchanged pages.old pages.new }
        ensures agrees { KeepsAgreement D.Device pages.old device.old pages.new device.new }
        ensures entry { OnTree D.Device self.now.layout self.now.root pages.old device.old
            (λ levels. IfOk result (λ end. if_found end.found entry.new
            ≡ sought_in sought (entries_of self.now.layout levels) key.now)) }
        ensures leaf { OnTree D.Device self.now.layout self.now.root pages.old device.old
            (λ levels. IfOk result (λ end. end.found ≡ true → HasLeaf levels end.leaf)) }
        ensures damaged { DamagedOnlyIfNoTree D.Device self.now pages.old device.old result }
        ensures spent { ExactlyIfSpent pages.old result }
        ensures lengths { IfOk result
            (λ end. end.found ≡ true → HasLengths self.now.layout entry.new) }
        ensures cause { IfErr result (IsSearchRefusal self.now.layout) }
    {
        let way = follow(self.alloc, pages, device, self.layout, self.root, key)?;
        if entry_at(pages, device, self.layout, way.page, key, sought, entry)? {
            return Ok(SearchEnd {
                leaf: way.page,
                found: true,
            });
        }
        self.find_right(pages, device, &way.right, entry)
    }

    /// The same of the first entry to the right of a leaf: that of the first key there, if there is one.
    #[cold]
    #[inline(never)]
    fn find_right<D: Device>(
        &self,
        pages: &mut PageMap,
        device: &mut D,
        right: &Option<Key>,
        entry: &mut Entry,
    ) -> Result<SearchEnd, PagesError>
        requires sectors { FitsDevice D.Device pages.old device.old }
        ensures only { OnlyReadsFor D.Device device.old device.new result }
        ensures unchanged { IsUnchanged pages.old pages.new }
        ensures agrees { KeepsAgreement D.Device pages.old device.old pages.new device.new }
        ensures entry { OnPages D.Device pages.old device.old
            (λ before. (levels : List (List TreeNode)) → IsTree self.now.layout before self.now.root
            levels → (passed after : List (List ℕ)) → rows_in_order levels ≡ passed ++ after
            → right.now ≡ first_key self.now.layout after → IfOk result
            (λ end. if_found end.found entry.new
            ≡ first_entry (entries_of_rows self.now.layout after))) }
        ensures leaf { OnPages D.Device pages.old device.old
            (λ before. (levels : List (List TreeNode)) → IsTree self.now.layout before self.now.root
            levels → IfOk result (λ end. end.found ≡ true → HasLeaf levels end.leaf)) }
        ensures damaged { OnPages D.Device pages.old device.old
            (λ before. result ≡ Err PagesError.Damaged → (levels : List (List TreeNode))
            → IsTree self.now.layout before self.now.root levels
            → (passed after : List (List ℕ)) → rows_in_order levels ≡ passed ++ after
            → right.now ≡ first_key self.now.layout after → ⊥) }
        ensures spent { OnlyIfSpent pages.old result }
        ensures lengths { IfOk result
            (λ end. end.found ≡ true → HasLengths self.now.layout entry.new) }
        ensures cause { IfErr result (IsSearchRefusal self.now.layout) }
    {
        let right = match right {
            Some(right) => right,
            None => {
                return Ok(SearchEnd {
                    leaf: 0,
                    found: false,
                });
            }
        };
        let key = right.bytes();
        let end = search(
            pages,
            device,
            self.layout,
            self.root,
            key,
            Sought::With,
            entry,
        )?;
        if end.found {
            return Ok(end);
        }
        Err(PagesError::Damaged)
    }
}
