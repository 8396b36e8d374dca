//! How many entries a tree has.
ghost use Rattle.std.specs.Prelude.{◌≡◌, ◌≤◌, ◌<◌, ◌+◌, Err, true, List, length, IfOk, IfErr};
ghost use Rattle.std.specs.List.{All};
ghost use Rattle.pages.specs.Pages.{is_spent, page_count, IsUnchanged};
ghost use Rattle.pages.specs.Devices.{FitsDevice};
ghost use Rattle.btree_pages.specs.RowLayouts.{IsRowLayout};
ghost use Rattle.btree.specs.Tree.{TreeNode, rows_of, rows_in_order, IsOnPage};
ghost use Rattle.btree.specs.Laws.{IsSmall};
ghost use Rattle.btree.specs.Entries.{entries_of};
ghost use Rattle.btree.specs.Moves.{numbers_of};
ghost use Rattle.btree.specs.Clears.{IsDown};
ghost use Rattle.btree.specs.Refusals.{ErrOnlyIfChangeRefusal};
ghost use Rattle.btree.specs.Calls.{OnPages, OnTree, OnlyReadsFor, KeepsAgreement, DamagedOnlyIfNoTree};
ghost use Rattle.btree.specs.Results.{OnlyIfSpent, OnlyIfSpentAt};

use crate::clear::below;
use crate::descend::LEVELS;
use crate::node::read_kind;
use crate::tree::Tree;
use btree_pages::{Kind, RowLayout};
use pages::{PageMap, PagesError};
use station::Device;
use std::alloc::Global;

impl Tree {
    /// How many entries there are. Each page of the tree is read once. `Damaged` says that the pages under the root are no tree. The
    /// page numbers of two levels are kept in memory, no more of each than the volume has.
    pub fn count<D: Device>(&self, pages: &mut PageMap, device: &mut D) -> Result<u64, PagesError>
        requires sectors { FitsDevice D.Device pages.old device.old }
        ensures only { OnlyReadsFor D.Device device.old device.new result }
        ensures unchanged { IsUnchanged pages.old pages.new }
        ensures agrees { KeepsAgreement D.Device pages.old device.old pages.new device.new }
        ensures count { OnTree D.Device self.now.layout self.now.root pages.old device.old
            (λ levels. IfOk result
            (λ count. count ≡ length (entries_of self.now.layout levels))) }
        ensures damaged { DamagedOnlyIfNoTree D.Device self.now pages.old device.old result }
        ensures spent { OnlyIfSpentAt self.now.root pages.old result }
        ensures cause { ErrOnlyIfChangeRefusal result }
    {
        if self.root == 0 {
            return Ok(0);
        }
        let alloc = self.alloc;
        // A clause of `page_count` says how many page numbers there are.
        let _page_count = pages.page_count();
        let numbers = [self.root];
        count_levels(alloc, pages, device, self.layout, &numbers, LEVELS)
    }
}

/// How many rows these leaves have.
fn count_rows<D: Device>(
    pages: &mut PageMap,
    device: &mut D,
    layout: RowLayout,
    numbers: &[u32],
) -> Result<u64, PagesError>
    requires sectors { FitsDevice D.Device pages.old device.old }
    requires layout { IsRowLayout layout }
    requires few { length numbers.now ≤ page_count pages.old + 1 }
    ensures only { OnlyReadsFor D.Device device.old device.new result }
    ensures unchanged { IsUnchanged pages.old pages.new }
    ensures agrees { KeepsAgreement D.Device pages.old device.old pages.new device.new }
    ensures count { OnPages D.Device pages.old device.old
        (λ before. (level : List TreeNode)
        → All (IsOnPage layout before Kind.Leaf) level → numbers_of level ≡ numbers.now
        → IfOk result (λ count. count ≡ length (rows_of level))) }
    ensures damaged { OnPages D.Device pages.old device.old
        (λ before. result ≡ Err PagesError.Damaged → (level : List TreeNode)
        → All (IsOnPage layout before Kind.Leaf) level → numbers_of level ≡ numbers.now → ⊥) }
    ensures spent { OnlyIfSpent pages.old result }
    ensures cause { ErrOnlyIfChangeRefusal result }
{
    // There are few page numbers, and at most 4,080 rows on each page, so the sum is in its bounds.
    let _page_count = pages.page_count();
    let mut count = 0;
    for place in 0..numbers.len() {
        let node = read_kind(pages, device, layout, Kind::Leaf, numbers[place])?;
        count += node.count() as u64;
    }
    Ok(count)
}

/// How many rows the leaves below these pages have, which are at most so many levels.
fn count_levels<D: Device>(
    alloc: Global,
    pages: &mut PageMap,
    device: &mut D,
    layout: RowLayout,
    numbers: &[u32],
    depth: usize,
) -> Result<u64, PagesError>
    requires sectors { FitsDevice D.Device pages.old device.old }
    requires layout { IsRowLayout layout }
    requires few { length numbers.now ≤ page_count pages.old + 1 }
    ensures only { OnlyReadsFor D.Device device.old device.new result }
    ensures unchanged { IsUnchanged pages.old pages.new }
    ensures agrees { KeepsAgreement D.Device pages.old device.old pages.new device.new }
    ensures count { OnPages D.Device pages.old device.old
        (λ before. (levels : List (List TreeNode)) → IsSmall before
        → IsDown layout before numbers.now levels
        → IfOk result (λ count. count ≡ length (rows_in_order levels))) }
    ensures damaged { OnPages D.Device pages.old device.old
        (λ before. result ≡ Err PagesError.Damaged → (levels : List (List TreeNode)) → IsSmall
        before → IsDown layout before numbers.now levels → length levels ≤ depth → ⊥) }
    ensures spent { OnlyIfSpent pages.old result }
    ensures told { is_spent pages.old ≡ true → 0 < length numbers.now → 0 < depth
        → result ≡ Err PagesError.Spent }
    ensures cause { ErrOnlyIfChangeRefusal result }
{
    if numbers.is_empty() {
        return Ok(0);
    }
    if depth == 0 {
        return Err(PagesError::Damaged);
    }
    let children = below(alloc, pages, device, layout, numbers)?;
    if children.is_empty() {
        return count_rows(pages, device, layout, numbers);
    }
    count_levels(alloc, pages, device, layout, children.as_slice(), depth - 1)
}
