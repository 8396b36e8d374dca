//! A tree gives up its pages.
ghost use Rattle.std.specs.Prelude.{◌≡◌, ◌≤◌, ◌<◌, ◌++◌, Err, true, List, [], length, map, IfOk, IfErr, OnOk};
ghost use Rattle.std.specs.List.{All};
ghost use Rattle.station.specs.Disk.{Sector};
ghost use Rattle.pages.specs.Pages.{is_spent, page_count, KeepsCommitted, IsUnchanged};
ghost use Rattle.pages.specs.Devices.{FitsDevice};
ghost use Rattle.btree_pages.specs.RowLayouts.{IsRowLayout};
ghost use Rattle.btree_pages.specs.Keys.{child_of};
ghost use Rattle.btree.specs.Tree.{TreeNode, rows_of, pages_of, IsOnPage};
ghost use Rattle.btree.specs.Laws.{IsSmall};
ghost use Rattle.btree.specs.Moves.{Moves, numbers_of};
ghost use Rattle.btree.specs.Changes.{pages_of_map};
ghost use Rattle.btree.specs.Clears.{HasPages, IsDown, levels_below};
ghost use Rattle.btree.specs.Refusals.{IsRestRefusal, ErrOnlyIfChangeRefusal};
ghost use Rattle.btree.specs.Calls.{OnPages, OnChange, OnlyReadsFor, EditsPagesFor, KeepsAgreement, DamagedOnlyIfNoTree};
ghost use Rattle.btree.specs.Results.{OnlyIfSpent, ExactlyIfSpent, OnlyIfSpentAt, ErrOnlyIfSame, OkOnlyIfEmpty, SameLayout, FillsNoMore};
ghost use Rattle.btree.specs.TreeEdits.{OkOnlyIfCleared};

use crate::descend::LEVELS;
use crate::node::{read_kind, read_node};
use crate::tree::Tree;
use btree_pages::{Kind, RowLayout, TreePage};
use pages::{PageMap, PagesError};
use station::Device;
use std::alloc::Global;

impl Tree {
    /// Gives up all pages of the tree, whose root is 0 then. `Damaged` means that the pages under the root are no tree. After a refusal
    /// the pages that aren't committed are given up with the map of pages. Of the leaves only the first one is read. The number of
    /// each page is kept in memory. Whatever the bytes are, no level is kept that names more pages than the volume has page numbers, so
    /// the number of pages bounds that memory.
    pub fn clear<D: Device>(
        &mut self,
        pages: &mut PageMap,
        device: &mut D,
    ) -> Result<(), PagesError>
        requires sectors { FitsDevice D.Device pages.old device.old }
        ensures edits { EditsPagesFor D.Device pages.old device.old pages.new device.new result }

        // Each page of the tree leaves the map, and the others stay as they are.
        ensures cleared { OkOnlyIfCleared D.Device self.old pages.old device.old pages.new result }
        ensures damaged { DamagedOnlyIfNoTree D.Device self.old pages.old device.old result }
        ensures layout { SameLayout self.old self.new }
        ensures root { OkOnlyIfEmpty self.new result }
        ensures same { ErrOnlyIfSame self.old self.new result }
        ensures filled { FillsNoMore pages.old pages.new }
        ensures spent { OnlyIfSpentAt self.old.root pages.old result }
        ensures cause { ErrOnlyIfChangeRefusal result }
    {
        let alloc = self.alloc;
        let layout = self.layout();
        let top = self.root();
        if top == 0 {
            return Ok(());
        }
        // How many page numbers there are is needed below.
        let _page_count = pages.page_count();
        let numbers = [top];
        clear_levels(alloc, pages, device, layout, &numbers, LEVELS)?;
        self.set_root(0);
        Ok(())
    }
}

/// Takes these pages out of the map. `Damaged` means that one of the numbers is no page's.
fn release_pages(pages: &mut PageMap, numbers: &[u32]) -> Result<(), PagesError>
    ensures released { OnOk result ((image : List Sector)
        → Moves (pages_of_map pages.old image) numbers.now (pages_of_map pages.new image) []) }
    ensures damaged { result ≡ Err PagesError.Damaged → (image : List Sector) →
        All (λ page. (0 < page) × (page < length (pages_of_map pages.old image))) numbers.now → ⊥ }
    ensures filled { FillsNoMore pages.old pages.new }
    ensures keeps { KeepsCommitted pages.old pages.new }
    ensures spent { OnlyIfSpent pages.old result }
    ensures cause { IfErr result IsRestRefusal }
{
    for place in 0..numbers.len() {
        let page = numbers[place];
        if page == 0 {
            return Err(PagesError::Damaged);
        }
        if pages.page_count() <= page as usize {
            return Err(PagesError::Damaged);
        }
        pages.release(page)?;
    }
    Ok(())
}

/// Puts the children of an inner page after the page numbers.
fn push_children(numbers: &mut Vec<u32>, node: &TreePage) -> Result<(), PagesError>
    requires { node.now.kind ≡ Kind.Inner }
    ensures numbers { OnOk result
        (numbers.new.items ≡ numbers.old.items ++ map (child_of node.now.layout) node.now.rows) }
    ensures cause { IfErr result (λ error. error ≡ PagesError.Memory) }
{
    for place in 0..node.count() {
        numbers.push(node.child(place))?;
    }
    Ok(())
}

/// The children of these inner pages, from left to right. They are no more than there are page numbers: on a tree they are distinct,
/// and other pages may name one page many times.
fn children_of<D: Device>(
    alloc: Global,
    pages: &mut PageMap,
    device: &mut D,
    layout: RowLayout,
    numbers: &[u32],
) -> Result<Vec<u32>, PagesError>
    requires sectors { FitsDevice D.Device pages.old device.old }
    requires layout { IsRowLayout layout }
    ensures only { OnlyReadsFor D.Device device.old device.new result }
    ensures unchanged { IsUnchanged pages.old pages.new }
    ensures agrees { KeepsAgreement D.Device pages.old device.old pages.new device.new }
    ensures children { OnPages D.Device pages.old device.old
        (λ before. (level : List TreeNode)
        → All (IsOnPage layout before Kind.Inner) level → numbers_of level ≡ numbers.now
        → IfOk result (λ children. children.items ≡ map (child_of layout) (rows_of level))) }
    ensures damaged { OnPages D.Device pages.old device.old
        (λ before. result ≡ Err PagesError.Damaged → (level : List TreeNode)
        → All (IsOnPage layout before Kind.Inner) level → numbers_of level ≡ numbers.now
        → length (rows_of level) ≤ length before → ⊥) }
    ensures few { IfOk result (λ children. length children.items ≤ page_count pages.old) }
    ensures spent { OnlyIfSpent pages.old result }
    ensures cause { ErrOnlyIfChangeRefusal result }
{
    let room = pages.page_count();
    let mut children = Vec::new(alloc);
    for place in 0..numbers.len() {
        let node = read_kind(pages, device, layout, Kind::Inner, numbers[place])?;
        push_children(&mut children, &node)?;
        if room < children.len() {
            return Err(PagesError::Damaged);
        }
    }
    Ok(children)
}

/// The pages of the level below that of these pages, none below the leaves, and no more than there are page numbers. The first page
/// tells the level's kind, and leaves but the first aren't read.
pub(crate) fn below<D: Device>(
    alloc: Global,
    pages: &mut PageMap,
    device: &mut D,
    layout: RowLayout,
    numbers: &[u32],
) -> Result<Vec<u32>, PagesError>
    requires sectors { FitsDevice D.Device pages.old device.old }
    requires layout { IsRowLayout layout }
    requires some { 0 < length numbers.now }
    ensures only { OnlyReadsFor D.Device device.old device.new result }
    ensures unchanged { IsUnchanged pages.old pages.new }
    ensures agrees { KeepsAgreement D.Device pages.old device.old pages.new device.new }
    ensures below { OnPages D.Device pages.old device.old
        (λ before. (levels : List (List TreeNode))
        → IsSmall before → IsDown layout before numbers.now levels
        → IfOk result (λ children. HasPages children.items (levels_below levels))) }
    ensures damaged { OnPages D.Device pages.old device.old
        (λ before. result ≡ Err PagesError.Damaged → (levels : List (List TreeNode))
        → IsDown layout before numbers.now levels → ⊥) }
    ensures few { IfOk result (λ children. length children.items ≤ page_count pages.old) }
    ensures spent { ExactlyIfSpent pages.old result }
    ensures cause { ErrOnlyIfChangeRefusal result }
{
    let first = read_node(pages, device, layout, numbers[0])?;
    match first.kind() {
        Kind::Leaf => Ok(Vec::new(alloc)),
        Kind::Inner => children_of(alloc, pages, device, layout, numbers),
    }
}

/// Takes the levels from that of these pages down out of the map, which are at most so many.
fn clear_levels<D: Device>(
    alloc: Global,
    pages: &mut PageMap,
    device: &mut D,
    layout: RowLayout,
    numbers: &[u32],
    depth: usize,
) -> Result<(), PagesError>
    requires sectors { FitsDevice D.Device pages.old device.old }
    requires layout { IsRowLayout layout }
    ensures edits { EditsPagesFor D.Device pages.old device.old pages.new device.new result }
    ensures cleared { OnChange D.Device pages.old pages.new device.old
        (λ before after. (levels : List (List TreeNode)) → IsSmall before → IsDown layout before
        numbers.now levels → OnOk result (Moves before (pages_of levels) after [])) }
    ensures damaged { OnPages D.Device pages.old device.old
        (λ before. result ≡ Err PagesError.Damaged → (levels : List (List TreeNode)) → IsSmall
        before → IsDown layout before numbers.now levels → length levels ≤ depth → ⊥) }
    ensures filled { FillsNoMore pages.old pages.new }
    ensures spent { OnlyIfSpent pages.old result }
    ensures told { is_spent pages.old ≡ true → 0 < length numbers.now → 0 < depth
        → result ≡ Err PagesError.Spent }
    ensures cause { ErrOnlyIfChangeRefusal result }
{
    if numbers.is_empty() {
        return Ok(());
    }
    if depth == 0 {
        return Err(PagesError::Damaged);
    }
    let children = below(alloc, pages, device, layout, numbers)?;
    release_pages(pages, numbers)?;
    clear_levels(alloc, pages, device, layout, children.as_slice(), depth - 1)
}
