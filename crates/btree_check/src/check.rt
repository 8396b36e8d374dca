//! The walk that tells whether the pages under a root are a tree.
ghost use Rattle.std.specs.Prelude.{true, false, ◌≡◌, ◌≤◌, ◌<◌, ◌+◌, Err, [], ◌∷◌, length, IfOk, IfErr, OnOk, MatchOption, IfSome};
ghost use Rattle.station.specs.Calls.{OnlyReads};
ghost use Rattle.pages.specs.Pages.{sectors_of, Agrees, IsUnchanged};
ghost use Rattle.btree_pages.specs.RowLayouts.{IsRowLayout};
ghost use Rattle.btree_pages.specs.Keys.{keys_of, Ascend};
ghost use Rattle.btree.specs.Reading.{IsReadRefusal, HasKindShape};
ghost use Rattle.btree_check.specs.Walks.{FindsInner, FindsLeaves, NoNode, NoInner, NoLeaves, NoLevel, NoLevels, NoUnmarkedTree, BelowNext, separator_pages, CanMark, Marks, HasSeparator, FindsLevels, FindsTree};
ghost use Rattle.btree.specs.Refusals.{IsChangeRefusal};
ghost use Rattle.btree.specs.Calls.{IfAgrees, OnPages};
ghost use Rattle.btree.specs.Results.{OnlyIfSpent, ExactlyIfSpentAt, ReturnsDamaged};

use crate::separator::{Separator, push_separators};
use btree::{Key, LEVELS, Tree, read_node};
use btree_pages::{Kind, RowLayout, TreePage};
use pages::{PageMap, PagesError};
use station::Device;
use std::alloc::Global;
use std::cmp::Ordering;

/// Whether the pages under a tree's root are a tree. Each of them is marked in `seen`, which has a mark for each page number. `Damaged`
/// tells that they are no tree, or that one of them was marked or has no mark. After a refusal the marks say nothing. The least
/// key and the number of each page are kept in memory: some 160 bytes for 4,096 of the tree, and more where keys are longer than
/// 128 bytes. Whatever bytes the pages hold, the number of marks bounds this memory: a level with more separators than marks is
/// `Damaged`.
pub fn check_tree<D: Device>(
    alloc: Global,
    tree: &Tree,
    pages: &mut PageMap,
    device: &mut D,
    seen: &mut [bool],
) -> Result<(), PagesError>
    requires sectors { sectors_of pages.old ≤ D.sectors device.old }
    ensures only { OnlyReads D.Device (result ≡ Err PagesError.Device) device.old device.new }
    ensures unchanged { IsUnchanged pages.old pages.new }
    ensures agrees { IfAgrees D.Device pages.old device.old
        (Agrees pages.new (D.state device.new).disk) }

    // There is a tree, and no page of it was marked.
    ensures holds { OnPages D.Device pages.old device.old
        (λ before. OnOk result (FindsTree tree.now.layout before tree.now.root seen.old seen.new)) }
    ensures damaged { OnPages D.Device pages.old device.old
        (NoUnmarkedTree tree.now.layout tree.now.root seen.old (ReturnsDamaged result)) }
    ensures spent { ExactlyIfSpentAt tree.now.root pages.old result }
    ensures cause { IfErr result IsChangeRefusal }
{
    let layout = tree.layout();
    let root = tree.root();
    if root == 0 {
        return Ok(());
    }
    // How many page numbers there are is needed below.
    let _page_count = pages.page_count();
    let top = read_node(pages, device, layout, root)?;
    let key = Key::copy(alloc, top.key(0))?;
    let mut separators = Vec::new(alloc);
    separators.push(Separator { key, page: root })?;
    check_levels(alloc, pages, device, layout, separators, seen, LEVELS)
}

/// Marks a page number. It is false where the number is 0, has no mark, or is marked.
pub fn mark(seen: &mut [bool], page: u32) -> bool
    ensures marks { result ≡ true → Marks seen.old (page ∷ []) seen.new }
    ensures refused { result ≡ false → CanMark seen.old (page ∷ []) → ⊥ }
{
    if page == 0 {
        return false;
    }
    let place = page as usize;
    if seen.len() <= place {
        return false;
    }
    if seen[place] {
        return false;
    }
    seen[place] = true;
    true
}

/// The page of that separator, which is marked. `Damaged` means that it may not be marked, or that no page of this kind stands there whose
/// least key is that of the separator.
fn check_node<D: Device>(
    pages: &mut PageMap,
    device: &mut D,
    layout: RowLayout,
    kind: Kind,
    separator: &Separator,
    seen: &mut [bool],
) -> Result<TreePage, PagesError>
    requires sectors { sectors_of pages.old ≤ D.sectors device.old }
    requires layout { IsRowLayout layout }
    ensures only { OnlyReads D.Device (result ≡ Err PagesError.Device) device.old device.new }
    ensures unchanged { IsUnchanged pages.old pages.new }
    ensures agrees { IfAgrees D.Device pages.old device.old
        (Agrees pages.new (D.state device.new).disk) }
    ensures node { OnPages D.Device pages.old device.old
        (λ before. IfOk result (λ node. HasSeparator layout before kind separator.now node.rows)) }
    ensures shape { IfOk result (HasKindShape layout kind) }
    ensures marks { OnOk result (Marks seen.old (separator.now.page ∷ []) seen.new) }
    ensures damaged { OnPages D.Device pages.old device.old
        (NoNode layout kind separator.now seen.old (ReturnsDamaged result)) }
    ensures spent { OnlyIfSpent pages.old result }
    ensures cause { IfErr result IsReadRefusal }
{
    if !mark(seen, separator.page) {
        return Err(PagesError::Damaged);
    }
    let node = read_node(pages, device, layout, separator.page)?;
    // That the rows have their lengths is needed below.
    let _count = node.count();
    if node.kind() != kind {
        return Err(PagesError::Damaged);
    }
    if node.key(0) != separator.key.bytes() {
        return Err(PagesError::Damaged);
    }
    Ok(node)
}

/// Checks a level of inner pages, and answers what their rows name. `Damaged` also tells that they name more pages than there are marks.
fn check_inner<D: Device>(
    alloc: Global,
    pages: &mut PageMap,
    device: &mut D,
    layout: RowLayout,
    separators: &[Separator],
    seen: &mut [bool],
) -> Result<Vec<Separator>, PagesError>
    requires sectors { sectors_of pages.old ≤ D.sectors device.old }
    requires layout { IsRowLayout layout }
    ensures only { OnlyReads D.Device (result ≡ Err PagesError.Device) device.old device.new }
    ensures unchanged { IsUnchanged pages.old pages.new }
    ensures agrees { IfAgrees D.Device pages.old device.old
        (Agrees pages.new (D.state device.new).disk) }
    ensures level { OnPages D.Device pages.old device.old
        (λ before. IfOk result (λ lower. FindsInner layout before separators.now lower.items)) }
    ensures marks { OnOk result (Marks seen.old (separator_pages separators.now) seen.new) }
    ensures more { IfOk result (λ lower. length separators.now ≤ length lower.items) }
    ensures few { IfOk result (λ lower. length lower.items ≤ length seen.old) }
    ensures damaged { OnPages D.Device pages.old device.old
        (NoInner layout separators.now seen.old (ReturnsDamaged result)) }
    ensures spent { OnlyIfSpent pages.old result }
    ensures cause { IfErr result IsChangeRefusal }
{
    let mut lower = Vec::new(alloc);
    for place in 0..separators.len() {
        let node = check_node(pages, device, layout, Kind::Inner, &separators[place], seen)?;
        push_separators(alloc, &mut lower, &node)?;
        if seen.len() < lower.len() {
            return Err(PagesError::Damaged);
        }
    }
    Ok(lower)
}

/// Whether the keys of a leaf ascend, and are below that of the separator after the one at its place, if there is one.
fn is_in_order(leaf: &TreePage, separators: &[Separator], place: usize) -> bool
    requires { 0 < length leaf.now.rows }
    ensures ascends { result ≡ true → Ascend (keys_of leaf.now.layout leaf.now.rows) }
    ensures below { result ≡ true → BelowNext leaf.now.layout separators.now place leaf.now.rows }
    ensures refused { result ≡ false → Ascend (keys_of leaf.now.layout leaf.now.rows)
        → BelowNext leaf.now.layout separators.now place leaf.now.rows → ⊥ }
{
    if !leaf.is_ascending() {
        return false;
    }
    let count = separators.len();
    if count <= 1 || count - 1 <= place {
        return true;
    }
    match leaf
        .key(leaf.count() - 1)
        .cmp(separators[place + 1].key.bytes())
    {
        Ordering::Less => true,
        _ => false,
    }
}

/// Checks a level of leaves.
fn check_leaves<D: Device>(
    pages: &mut PageMap,
    device: &mut D,
    layout: RowLayout,
    separators: &[Separator],
    seen: &mut [bool],
) -> Result<(), PagesError>
    requires sectors { sectors_of pages.old ≤ D.sectors device.old }
    requires layout { IsRowLayout layout }
    ensures only { OnlyReads D.Device (result ≡ Err PagesError.Device) device.old device.new }
    ensures unchanged { IsUnchanged pages.old pages.new }
    ensures agrees { IfAgrees D.Device pages.old device.old
        (Agrees pages.new (D.state device.new).disk) }
    ensures level { OnPages D.Device pages.old device.old
        (λ before. OnOk result (FindsLeaves layout before separators.now)) }
    ensures marks { OnOk result (Marks seen.old (separator_pages separators.now) seen.new) }
    ensures damaged { OnPages D.Device pages.old device.old
        (NoLeaves layout separators.now seen.old (ReturnsDamaged result)) }
    ensures spent { OnlyIfSpent pages.old result }
    ensures cause { IfErr result IsReadRefusal }
{
    for place in 0..separators.len() {
        let leaf = check_node(pages, device, layout, Kind::Leaf, &separators[place], seen)?;
        if !is_in_order(&leaf, separators, place) {
            return Err(PagesError::Damaged);
        }
    }
    Ok(())
}

/// Checks the level of these separators, and answers what its rows name, or `None` where it is the leaves'. The first page tells the kind.
fn check_level<D: Device>(
    alloc: Global,
    pages: &mut PageMap,
    device: &mut D,
    layout: RowLayout,
    separators: &[Separator],
    seen: &mut [bool],
) -> Result<Option<Vec<Separator>>, PagesError>
    requires sectors { sectors_of pages.old ≤ D.sectors device.old }
    requires layout { IsRowLayout layout }
    requires some { 0 < length separators.now }
    ensures only { OnlyReads D.Device (result ≡ Err PagesError.Device) device.old device.new }
    ensures unchanged { IsUnchanged pages.old pages.new }
    ensures agrees { IfAgrees D.Device pages.old device.old
        (Agrees pages.new (D.state device.new).disk) }
    ensures level { OnPages D.Device pages.old device.old
        (λ before. IfOk result (λ lower. MatchOption lower (FindsLeaves layout before
        separators.now) (λ lower. FindsInner layout before separators.now lower.items))) }
    ensures marks { OnOk result (Marks seen.old (separator_pages separators.now) seen.new) }
    ensures some { IfOk result (λ lower. IfSome lower (λ lower. 0 < length lower.items)) }
    ensures damaged { OnPages D.Device pages.old device.old
        (NoLevel layout separators.now seen.old (ReturnsDamaged result)) }
    ensures spent { OnlyIfSpent pages.old result }
    ensures cause { IfErr result IsChangeRefusal }
{
    let first = read_node(pages, device, layout, separators[0].page)?;
    match first.kind() {
        Kind::Leaf => {
            check_leaves(pages, device, layout, separators, seen)?;
            Ok(None)
        }
        Kind::Inner => {
            let lower = check_inner(alloc, pages, device, layout, separators, seen)?;
            Ok(Some(lower))
        }
    }
}

/// Checks the levels from that of these separators down to the leaves, which are at most so many.
fn check_levels<D: Device>(
    alloc: Global,
    pages: &mut PageMap,
    device: &mut D,
    layout: RowLayout,
    separators: Vec<Separator>,
    seen: &mut [bool],
    depth: usize,
) -> Result<(), PagesError>
    requires sectors { sectors_of pages.old ≤ D.sectors device.old }
    requires layout { IsRowLayout layout }
    requires some { 0 < length separators.items }
    ensures only { OnlyReads D.Device (result ≡ Err PagesError.Device) device.old device.new }
    ensures unchanged { IsUnchanged pages.old pages.new }
    ensures agrees { IfAgrees D.Device pages.old device.old
        (Agrees pages.new (D.state device.new).disk) }
    ensures finds { OnPages D.Device pages.old device.old
        (λ before. OnOk result (FindsLevels layout before separators.items seen.old seen.new)) }
    ensures damaged { OnPages D.Device pages.old device.old
        (NoLevels layout separators.items seen.old depth (ReturnsDamaged result)) }
    ensures spent { OnlyIfSpent pages.old result }
    ensures cause { IfErr result IsChangeRefusal }
{
    if depth == 0 {
        return Err(PagesError::Damaged);
    }
    match check_level(alloc, pages, device, layout, separators.as_slice(), seen)? {
        Some(lower) => check_levels(alloc, pages, device, layout, lower, seen, depth - 1),
        None => Ok(()),
    }
}
