//! What a search finds: the entry in the leaf where a key belongs, read where the pages stand.
ghost use Rattle.std.specs.Prelude.{◌≡◌, Ok, Err, List, drop, IfOk, IfErr, OnErr, true};
ghost use Rattle.pages.specs.Pages.{IsUnchanged};
ghost use Rattle.pages.specs.Devices.{FitsDevice};
ghost use Rattle.btree_pages.specs.RowLayouts.{IsRowLayout};
ghost use Rattle.btree_pages.specs.Keys.{Ascend, keys_of};
ghost use Rattle.btree.specs.Tree.{TreeNode, IsTree};
ghost use Rattle.btree.specs.Entries.{HasLengths, entries_of_rows, entries_of, first_entry};
ghost use Rattle.btree.specs.Reading.{IsReadRefusal, SpellsNoNode, NoneOfKind, NoTree};
ghost use Rattle.btree.specs.Places.{HasLeaf, if_found};
ghost use Rattle.btree.specs.Sought.{sought_in, AnswersAt, LooksIn, LooksAt, FindsEntry};
ghost use Rattle.btree.specs.Calls.{OnPages, OnlyReadsFor, KeepsAgreement};
ghost use Rattle.btree.specs.PageReads.{AnswersFromPage};
ghost use Rattle.btree.specs.Results.{ReturnsDamaged, ExactlyIfSpent};

use crate::child::child_place;
use crate::descend::LEVELS;
use crate::entry::Entry;
use crate::node::view_node;
use btree_pages::{Kind, NodeView, RowLayout};
use pages::{PageMap, PagesError};
use station::Device;

/// Which entry a search is for.
#[derive(Clone, Copy)]
pub(crate) enum Sought {
    /// The entry of the key.
    With,
    /// The first entry from the key on.
    From,
    /// The first entry after the key.
    After,
}

/// What a page answers a search.
#[derive(Clone, Copy)]
pub(crate) enum Look {
    /// A leaf that has the entry.
    Here,
    /// A leaf that hasn't it.
    Missing,
    /// An inner page: the page of the child that the key leads to.
    Below(u32),
}

/// The leaf where a search ended, by its page, and whether it has the entry.
#[derive(Clone, Copy)]
pub(crate) struct SearchEnd {
    pub leaf: u32,
    pub found: bool,
}

/// From which place on a page the first entry is the one that is sought, or how many rows there are where the page hasn't it.
pub(crate) fn sought_place(node: &NodeView, key: &[u8], sought: Sought) -> usize
    ensures { Ascend (keys_of node.now.layout node.now.rows) →
        sought_in sought (entries_of_rows node.now.layout node.now.rows) key.now
        ≡ first_entry (entries_of_rows node.now.layout (drop result node.now.rows)) }
{
    let count = node.count();
    match node.find(key) {
        Ok(place) => match sought {
            Sought::After => place + 1,
            _ => place,
        },
        Err(place) => match sought {
            Sought::With => count,
            _ => place,
        },
    }
}

/// From which place on a page the first entry is the one after a key. The row at `near` is looked at first.
pub(crate) fn place_after(node: &NodeView, key: &[u8], near: usize) -> usize
    ensures { Ascend (keys_of node.now.layout node.now.rows) →
        sought_in Sought.After (entries_of_rows node.now.layout node.now.rows) key.now
        ≡ first_entry (entries_of_rows node.now.layout (drop result node.now.rows)) }
{
    // How many rows there are is needed below.
    let _count = node.count();
    match node.find_near(key, near) {
        Ok(place) => place + 1,
        Err(place) => place,
    }
}

/// What the page that these bytes spell answers. The entry is put into `entry`. `Damaged` means that they spell no page of a tree.
fn look_in(
    bytes: &[u8; 4096],
    layout: RowLayout,
    key: &[u8],
    sought: Sought,
    entry: &mut Entry,
) -> Result<Look, PagesError>
    requires { IsRowLayout layout }
    ensures look { IfOk result (LooksIn layout bytes.now key.now sought entry.new) }
    ensures lengths { IfOk result (λ look. look ≡ Look.Here → HasLengths layout entry.new) }
    ensures damaged { result ≡ Err PagesError.Damaged → SpellsNoNode layout bytes.now }
    ensures cause { OnErr result (result ≡ Err PagesError.Damaged) }
{
    let node = view_node(bytes, layout)?;
    if node.kind() == Kind::Inner {
        let place = child_place(&node, key);
        let page = node.child(place);
        return Ok(Look::Below(page));
    }
    let place = sought_place(&node, key, sought);
    if place < node.count() {
        entry.take_row(&node, place);
        return Ok(Look::Here);
    }
    Ok(Look::Missing)
}

/// What a page answers that isn't in memory. It is brought there, or read past the cache if memory has no place for it. Refusals are
/// those of `look_at`.
#[cold]
#[inline(never)]
fn look_loaded<D: Device>(
    pages: &mut PageMap,
    device: &mut D,
    layout: RowLayout,
    unloaded: u32,
    key: &[u8],
    sought: Sought,
    entry: &mut Entry,
) -> Result<Look, PagesError>
    requires sectors { FitsDevice D.Device pages.old device.old }
    requires layout { IsRowLayout layout }
    ensures reads { AnswersFromPage D.Device layout unloaded
        (λ before. LooksAt layout before unloaded key.now sought entry.new) IsReadRefusal
        pages.old device.old pages.new device.new result }
    ensures lengths { IfOk result (λ look. look ≡ Look.Here → HasLengths layout entry.new) }
{
    pages.load(device, unloaded)?;
    if let Some(bytes) = pages.view(unloaded) {
        return look_in(bytes, layout, key, sought, entry);
    }
    match pages.read(device, unloaded)? {
        Some(bytes) => look_in(&bytes, layout, key, sought, entry),
        None => Err(PagesError::Damaged),
    }
}

/// What the page of that number answers. The entry is put into `entry`. `Damaged` means that it is no page of a tree.
fn look_at<D: Device>(
    pages: &mut PageMap,
    device: &mut D,
    layout: RowLayout,
    page: u32,
    key: &[u8],
    sought: Sought,
    entry: &mut Entry,
) -> Result<Look, PagesError>
    requires sectors { FitsDevice D.Device pages.old device.old }
    requires layout { IsRowLayout layout }
    ensures reads { AnswersFromPage D.Device layout page
        (λ before. LooksAt layout before page key.now sought entry.new) IsReadRefusal
        pages.old device.old pages.new device.new result }
    ensures lengths { IfOk result (λ look. look ≡ Look.Here → HasLengths layout entry.new) }
{
    if let Some(bytes) = pages.visit(page) {
        return look_in(bytes, layout, key, sought, entry);
    }
    look_loaded(pages, device, layout, page, key, sought, entry)
}

/// Puts the entry that is sought into `entry`, and returns whether the leaf of that page number has it. `Damaged` means that the page is
/// no leaf of a tree.
pub(crate) fn entry_at<D: Device>(
    pages: &mut PageMap,
    device: &mut D,
    layout: RowLayout,
    page: u32,
    key: &[u8],
    sought: Sought,
    entry: &mut Entry,
) -> Result<bool, PagesError>
    requires sectors { FitsDevice D.Device pages.old device.old }
    requires layout { IsRowLayout layout }
    ensures only { OnlyReadsFor D.Device device.old device.new result }
    ensures unchanged { IsUnchanged pages.old pages.new }
    ensures agrees { KeepsAgreement D.Device pages.old device.old pages.new device.new }
    ensures entry { OnPages D.Device pages.old device.old
        (λ before. IfOk result
        (λ found. AnswersAt layout before page key.now sought (if_found found entry.new))) }
    ensures lengths { result ≡ Ok true → HasLengths layout entry.new }
    ensures damaged { OnPages D.Device pages.old device.old
        (NoneOfKind layout Kind.Leaf page (ReturnsDamaged result)) }
    ensures spent { ExactlyIfSpent pages.old result }
    ensures cause { IfErr result IsReadRefusal }
{
    match look_at(pages, device, layout, page, key, sought, entry)? {
        Look::Here => Ok(true),
        Look::Missing => Ok(false),
        Look::Below(_) => Err(PagesError::Damaged),
    }
}

/// Goes down from a page to the leaf where the key belongs, and reports it, and whether it has the entry that is sought, which is put
/// into `entry`. Nothing is kept of the way. `Damaged` means that the page is no tree's root.
pub(crate) fn search<D: Device>(
    pages: &mut PageMap,
    device: &mut D,
    layout: RowLayout,
    root: u32,
    key: &[u8],
    sought: Sought,
    entry: &mut Entry,
) -> Result<SearchEnd, PagesError>
    requires sectors { FitsDevice D.Device pages.old device.old }
    requires layout { IsRowLayout layout }
    ensures only { OnlyReadsFor D.Device device.old device.new result }
    ensures unchanged { IsUnchanged pages.old pages.new }
    ensures agrees { KeepsAgreement D.Device pages.old device.old pages.new device.new }
    ensures finds { OnPages D.Device pages.old device.old
        (λ before. (levels : List (List TreeNode)) → IsTree layout before root levels
        → IfOk result (λ end. FindsEntry (entries_of layout levels) key.now sought entry.new
        end.found)) }
    ensures leaf { OnPages D.Device pages.old device.old
        (λ before. (levels : List (List TreeNode)) → IsTree layout before root levels
        → IfOk result (λ end. HasLeaf levels end.leaf)) }
    ensures lengths { IfOk result (λ end. end.found ≡ true → HasLengths layout entry.new) }
    ensures damaged { OnPages D.Device pages.old device.old
        (NoTree layout root (ReturnsDamaged result)) }
    ensures spent { ExactlyIfSpent pages.old result }
    ensures cause { IfErr result IsReadRefusal }
{
    // How many page numbers there are is needed below.
    let _page_count = pages.page_count();
    let mut page = root;
    for _depth in 0..LEVELS {
        match look_at(pages, device, layout, page, key, sought, entry)? {
            Look::Below(child) => page = child,
            Look::Here => {
                return Ok(SearchEnd {
                    leaf: page,
                    found: true,
                });
            }
            Look::Missing => {
                return Ok(SearchEnd {
                    leaf: page,
                    found: false,
                });
            }
        }
    }
    Err(PagesError::Damaged)
}
