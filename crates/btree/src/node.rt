//! A page of a tree is read.
ghost use Rattle.std.specs.Prelude.{◌≡◌, Err, Some, IfOk, IfErr, OnErr};
ghost use Rattle.pages.specs.Pages.{IsUnchanged};
ghost use Rattle.pages.specs.Devices.{FitsDevice};
ghost use Rattle.btree_pages.specs.RowLayouts.{IsRowLayout};
ghost use Rattle.btree_pages.specs.Node.{IsNode, node_in};
ghost use Rattle.btree.specs.Tree.{node_at, fewest};
ghost use Rattle.btree.specs.Reading.{IsReadRefusal, SpellsNoNode, NoneStands, NoneOfKind, HasShape, HasKindShape};
ghost use Rattle.btree.specs.Calls.{OnPages, OnlyReadsFor, KeepsAgreement};
ghost use Rattle.btree.specs.PageReads.{AnswersFromPage};
ghost use Rattle.btree.specs.Results.{ReturnsDamaged, ExactlyIfSpent};

use btree_pages::{Kind, NodeView, RowLayout, TreePage};
use pages::{PageMap, PagesError};
use station::Device;

/// The page of a tree that these bytes spell. `Damaged` means that they spell none, or one that has too few rows.
pub(crate) fn view_node(bytes: &[u8; 4096], layout: RowLayout) -> Result<NodeView<'_>, PagesError>
    requires { IsRowLayout layout }
    ensures node { IfOk result (λ node. node_in layout bytes.now ≡ Some node) }
    ensures shape { IfOk result (HasShape layout) }
    ensures is_node { IfOk result IsNode }
    ensures damaged { OnErr result (SpellsNoNode layout bytes.now) }
    ensures cause { OnErr result (result ≡ Err PagesError.Damaged) }
{
    let node = match NodeView::read(bytes, layout) {
        Some(node) => node,
        None => return Err(PagesError::Damaged),
    };
    if node.count() < fewest_rows(node.kind()) {
        return Err(PagesError::Damaged);
    }
    Ok(node)
}

/// The page of that number. `Damaged` means that it is none of a tree, or has too few rows.
pub fn read_node<D: Device>(
    pages: &mut PageMap,
    device: &mut D,
    layout: RowLayout,
    page: u32,
) -> Result<TreePage, PagesError>
    requires sectors { FitsDevice D.Device pages.old device.old }
    requires layout { IsRowLayout layout }
    ensures only { OnlyReadsFor D.Device device.old device.new result }
    ensures unchanged { IsUnchanged pages.old pages.new }
    ensures agrees { KeepsAgreement D.Device pages.old device.old pages.new device.new }
    ensures node { OnPages D.Device pages.old device.old
        (λ before. IfOk result (λ node. node_at layout before page ≡ Some node)) }
    ensures shape { IfOk result (HasShape layout) }
    ensures is_node { IfOk result IsNode }
    ensures damaged { OnPages D.Device pages.old device.old
        (NoneStands layout page (ReturnsDamaged result)) }
    ensures spent { ExactlyIfSpent pages.old result }
    ensures cause { IfErr result IsReadRefusal }
{
    if let Some(bytes) = pages.visit(page) {
        return copy_node(bytes, layout);
    }
    node_loaded(pages, device, layout, page)
}

/// The page of that number, which is of this kind. `Damaged` means that it is no such one of a tree.
pub(crate) fn read_kind<D: Device>(
    pages: &mut PageMap,
    device: &mut D,
    layout: RowLayout,
    kind: Kind,
    page: u32,
) -> Result<TreePage, PagesError>
    requires sectors { FitsDevice D.Device pages.old device.old }
    requires layout { IsRowLayout layout }
    ensures only { OnlyReadsFor D.Device device.old device.new result }
    ensures unchanged { IsUnchanged pages.old pages.new }
    ensures agrees { KeepsAgreement D.Device pages.old device.old pages.new device.new }
    ensures node { OnPages D.Device pages.old device.old
        (λ before. IfOk result (λ node. node_at layout before page ≡ Some node)) }
    ensures shape { IfOk result (HasKindShape layout kind) }
    ensures is_node { IfOk result IsNode }
    ensures damaged { OnPages D.Device pages.old device.old
        (NoneOfKind layout kind page (ReturnsDamaged result)) }
    ensures spent { ExactlyIfSpent pages.old result }
    ensures cause { IfErr result IsReadRefusal }
{
    let node = read_node(pages, device, layout, page)?;
    if node.kind() != kind {
        return Err(PagesError::Damaged);
    }
    Ok(node)
}

/// How many rows a page of a tree has at least.
fn fewest_rows(kind: Kind) -> usize
    ensures { result ≡ fewest kind }
{
    match kind {
        Kind::Leaf => 1,
        Kind::Inner => 2,
    }
}

/// The page of a tree that these bytes spell, of its own. Refusals are those of `view_node`.
fn copy_node(bytes: &[u8; 4096], layout: RowLayout) -> Result<TreePage, PagesError>
    requires { IsRowLayout layout }
    ensures node { IfOk result (λ node. node_in layout bytes.now ≡ Some node) }
    ensures shape { IfOk result (HasShape layout) }
    ensures is_node { IfOk result IsNode }
    ensures damaged { OnErr result (SpellsNoNode layout bytes.now) }
    ensures cause { OnErr result (result ≡ Err PagesError.Damaged) }
{
    Ok(view_node(bytes, layout)?.to_page())
}

/// A page that isn't in memory. It is brought there, or read past the cache if memory has no place for it. Refusals are those of
/// `read_node`.
#[cold]
#[inline(never)]
fn node_loaded<D: Device>(
    pages: &mut PageMap,
    device: &mut D,
    layout: RowLayout,
    unloaded: u32,
) -> Result<TreePage, PagesError>
    requires sectors { FitsDevice D.Device pages.old device.old }
    requires layout { IsRowLayout layout }
    ensures reads { AnswersFromPage D.Device layout unloaded
        (λ before node. node_at layout before unloaded ≡ Some node) IsReadRefusal
        pages.old device.old pages.new device.new result }
    ensures shape { IfOk result (HasShape layout) }
    ensures is_node { IfOk result IsNode }
{
    pages.load(device, unloaded)?;
    if let Some(bytes) = pages.view(unloaded) {
        return copy_node(bytes, layout);
    }
    match pages.read(device, unloaded)? {
        Some(bytes) => copy_node(&bytes, layout),
        None => Err(PagesError::Damaged),
    }
}
