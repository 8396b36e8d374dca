//! The way of a key down a tree.
ghost use Rattle.std.specs.Prelude.{◌≡◌, ◌≤◌, List, length, IfOk, IfErr};
ghost use Rattle.pages.specs.Pages.{IsUnchanged};
ghost use Rattle.pages.specs.Devices.{FitsDevice};
ghost use Rattle.btree_pages.specs.RowLayouts.{IsRowLayout};
ghost use Rattle.btree_pages.specs.Node.{IsNode};
ghost use Rattle.btree.specs.Tree.{TreeNode, IsTree};
ghost use Rattle.btree.specs.Path.{EndsAt};
ghost use Rattle.btree.specs.Steps.{LeadsTo};
ghost use Rattle.btree.specs.Reading.{IsSearchRefusal, NoTree};
ghost use Rattle.btree.specs.Calls.{OnPages, OnlyReadsFor, KeepsAgreement};
ghost use Rattle.btree.specs.Results.{ReturnsDamaged, ExactlyIfSpent};

use crate::key::Key;
use crate::node::read_kind;
use crate::path_step::PathStep;
use crate::step::step_at;
use btree_pages::{Kind, RowLayout, TreePage};
use pages::{PageMap, PagesError};
use smallvec::SmallVec;
use station::Device;
use std::alloc::Global;

/// How many levels a tree has at most.
pub const LEVELS: usize = 21;

/// The page of the leaf that a key leads to, with the steps on the way, and the first key to the right of the leaf.
#[derive(Drop)]
pub(crate) struct Way {
    pub path: SmallVec<PathStep, LEVELS>,
    pub page: u32,
    pub right: Option<Key>,
}

/// The way of a key to a leaf, and the leaf.
#[derive(Drop)]
pub(crate) struct Descent {
    pub way: Way,
    pub leaf: TreePage,
}

/// Goes down from a page to the leaf where the key belongs. `Damaged` means that the page is no tree's root. `Memory` comes only
/// where keys are longer than 128 bytes.
pub(crate) fn follow<D: Device>(
    alloc: Global,
    pages: &mut PageMap,
    device: &mut D,
    layout: RowLayout,
    root: u32,
    key: &[u8],
) -> Result<Way, PagesError>
    requires sectors { FitsDevice D.Device pages.old device.old }
    requires layout { IsRowLayout layout }
    ensures only { OnlyReadsFor D.Device device.old device.new result }
    ensures unchanged { IsUnchanged pages.old pages.new }
    ensures agrees { KeepsAgreement D.Device pages.old device.old pages.new device.new }
    ensures way { OnPages D.Device pages.old device.old
        (λ before. (levels : List (List TreeNode)) → IsTree layout before root levels → IfOk result
        (λ way. LeadsTo layout before key.now levels way.path.items way.page way.right)) }
    ensures damaged { OnPages D.Device pages.old device.old
        (NoTree layout root (ReturnsDamaged result)) }
    ensures spent { ExactlyIfSpent pages.old result }
    ensures cause { IfErr result (IsSearchRefusal layout) }
{
    // How many page numbers there are is needed below.
    let _page_count = pages.page_count();
    let mut path = SmallVec::new(alloc);
    let mut right = None;
    let mut page = root;
    for _depth in 0..LEVELS {
        match step_at(alloc, pages, device, layout, page, key, &mut right)? {
            Some(child) => {
                path.push_reserved(PathStep {
                    page,
                    place: child.place,
                });
                page = child.page;
            }
            None => return Ok(Way { path, page, right }),
        }
    }
    Err(PagesError::Damaged)
}

/// Goes down from a page to the leaf where the key belongs, and reads it. Refusals are those of `follow`.
pub(crate) fn descend<D: Device>(
    alloc: Global,
    pages: &mut PageMap,
    device: &mut D,
    layout: RowLayout,
    root: u32,
    key: &[u8],
) -> Result<Descent, PagesError>
    requires sectors { FitsDevice D.Device pages.old device.old }
    requires layout { IsRowLayout layout }
    ensures only { OnlyReadsFor D.Device device.old device.new result }
    ensures unchanged { IsUnchanged pages.old pages.new }
    ensures agrees { KeepsAgreement D.Device pages.old device.old pages.new device.new }
    ensures way { OnPages D.Device pages.old device.old
        (λ before. (levels : List (List TreeNode)) → IsTree layout before root levels
        → IfOk result (λ descent. EndsAt layout key.now levels descent.way.path.items
        descent.way.page descent.leaf.rows descent.way.right)) }
    ensures damaged { OnPages D.Device pages.old device.old
        (NoTree layout root (ReturnsDamaged result)) }
    ensures leaf { IfOk result (λ descent. (descent.leaf.layout ≡ layout)
        × (descent.leaf.kind ≡ Kind.Leaf) × (length descent.leaf.rows ≤ 4080)) }
    ensures node { IfOk result (λ descent. IsNode descent.leaf) }
    ensures spent { ExactlyIfSpent pages.old result }
    ensures cause { IfErr result (IsSearchRefusal layout) }
{
    let way = follow(alloc, pages, device, layout, root, key)?;
    let leaf = read_kind(pages, device, layout, Kind::Leaf, way.page)?;
    Ok(Descent { way, leaf })
}
