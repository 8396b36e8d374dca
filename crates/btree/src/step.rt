//! One step of a key's way down a tree.
ghost use Rattle.std.specs.Prelude.{◌≡◌, ◌⊎◌, ◌<◌, Err, IfOk, OnErr};
ghost use Rattle.pages.specs.Devices.{FitsDevice};
ghost use Rattle.btree_pages.specs.RowLayouts.{IsRowLayout};
ghost use Rattle.btree.specs.Reading.{IsSearchRefusal, SpellsNoNode};
ghost use Rattle.btree.specs.Steps.{StepsIn, StepsAt};
ghost use Rattle.btree.specs.PageReads.{AnswersFromPage};

use crate::child::{Child, child_place, note_right};
use crate::key::Key;
use crate::node::view_node;
use btree_pages::{Kind, RowLayout};
use pages::{PageMap, PagesError};
use station::Device;
use std::alloc::Global;

/// The child that a key leads to on the page of that number, or none where it is a leaf. The next key to the right is noted.
/// `Damaged` means that the page is none of a tree. `Memory` comes only where keys are longer than 128 bytes.
pub(crate) fn step_at<D: Device>(
    alloc: Global,
    pages: &mut PageMap,
    device: &mut D,
    layout: RowLayout,
    page: u32,
    key: &[u8],
    right: &mut Option<Key>,
) -> Result<Option<Child>, PagesError>
    requires sectors { FitsDevice D.Device pages.old device.old }
    requires layout { IsRowLayout layout }
    ensures reads { AnswersFromPage D.Device layout page
        (λ before. StepsAt layout before page key.now right.old right.new) (IsSearchRefusal layout)
        pages.old device.old pages.new device.new result }
{
    if let Some(bytes) = pages.visit(page) {
        return step_in(alloc, bytes, layout, key, right);
    }
    step_loaded(alloc, pages, device, layout, page, key, right)
}

/// The child that a key leads to on the page that these bytes spell, or none where it is a leaf. The next key to the right is noted.
fn step_in(
    alloc: Global,
    bytes: &[u8; 4096],
    layout: RowLayout,
    key: &[u8],
    right: &mut Option<Key>,
) -> Result<Option<Child>, PagesError>
    requires { IsRowLayout layout }
    ensures step { IfOk result
        (λ child. StepsIn layout bytes.now key.now right.old right.new child) }
    ensures damaged { result ≡ Err PagesError.Damaged → SpellsNoNode layout bytes.now }
    ensures cause { OnErr result ((result ≡ Err PagesError.Damaged)
        ⊎ ((result ≡ Err PagesError.Memory) × (128 < layout.key_length))) }
{
    let node = view_node(bytes, layout)?;
    if node.kind() == Kind::Leaf {
        return Ok(None);
    }
    let place = child_place(&node, key);
    note_right(alloc, &node, place, right)?;
    let page = node.child(place);
    Ok(Some(Child { place, page }))
}

/// The same on a page that isn't in memory. It is brought there, or read past the cache if memory has no place for it. Refusals are
/// those of `step_at`.
#[cold]
#[inline(never)]
fn step_loaded<D: Device>(
    alloc: Global,
    pages: &mut PageMap,
    device: &mut D,
    layout: RowLayout,
    unloaded: u32,
    key: &[u8],
    right: &mut Option<Key>,
) -> Result<Option<Child>, PagesError>
    requires sectors { FitsDevice D.Device pages.old device.old }
    requires layout { IsRowLayout layout }
    ensures reads { AnswersFromPage D.Device layout unloaded
        (λ before. StepsAt layout before unloaded key.now right.old right.new)
        (IsSearchRefusal layout) pages.old device.old pages.new device.new result }
{
    pages.load(device, unloaded)?;
    if let Some(bytes) = pages.view(unloaded) {
        return step_in(alloc, bytes, layout, key, right);
    }
    match pages.read(device, unloaded)? {
        Some(bytes) => step_in(alloc, &bytes, layout, key, right),
        None => Err(PagesError::Damaged),
    }
}
