//! A change goes up from a leaf, along the way that led down to it.
ghost use Rattle.std.specs.Prelude.{◌≡◌, ◌*◌, Err, Some, length, IfOk, IfErr, IfSome};
ghost use Rattle.pages.specs.Pages.{KeepsCommitted};
ghost use Rattle.pages.specs.Devices.{FitsDevice};
ghost use Rattle.btree_pages.specs.RowLayouts.{IsRowLayout};
ghost use Rattle.btree.specs.Changes.{HasKeys, PropagatesBy, NeverPropagates};
ghost use Rattle.btree.specs.Refusals.{IsParentRefusal, IsInsertRefusal};
ghost use Rattle.btree.specs.Calls.{OnPages, OnChange, EditsPagesFor};
ghost use Rattle.btree.specs.Results.{ReturnsDamaged, OnlyIfSpent, FullIfUsed, FewChanged, FewFilled};
ghost use Rattle.btree.specs.Puts.{PutsParent, NeverLeads};

use crate::node::read_node;
use crate::path_step::PathStep;
use crate::split_result::SplitResult;
use crate::update_parent::update_parent;
use btree_pages::{Kind, RowLayout, TreePage};
use pages::{PageMap, PagesError};
use station::Device;

/// Tells the pages on the way, from its end on, what became of the page below each: the leaf at the end became `split`. The answer is
/// what became of the page at the beginning, `None` if nothing that a page above it would have to know.
pub(crate) fn propagate_split<D: Device>(
    pages: &mut PageMap,
    device: &mut D,
    layout: RowLayout,
    path: &[PathStep],
    split: SplitResult,
) -> Result<Option<SplitResult>, PagesError>
    requires sectors { FitsDevice D.Device pages.old device.old }
    requires layout { IsRowLayout layout }
    requires keys { HasKeys layout split }
    ensures edits { EditsPagesFor D.Device pages.old device.old pages.new device.new result }
    ensures propagates { OnChange D.Device pages.old pages.new device.old
        (λ before after.
        IfOk result (λ up. PropagatesBy layout path.now before after (Some split) up)) }
    ensures damaged { OnPages D.Device pages.old device.old (λ before.
        result ≡ Err PagesError.Damaged → NeverPropagates layout path.now before (Some split)) }
    ensures keys { IfOk result (λ up. IfSome up (HasKeys layout)) }
    ensures changed_pages { FewChanged (2 * length path.now) pages.old pages.new }
    ensures filled { FewFilled (2 * length path.now) pages.old pages.new }
    ensures cause { IfErr result IsInsertRefusal }
    ensures full { FullIfUsed pages.new result }
    ensures spent { OnlyIfSpent pages.old result }
{
    let (step, rest) = match path.split_first() {
        Some(pair) => pair,
        None => return Ok(Some(split)),
    };
    let told = match propagate_split(pages, device, layout, rest, split)? {
        Some(told) => told,
        None => return Ok(None),
    };
    let node = read_node(pages, device, layout, step.page)?;
    let up = update_parent_at(pages, *step, node, &told)?;
    Ok(up)
}

/// The page at a step learns what became of the child that the step led to. `Damaged` means that the step leads to no such page.
fn update_parent_at(
    pages: &mut PageMap,
    step: PathStep,
    node: TreePage,
    split: &SplitResult,
) -> Result<Option<SplitResult>, PagesError>
    requires keys { HasKeys node.layout split.now }
    ensures pages { IfOk result
        (PutsParent pages.old pages.new step.page node step.place split.now) }
    ensures keys { IfOk result (λ up. IfSome up (HasKeys node.layout)) }
    ensures changed_pages { FewChanged 2 pages.old pages.new }
    ensures filled { FewFilled 2 pages.old pages.new }
    ensures keeps { KeepsCommitted pages.old pages.new }
    ensures damaged { NeverLeads pages.old step node (ReturnsDamaged result) }
    ensures cause { IfErr result IsParentRefusal }
    ensures full { FullIfUsed pages.new result }
    ensures spent { OnlyIfSpent pages.old result }
{
    if node.kind() != Kind::Inner {
        return Err(PagesError::Damaged);
    }
    if node.count() <= step.place {
        return Err(PagesError::Damaged);
    }
    if step.page == 0 {
        return Err(PagesError::Damaged);
    }
    if pages.page_count() <= step.page as usize {
        return Err(PagesError::Damaged);
    }
    let up = update_parent(pages, step.page, node, step.place, split)?;
    Ok(up)
}
