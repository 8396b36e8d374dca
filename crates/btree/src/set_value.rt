//! An entry of a leaf in memory gets another value.
ghost use Rattle.std.specs.Prelude.{◌≡◌, Ok, true, false, length, IfErr};
ghost use Rattle.pages.specs.Pages.{KeepsCommitted};
ghost use Rattle.btree_pages.specs.RowLayouts.{IsRowLayout};
ghost use Rattle.btree.specs.Refusals.{IsPutRefusal};
ghost use Rattle.btree.specs.Results.{OnlyIfSpent, FewChanged, FewFilled};
ghost use Rattle.btree.specs.Entering.{SetsIn, TrueOnlyIfSet};

use crate::node::view_node;
use btree_pages::{Kind, RowLayout};
use pages::{PageMap, PagesError};

/// Gives the entry of a key in the leaf of that page number another value. `false` means that the leaf isn't in memory, or that it
/// hasn't the key, and then nothing was done.
pub(crate) fn set_value_in(
    pages: &mut PageMap,
    layout: RowLayout,
    page: u32,
    key: &[u8],
    value: &[u8],
) -> Result<bool, PagesError>
    requires layout { IsRowLayout layout }
    requires value { length value.now ≡ layout.value_length }
    ensures same { result ≡ Ok false → pages.new ≡ pages.old }
    ensures done { TrueOnlyIfSet layout page key.now value.now pages.old pages.new result }
    ensures changed_pages { FewChanged 1 pages.old pages.new }
    ensures filled { FewFilled 1 pages.old pages.new }
    ensures keeps { KeepsCommitted pages.old pages.new }
    ensures cause { IfErr result IsPutRefusal }
    ensures spent { OnlyIfSpent pages.old result }
{
    if page == 0 || page as usize >= pages.page_count() {
        return Ok(false);
    }
    let mut spelled = [0; 4096];
    let is_spelled = match pages.view(page) {
        Some(bytes) => spell_set(bytes, layout, key, value, &mut spelled),
        None => return Ok(false),
    };
    if !is_spelled {
        return Ok(false);
    }
    pages.edit(page, &spelled)?;
    Ok(true)
}

/// Puts the bytes of the leaf that these bytes spell, with another value for the entry of a key, into `spelled`. `false` means that
/// they spell no leaf, or that the key isn't there.
fn spell_set(
    bytes: &[u8; 4096],
    layout: RowLayout,
    key: &[u8],
    value: &[u8],
    spelled: &mut [u8; 4096],
) -> bool
    requires layout { IsRowLayout layout }
    requires value { length value.now ≡ layout.value_length }
    ensures { result ≡ true → SetsIn layout bytes.now key.now value.now spelled.new }
{
    let node = match view_node(bytes, layout) {
        Ok(node) => node,
        Err(_) => return false,
    };
    if node.kind() != Kind::Leaf {
        return false;
    }
    let place = match node.find(key) {
        Ok(place) => place,
        Err(_) => return false,
    };
    node.spell_with_rest(place, value, spelled);
    true
}
