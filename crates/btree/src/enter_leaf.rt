//! An entry comes to a leaf in memory that has room, where no page above the leaf has to be told.
ghost use Rattle.std.specs.Prelude.{◌≡◌, Ok, true, false, length, IfErr};
ghost use Rattle.pages.specs.Pages.{KeepsCommitted};
ghost use Rattle.btree_pages.specs.RowLayouts.{IsRowLayout};
ghost use Rattle.btree.specs.Refusals.{IsPutRefusal};
ghost use Rattle.btree.specs.Results.{OnlyIfSpent, FewChanged, FewFilled};
ghost use Rattle.btree.specs.Entering.{EntersIn, TrueOnlyIfEntered};

use crate::node::view_node;
use btree_pages::{Kind, RowLayout};
use pages::{PageMap, PagesError};

/// Puts an entry into the leaf of that page number, after its first row. `false` means that the leaf isn't in memory, or that the
/// entry can't come there, and then nothing was done.
pub(crate) fn enter_leaf(
    pages: &mut PageMap,
    layout: RowLayout,
    page: u32,
    key: &[u8],
    value: &[u8],
) -> Result<bool, PagesError>
    requires layout { IsRowLayout layout }
    requires key { length key.now ≡ layout.key_length }
    requires value { length value.now ≡ layout.value_length }
    ensures same { result ≡ Ok false → pages.new ≡ pages.old }
    ensures done { TrueOnlyIfEntered layout page key.now value.now pages.old pages.new result }
    ensures changed_pages { FewChanged 1 pages.old pages.new }
    ensures filled { FewFilled 1 pages.old pages.new }
    ensures keeps { KeepsCommitted pages.old pages.new }
    ensures cause { IfErr result IsPutRefusal }
    ensures spent { OnlyIfSpent pages.old result }
{
    if page == 0 || page as usize >= pages.page_count() {
        return Ok(false);
    }
    let mut spelled = [0; 4096];
    let is_spelled = match pages.view(page) {
        Some(bytes) => spell_entered(bytes, layout, key, value, &mut spelled),
        None => return Ok(false),
    };
    if !is_spelled {
        return Ok(false);
    }
    pages.edit(page, &spelled)?;
    Ok(true)
}

/// Puts the bytes of the leaf that these bytes spell, with an entry more after its first row, into `spelled`. `false` means that they
/// spell no leaf, that it has no room, that the key is there, or that the entry would be the first one.
fn spell_entered(
    bytes: &[u8; 4096],
    layout: RowLayout,
    key: &[u8],
    value: &[u8],
    spelled: &mut [u8; 4096],
) -> bool
    requires layout { IsRowLayout layout }
    requires key { length key.now ≡ layout.key_length }
    requires value { length value.now ≡ layout.value_length }
    ensures { result ≡ true → EntersIn layout bytes.now key.now value.now spelled.new }
{
    let node = match view_node(bytes, layout) {
        Ok(node) => node,
        Err(_) => return false,
    };
    if node.kind() != Kind::Leaf || node.count() >= layout.capacity(Kind::Leaf) {
        return false;
    }
    let place = match node.find(key) {
        Ok(_) => return false,
        Err(place) => place,
    };
    if place == 0 {
        return false;
    }
    node.spell_inserted(place, key, value, spelled);
    true
}
