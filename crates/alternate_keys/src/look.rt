//! Entries of a file's trees.
ghost use Rattle.std.specs.Prelude.{◌≡◌, ◌≤◌, ◌<◌, true, Ok, Err, List, length, take, IfOk, OnOk, OnErr, IfErr, IfSome};
ghost use Rattle.station.specs.Calls.{OnlyReads};
ghost use Rattle.pages.specs.Pages.{map_now, is_spent, sectors_of, Agrees, IsUnchanged};
ghost use Rattle.btree.specs.Tree.{TreeNode, IsTreeOrEmpty};
ghost use Rattle.btree.specs.Entries.{HasLengths, entries_of};
ghost use Rattle.btree.specs.Reading.{IsReadRefusal};
ghost use Rattle.btree.specs.Calls.{OnTree, OnNoTree, OnPages, pages_on};
ghost use Rattle.btree.specs.Results.{ReturnsDamaged, OnlyIfSpent};
ghost use Rattle.btree.specs.Places.{IsLeafPlace, if_found};
ghost use Rattle.volume_format.specs.Calls.{LooksAt};
ghost use Rattle.alternate_keys.specs.Aims.{found_entry};

use crate::search_start::SearchStart;
use btree::{Entry, LeafPlace, Tree};
use pages::{PageMap, PagesError};
use station::Device;

/// The entry of a tree that is looked for.
pub(crate) fn look<D: Device>(
    tree: &Tree,
    pages: &mut PageMap,
    device: &mut D,
    aim: SearchStart,
    key: &[u8],
) -> Result<Option<Entry>, PagesError>
    requires sectors { sectors_of pages.old ≤ D.sectors device.old }
    requires short { tree.now.layout.key_length ≤ 128 }
    ensures only { OnlyReads D.Device (result ≡ Err PagesError.Device) device.old device.new }
    ensures unchanged { IsUnchanged pages.old pages.new }
    ensures agrees { D.is_honest device.old → Agrees pages.old (D.state device.old).disk
        → Agrees pages.new (D.state device.new).disk }
    ensures entry { D.is_honest device.old → Agrees pages.old (D.state device.old).disk
        → (levels : List (List TreeNode)) →
        IsTreeOrEmpty tree.now.layout (map_now pages.old (D.state device.old).disk.present).pages
        tree.now.root levels →
        IfOk result (λ entry. entry ≡ found_entry aim (entries_of tree.now.layout levels) key.now) }
    ensures damaged { D.is_honest device.old → Agrees pages.old (D.state device.old).disk
        → result ≡ Err PagesError.Damaged →
        (levels : List (List TreeNode)) → IsTreeOrEmpty tree.now.layout
        (map_now pages.old (D.state device.old).disk.present).pages tree.now.root levels → ⊥ }
    ensures lengths { IfOk result (λ entry. IfSome entry (HasLengths tree.now.layout)) }
    ensures spent { result ≡ Err PagesError.Spent → is_spent pages.old ≡ true }
    ensures cause { IfErr result IsReadRefusal }
{
    match aim {
        SearchStart::Nothing => Ok(None),
        SearchStart::From => tree.seek(pages, device, key),
        SearchStart::After => tree.next(pages, device, key),
    }
}

/// Puts the entry of a tree that is looked for into `entry`, and returns whether there is one. A search after a key begins in the leaf
/// that is noted, and the leaf that has the entry is noted.
pub(crate) fn look_near<D: Device>(
    tree: &Tree,
    pages: &mut PageMap,
    device: &mut D,
    aim: SearchStart,
    key: &[u8],
    place: &mut LeafPlace,
    entry: &mut Entry,
) -> Result<bool, PagesError>
    requires sectors { sectors_of pages.old ≤ D.sectors device.old }
    requires short { tree.now.layout.key_length ≤ 128 }
    ensures looks { LooksAt D.Device (result ≡ Err PagesError.Device) pages.old device.old pages.new
        device.new }

    // If the leaf that is noted is one of its tree, so is the leaf that is noted then, and the answer is that of `look`.
    ensures entry { OnTree D.Device tree.now.layout tree.now.root pages.old device.old (λ levels.
        IsLeafPlace place.old (pages_on D.Device pages.old device.old) → IfOk result (λ found.
        if_found found entry.new ≡ found_entry aim (entries_of tree.now.layout levels) key.now)) }
    ensures place { OnPages D.Device pages.old device.old
        (λ before. IsLeafPlace place.old before → IsLeafPlace place.new before) }
    ensures damaged { OnNoTree D.Device tree.now.layout tree.now.root pages.old device.old
        (ReturnsDamaged result × IsLeafPlace place.old (pages_on D.Device pages.old device.old)) }
    ensures lengths { result ≡ Ok true → HasLengths tree.now.layout entry.new }
    ensures spent { OnlyIfSpent pages.old result }
    ensures cause { IfErr result IsReadRefusal }
{
    match aim {
        SearchStart::Nothing => Ok(false),
        SearchStart::From => tree.find_from(pages, device, key, entry),
        SearchStart::After => tree.next_near(pages, device, key, place, entry),
    }
}
