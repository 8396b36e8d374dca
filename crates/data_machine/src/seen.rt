//! The item at a place: that of the table, or one with fewer bytes.

ghost use Rattle.std.specs.Prelude.{◌≡◌, None};
ghost use Rattle.data_instructions.specs.Tables.{shortened_item, IsEditing};

use data_instructions::DataItem;
use items::Item;

/// The item with so many bytes, and without a picture.
#[inline(always)]
pub(crate) fn part_of(one: &DataItem, length: u32) -> DataItem
    ensures { result ≡ record {
      item = record { kind = one.now.item.kind; length = length };
      editing = None;
      area = one.now.area;
      offset = one.now.offset;
    } }
{
    DataItem {
        item: Item {
            kind: one.item.kind,
            length,
        },
        editing: None,
        area: one.area,
        offset: one.offset,
    }
}

/// The item with the length of its part: the item itself, where it has that length. Only then does it have a picture.
#[inline(always)]
pub(crate) fn seen<'a>(one: &'a DataItem, part: &'a DataItem) -> &'a DataItem
    requires part { part.now ≡ record {
      item = record { kind = one.now.item.kind; length = part.now.item.length };
      editing = None;
      area = one.now.area;
      offset = one.now.offset;
    } }
    requires whole { IsEditing one.now.item one.now.editing }
    requires shortened { IsEditing (shortened_item one.now part.now.item.length).item
        one.now.editing }
    ensures { result.now ≡ shortened_item one.now part.now.item.length }
{
    if one.item.length == part.item.length {
        return one;
    }
    part
}
