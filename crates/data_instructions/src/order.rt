//! Tables in order.

ghost use Rattle.std.specs.Prelude.{◌≡◌, ◌<◌, ◌^◌, ◌↔◌, ℕ, List, length, slice_get, Some, IsTrue};
ghost use Rattle.items.specs.Items.{IsItem, IsTaken};
ghost use Rattle.items.specs.Numbers.{IsNumeric};
ghost use Rattle.edited_move.specs.Moves.{IsOfNumber};
ghost use Rattle.data_instructions.specs.Tables.{IsTables, IsEditing, IsDataItem, Lies};
ghost use Rattle.data_instructions.specs.declared.tables.DataItem.{DataItem};
ghost use Rattle.data_instructions.specs.declared.tables.LiteralSender.{LiteralSender};

use crate::inspections::has_inspections;
use crate::tables::{DataItem, DataTables, LiteralSender};
use items::{Item, Kind, Numeric, Taken};
use picture::{Category, Picture};
use sqlite_items::Items;

/// The greatest length of an item, in bytes.
const MOST_LENGTH: u32 = 65535;

/// The digits that a number has at the most.
const MOST_DIGITS: u8 = 18;

impl DataTables {
    /// Each item has its form and lies in its area, which has fewer bytes than 4 GiB, each literal has the bytes of what it counts
    /// as, and each inspection has its texts.
    pub fn are_in_order(&self) -> bool
        ensures { IsTrue result ↔ IsTables self.now }
    {
        if !has_areas(self.areas.as_slice()) {
            return false;
        }
        if !has_items(self.areas.as_slice(), self.items.as_slice()) {
            return false;
        }
        if !has_senders(self.senders.as_slice()) {
            return false;
        }
        has_inspections(self.inspections.as_slice())
    }
}

fn is_numeric(numeric: Numeric) -> bool
    ensures { IsTrue result ↔ IsNumeric numeric }
{
    1 <= numeric.digits && numeric.digits <= MOST_DIGITS && numeric.scale <= numeric.digits
}

fn is_item(item: Item) -> bool
    ensures { IsTrue result ↔ IsItem item }
{
    match item.kind {
        Kind::Numeric(numeric) => {
            is_numeric(numeric) && item.length as usize == numeric.length()
        }
        _ => 1 <= item.length && item.length <= MOST_LENGTH,
    }
}

/// Numbers are edited by a numeric edited picture, and under BLANK WHEN ZERO by a numeric one too.
fn is_of_number(picture: &Picture) -> bool
    ensures { IsTrue result ↔ IsOfNumber picture.now }
{
    picture.category() == Category::NumericEdited || picture.category() == Category::Numeric
}

/// The picture is that of the item's category and length.
fn is_edited_by(item: Item, picture: &Picture) -> bool
    ensures { IsTrue result ↔ IsEditing item (Some picture.now) }
{
    let category = match item.kind {
        Kind::AlphanumericEdited => picture.category() == Category::AlphanumericEdited,
        Kind::NumericEdited { .. } => is_of_number(picture),
        _ => false,
    };
    category && picture.size() == u128::from(item.length)
}

fn is_editing(item: Item, editing: &Option<Picture>) -> bool
    ensures { IsTrue result ↔ IsEditing item editing.now }
{
    match editing {
        None => !matches!(
            item.kind,
            Kind::AlphanumericEdited | Kind::NumericEdited { .. }
        ),
        Some(picture) => is_edited_by(item, picture),
    }
}

fn lies(areas: &[Items<u8>], one: &DataItem) -> bool
    ensures { IsTrue result ↔ Lies areas.now one.now one.now.offset }
{
    let Some(area) = areas.get(one.area as usize) else {
        return false;
    };
    one.offset as usize + one.item.length as usize <= area.len()
}

fn is_data_item(areas: &[Items<u8>], one: &DataItem) -> bool
    ensures { IsTrue result ↔ IsDataItem areas.now one.now }
{
    is_item(one.item) && is_editing(one.item, &one.editing) && lies(areas, one)
}

fn is_taken(taken: Taken, bytes: &[u8]) -> bool
    ensures { IsTrue result ↔ IsTaken taken bytes.now }
{
    match taken {
        Taken::Item(item) => is_item(item) && bytes.len() == item.length as usize,
        Taken::Figurative(_) => true,
        Taken::All => !bytes.is_empty(),
    }
}

fn has_areas(areas: &[Items<u8>]) -> bool
    ensures { IsTrue result
        ↔ ((k : ℕ) (area : List ℕ) → slice_get areas.now k ≡ Some area → length area < 2 ^ 32) }
{
    for area in areas {
        if area.len() > u32::MAX as usize {
            return false;
        }
    }
    true
}

fn has_items(areas: &[Items<u8>], items: &[DataItem]) -> bool
    ensures { IsTrue result
        ↔ ((k : ℕ) (one : DataItem) → slice_get items.now k ≡ Some one → IsDataItem areas.now one) }
{
    for one in items {
        if !is_data_item(areas, one) {
            return false;
        }
    }
    true
}

fn has_senders(senders: &[LiteralSender]) -> bool
    ensures { IsTrue result ↔ ((k : ℕ) (one : LiteralSender) → slice_get senders.now k ≡ Some one
        → IsTaken one.taken one.bytes) }
{
    for one in senders {
        if !is_taken(one.taken, one.bytes.as_slice()) {
            return false;
        }
    }
    true
}
