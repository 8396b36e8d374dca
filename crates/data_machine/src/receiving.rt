//! Receivers in their areas.

ghost use Rattle.std.specs.Prelude.{◌≡◌, ◌+◌, ◌≤◌, true, length};
ghost use Rattle.items.specs.Items.{IsItem, IsTaken};
ghost use Rattle.items.specs.declared.taken.Taken.TheVariants as senders;
ghost use Rattle.items.specs.Faults.{Writes};
ghost use Rattle.items.specs.Texts.{padded_text};
ghost use Rattle.edited_move.specs.Moves.{moved_bytes, is_short, IsPlainKind};
ghost use Rattle.source_tree.specs.Moving.{moved_by};
ghost use Rattle.data_instructions.specs.Tables.{IsEditing};
ghost use Rattle.data_machine.specs.Finds.{Receives};
ghost use Rattle.data_machine.specs.Writing.{WritesPart, with_part};

use crate::move_items::{is_copy, move_constant, move_digits, move_numbers, put_text};
use data_instructions::DataItem;
use edited_move::{edit_into, move_between};
use items::{DataFault, Item, Kind, Taken, put_padded};

/// The same to an item at an offset in its area: the other bytes stay.
#[inline(always)]
pub fn move_part(
    one: &DataItem,
    area: &mut [u8],
    offset: usize,
    taken: &Taken,
    from: &[u8],
) -> Result<(), DataFault>
    requires form { IsItem one.now.item }
    requires editing { IsEditing one.now.item one.now.editing }
    requires sender { Receives one.now (record { taken = taken.now; bytes = from.now }) }
    requires within { offset + one.now.item.length ≤ length area.old }
    ensures { WritesPart result area.old area.new offset one.now.item.length
        (moved_by one.now.editing one.now.item (record { taken = taken.now; bytes = from.now })) }
{
    let end = offset + one.item.length as usize;
    move_item(one, taken, from, &mut area[offset..end])
}

/// The same of a sender that is an item, with its bytes.
#[inline(always)]
pub(crate) fn move_item_part(
    one: &DataItem,
    area: &mut [u8],
    offset: usize,
    sender: &Item,
    from: &[u8],
) -> Result<(), DataFault>
    requires form { IsItem one.now.item }
    requires editing { IsEditing one.now.item one.now.editing }
    requires sender { Receives one.now
        (record { taken = senders.Item sender.now; bytes = from.now }) }
    requires within { offset + one.now.item.length ≤ length area.old }
    ensures { WritesPart result area.old area.new offset one.now.item.length
        (moved_by one.now.editing one.now.item
        (record { taken = senders.Item sender.now; bytes = from.now })) }
{
    let end = offset + one.item.length as usize;
    move_from(one, sender, from, &mut area[offset..end])
}

/// Stores characters in an item at an offset in its area, cut or padded with spaces.
pub fn pad_part(one: &DataItem, area: &mut [u8], offset: usize, text: &[u8])
    requires within { offset + one.now.item.length ≤ length area.old }
    ensures { area.new
        ≡ with_part area.old offset one.now.item.length (padded_text one.now.item.length text.now) }
{
    let end = offset + one.item.length as usize;
    put_padded(text, &mut area[offset..end]);
}

/// Moves a sender to an item that isn't edited.
#[inline(always)]
#[tactic(auto, unfolding(edited_move::specs::Moves::moved_bytes))]
fn move_plain(
    taken: &Taken,
    from: &[u8],
    receiver: &Item,
    bytes: &mut [u8],
) -> Result<(), DataFault>
    requires taken { IsTaken taken.now from.now }
    requires receiver { IsItem receiver.now }
    requires plain { IsPlainKind receiver.now.kind }
    requires short { is_short receiver.now taken.now ≡ true }
    requires length { length bytes.old ≡ receiver.now.length }
    ensures { Writes result bytes.old bytes.new (moved_bytes receiver.now taken.now from.now) }
{
    if let Taken::Item(sender) = taken {
        if let (Kind::Numeric(number), Kind::Numeric(other)) = (&sender.kind, &receiver.kind) {
            return move_numbers(number, from, other, bytes);
        }
        if is_copy(sender, receiver) {
            put_text(from, bytes);
            return Ok(());
        }
        if let (Kind::Numeric(number), Kind::Alphanumeric { justified: false }) = (
            &sender.kind,
            &receiver.kind,
        ) {
            return move_digits(number, from, bytes);
        }
    }
    if let Taken::Figurative(constant) = taken {
        move_constant(*constant, from, receiver, bytes);
        return Ok(());
    }
    move_between(taken, from, receiver, bytes)
}

/// Moves a sender to an item with these bytes; an edited one is edited by its picture.
#[inline(always)]
fn move_item(one: &DataItem, taken: &Taken, from: &[u8], bytes: &mut [u8]) -> Result<(), DataFault>
    requires form { IsItem one.now.item }
    requires editing { IsEditing one.now.item one.now.editing }
    requires sender { Receives one.now (record { taken = taken.now; bytes = from.now }) }
    requires length { length bytes.old ≡ one.now.item.length }
    ensures { Writes result bytes.old bytes.new
        (moved_by one.now.editing one.now.item (record { taken = taken.now; bytes = from.now })) }
{
    match &one.editing {
        None => move_plain(taken, from, &one.item, bytes),
        Some(picture) => edit_into(*taken, from, one.item, picture, bytes),
    }
}

/// Moves an item to another one with these bytes. Numbers and characters take a shorter way, if the receiver isn't edited.
#[inline(always)]
#[tactic(auto, unfolding(edited_move::specs::Moves::moved_bytes))]
fn move_from(one: &DataItem, sender: &Item, from: &[u8], bytes: &mut [u8]) -> Result<(), DataFault>
    requires form { IsItem one.now.item }
    requires editing { IsEditing one.now.item one.now.editing }
    requires sender { Receives one.now
        (record { taken = senders.Item sender.now; bytes = from.now }) }
    requires length { length bytes.old ≡ one.now.item.length }
    ensures { Writes result bytes.old bytes.new (moved_by one.now.editing one.now.item
        (record { taken = senders.Item sender.now; bytes = from.now })) }
{
    if one.editing.is_some() {
        return move_apart(one, sender, from, bytes);
    }
    if let (Kind::Numeric(number), Kind::Numeric(other)) = (&sender.kind, &one.item.kind) {
        return move_numbers(number, from, other, bytes);
    }
    if is_copy(sender, &one.item) {
        put_text(from, bytes);
        return Ok(());
    }
    move_apart(one, sender, from, bytes)
}

/// The same, apart from its callers.
#[inline(never)]
fn move_apart(one: &DataItem, sender: &Item, from: &[u8], bytes: &mut [u8]) -> Result<(), DataFault>
    requires form { IsItem one.now.item }
    requires editing { IsEditing one.now.item one.now.editing }
    requires sender { Receives one.now
        (record { taken = senders.Item sender.now; bytes = from.now }) }
    requires length { length bytes.old ≡ one.now.item.length }
    ensures { Writes result bytes.old bytes.new (moved_by one.now.editing one.now.item
        (record { taken = senders.Item sender.now; bytes = from.now })) }
{
    move_item(one, &Taken::Item(*sender), from, bytes)
}
