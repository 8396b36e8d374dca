//! What an item holds at the start, by its VALUE or without one (COBOL-85, Nucleus, "The VALUE clause").

ghost use Rattle.std.specs.Prelude.{◌≡◌, length, OnOk};
ghost use Rattle.source_tree.specs.Starts as spec;
ghost use Rattle.items.specs.Items.{IsTaken};
ghost use Rattle.initial_storage.specs.Fits.{HasKind, HasValue, Suits};

use data_entries::Sender;
use edited_move::move_into;
use items::{Item, Kind, initialize, initialize_text};
use source_tree::ItemEntry;
use std::alloc::{AllocError, Global};

/// Writes a value: a number is moved in, others are written by their characters, without editing and without JUSTIFIED.
pub(crate) fn write_sent(item: Item, sender: &Sender, bytes: &mut [u8])
    requires kind { HasKind item }
    requires form { IsTaken sender.now.taken sender.now.bytes }
    requires suits { Suits item.kind sender.now.taken }
    requires length { length bytes.old ≡ item.length }
    ensures { bytes.new ≡ spec.value_by item.kind item
        (record { taken = sender.now.taken; bytes = sender.now.bytes }) }
{
    match item.kind {
        Kind::Numeric(_) => {
            initialize(item, bytes);
            let _ = move_into(sender.taken, sender.bytes.as_slice(), item, bytes);
        }
        _ => initialize_text(item, sender.taken, sender.bytes.as_slice(), bytes),
    }
}

/// Writes what the item of an entry holds; a group's items have been written.
pub fn write_start(
    alloc: Global,
    item: Item,
    entry: &ItemEntry,
    bytes: &mut [u8],
) -> Result<(), AllocError>
    requires kind { HasKind item }
    requires value { HasValue item.kind entry.now.value }
    requires length { length bytes.old ≡ item.length }
    ensures { OnOk result (bytes.new ≡ spec.initial_bytes item entry.now.value bytes.old) }
{
    match &entry.value {
        Some(literal) => {
            let sender = Sender::of(alloc, &literal.value)?;
            write_sent(item, &sender, bytes);
        }
        None => write_initial(item, bytes),
    }
    Ok(())
}

/// Writes what an item without VALUE holds: a group what its items do.
fn write_initial(item: Item, bytes: &mut [u8])
    requires kind { HasKind item }
    requires length { length bytes.old ≡ item.length }
    ensures { bytes.new ≡ spec.without_value item.kind item bytes.old }
{
    match item.kind {
        Kind::Group => {}
        Kind::Numeric(_) => initialize(item, bytes),
        _ => bytes.fill(b' '),
    }
}
