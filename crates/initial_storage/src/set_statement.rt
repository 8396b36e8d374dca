//! What SET stores for a condition name (COBOL-85, Nucleus, "The SET statement").

ghost use Rattle.std.specs.Prelude.{◌≡◌, Some, IfOk};
ghost use Rattle.source_tree.specs.Starts.{with_value};
ghost use Rattle.source_tree.specs.Literals.{literal_sender};
ghost use Rattle.initial_storage.specs.Fits.{HasKind, HasValue};

use crate::value::write_sent;
use data_entries::Sender;
use items::Item;
use source_tree::Literal;
use sqlite_items::Items;
use std::alloc::{AllocError, Global};

/// The bytes of an item that holds a literal as a VALUE, as many as the item has: a number is moved in, others are written by
/// their characters, without editing and without JUSTIFIED. Want of memory is the only refusal.
pub fn set_value(alloc: Global, item: Item, value: &Literal) -> Result<Items<u8>, AllocError>
    requires kind { HasKind item }
    requires value { HasValue item.kind (Some value.now) }
    ensures { IfOk result (λ bytes. bytes ≡ with_value item (literal_sender value.now.value)) }
{
    let sender = Sender::of(alloc, &value.value)?;
    let mut bytes = Vec::new(alloc);
    bytes.resize(item.length as usize, b' ')?;
    write_sent(item, &sender, &mut bytes);
    Ok(Items::from_vec(bytes))
}
