//! Which moves are permitted, and what items hold after a move of a number and at the start.

use crate::answer::{Answer, whether};
use crate::entry::{numeric, numeric_of, read_picture};
use crate::operands::Operands;
use edited_move::{Receiving, Sending, is_permitted, is_short, move_number};
use items::{Figurative, Item, Kind, Taken, initialize};
use picture::{Category, Picture};
use row_scripts::look_up;
use std::alloc::{AllocError, Global};

/// The greatest length of an item in bytes.
const MOST_LENGTH: u32 = 65_535;

const GROUP: Item = Item {
    kind: Kind::Group,
    length: 2,
};

/// The senders that are no items.
const SENDERS: [(&[u8], Taken); 4] = [
    (b"ZERO", Taken::Figurative(Figurative::Zero)),
    (b"SPACE", Taken::Figurative(Figurative::Space)),
    (b"QUOTE", Taken::Figurative(Figurative::Quote)),
    (b"ALL", Taken::All),
];

/// `permitted SENDER RECEIVER`: entries without usage, or a figurative constant or ALL for the sender.
pub fn permitted(alloc: Global, operands: &mut Operands<'_>) -> Result<Answer, AllocError> {
    let sender = taken(alloc, operands.word())?;
    let receiver = item(alloc, operands.word())?;
    Ok(match (sender, receiver) {
        (Some(sender), Some(receiver)) => whether(is_move(sender, receiver)),
        _ => Answer::NoRow,
    })
}

fn is_move(sender: Taken, receiver: Item) -> bool {
    is_permitted(Sending::of(sender), Receiving::of(receiver.kind)) && is_short(receiver, sender)
}

/// A figurative constant, ALL, or the item of an entry.
fn taken(alloc: Global, sender: &[u8]) -> Result<Option<Taken>, AllocError> {
    let taken = look_up(&SENDERS, sender);
    if taken.is_some() {
        return Ok(taken);
    }
    match item(alloc, sender)? {
        Some(item) => Ok(Some(Taken::Item(item))),
        None => Ok(None),
    }
}

/// The item of an entry, or a group of two bytes.
fn item(alloc: Global, text: &[u8]) -> Result<Option<Item>, AllocError> {
    if text == b"GROUP".as_slice() {
        return Ok(Some(GROUP));
    }
    let picture = read_picture(alloc, text)?;
    let item = item_of(&picture);
    drop(picture);
    Ok(item)
}

/// The item of a picture without usage.
fn item_of(found: &Option<Picture>) -> Option<Item> {
    let Some(picture) = found else { return None };
    let kind = match picture.category() {
        Category::Alphabetic => Kind::Alphabetic { justified: false },
        Category::Alphanumeric => Kind::Alphanumeric { justified: false },
        Category::AlphanumericEdited => Kind::AlphanumericEdited,
        Category::NumericEdited => Kind::NumericEdited {
            blank_when_zero: false,
        },
        Category::Numeric => Kind::Numeric(numeric_of(found, &mut Operands::of(b""))?),
    };
    let length = picture.size().min(u128::from(MOST_LENGTH)) as u32;
    Some(Item { kind, length })
}

/// `moved NUMBER ENTRY`: the bytes of a numeric item.
pub fn moved(alloc: Global, operands: &mut Operands<'_>) -> Result<Answer, AllocError> {
    let number = operands.decimal();
    let item = numeric(alloc, operands)?;
    let mut bytes = vec![in alloc; 0u8; item.length()]?;
    move_number(number, item, &mut bytes);
    Ok(Answer::Bytes(bytes))
}

/// `initial PICTURE`: what an item that isn't numeric holds without VALUE.
pub fn initial(alloc: Global, operands: &mut Operands<'_>) -> Result<Answer, AllocError> {
    let item = item(alloc, operands.word())?.unwrap_or(GROUP);
    if matches!(item.kind, Kind::Numeric(_)) || item.length < 1 || item.length > MOST_LENGTH {
        return Ok(Answer::NoRow);
    }
    let mut bytes = vec![in alloc; b'.'; item.length as usize]?;
    initialize(item, &mut bytes);
    Ok(Answer::Bytes(bytes))
}
