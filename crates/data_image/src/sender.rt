//! Literals that are sent, in an image.

ghost use Rattle.std.specs.Prelude.{◌≡◌, ◌++◌, OnOk};
ghost use Rattle.answers.specs.Answer.{Gives};
ghost use Rattle.data_image.specs.Faults.{fault_of};
ghost use Rattle.data_image.specs.Senders as spec;
ghost use Rattle.data_image.specs.Senders.{taken_bytes, taken_at, sender_bytes, sender_at, IsTakenSpelled, IsSenderSpelled};

use crate::byte::{found, put_byte, read_byte};
use crate::fault::ImageError;
use crate::item::{put_item, read_item};
use crate::table::TableEntry;
use data_instructions::LiteralSender;
use items::{Figurative, Taken};
use sqlite_items::Items;
use std::alloc::{AllocError, Global};

// The first byte of what is taken.
const ALL: u8 = 1;

const ZERO: u8 = 2;

const SPACE: u8 = 3;

const HIGH_VALUE: u8 = 4;

const LOW_VALUE: u8 = 5;

const QUOTE: u8 = 6;

const ITEM: u8 = 7;

impl TableEntry for LiteralSender {
    ghost spelled = { sender_bytes };

    ghost read_from = { sender_at };

    ghost fits = { IsSenderSpelled };

    fn put(&self, out: &mut Vec<u8>) -> Result<(), AllocError> {
        put_taken(out, self.taken)?;
        self.bytes.put(out)
    }

    #[tactic(auto, unfolding(crate::specs::Senders::sender_at))]
    fn read(alloc: Global, bytes: &[u8]) -> Result<(LiteralSender, &[u8]), ImageError> {
        let (taken, rest) = read_taken(bytes)?;
        let (bytes, rest) = Items::read(alloc, rest)?;
        Ok((LiteralSender { taken, bytes }, rest))
    }
}

fn put_taken(out: &mut Vec<u8>, taken: Taken) -> Result<(), AllocError>
    ensures bytes { OnOk result (out.new.items ≡ out.old.items ++ taken_bytes taken) }
    ensures fits { OnOk result (IsTakenSpelled taken) }
{
    match taken {
        Taken::All => put_byte(out, ALL),
        Taken::Figurative(Figurative::Zero) => put_byte(out, ZERO),
        Taken::Figurative(Figurative::Space) => put_byte(out, SPACE),
        Taken::Figurative(Figurative::HighValue) => put_byte(out, HIGH_VALUE),
        Taken::Figurative(Figurative::LowValue) => put_byte(out, LOW_VALUE),
        Taken::Figurative(Figurative::Quote) => put_byte(out, QUOTE),
        Taken::Item(item) => {
            put_byte(out, ITEM)?;
            put_item(out, item)
        }
    }
}

/// What isn't taken as an item.
#[tactic(auto, unfolding(crate::specs::Senders::plain_taken_of))]
fn plain_taken_of(byte: u8) -> Option<Taken>
    ensures { result ≡ spec.plain_taken_of byte }
{
    match byte {
        ALL => Some(Taken::All),
        ZERO => Some(Taken::Figurative(Figurative::Zero)),
        SPACE => Some(Taken::Figurative(Figurative::Space)),
        HIGH_VALUE => Some(Taken::Figurative(Figurative::HighValue)),
        LOW_VALUE => Some(Taken::Figurative(Figurative::LowValue)),
        QUOTE => Some(Taken::Figurative(Figurative::Quote)),
        _ => None,
    }
}

#[tactic(auto, unfolding(crate::specs::Senders::taken_at))]
fn read_taken(bytes: &[u8]) -> Result<(Taken, &[u8]), ImageError>
    ensures { Gives (λ x. (x.0, x.1.now)) fault_of result (taken_at bytes.now) }
{
    let (byte, rest) = read_byte(bytes)?;
    if byte == ITEM {
        let (item, rest) = read_item(rest)?;
        return Ok((Taken::Item(item), rest));
    }
    Ok((found(plain_taken_of(byte))?, rest))
}
