//! Bytes in room that is made once.

ghost use Rattle.std.specs.Prelude.{◌≡◌, ◌+◌, ◌≤◌, [], ◌++◌, length, take, IfOk};
ghost use Rattle.items.specs.Texts.{padded_text};
ghost use Rattle.text_ops.specs.Entries.{AreWithin};
ghost use Rattle.text_ops.specs.Inspect.{replaced_subject};
ghost use Rattle.items.specs.Items.{HasLengthOf};
ghost use Rattle.text_ops.specs.Shown.{shown_bytes};
ghost use Rattle.text_ops.specs.Lengths.{shown_length};
ghost use Rattle.data_machine.specs.Writing.{Appends, WritesBehind};

use items::{DataFault, Item};
use std::alloc::{AllocError, Global};
use std::marker::Model;
use text_ops::{Entry, Progress, replace, shown};

/// Bytes, with room for so many.
#[derive(Drop)]
pub struct Buffer {
    room: Vec<u8>,
    used: usize,
}

impl Model for Buffer {
    ghost use Rattle.std.specs.Prelude.{◌≤◌, take, length};
    ghost use Rattle.data_machine.specs.Filled.{BufferView, coded_filled};

    ghost Value = { BufferView };

    ghost coded = { coded_filled };

    ghost view = { λ it.
        record { room = length it.room.items; bytes = take it.used it.room.items } };

    ghost invariant = { λ it. it.used ≤ length it.room.items };
}

impl Buffer {
    /// Room for so many bytes, with none in it.
    pub fn new(alloc: Global, room: usize) -> Result<Buffer, AllocError>
        ensures { IfOk result (λ buffer. buffer ≡ record { room = room; bytes = [] }) }
    {
        let room = vec![in alloc; 0; room]?;
        Ok(Buffer { room, used: 0 })
    }

    /// The bytes in it.
    #[inline]
    pub fn bytes(&self) -> &[u8]
        ensures { result.now ≡ self.now.bytes }
    {
        &self.room.as_slice()[..self.used]
    }

    /// With nothing in it.
    #[inline(always)]
    pub fn clear(&mut self)
        ensures { self.new ≡ record { room = self.old.room; bytes = [] } }
    {
        self.used = 0;
    }

    /// Adds bytes at the end.
    #[inline(always)]
    pub fn append(&mut self, bytes: &[u8])
        requires { length self.old.bytes + length bytes.now ≤ self.old.room }
        ensures { self.new ≡ record { room = self.old.room; bytes = self.old.bytes ++ bytes.now } }
    {
        let end = self.used + bytes.len();
        let room = self.room.as_mut_slice();
        room[self.used..end].copy_from_slice(bytes);
        self.used = end;
    }

    /// Cut or padded with spaces to so many bytes.
    pub fn fit(&mut self, size: usize)
        requires { size ≤ self.old.room }
        ensures { self.new
            ≡ record { room = self.old.room; bytes = padded_text size self.old.bytes } }
    {
        if self.used < size {
            let room = self.room.as_mut_slice();
            room[self.used..size].fill(b' ');
        }
        self.used = size;
    }

    /// Replaces each fit of an entry of INSPECT by its text. The entries' texts are spans of `texts`.
    pub fn replace(&mut self, texts: &[u8], entries: &[Entry], progress: &mut [Progress])
        requires within { AreWithin entries.now (length texts.now) }
        requires progress { length entries.now ≤ length progress.old }
        ensures value { self.new ≡ record {
          room = self.old.room;
          bytes = replaced_subject texts.now entries.now self.old.bytes;
        } }
        ensures size { length self.new.bytes ≡ length self.old.bytes }
    {
        replace_front(
            texts,
            entries,
            progress,
            self.used,
            self.room.as_mut_slice(),
        );
    }

    /// Adds what DISPLAY shows of an item at the end. Where a numeric item holds no number, nothing changes.
    pub fn append_shown(&mut self, item: Item, bytes: &[u8]) -> Result<(), DataFault>
        requires item { HasLengthOf item bytes.now }
        requires room { length self.old.bytes + shown_length item.kind (length bytes.now)
            ≤ self.old.room }
        ensures { Appends result self.old self.new (shown_bytes item.kind bytes.now) }
    {
        self.used = put_shown(item, bytes, self.used, self.room.as_mut_slice())?;
        Ok(())
    }
}

/// Replaces in so many bytes in front.
fn replace_front(
    texts: &[u8],
    entries: &[Entry],
    progress: &mut [Progress],
    used: usize,
    room: &mut [u8],
)
    requires within { AreWithin entries.now (length texts.now) }
    requires progress { length entries.now ≤ length progress.old }
    requires used { used ≤ length room.old }
    ensures { take used room.new ≡ replaced_subject texts.now entries.now (take used room.old) }
{
    let (front, _) = room.split_at_mut(used);
    replace(texts, entries, progress, front);
}

/// Writes what DISPLAY shows of an item after so many bytes, and answers where it ends.
fn put_shown(item: Item, bytes: &[u8], used: usize, room: &mut [u8]) -> Result<usize, DataFault>
    requires item { HasLengthOf item bytes.now }
    requires room { used + shown_length item.kind (length bytes.now) ≤ length room.old }
    ensures writes { WritesBehind result used room.old room.new (shown_bytes item.kind bytes.now) }
    ensures within { IfOk result (λ end. end ≤ length room.old) }
{
    let (_, rest) = room.split_at_mut(used);
    let most = rest.len();
    let count = shown(item, bytes, rest)?;
    Ok(used + count.min(most))
}
