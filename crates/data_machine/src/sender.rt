//! What a statement has taken.

ghost use Rattle.std.specs.Prelude.{◌≡◌, ◌≤◌, [], length, Some, None, IfOk};

use crate::buffer::Buffer;
use items::Taken;
use std::alloc::{AllocError, Global};

/// What was taken, and its bytes.
#[derive(Drop)]
pub struct Sender {
    pub taken: Option<Taken>,
    pub bytes: Buffer,
}

impl Sender {
    /// Room for so many bytes, with nothing taken.
    pub fn new(alloc: Global, room: usize) -> Result<Sender, AllocError>
        ensures { IfOk result (λ sender. sender
            ≡ record { taken = None; bytes = record { room = room; bytes = [] } }) }
    {
        let bytes = Buffer::new(alloc, room)?;
        Ok(Sender { taken: None, bytes })
    }

    /// Keeps an operand with its bytes in place of the one before.
    #[inline(always)]
    pub fn keep(&mut self, taken: Taken, bytes: &[u8])
        requires room { length bytes.now ≤ self.old.bytes.room }
        ensures { self.new ≡ record {
          taken = Some taken;
          bytes = record { room = self.old.bytes.room; bytes = bytes.now };
        } }
    {
        self.taken = Some(taken);
        self.bytes.clear();
        self.bytes.append(bytes);
    }
}
