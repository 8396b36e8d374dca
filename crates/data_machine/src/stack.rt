//! Stacks of a room that is made once.

ghost use Rattle.std.specs.Prelude.{◌≡◌, ◌<◌, ◌≤◌, [], ◌∷◌, ◌++◌, length, drop, reverse, slice_get, Some, IfOk};

use std::alloc::{AllocError, Global};
use std::marker::Model;

/// A stack with room for so many.
#[derive(Drop)]
pub struct Stack<T> {
    room: Vec<T>,
    used: usize,
}

impl<T> Model for Stack<T> {
    ghost use Rattle.std.specs.Prelude.{◌≤◌, reverse, take, length};
    ghost use Rattle.std.specs.Coded.{coded_list, coded_ℕ};
    ghost use Rattle.data_machine.specs.Held.{StackView, coded_held};

    ghost Value = { StackView T };

    ghost coded = { coded_held T.code };

    ghost view = { λ it. record {
      room = length it.room.items;
      newest_first = reverse (take it.used it.room.items);
    } };

    ghost invariant = { λ it. it.used ≤ length it.room.items };
}

impl<T: Copy> Stack<T> {
    /// Room for so many, filled with anything.
    pub fn new(alloc: Global, room: usize, filler: T) -> Result<Stack<T>, AllocError>
        ensures { IfOk result (λ stack. stack ≡ record { room = room; newest_first = [] }) }
    {
        let room = vec![in alloc; filler; room]?;
        Ok(Stack { room, used: 0 })
    }

    #[inline]
    pub fn push(&mut self, item: T)
        requires { length self.old.newest_first < self.old.room }
        ensures { self.new
            ≡ record { room = self.old.room; newest_first = item ∷ self.old.newest_first } }
    {
        self.room[self.used] = item;
        self.used += 1;
    }

    #[inline]
    pub fn pop(&mut self) -> T
        requires { 0 < length self.old.newest_first }
        ensures newest { self.old.newest_first ≡ result ∷ self.new.newest_first }
        ensures room { self.new.room ≡ self.old.room }
    {
        self.used -= 1;
        self.room[self.used]
    }

    /// The one that stands so many below the newest.
    pub fn below(&self, depth: usize) -> T
        requires { depth < length self.now.newest_first }
        ensures { slice_get self.now.newest_first depth ≡ Some result }
    {
        self.room[self.used - 1 - depth]
    }

    /// So many of the newest, in the order in which they came.
    pub fn newest(&self, count: usize) -> &[T]
        requires { count ≤ length self.now.newest_first }
        ensures length { length result.now ≡ count }
        ensures value { self.now.newest_first
            ≡ reverse result.now ++ drop count self.now.newest_first }
    {
        &self.room.as_slice()[self.used - count..self.used]
    }

    /// Without so many of the newest.
    pub fn leave(&mut self, count: usize)
        requires { count ≤ length self.old.newest_first }
        ensures { self.new
            ≡ record { room = self.old.room; newest_first = drop count self.old.newest_first } }
    {
        self.used -= count;
    }
}
