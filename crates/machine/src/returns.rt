//! Where a run comes back to.

ghost use Rattle.std.specs.Prelude.{◌≡◌, ◌<◌, [], ◌∷◌, length, IfOk};
ghost use Rattle.machine.specs.Returns.{ComesBack};

use code_image::{Code, ParagraphIndex};
use std::alloc::{AllocError, Global};
use std::marker::Model;

/// A `perform` that has not come back.
#[derive(Clone, Copy)]
pub(crate) struct Return {
    /// The number of the last code paragraph that it performs.
    pub(crate) last: usize,
    /// The address after it.
    pub(crate) next: usize,
}

impl Model for Return {
    ghost use Rattle.code_image.specs.Points as points;
    ghost use Rattle.machine.specs.Returns.{coded_return};

    ghost Value = { points.Return };

    ghost coded = { coded_return };

    ghost view = { λ it. record { last = it.last; next = it.next } };

    ghost inverse = { λ it. record { last = it.last; next = it.next } };
}

// What fills the room; it is never read.
const NO_RETURN: Return = Return { last: 0, next: 0 };

/// The `perform`s that have not come back, with room for so many.
#[derive(Drop)]
pub(crate) struct Returns {
    room: Vec<Return>,
    used: usize,
}

impl Model for Returns {
    ghost use Rattle.std.specs.Prelude.{◌≤◌, reverse, take, length};
    ghost use Rattle.code_image.specs.Points as points;
    ghost use Rattle.data_machine.specs.Held.{StackView, coded_held};
    ghost use Rattle.machine.specs.Returns.{coded_return};

    ghost Value = { StackView points.Return };

    ghost coded = { coded_held coded_return };

    ghost view = { λ it. record {
      room = length it.room.items;
      newest_first = reverse (take it.used it.room.items);
    } };

    ghost invariant = { λ it. it.used ≤ length it.room.items };
}

impl Returns {
    /// Room for one for each code paragraph, with none in it. No more are open at once, since each code paragraph performs
    /// lower ones only.
    pub(crate) fn new(alloc: Global, code: &Code) -> Result<Returns, AllocError>
        ensures { IfOk result
            (λ returns. returns ≡ record { room = length code.now.starts; newest_first = [] }) }
    {
        let room = vec![in alloc; NO_RETURN; code.starts.len()]?;
        Ok(Returns { room, used: 0 })
    }

    pub(crate) fn push(&mut self, newest: Return)
        requires { length self.old.newest_first < self.old.room }
        ensures { self.new
            ≡ record { room = self.old.room; newest_first = newest ∷ self.old.newest_first } }
    {
        self.room[self.used] = newest;
        self.used += 1;
    }

    /// At the end of a code paragraph: where the newest `perform` comes back to, if this is the last one that it performs.
    pub(crate) fn come_back(&mut self, paragraph: ParagraphIndex) -> Option<usize>
        ensures comes { ComesBack result paragraph.number self.old.newest_first
            self.new.newest_first }
        ensures room { self.new.room ≡ self.old.room }
    {
        if self.used == 0 {
            return None;
        }
        let newest = self.room[self.used - 1];
        if newest.last != paragraph.number {
            return None;
        }
        self.used -= 1;
        Some(newest.next)
    }
}
