//! What a run changes.

ghost use Rattle.std.specs.Prelude.{◌≡◌, ◌<◌, ◌-◌, length, slice_index, slice_set, IfOk, IsTrue, IsFalse};
ghost use Rattle.code_image.specs.Demands.{IsVerified};
ghost use Rattle.machine.specs.Standing.{IsLoaded};
ghost use Rattle.machine.specs.Counting.{BeginsTurns};

use crate::returns::Returns;
use crate::room::room_along;
use code_image::{Code, CounterIndex};
use data_machine::{Data, longest_item};
use records::Status;
use std::alloc::{AllocError, Global};

/// What a run changes, in room that is made once.
#[derive(Drop)]
pub(crate) struct Registers {
    /// One for each address.
    pub(crate) counters: Vec<u64>,
    /// The `perform`s that have not come back.
    pub(crate) returns: Returns,
    /// Where a console line is read, as much of it as an item takes.
    pub(crate) input: Vec<u8>,
    /// What instructions on data work on.
    pub(crate) scratch: Data,
    /// Where a record area is while a file statement is under way.
    pub(crate) record_area: Vec<u8>,
    /// How the last file statement ended; `Success` before the first.
    pub(crate) status: Status,
    /// The line of the statement that last used one of the budget; 0 before the first.
    pub(crate) line: u32,
}

impl Registers {
    /// At the start of a run, with the room that the code asks for.
    pub(crate) fn new(alloc: Global, code: &Code) -> Result<Registers, AllocError>
        requires { IsVerified code.now }
        ensures { IfOk result (IsLoaded code.now) }
    {
        let room = room_along(alloc, code)?;
        let counters = vec![in alloc; 0; code.instructions.len()]?;
        let returns = Returns::new(alloc, code)?;
        let input = vec![in alloc; 0; longest_item(&code.tables)]?;
        let scratch = Data::new(alloc, &code.tables, room)?;
        Ok(Registers {
            counters,
            returns,
            input,
            scratch,
            record_area: Vec::new(alloc),
            status: Status::Success,
            line: 0,
        })
    }
}

/// Sets a counter.
pub(crate) fn count(counters: &mut [u64], counter: CounterIndex, turns: u64)
    requires { counter.number < length counters.old }
    ensures { counters.new ≡ slice_set counters.old counter.number turns }
{
    counters[counter.number] = turns;
}

/// The end of a turn: whether another one comes, which the counter then no longer holds.
pub(crate) fn turn(counters: &mut [u64], counter: CounterIndex) -> bool
    requires { counter.number < length counters.old }
    ensures back { IsTrue result → 0 < slice_index counters.old counter.number }
    ensures lowered { IsTrue result → counters.new ≡ slice_set counters.old counter.number
        (slice_index counters.old counter.number - 1) }
    ensures on { IsFalse result → slice_index counters.old counter.number ≡ 0 }
    ensures same { IsFalse result → counters.new ≡ counters.old }
{
    let left = counters[counter.number];
    if left == 0 {
        return false;
    }
    counters[counter.number] = left - 1;
    true
}

/// Of so many turns one begins, if there are any, and a counter then holds the others.
pub(crate) fn begin_turns(counters: &mut [u64], counter: CounterIndex, turns: u64) -> bool
    requires { counter.number < length counters.old }
    ensures { BeginsTurns result turns counter.number counters.old counters.new }
{
    if turns == 0 {
        return false;
    }
    counters[counter.number] = turns - 1;
    true
}
