//! The room that a run of code takes.

ghost use Rattle.std.specs.Prelude.{IfOk};
ghost use Rattle.data_instructions.specs.Shapes.{empty};
ghost use Rattle.machine.specs.Rooms.{HasRoomFor, IsNoMore, HasRoomAlong};
ghost use Rattle.data_machine.specs.declared.data.Room.{Room};

use code_image::Code;
use data_instructions::Shape;
use data_machine::Room;
use std::alloc::{AllocError, Global};

const NO_ROOM: Room = Room {
    numbers: 0,
    places: 0,
    line: 0,
};

/// The least room for what is known along code, from its first instruction on.
pub(crate) fn room_along(alloc: Global, code: &Code) -> Result<Room, AllocError>
    ensures holds { IfOk result
        (λ room. HasRoomAlong code.now.tables room code.now.instructions empty) }
    ensures least { IfOk result (λ room. (other : Room)
        → HasRoomAlong code.now.tables other code.now.instructions empty → IsNoMore room other) }
{
    let mut room = NO_ROOM;
    let mut shape = Shape::empty(alloc);
    for instruction in code.instructions.as_slice() {
        match instruction.known_after(alloc, &code.tables, shape)? {
            Some(after) => {
                room = widened(room, &after);
                shape = after;
            }
            None => return Ok(room),
        }
    }
    Ok(room)
}

/// The least that is no less than a room, and has room for what a shape knows.
fn widened(room: Room, shape: &Shape) -> Room
    ensures holds { HasRoomFor result shape.now }
    ensures wider { IsNoMore room result }
    ensures least { (other : Room) → HasRoomFor other shape.now → IsNoMore room other
        → IsNoMore result other }
{
    Room {
        numbers: room.numbers.max(shape.stacks.numbers),
        places: room.places.max(shape.stacks.places.len()),
        line: room.line.max(shape.line),
    }
}
