//! What instructions on data work on.

ghost use Rattle.std.specs.Prelude.{◌≡◌, ◌≤◌, ℕ, [], length, slice_get, IfOk, Some};
ghost use Rattle.data_instructions.specs.Scratch.{initial_scratch};
ghost use Rattle.data_instructions.specs.Table as spec;
ghost use Rattle.data_machine.specs.Data.{scratch_of};
ghost use Rattle.data_machine.specs.Comes.{IsStepOf, KeepsRoom};
ghost use Rattle.data_instructions.specs.declared.tables.DataItem.{DataItem};
ghost use Rattle.data_instructions.specs.declared.tables.LiteralSender.{LiteralSender};
ghost use Rattle.data_machine.specs.Finds.{HasItemRoom, HasSenderRoom};
ghost use Rattle.data_machine.specs.Inspecting.{HasInspectRoom};
ghost use Rattle.data_machine.specs.Ready.{HasRoomOf, IsReady};

use crate::areas::Areas;
use crate::buffer::Buffer;
use crate::inspect_room::{InspectRoom, most_entries};
use crate::sender::Sender;
use crate::stack::Stack;
use data_instructions::{
    DataInstruction, DataItem, DataTables, ItemIndex, LiteralSender, Place, ProgramFault,
};
use decimal18::Dec;
use std::alloc::{AllocError, Global};

// What fills the room of places; it is never read.
const NO_PLACE: Place = Place {
    item: ItemIndex { number: 0 },
    offset: 0,
    length: 0,
};

/// The most that the shapes of code ask for.
#[derive(Clone, Copy)]
pub struct Room {
    pub numbers: usize,
    pub places: usize,
    /// In bytes.
    pub line: usize,
}

/// What instructions work on, with all the room that they need.
#[derive(Drop)]
pub struct Data {
    pub areas: Areas,
    pub numbers: Stack<Option<Dec>>,
    pub places: Stack<Place>,
    pub sender: Sender,
    /// The line that is being made up.
    pub line: Buffer,
    /// A size error arose, or what a test found.
    pub truth: bool,
    /// What INSPECT needs.
    pub inspecting: InspectRoom,
}

/// The greatest length of an item, in bytes.
fn longest_of(items: &[DataItem]) -> usize
    ensures { (k : ℕ) (one : DataItem) → slice_get items.now k ≡ Some one
        → one.item.length ≤ result }
{
    let mut longest = 0;
    for one in items {
        longest = longest.max(one.item.length as usize);
    }
    longest
}

/// The greatest length of a literal that is sent, in bytes.
fn longest_literal(senders: &[LiteralSender]) -> usize
    ensures { (k : ℕ) (one : LiteralSender) → slice_get senders.now k ≡ Some one
        → length one.bytes ≤ result }
{
    let mut longest = 0;
    for one in senders {
        longest = longest.max(one.bytes.len());
    }
    longest
}

/// Room for each item, in bytes: of a console line no more counts (`cutting_law`).
pub fn longest_item(tables: &DataTables) -> usize
    ensures { HasItemRoom tables.now result }
{
    longest_of(tables.items.as_slice())
}

/// Room for whatever is sent.
fn sender_room(tables: &DataTables) -> usize
    ensures { HasSenderRoom tables.now result }
{
    longest_item(tables).max(longest_literal(tables.senders.as_slice()))
}

/// Room for each inspection.
fn inspect_room(alloc: Global, tables: &DataTables) -> Result<InspectRoom, AllocError>
    ensures { IfOk result (HasInspectRoom tables.now) }
{
    let entries = most_entries(tables.inspections.as_slice());
    InspectRoom::new(alloc, entries, longest_item(tables))
}

// The stacks of numbers and of places, and the line.
type Rooms = (Stack<Option<Dec>>, Stack<Place>, Buffer);

/// Stacks and a line with this room, and with nothing in them.
fn rooms(alloc: Global, room: Room) -> Result<Rooms, AllocError>
    ensures numbers { IfOk result (λ made. made.0
        ≡ record { room = room.numbers; newest_first = [] }) }
    ensures places { IfOk result (λ made. made.1
        ≡ record { room = room.places; newest_first = [] }) }
    ensures line { IfOk result (λ made. made.2 ≡ record { room = room.line; bytes = [] }) }
{
    let numbers = Stack::new(alloc, room.numbers, None)?;
    let places = Stack::new(alloc, room.places, NO_PLACE)?;
    let line = Buffer::new(alloc, room.line)?;
    Ok((numbers, places, line))
}

impl Data {
    /// Data at the start of a run, with this room, and room for whatever is sent and inspected.
    pub fn new(alloc: Global, tables: &DataTables, room: Room) -> Result<Data, AllocError>
        ensures starts { IfOk result (λ d. scratch_of d ≡ initial_scratch tables.now) }
        ensures room { IfOk result (HasRoomOf room) }
        ensures senders { IfOk result (λ d. HasSenderRoom tables.now d.sender.bytes.room) }
        ensures inspects { IfOk result (λ d. HasInspectRoom tables.now d.inspecting) }
    {
        let (numbers, places, line) = rooms(alloc, room)?;
        let areas = Areas::new(alloc, tables.areas.as_slice())?;
        let sender = Sender::new(alloc, sender_room(tables))?;
        let inspecting = inspect_room(alloc, tables)?;
        Ok(Data {
            areas,
            numbers,
            places,
            sender,
            line,
            truth: false,
            inspecting,
        })
    }

    /// An instruction. It takes no memory.
    pub fn work(&mut self, tables: &DataTables, one: DataInstruction) -> Result<(), ProgramFault>
        requires { IsReady tables.now self.old one }
        ensures does { IsStepOf result (scratch_of self.new)
            (spec.work tables.now one (scratch_of self.old)) }
        ensures keeps { KeepsRoom self.old self.new }
    {
        match one {
            DataInstruction::Place { item } => self.place(tables, item),
            DataInstruction::Index { stride, count } => self.index(stride, count),
            DataInstruction::Push => self.push(tables),
            DataInstruction::Literal { number } => self.literal(tables, number),
            DataInstruction::Calculate(one) => self.calculate(one),
            DataInstruction::Store { rounded, keep } => self.store_number(tables, rounded, keep),
            DataInstruction::Test(one) => self.test(tables, one),
            DataInstruction::ClearTruth => self.clear_truth(),
            DataInstruction::VoidIfTrue => self.void_if_true(),
            DataInstruction::Take => self.take(tables),
            DataInstruction::TakeLiteral { literal } => self.take_literal(tables, literal),
            DataInstruction::Move => self.receive(tables),
            DataInstruction::Append => self.append(tables),
            DataInstruction::AppendLiteral { text } => self.append_literal(tables, text),
            DataInstruction::Overlay { text } => self.overlay(tables, text),
            DataInstruction::DropPlace => self.drop_place(tables),
            DataInstruction::Gather(one) => self.gather(tables, one),
            DataInstruction::Part(one) => self.part(tables, one),
            DataInstruction::String { pointer } => self.string(tables, pointer),
            DataInstruction::Inspect { inspection } => self.inspect(tables, inspection),
            DataInstruction::Convert { inspection } => self.convert(tables, inspection),
            DataInstruction::InspectMeasured {
                inspection,
                numbers,
            } => self.inspect_measured(tables, inspection, numbers),
            DataInstruction::ConvertMeasured {
                inspection,
                numbers,
            } => self.convert_measured(tables, inspection, numbers),
        }
    }
}
