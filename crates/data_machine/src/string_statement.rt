//! Instructions that put the line into a receiver, as STRING does (COBOL-85, Nucleus, "The STRING statement").

ghost use Rattle.std.specs.Prelude.{◌≡◌, ◌+◌, ◌≤◌, true, false, length, map, Ok, Some, None, slice_range};
ghost use Rattle.text_ops.specs.Strings.{string_of_senders};
ghost use Rattle.source_tree.specs.Stringing as meaning;
ghost use Rattle.data_instructions.specs.Scratch.{step_with};
ghost use Rattle.data_instructions.specs.Table as spec;
ghost use Rattle.data_instructions.specs.Tables.{item_place};
ghost use Rattle.data_instructions.specs.declared.instruction.DataInstruction.TheVariants as instructions;
ghost use Rattle.data_machine.specs.Data.{scratch_of};
ghost use Rattle.data_machine.specs.Comes.{IsStepOf, KeepsRoom};
ghost use Rattle.data_machine.specs.Finds.{FindsItem, FindsNext, IsAtOffset};
ghost use Rattle.data_machine.specs.Ready.{IsReady};
ghost use Rattle.data_machine.specs.Stringing.{put_from, strung_with, IsWithinReceiver, PutsText};
ghost use Rattle.data_machine.specs.Writing.{with_part};

use crate::areas::Areas;
use crate::data::Data;
use crate::numbers::number_in;
use crate::parts::integer_of;
use crate::seen::{part_of, seen};
use crate::superinstruction_work::item_of;
use data_instructions::{DataItem, DataTables, ProgramFault};
use decimal18::Dec;
use text_ops::string_into;

/// Puts a text into an item at an offset in its area, from a position on, which counts from 1: the other bytes stay. Answers the
/// position after it, and whether there was an overflow.
pub fn string_part(
    one: &DataItem,
    area: &mut [u8],
    offset: usize,
    text: &[u8],
    at: usize,
) -> (usize, bool)
    requires within { offset + one.now.item.length ≤ length area.old }
    ensures bytes { area.new ≡ with_part area.old offset one.now.item.length (string_of_senders at
        text.now (slice_range area.old offset (offset + one.now.item.length))).receiver }
    ensures next { result.0 ≡ (string_of_senders at text.now
        (slice_range area.old offset (offset + one.now.item.length))).pointer }
    ensures overflow { result.1 ≡ (string_of_senders at text.now
        (slice_range area.old offset (offset + one.now.item.length))).overflow }
{
    let end = offset + one.item.length as usize;
    string_into(text, at, &mut area[offset..end])
}

/// The position that an integer tells, if it is one within so many bytes, which count from 1.
fn position_in(integer: i128, size: u32) -> Option<usize>
    ensures { IsWithinReceiver result size (meaning.position integer) }
{
    if integer < 1 {
        return None;
    }
    if integer > i128::from(size) {
        return None;
    }
    Some(integer as usize)
}

/// Puts a text into an item from its first byte on, and answers whether there was an overflow.
fn put_from_first(areas: &mut Areas, one: &DataItem, offset: usize, text: &[u8]) -> bool
    requires stands { IsAtOffset one.now areas.old offset }
    ensures puts { meaning.put_text (item_place one.now offset) None 1 text.now areas.old
        ≡ Ok (record { storage = areas.new; overflow = result }) }
    ensures lengths { map length areas.new ≡ map length areas.old }
{
    if one.item.length < 1 {
        return true;
    }
    areas.string_into(one, offset, text, 1).1
}

/// The same from the position on that a pointer holds, which then holds the one after the text. Where it is outside of the item
/// nothing changes. Fault 90 where the pointer holds no integer.
fn put_from_pointer(
    areas: &mut Areas,
    one: &DataItem,
    offset: usize,
    pointer: &DataItem,
    held: usize,
    text: &[u8],
) -> Result<bool, ProgramFault>
    requires stands { IsAtOffset one.now areas.old offset }
    requires pointer { IsAtOffset pointer.now areas.old held }
    ensures puts { PutsText result areas.new
        (put_from (item_place one.now offset) (item_place pointer.now held) text.now areas.old) }
    ensures lengths { map length areas.new ≡ map length areas.old }
{
    let number = number_in(pointer.item.kind, areas.bytes(pointer, held));
    let Some(at) = position_in(integer_of(number)?, one.item.length) else {
        return Ok(true);
    };
    let (next, overflow) = areas.string_into(one, offset, text, at);
    let number = Dec::new(next as i128, 0);
    let _ = areas.store(pointer, held, Some(number), false, false)?;
    Ok(overflow)
}

impl Data {
    /// Without a pointer: the line is put into the item at the newest place. The truth is whether there was an overflow, and the line is
    /// empty then.
    pub fn string_from_first(&mut self, tables: &DataTables) -> Result<(), ProgramFault>
        requires operand { FindsItem tables.now self.old.areas self.old.places.newest_first }
        ensures does { IsStepOf result (scratch_of self.new)
            (spec.strung_by tables.now false (scratch_of self.old)) }
        ensures keeps { KeepsRoom self.old self.new }
    {
        let place = self.places.pop();
        let one = item_of(tables, place.item);
        let part = part_of(one, place.length);
        self.string_first_at(seen(one, &part), place.offset)
    }

    /// The same with an item at an offset.
    fn string_first_at(&mut self, one: &DataItem, offset: usize) -> Result<(), ProgramFault>
        requires { IsAtOffset one.now self.old.areas offset }
        ensures does { IsStepOf result (scratch_of self.new)
            (spec.strung_to None 1 (item_place one.now offset) (scratch_of self.old)) }
        ensures keeps { KeepsRoom self.old self.new }
    {
        self.truth = put_from_first(&mut self.areas, one, offset, self.line.bytes());
        self.line.clear();
        Ok(())
    }

    /// The line is put into an item at an offset, from the position on that a pointer holds, or fault 90.
    fn string_at(
        &mut self,
        one: &DataItem,
        offset: usize,
        pointer: &DataItem,
        held: usize,
    ) -> Result<(), ProgramFault>
        requires stands { IsAtOffset one.now self.old.areas offset }
        requires pointer { IsAtOffset pointer.now self.old.areas held }
        ensures does { IsStepOf result (scratch_of self.new)
            (step_with (put_from (item_place one.now offset) (item_place pointer.now held)
            self.old.line.bytes self.old.areas) (strung_with (scratch_of self.old))) }
        ensures keeps { KeepsRoom self.old self.new }
    {
        let text = self.line.bytes();
        self.truth = put_from_pointer(&mut self.areas, one, offset, pointer, held, text)?;
        self.line.clear();
        Ok(())
    }

    /// With a pointer: the same below the newest place, from the position on that the newest one holds, or fault 90.
    pub fn string_from_pointer(&mut self, tables: &DataTables) -> Result<(), ProgramFault>
        requires pointer { FindsItem tables.now self.old.areas self.old.places.newest_first }
        requires receiver { FindsNext tables.now self.old.areas self.old.places.newest_first }
        ensures does { IsStepOf result (scratch_of self.new)
            (spec.strung_by tables.now true (scratch_of self.old)) }
        ensures keeps { KeepsRoom self.old self.new }
    {
        let pointer = self.places.pop();
        let place = self.places.pop();
        let to = item_of(tables, pointer.item);
        let to_part = part_of(to, pointer.length);
        let one = item_of(tables, place.item);
        let part = part_of(one, place.length);
        self.string_at(
            seen(one, &part),
            place.offset,
            seen(to, &to_part),
            pointer.offset,
        )
    }

    /// `string`, with a pointer or without. It takes no memory.
    #[inline(never)]
    pub fn string(&mut self, tables: &DataTables, pointer: bool) -> Result<(), ProgramFault>
        requires { IsReady tables.now self.old (instructions.String pointer) }
        ensures does { IsStepOf result (scratch_of self.new)
            (spec.strung_by tables.now pointer (scratch_of self.old)) }
        ensures keeps { KeepsRoom self.old self.new }
    {
        if pointer {
            self.string_from_pointer(tables)
        } else {
            self.string_from_first(tables)
        }
    }
}
