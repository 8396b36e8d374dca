//! Instructions that make parts of the newest place (ISO 1989:1985, Nucleus, "Reference modification").

ghost use Rattle.std.specs.Prelude.{◌≡◌, ◌≤◌, ◌<◌, ◌^◌, length, IfOk};
ghost use Rattle.source_tree.specs.Evaluated.{evaluation_of};
ghost use Rattle.source_tree.specs.References as tree;
ghost use Rattle.data_instructions.specs.Parts as words;
ghost use Rattle.data_instructions.specs.Table as spec;
ghost use Rattle.data_instructions.specs.declared.instruction.DataInstruction.TheVariants as instructions;
ghost use Rattle.data_machine.specs.Data.{scratch_of};
ghost use Rattle.data_machine.specs.Comes.{IsStepOf, KeepsRoom};
ghost use Rattle.data_machine.specs.Finds.{FindsItem};
ghost use Rattle.data_machine.specs.Ready.{IsReady};
ghost use Rattle.data_machine.specs.Subscripts.{IsEvaluated, BeginsBelow};

use crate::data::Data;
use crate::superinstruction_work::item_of;
use data_instructions::{DataTables, Part, Place, ProgramFault};
use decimal18::Dec;

impl Data {
    /// A part with its item's length, within so many bytes, becomes the newest place, or fault 93; fault 90 where its first place
    /// is no integer.
    pub fn part_fixed(&mut self, tables: &DataTables, size: u32) -> Result<(), ProgramFault>
        requires first { 1 ≤ length self.old.numbers.newest_first }
        requires place { FindsItem tables.now self.old.areas self.old.places.newest_first }
        requires offset { BeginsBelow (2 ^ 32) self.old.places.newest_first }
        requires room { length self.old.places.newest_first ≤ self.old.places.room }
        ensures does { IsStepOf result (scratch_of self.new) (spec.fixed_step tables.now size
            self.old.numbers.newest_first self.old.places.newest_first (scratch_of self.old)) }
        ensures keeps { KeepsRoom self.old self.new }
    {
        let first = self.numbers.pop();
        let place = self.places.pop();
        let one = item_of(tables, place.item);
        let part = fixed_part(place, size, one.item.length, first)?;
        self.places.push(part);
        Ok(())
    }

    /// A part of the bytes of the newest place, by its first place and its length, becomes the newest place, or fault 93; fault 90
    /// where one of them is no integer.
    pub fn part_counted(&mut self) -> Result<(), ProgramFault>
        requires numbers { 2 ≤ length self.old.numbers.newest_first }
        requires offset { BeginsBelow (2 ^ 32) self.old.places.newest_first }
        requires room { length self.old.places.newest_first ≤ self.old.places.room }
        ensures does { IsStepOf result (scratch_of self.new)
            (spec.counted_step self.old.numbers.newest_first self.old.places.newest_first
            (scratch_of self.old)) }
        ensures keeps { KeepsRoom self.old self.new }
    {
        let length = self.numbers.pop();
        let first = self.numbers.pop();
        let place = self.places.pop();
        let part = counted_part(place, first, length)?;
        self.places.push(part);
        Ok(())
    }

    /// The bytes of the newest place from a first place on become the newest place, or fault 93; fault 90 where that is no integer.
    pub fn part_rest(&mut self) -> Result<(), ProgramFault>
        requires first { 1 ≤ length self.old.numbers.newest_first }
        requires offset { BeginsBelow (2 ^ 32) self.old.places.newest_first }
        requires room { length self.old.places.newest_first ≤ self.old.places.room }
        ensures does { IsStepOf result (scratch_of self.new)
            (spec.rest_step self.old.numbers.newest_first self.old.places.newest_first
            (scratch_of self.old)) }
        ensures keeps { KeepsRoom self.old self.new }
    {
        let first = self.numbers.pop();
        let place = self.places.pop();
        let part = rest_part(place, first)?;
        self.places.push(part);
        Ok(())
    }

    /// A part of the newest place. It takes no memory.
    #[inline(never)]
    pub fn part(&mut self, tables: &DataTables, one: Part) -> Result<(), ProgramFault>
        requires { IsReady tables.now self.old (instructions.Part one) }
        ensures does { IsStepOf result (scratch_of self.new)
            (spec.parted_by tables.now one (scratch_of self.old)) }
        ensures keeps { KeepsRoom self.old self.new }
    {
        match one {
            Part::Fixed { size } => self.part_fixed(tables, size),
            Part::Counted => self.part_counted(),
            Part::Rest => self.part_rest(),
        }
    }
}

/// The integer that a number is, or fault 90.
pub(crate) fn integer_of(number: Option<Dec>) -> Result<i128, ProgramFault>
    ensures { IsEvaluated result (evaluation_of (tree.whole_part number)) }
{
    let Some(number) = number else {
        return Err(ProgramFault::Data);
    };
    number.to_integer().ok_or(ProgramFault::Data)
}

/// A number from 1 to a limit, or fault 93.
pub(crate) fn within(most: usize, number: i128) -> Result<usize, ProgramFault>
    ensures value { IsEvaluated result (words.within most number) }
    ensures least { IfOk result (λ n. 1 ≤ n) }
    ensures greatest { IfOk result (λ n. n ≤ most) }
{
    if number < 1 || number > most as i128 {
        return Err(ProgramFault::Part);
    }
    Ok(number as usize)
}

/// How many first places a part of this length has in so many bytes.
pub(crate) fn first_places(size: u32, length: usize) -> usize
    ensures { result ≡ words.first_places size length }
{
    (size as usize + 1).saturating_sub(length)
}

/// The part that begins at a first place, counted from 1.
fn part_at(place: Place, first: usize, length: u32) -> Place
    requires offset { place.offset < 2 ^ 32 }
    requires least { 1 ≤ first }
    requires greatest { first ≤ 2 ^ 32 }
    ensures { result ≡ words.part_at place first length }
{
    Place {
        item: place.item,
        offset: place.offset + (first - 1),
        length,
    }
}

/// A part that has its item's length, within so many bytes.
fn fixed_part(
    place: Place,
    size: u32,
    length: u32,
    first: Option<Dec>,
) -> Result<Place, ProgramFault>
    requires { place.offset < 2 ^ 32 }
    ensures { IsEvaluated result (words.fixed_part size length first place) }
{
    let first = integer_of(first)?;
    let first = within(first_places(size, length as usize), first)?;
    Ok(part_at(place, first, place.length))
}

/// A part of the bytes of a place, by its first place and its length.
fn counted_part(
    place: Place,
    first: Option<Dec>,
    length: Option<Dec>,
) -> Result<Place, ProgramFault>
    requires { place.offset < 2 ^ 32 }
    ensures { IsEvaluated result (words.counted_part first length place) }
{
    let first = integer_of(first)?;
    let length = integer_of(length)?;
    let first = within(place.length as usize, first)?;
    let length = within(first_places(place.length, first), length)?;
    Ok(part_at(place, first, length as u32))
}

/// The bytes of a place from a first place on.
fn rest_part(place: Place, first: Option<Dec>) -> Result<Place, ProgramFault>
    requires { place.offset < 2 ^ 32 }
    ensures { IsEvaluated result (words.rest_part first place) }
{
    let first = integer_of(first)?;
    let first = within(place.length as usize, first)?;
    Ok(part_at(place, first, first_places(place.length, first) as u32))
}
