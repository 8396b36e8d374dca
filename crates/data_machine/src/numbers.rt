//! Instructions on the stack of numbers.

ghost use Rattle.std.specs.Prelude.{◌≡◌, ◌+◌, ◌*◌, ◌<◌, ◌≤◌, ◌^◌, length, slice_get, Some};
ghost use Rattle.items.specs.Items.{IsOfLength, number_in};
ghost use Rattle.data_instructions.specs.Scratch.{step_at};
ghost use Rattle.data_instructions.specs.Table as spec;
ghost use Rattle.data_machine.specs.Data.{scratch_of};
ghost use Rattle.data_machine.specs.Comes.{IsStepOf, KeepsRoom};
ghost use Rattle.data_machine.specs.Finds.{FindsItem};
ghost use Rattle.data_machine.specs.Subscripts.{IsEvaluated, ReachesWithin};

use crate::data::Data;
use crate::parts::integer_of;
use crate::seen::{part_of, seen};
use crate::superinstruction_work::{constant_of, item_of};
use data_instructions::{DataTables, NumberIndex, ProgramFault};
use decimal18::Dec;
use items::{Kind, number};

/// The number in an item's bytes, if they hold one.
#[inline(always)]
pub fn number_in(kind: Kind, bytes: &[u8]) -> Option<Dec>
    requires { IsOfLength kind (length bytes.now) }
    ensures { result ≡ number_in kind bytes.now }
{
    match kind {
        Kind::Numeric(numeric) => number(numeric, bytes),
        _ => None,
    }
}

/// The bytes before the occurrence that a subscript names (COBOL-85, Nucleus, "Subscripting"). Occurrences count from 1.
pub(crate) fn bytes_before(
    subscript: Option<Dec>,
    stride: u32,
    count: u32,
) -> Result<usize, ProgramFault>
    ensures { IsEvaluated result
        (spec.bytes_before (record { stride = stride; count = count }) subscript) }
{
    let integer = integer_of(subscript)?;
    if integer < 1 || integer > i128::from(count) {
        return Err(ProgramFault::Subscript);
    }
    Ok((integer as usize - 1) * stride as usize)
}

impl Data {
    /// `literal`: a number of the table.
    pub fn literal(&mut self, tables: &DataTables, literal: NumberIndex) -> Result<(), ProgramFault>
        requires literal { literal.number < length tables.now.numbers }
        requires room { length self.old.numbers.newest_first < self.old.numbers.room }
        ensures does { IsStepOf result (scratch_of self.new) (step_at (slice_get tables.now.numbers
            literal.number) (λ x. spec.push_step (Some x) (scratch_of self.old))) }
        ensures keeps { KeepsRoom self.old self.new }
    {
        let number = constant_of(tables, literal);
        self.numbers.push(Some(*number));
        Ok(())
    }

    /// `push`: the number at the newest place, or fault 90.
    #[inline(never)]
    pub fn push(&mut self, tables: &DataTables) -> Result<(), ProgramFault>
        requires operand { FindsItem tables.now self.old.areas self.old.places.newest_first }
        requires room { length self.old.numbers.newest_first < self.old.numbers.room }
        ensures does { IsStepOf result (scratch_of self.new)
            (spec.at_place tables.now spec.read_step (scratch_of self.old)) }
        ensures keeps { KeepsRoom self.old self.new }
    {
        let place = self.places.pop();
        let one = item_of(tables, place.item);
        let part = part_of(one, place.length);
        self.push_at(seen(one, &part), place.offset)
    }

    /// `index`: the newest place becomes that of the occurrence which the newest number names, or fault 91; fault 90 where
    /// that is no integer.
    #[inline(never)]
    pub fn index(&mut self, stride: u32, count: u32) -> Result<(), ProgramFault>
        requires subscript { 1 ≤ length self.old.numbers.newest_first }
        requires place { ReachesWithin (2 ^ 64) stride count self.old.places.newest_first }
        requires room { length self.old.places.newest_first ≤ self.old.places.room }
        ensures does { IsStepOf result
            (scratch_of self.new) (spec.index_step (record { stride = stride; count = count })
            self.old.numbers.newest_first self.old.places.newest_first (scratch_of self.old)) }
        ensures keeps { KeepsRoom self.old self.new }
    {
        let subscript = self.numbers.pop();
        let mut place = self.places.pop();
        place.offset += bytes_before(subscript, stride, count)?;
        self.places.push(place);
        Ok(())
    }
}
