//! INSPECT CONVERTING (COBOL-85, Nucleus, "The INSPECT statement").

ghost use Rattle.std.specs.Prelude.{◌≡◌, ◌+◌, ◌≤◌, length, map, reverse, slice_range};
ghost use Rattle.text_ops.specs.Entries.{AreWithin};
ghost use Rattle.text_ops.specs.Convert.{converted_subject};
ghost use Rattle.source_tree.specs.References.{part_of as bytes_at, storage_with};
ghost use Rattle.data_instructions.specs.Table as spec;
ghost use Rattle.data_instructions.specs.Tables.{item_place, IsInspection};
ghost use Rattle.data_instructions.specs.declared.instruction.DataInstruction.TheVariants as instructions;
ghost use Rattle.data_machine.specs.Data.{scratch_of};
ghost use Rattle.data_machine.specs.Comes.{IsStepOf, KeepsRoom};
ghost use Rattle.data_machine.specs.Finds.{IsAtOffset, FindsItem};
ghost use Rattle.data_machine.specs.Ready.{IsReady};
ghost use Rattle.data_machine.specs.Writing.{with_part};

use crate::areas::Areas;
use crate::data::Data;
use crate::measuring::{measure, measured};
use crate::seen::{part_of, seen};
use crate::superinstruction_work::item_of;
use data_instructions::{DataItem, DataTables, Inspection, InspectionIndex, ProgramFault};
use decimal18::Dec;
use text_ops::{Entry, convert};

/// Converts the characters of an item at an offset in its area. The entries' texts are spans of `texts`. The other bytes stay.
pub fn convert_part(one: &DataItem, area: &mut [u8], offset: usize, texts: &[u8], entries: &[Entry])
    requires within { offset + one.now.item.length ≤ length area.old }
    requires entries { AreWithin entries.now (length texts.now) }
    ensures { area.new ≡ with_part area.old offset one.now.item.length (converted_subject texts.now
        entries.now (slice_range area.old offset (offset + one.now.item.length))) }
{
    let end = offset + one.item.length as usize;
    convert(texts, entries, &mut area[offset..end]);
}

/// Converts the characters of an item at an offset by an inspection, with the lengths that numbers have. The room is for its
/// entries.
#[inline(always)]
fn convert_item(
    areas: &mut Areas,
    to: &DataItem,
    offset: usize,
    texts: &[u8],
    one: &Inspection,
    numbers: &[Option<Dec>],
    room: &mut [Entry],
)
    requires form { IsInspection one.now }
    requires item { IsAtOffset to.now areas.old offset }
    requires size { length texts.now ≡ one.now.size }
    requires entries { length one.now.replacing ≤ length room.old }
    ensures stores { areas.new ≡ storage_with (item_place to.now offset) (converted_subject
        texts.now (spec.measured_inspection (reverse numbers.now) one.now).replacing
        (bytes_at areas.old (item_place to.now offset))) areas.old }
    ensures lengths { map length areas.new ≡ map length areas.old }
    ensures room { length room.new ≡ length room.old }
{
    let entries = one.replacing.as_slice();
    measure(numbers, entries, room);
    areas.convert(to, offset, texts, measured(numbers, entries, room));
}

impl Data {
    /// A conversion at the newest place: takes so many numbers, and converts with the texts in the line, cut or padded with spaces to
    /// their size, and with the lengths that the numbers have.
    fn convert_by(
        &mut self,
        tables: &DataTables,
        one: &Inspection,
        numbers: usize,
    ) -> Result<(), ProgramFault>
        requires form { IsInspection one.now }
        requires operand { FindsItem tables.now self.old.areas self.old.places.newest_first }
        requires numbers { numbers ≤ length self.old.numbers.newest_first }
        requires line { one.now.size ≤ self.old.line.room }
        requires entries { length one.now.replacing ≤ length self.old.inspecting.entries.items }
        ensures does { IsStepOf result (scratch_of self.new)
            (spec.at_numbers numbers (λ found. spec.at_place tables.now
            (spec.converted_at (spec.measured_inspection found one.now))) (scratch_of self.old)) }
        ensures keeps { KeepsRoom self.old self.new }
    {
        let place = self.places.pop();
        let to = item_of(tables, place.item);
        let part = part_of(to, place.length);
        self.convert_at(seen(to, &part), place.offset, one, numbers)
    }

    /// The same with an item at an offset.
    #[inline(always)]
    fn convert_at(
        &mut self,
        to: &DataItem,
        offset: usize,
        one: &Inspection,
        numbers: usize,
    ) -> Result<(), ProgramFault>
        requires form { IsInspection one.now }
        requires item { IsAtOffset to.now self.old.areas offset }
        requires numbers { numbers ≤ length self.old.numbers.newest_first }
        requires line { one.now.size ≤ self.old.line.room }
        requires entries { length one.now.replacing ≤ length self.old.inspecting.entries.items }
        ensures does { IsStepOf result (scratch_of self.new)
            (spec.at_numbers numbers (λ found. spec.converted_at (spec.measured_inspection found
            one.now) (item_place to.now offset)) (scratch_of self.old)) }
        ensures keeps { KeepsRoom self.old self.new }
    {
        self.line.fit(one.size as usize);
        let found = self.numbers.newest(numbers);
        let room = self.inspecting.entries.as_mut_slice();
        convert_item(
            &mut self.areas,
            to,
            offset,
            self.line.bytes(),
            one,
            found,
            room,
        );
        self.numbers.leave(numbers);
        self.line.clear();
        Ok(())
    }

    /// `convert`: by the inspection that is named. It takes no memory.
    #[inline(never)]
    pub fn convert(
        &mut self,
        tables: &DataTables,
        inspection: InspectionIndex,
    ) -> Result<(), ProgramFault>
        requires { IsReady tables.now self.old (instructions.Convert inspection) }
        ensures does { IsStepOf result (scratch_of self.new)
            (spec.converted_by tables.now inspection (scratch_of self.old)) }
        ensures keeps { KeepsRoom self.old self.new }
    {
        let one = &tables.inspections.as_slice()[inspection.number as usize];
        self.convert_by(tables, one, 0)
    }

    /// `convert measured`: the same with so many numbers. It takes no memory.
    #[inline(never)]
    pub fn convert_measured(
        &mut self,
        tables: &DataTables,
        inspection: InspectionIndex,
        numbers: u32,
    ) -> Result<(), ProgramFault>
        requires { IsReady tables.now self.old (instructions.ConvertMeasured inspection numbers) }
        ensures does { IsStepOf result (scratch_of self.new)
            (spec.converted_measured tables.now inspection numbers (scratch_of self.old)) }
        ensures keeps { KeepsRoom self.old self.new }
    {
        let one = &tables.inspections.as_slice()[inspection.number as usize];
        self.convert_by(tables, one, numbers as usize)
    }
}
