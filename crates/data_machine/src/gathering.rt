//! Instructions that add texts to the line, as STRING does with its senders.

ghost use Rattle.std.specs.Prelude.{◌≡◌, ◌+◌, ◌<◌, ◌≤◌, length, Some};
ghost use Rattle.items.specs.Items.{HasLengthOf};
ghost use Rattle.items.specs.Texts.{padded_text};
ghost use Rattle.text_ops.specs.Strings.{delimited_characters};
ghost use Rattle.source_tree.specs.Inspecting.{text_at};
ghost use Rattle.source_tree.specs.References.{part_of as bytes_at};
ghost use Rattle.data_instructions.specs.Scratch.{step_at};
ghost use Rattle.data_instructions.specs.Table as spec;
ghost use Rattle.data_instructions.specs.Tables.{item_place};
ghost use Rattle.data_instructions.specs.declared.gather.Gather.TheVariants as gathers;
ghost use Rattle.data_instructions.specs.declared.instruction.DataInstruction.TheVariants as instructions;
ghost use Rattle.data_machine.specs.Data.{scratch_of};
ghost use Rattle.data_machine.specs.Comes.{IsStepOf, KeepsRoom};
ghost use Rattle.data_machine.specs.Finds.{IsAtOffset, FindsItem, FindsNext};
ghost use Rattle.data_machine.specs.Lines.{HasPartRoom, HasTextRoom, HasWholeRoom};
ghost use Rattle.data_machine.specs.Ready.{IsReady};

use crate::data::Data;
use crate::seen::{part_of, seen};
use crate::superinstruction_work::{item_of, text_of};
use data_instructions::{DataItem, DataTables, Gather, ProgramFault, TextIndex};
use decimal18::Dec;
use text_ops::delimited;

impl Data {
    /// The bytes of an item at an offset are added to the line.
    #[inline]
    fn gather_at(&mut self, one: &DataItem, offset: usize) -> Result<(), ProgramFault>
        requires item { IsAtOffset one.now self.old.areas offset }
        requires room { length self.old.line.bytes + one.now.item.length ≤ self.old.line.room }
        ensures does { IsStepOf result (scratch_of self.new) (spec.append_step
            (bytes_at self.old.areas (item_place one.now offset)) (scratch_of self.old)) }
        ensures keeps { KeepsRoom self.old self.new }
    {
        self.line.append(self.areas.bytes(one, offset));
        Ok(())
    }

    /// The same up to a delimiter.
    #[inline]
    fn gather_up_to_at(
        &mut self,
        one: &DataItem,
        offset: usize,
        delimiter: &[u8],
    ) -> Result<(), ProgramFault>
        requires item { IsAtOffset one.now self.old.areas offset }
        requires room { length self.old.line.bytes + one.now.item.length ≤ self.old.line.room }
        ensures does { IsStepOf result (scratch_of self.new)
            (spec.append_step (delimited_characters delimiter.now
            (bytes_at self.old.areas (item_place one.now offset))) (scratch_of self.old)) }
        ensures keeps { KeepsRoom self.old self.new }
    {
        let bytes = self.areas.bytes(one, offset);
        self.line.append(up_to(delimiter, bytes));
        Ok(())
    }

    /// The same up to the bytes of another item.
    #[inline]
    fn gather_between(
        &mut self,
        one: &DataItem,
        offset: usize,
        other: &DataItem,
        behind: usize,
    ) -> Result<(), ProgramFault>
        requires item { IsAtOffset one.now self.old.areas offset }
        requires delimiter { IsAtOffset other.now self.old.areas behind }
        requires room { length self.old.line.bytes + one.now.item.length ≤ self.old.line.room }
        ensures does { IsStepOf result (scratch_of self.new)
            (spec.append_step (delimited_characters
            (bytes_at self.old.areas (item_place other.now behind))
            (bytes_at self.old.areas (item_place one.now offset))) (scratch_of self.old)) }
        ensures keeps { KeepsRoom self.old self.new }
    {
        let delimiter = self.areas.bytes(other, behind);
        let bytes = self.areas.bytes(one, offset);
        self.line.append(up_to(delimiter, bytes));
        Ok(())
    }

    /// A text up to the bytes of an item at an offset is added to the line.
    #[inline]
    fn gather_before(
        &mut self,
        text: &[u8],
        one: &DataItem,
        offset: usize,
    ) -> Result<(), ProgramFault>
        requires item { IsAtOffset one.now self.old.areas offset }
        requires room { length self.old.line.bytes + length text.now ≤ self.old.line.room }
        ensures does { IsStepOf result (scratch_of self.new) (spec.append_step (delimited_characters
            (bytes_at self.old.areas (item_place one.now offset)) text.now) (scratch_of self.old)) }
        ensures keeps { KeepsRoom self.old self.new }
    {
        let delimiter = self.areas.bytes(one, offset);
        self.line.append(up_to(delimiter, text));
        Ok(())
    }

    /// The bytes of an item at an offset are added to the line, as many as the item has.
    #[inline]
    fn gather_sized_at(&mut self, one: &DataItem, offset: usize) -> Result<(), ProgramFault>
        requires item { IsAtOffset one.now self.old.areas offset }
        requires room { length self.old.line.bytes + one.now.item.length ≤ self.old.line.room }
        ensures does { IsStepOf result (scratch_of self.new) (spec.append_step
            (text_at self.old.areas (item_place one.now offset)) (scratch_of self.old)) }
        ensures keeps { KeepsRoom self.old self.new }
    {
        self.line.append(sized(one, self.areas.bytes(one, offset)));
        Ok(())
    }

    /// `gather bytes`: those at the newest place.
    pub fn gather_bytes(&mut self, tables: &DataTables) -> Result<(), ProgramFault>
        requires operand { FindsItem tables.now self.old.areas self.old.places.newest_first }
        requires room { HasPartRoom tables.now self.old.places.newest_first
            (length self.old.line.bytes) self.old.line.room }
        ensures does { IsStepOf result (scratch_of self.new)
            (spec.gather_step tables.now gathers.Bytes (scratch_of self.old)) }
        ensures keeps { KeepsRoom self.old self.new }
    {
        let place = self.places.pop();
        let one = item_of(tables, place.item);
        let part = part_of(one, place.length);
        self.gather_at(seen(one, &part), place.offset)
    }

    /// `gather up to place`: the bytes at the newest place, up to those at the next one, which stays.
    pub fn gather_up_to_place(&mut self, tables: &DataTables) -> Result<(), ProgramFault>
        requires operand { FindsItem tables.now self.old.areas self.old.places.newest_first }
        requires delimiter { FindsNext tables.now self.old.areas self.old.places.newest_first }
        requires places { length self.old.places.newest_first ≤ self.old.places.room }
        requires room { HasPartRoom tables.now self.old.places.newest_first
            (length self.old.line.bytes) self.old.line.room }
        ensures does { IsStepOf result (scratch_of self.new)
            (spec.gather_step tables.now gathers.UpToPlace (scratch_of self.old)) }
        ensures keeps { KeepsRoom self.old self.new }
    {
        let place = self.places.pop();
        let one = item_of(tables, place.item);
        let part = part_of(one, place.length);
        self.gather_up_to_next(tables, seen(one, &part), place.offset)
    }

    /// The bytes of an item at an offset, up to those at the newest place, which stays.
    #[inline(always)]
    fn gather_up_to_next(
        &mut self,
        tables: &DataTables,
        one: &DataItem,
        offset: usize,
    ) -> Result<(), ProgramFault>
        requires item { IsAtOffset one.now self.old.areas offset }
        requires delimiter { FindsItem tables.now self.old.areas self.old.places.newest_first }
        requires room { length self.old.line.bytes + one.now.item.length ≤ self.old.line.room }
        ensures does { IsStepOf result (scratch_of self.new) (step_at (spec.newest_place tables.now
            self.old.places.newest_first) (λ next. spec.append_step (delimited_characters
            (bytes_at self.old.areas next) (bytes_at self.old.areas (item_place one.now offset)))
            (scratch_of self.old))) }
        ensures keeps { KeepsRoom self.old self.new }
    {
        let next = self.places.below(0);
        let other = item_of(tables, next.item);
        let part = part_of(other, next.length);
        self.gather_between(one, offset, seen(other, &part), next.offset)
    }

    /// `gather up to text`: the bytes at the newest place, up to a text of the table.
    pub fn gather_up_to_text(
        &mut self,
        tables: &DataTables,
        delimiter: TextIndex,
    ) -> Result<(), ProgramFault>
        requires operand { FindsItem tables.now self.old.areas self.old.places.newest_first }
        requires delimiter { delimiter.number < length tables.now.texts }
        requires room { HasPartRoom tables.now self.old.places.newest_first
            (length self.old.line.bytes) self.old.line.room }
        ensures does { IsStepOf result (scratch_of self.new)
            (spec.gather_step tables.now (gathers.UpToText delimiter) (scratch_of self.old)) }
        ensures keeps { KeepsRoom self.old self.new }
    {
        let delimiter = text_of(tables, delimiter.number as usize);
        let place = self.places.pop();
        let one = item_of(tables, place.item);
        let part = part_of(one, place.length);
        self.gather_up_to_at(seen(one, &part), place.offset, delimiter)
    }

    /// `gather text up to place`: a text of the table, up to the bytes at the newest place, which stays.
    pub fn gather_text(&mut self, tables: &DataTables, text: TextIndex) -> Result<(), ProgramFault>
        requires delimiter { FindsItem tables.now self.old.areas self.old.places.newest_first }
        requires text { text.number < length tables.now.texts }
        requires places { length self.old.places.newest_first ≤ self.old.places.room }
        requires room { HasTextRoom tables.now text (length self.old.line.bytes)
            self.old.line.room }
        ensures does { IsStepOf result (scratch_of self.new)
            (spec.gather_step tables.now (gathers.TextUpToPlace text) (scratch_of self.old)) }
        ensures keeps { KeepsRoom self.old self.new }
    {
        let bytes = text_of(tables, text.number as usize);
        let next = self.places.below(0);
        let other = item_of(tables, next.item);
        let part = part_of(other, next.length);
        self.gather_before(bytes, seen(other, &part), next.offset)
    }

    /// `gather sized`: the bytes at the newest place, as many as its item has.
    pub fn gather_sized(&mut self, tables: &DataTables) -> Result<(), ProgramFault>
        requires operand { FindsItem tables.now self.old.areas self.old.places.newest_first }
        requires room { HasPartRoom tables.now self.old.places.newest_first
            (length self.old.line.bytes) self.old.line.room }
        ensures does { IsStepOf result (scratch_of self.new)
            (spec.gather_step tables.now gathers.Sized (scratch_of self.old)) }
        ensures keeps { KeepsRoom self.old self.new }
    {
        let place = self.places.pop();
        let one = item_of(tables, place.item);
        let part = part_of(one, place.length);
        self.gather_sized_at(seen(one, &part), place.offset)
    }

    /// `gather measured`: the bytes at the newest place, padded to the size of its item in the table, and where in the line they
    /// begin and how many they are.
    pub fn gather_measured(&mut self, tables: &DataTables) -> Result<(), ProgramFault>
        requires operand { FindsItem tables.now self.old.areas self.old.places.newest_first }
        requires line { HasWholeRoom tables.now self.old.places.newest_first
            (length self.old.line.bytes) self.old.line.room }
        requires numbers { length self.old.numbers.newest_first + 2 ≤ self.old.numbers.room }
        ensures does { IsStepOf result (scratch_of self.new)
            (spec.gather_step tables.now gathers.Measured (scratch_of self.old)) }
        ensures keeps { KeepsRoom self.old self.new }
    {
        let place = self.places.pop();
        let one = item_of(tables, place.item);
        let part = part_of(one, place.length);
        self.gather_measured_at(seen(one, &part), place.offset, one.item.length)
    }

    /// The same with an item at an offset and this size.
    #[inline(always)]
    fn gather_measured_at(
        &mut self,
        one: &DataItem,
        offset: usize,
        size: u32,
    ) -> Result<(), ProgramFault>
        requires item { IsAtOffset one.now self.old.areas offset }
        requires short { one.now.item.length ≤ size }
        requires line { length self.old.line.bytes + size ≤ self.old.line.room }
        requires numbers { length self.old.numbers.newest_first + 2 ≤ self.old.numbers.room }
        ensures does { IsStepOf result (scratch_of self.new)
            (spec.append_measured size (item_place one.now offset) (scratch_of self.old)) }
        ensures keeps { KeepsRoom self.old self.new }
    {
        let start = self.line.bytes().len();
        let end = start + size as usize;
        self.line.append(sized(one, self.areas.bytes(one, offset)));
        self.line.fit(end);
        self.numbers.push(Some(whole(start)));
        self.numbers.push(Some(whole(one.item.length as usize)));
        Ok(())
    }

    /// What is added to the line. It takes no memory.
    #[inline(never)]
    pub fn gather(&mut self, tables: &DataTables, one: Gather) -> Result<(), ProgramFault>
        requires { IsReady tables.now self.old (instructions.Gather one) }
        ensures does { IsStepOf result (scratch_of self.new)
            (spec.gather_step tables.now one (scratch_of self.old)) }
        ensures keeps { KeepsRoom self.old self.new }
    {
        match one {
            Gather::Bytes => self.gather_bytes(tables),
            Gather::UpToPlace => self.gather_up_to_place(tables),
            Gather::UpToText { delimiter } => self.gather_up_to_text(tables, delimiter),
            Gather::TextUpToPlace { text } => self.gather_text(tables, text),
            Gather::Sized => self.gather_sized(tables),
            Gather::Measured => self.gather_measured(tables),
        }
    }
}

/// A number without decimals.
fn whole(number: usize) -> Dec
    ensures { Some result ≡ spec.number_of number }
{
    Dec::new(number as i128, 0)
}

/// A text up to its delimiter, all of it where that isn't there.
#[tactic(auto, using(crate::proofs::Gathers::delimited_long))]
fn up_to<'a>(delimiter: &[u8], text: &'a [u8]) -> &'a [u8]
    ensures value { result.now ≡ delimited_characters delimiter.now text.now }
    ensures long { length result.now ≤ length text.now }
{
    delimited(delimiter, text)
}

/// Bytes of an item, as many as it has.
#[tactic(auto, using(crate::proofs::Gathers::sized_whole))]
fn sized<'a>(one: &DataItem, bytes: &'a [u8]) -> &'a [u8]
    requires { HasLengthOf one.now.item bytes.now }
    ensures value { result.now ≡ padded_text one.now.item.length bytes.now }
    ensures long { length result.now ≡ one.now.item.length }
{
    bytes
}
