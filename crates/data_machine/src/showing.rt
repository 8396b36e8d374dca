//! Instructions on the line, and on what a run is given.

ghost use Rattle.std.specs.Prelude.{◌≡◌, ◌<◌, length, slice_get};
ghost use Rattle.data_instructions.specs.Scratch.{step_at};
ghost use Rattle.data_instructions.specs.Table as spec;
ghost use Rattle.data_machine.specs.Data.{scratch_of};
ghost use Rattle.data_machine.specs.Comes.{IsStepOf, KeepsRoom};
ghost use Rattle.data_machine.specs.Finds.{FindsItem};
ghost use Rattle.data_machine.specs.Lines.{HasLineRoom, HasTextRoom};

use crate::data::Data;
use crate::seen::{part_of, seen};
use crate::superinstruction_work::{item_of, text_of};
use data_instructions::{DataTables, ProgramFault, TextIndex};

impl Data {
    /// `append`: what DISPLAY shows of the newest place is added to the line, or fault 90.
    #[inline(never)]
    pub fn append(&mut self, tables: &DataTables) -> Result<(), ProgramFault>
        requires operand { FindsItem tables.now self.old.areas self.old.places.newest_first }
        requires room { HasLineRoom tables.now self.old.places.newest_first
            (length self.old.line.bytes) self.old.line.room }
        ensures does { IsStepOf result (scratch_of self.new)
            (spec.at_place tables.now spec.shown_at (scratch_of self.old)) }
        ensures keeps { KeepsRoom self.old self.new }
    {
        let place = self.places.pop();
        let one = item_of(tables, place.item);
        let part = part_of(one, place.length);
        self.append_at(seen(one, &part), place.offset)
    }

    /// `append` of a text of the table.
    #[inline(never)]
    pub fn append_literal(
        &mut self,
        tables: &DataTables,
        text: TextIndex,
    ) -> Result<(), ProgramFault>
        requires text { text.number < length tables.now.texts }
        requires room { HasTextRoom tables.now text (length self.old.line.bytes)
            self.old.line.room }
        ensures does { IsStepOf result (scratch_of self.new) (step_at (slice_get tables.now.texts
            text.number) (λ bytes. spec.append_step bytes (scratch_of self.old))) }
        ensures keeps { KeepsRoom self.old self.new }
    {
        let bytes = text_of(tables, text.number as usize);
        self.line.append(bytes);
        Ok(())
    }

    /// The line is empty, after it was shown.
    pub fn end_line(&mut self)
        ensures does { scratch_of self.new ≡ spec.after_showing (scratch_of self.old) }
        ensures keeps { KeepsRoom self.old self.new }
    {
        self.line.clear();
    }
}
