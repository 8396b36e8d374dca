//! Instructions that store numbers, and the truth: whether a size error arose.

ghost use Rattle.std.specs.Prelude.{◌≡◌, ◌≤◌, false, length};
ghost use Rattle.data_instructions.specs.Scratch.{Continues};
ghost use Rattle.data_instructions.specs.Table as spec;
ghost use Rattle.data_machine.specs.Data.{scratch_of};
ghost use Rattle.data_machine.specs.Comes.{IsStepOf, KeepsRoom};
ghost use Rattle.data_machine.specs.Finds.{FindsItem};

use crate::data::Data;
use crate::seen::{part_of, seen};
use crate::superinstruction_work::item_of;
use data_instructions::{DataTables, ProgramFault};

impl Data {
    /// `store`: the newest number is stored at the newest place, rounded or cut; where it doesn't fit, or there is none, the
    /// truth is true. Fault 90 where the item there receives no numbers.
    #[inline(never)]
    pub fn store_number(
        &mut self,
        tables: &DataTables,
        rounded: bool,
        keep: bool,
    ) -> Result<(), ProgramFault>
        requires operand { FindsItem tables.now self.old.areas self.old.places.newest_first }
        requires number { 1 ≤ length self.old.numbers.newest_first }
        ensures does { IsStepOf result (scratch_of self.new)
            (spec.at_place tables.now (spec.put_number rounded keep) (scratch_of self.old)) }
        ensures keeps { KeepsRoom self.old self.new }
    {
        let place = self.places.pop();
        let one = item_of(tables, place.item);
        let part = part_of(one, place.length);
        self.give_at(seen(one, &part), place.offset, rounded, keep)
    }

    /// `clear truth`: no size error arose.
    #[inline(always)]
    pub fn clear_truth(&mut self) -> Result<(), ProgramFault>
        ensures does { IsStepOf result (scratch_of self.new)
            (Continues (record (scratch_of self.old) { truth = false })) }
        ensures keeps { KeepsRoom self.old self.new }
    {
        self.truth = false;
        Ok(())
    }

    /// `void if true`: after a size error the newest number is none.
    pub fn void_if_true(&mut self) -> Result<(), ProgramFault>
        requires number { 1 ≤ length self.old.numbers.newest_first }
        requires room { length self.old.numbers.newest_first ≤ self.old.numbers.room }
        ensures does { IsStepOf result (scratch_of self.new)
            (spec.at_number spec.void_step self.old.numbers.newest_first (scratch_of self.old)) }
        ensures keeps { KeepsRoom self.old self.new }
    {
        if self.truth {
            let _ = self.numbers.pop();
            self.numbers.push(None);
        }
        Ok(())
    }
}
