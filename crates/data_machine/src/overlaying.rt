//! Instructions that lay bytes over others, as INITIALIZE and SET do, and that take a place away.

ghost use Rattle.std.specs.Prelude.{◌≡◌, ◌+◌, ◌<◌, ◌≤◌, length, slice_get, slice_range};
ghost use Rattle.source_tree.specs.Initializing.{overlaid};
ghost use Rattle.data_instructions.specs.Scratch.{Continues};
ghost use Rattle.data_instructions.specs.Table as spec;
ghost use Rattle.data_machine.specs.Data.{scratch_of};
ghost use Rattle.data_machine.specs.Comes.{IsStepOf, KeepsRoom};
ghost use Rattle.data_machine.specs.Finds.{FindsItem};
ghost use Rattle.data_machine.specs.Overlays.{byte_over};
ghost use Rattle.data_machine.specs.Writing.{with_part};

use crate::data::Data;
use crate::seen::{part_of, seen};
use crate::superinstruction_work::{item_of, text_of};
use data_instructions::{DataItem, DataTables, ProgramFault, TextIndex};

/// The same in an item at an offset in its area: the other bytes stay.
pub fn overlay_part(one: &DataItem, area: &mut [u8], offset: usize, bytes: &[u8], marks: &[u8])
    requires within { offset + one.now.item.length ≤ length area.old }
    ensures { area.new ≡ with_part area.old offset one.now.item.length (overlaid (spec.pattern_of
        bytes.now marks.now) (slice_range area.old offset (offset + one.now.item.length))) }
{
    let end = offset + one.item.length as usize;
    overlay(bytes, marks, &mut area[offset..end]);
}

/// The byte that comes in the place of another: the one there of `bytes`, but where its mark is 0 the old one.
fn byte_over(bytes: &[u8], marks: &[u8], at: usize, old: u8) -> u8
    ensures { result ≡ byte_over (slice_get (spec.pattern_of bytes.now marks.now) at) old }
{
    if at >= bytes.len() || at >= marks.len() || marks[at] == 0 {
        return old;
    }
    bytes[at]
}

/// Lays bytes over others, where their marks aren't 0. After the last byte or mark nothing changes.
fn overlay(bytes: &[u8], marks: &[u8], to: &mut [u8])
    ensures { to.new ≡ overlaid (spec.pattern_of bytes.now marks.now) to.old }
{
    for at in 0..to.len() {
        to[at] = byte_over(bytes, marks, at, to[at]);
    }
}

impl Data {
    /// `overlay`: bytes of a text are put at the newest place, those that the next text of the table marks.
    #[inline(never)]
    pub fn overlay(&mut self, tables: &DataTables, text: TextIndex) -> Result<(), ProgramFault>
        requires operand { FindsItem tables.now self.old.areas self.old.places.newest_first }
        requires texts { text.number + 1 < length tables.now.texts }
        ensures does { IsStepOf result (scratch_of self.new)
            (spec.overlaid_by tables.now text (scratch_of self.old)) }
        ensures keeps { KeepsRoom self.old self.new }
    {
        let bytes = text_of(tables, text.number as usize);
        let marks = text_of(tables, text.number as usize + 1);
        let place = self.places.pop();
        let one = item_of(tables, place.item);
        let part = part_of(one, place.length);
        self.areas
            .overlay(seen(one, &part), place.offset, bytes, marks);
        Ok(())
    }

    /// `drop place`: without the newest place.
    pub fn drop_place(&mut self, _tables: &DataTables) -> Result<(), ProgramFault>
        requires { FindsItem _tables.now self.old.areas self.old.places.newest_first }
        ensures does { IsStepOf result (scratch_of self.new)
            (spec.at_place _tables.now (λ place t. Continues t) (scratch_of self.old)) }
        ensures keeps { KeepsRoom self.old self.new }
    {
        let _ = self.places.pop();
        Ok(())
    }
}
