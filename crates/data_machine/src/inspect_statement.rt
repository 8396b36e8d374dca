//! INSPECT (COBOL-85, Nucleus, "The INSPECT statement").

ghost use Rattle.std.specs.Prelude.{◌≡◌, ◌+◌, ◌≤◌, ◌<◌, ◌^◌, length, map, slice_get, slice_index, Some};
ghost use Rattle.source_tree.specs.Inspecting as meaning;
ghost use Rattle.source_tree.specs.InspectLayout as layout;
ghost use Rattle.data_instructions.specs.Table as spec;
ghost use Rattle.data_instructions.specs.Tables.{item_place, shortened_item, total_length, IsInspection};
ghost use Rattle.data_instructions.specs.declared.instruction.DataInstruction.TheVariants as instructions;
ghost use Rattle.data_machine.specs.Data.{scratch_of};
ghost use Rattle.data_machine.specs.Comes.{IsStepOf, KeepsRoom};
ghost use Rattle.data_machine.specs.Finds.{HasItemRoom, IsItemAt, IsAtOffset};
ghost use Rattle.data_machine.specs.Inspecting.{there, stored_by, added_and_stored, StandEach, FindsPlaces, IsAddedStorage};
ghost use Rattle.data_machine.specs.Ready.{IsReady};

use crate::areas::Areas;
use crate::calculating::operate;
use crate::data::Data;
use crate::numbers::number_in;
use crate::seen::{part_of, seen};
use crate::superinstruction_work::item_of;
use data_instructions::{DataItem, DataTables, Inspection, InspectionIndex, Place, ProgramFault};
use decimal18::Dec;
use source_tree::Operator;
use text_ops::Entry;

impl Data {
    /// An inspection: takes so many numbers, and counts and replaces with the texts in the line, cut or padded with spaces to their size, and
    /// with the lengths that the numbers have; adds to the counters, whose places are the newest, and stores the text at the place below them.
    /// Fault 90 where a counter holds no number.
    fn inspect_by(
        &mut self,
        tables: &DataTables,
        one: &Inspection,
        numbers: usize,
    ) -> Result<(), ProgramFault>
        requires form { IsInspection one.now }
        requires places { FindsPlaces tables.now self.old.areas (length one.now.counters)
            self.old.places.newest_first }
        requires numbers { numbers ≤ length self.old.numbers.newest_first }
        requires line { one.now.size ≤ self.old.line.room }
        requires tallied { length one.now.tallying ≤ length self.old.inspecting.entries.items }
        requires replaced { length one.now.replacing ≤ length self.old.inspecting.entries.items }
        requires tallying { length one.now.tallying ≤ length self.old.inspecting.progress.items }
        requires replacing { length one.now.replacing ≤ length self.old.inspecting.progress.items }
        requires counts { length one.now.tallying ≤ length self.old.inspecting.counts.items }
        requires text { HasItemRoom tables.now self.old.inspecting.text.room }
        ensures does { IsStepOf result (scratch_of self.new)
            (spec.at_numbers numbers (λ found. spec.inspected_with tables.now
            (spec.measured_inspection found one.now)) (scratch_of self.old)) }
        ensures keeps { KeepsRoom self.old self.new }
    {
        let subject = self.places.below(one.counters.len());
        let to = item_of(tables, subject.item);
        let part = part_of(to, subject.length);
        self.inspect_at(tables, one, numbers, subject, to, seen(to, &part))
    }

    /// The same with the place below those of the counters, its item in the table, and that item as the place shows it.
    #[inline(always)]
    fn inspect_at(
        &mut self,
        tables: &DataTables,
        one: &Inspection,
        numbers: usize,
        subject: Place,
        whole: &DataItem,
        to: &DataItem,
    ) -> Result<(), ProgramFault>
        requires form { IsInspection one.now }
        requires places { FindsPlaces tables.now self.old.areas (length one.now.counters)
            self.old.places.newest_first }
        requires subject { slice_get self.old.places.newest_first (length one.now.counters)
            ≡ Some subject }
        requires whole { slice_get tables.now.items subject.item.number ≡ Some whole.now }
        requires seen { to.now ≡ shortened_item whole.now subject.length }
        requires item { IsAtOffset to.now self.old.areas subject.offset }
        requires numbers { numbers ≤ length self.old.numbers.newest_first }
        requires line { one.now.size ≤ self.old.line.room }
        requires tallied { length one.now.tallying ≤ length self.old.inspecting.entries.items }
        requires replaced { length one.now.replacing ≤ length self.old.inspecting.entries.items }
        requires tallying { length one.now.tallying ≤ length self.old.inspecting.progress.items }
        requires replacing { length one.now.replacing ≤ length self.old.inspecting.progress.items }
        requires counts { length one.now.tallying ≤ length self.old.inspecting.counts.items }
        requires text { to.now.item.length ≤ self.old.inspecting.text.room }
        ensures does { IsStepOf result (scratch_of self.new)
            (spec.at_numbers numbers (λ found. spec.inspected_with tables.now
            (spec.measured_inspection found one.now)) (scratch_of self.old)) }
        ensures keeps { KeepsRoom self.old self.new }
    {
        self.line.fit(one.size as usize);
        let found = self.numbers.newest(numbers);
        let bytes = self.areas.bytes(to, subject.offset);
        self.inspecting
            .inspect(one, found, self.line.bytes(), bytes);
        self.numbers.leave(numbers);
        self.line.clear();
        let places = self.places.newest(one.counters.len());
        let counts = self.inspecting.counts.as_slice();
        let text = self.inspecting.text.bytes();
        let inspected = InspectionResult { counts, text };
        let areas = &mut self.areas;
        let done = add_and_store(areas, tables, one, places, to, subject.offset, inspected);
        self.places.leave(one.counters.len() + 1);
        done
    }

    /// `inspect`: the inspection that is named. It takes no memory.
    #[inline(never)]
    pub fn inspect(
        &mut self,
        tables: &DataTables,
        inspection: InspectionIndex,
    ) -> Result<(), ProgramFault>
        requires { IsReady tables.now self.old (instructions.Inspect inspection) }
        ensures does { IsStepOf result (scratch_of self.new)
            (spec.inspected_by tables.now inspection (scratch_of self.old)) }
        ensures keeps { KeepsRoom self.old self.new }
    {
        let one = &tables.inspections.as_slice()[inspection.number as usize];
        self.inspect_by(tables, one, 0)
    }

    /// `inspect measured`: the same with so many numbers. It takes no memory.
    #[inline(never)]
    pub fn inspect_measured(
        &mut self,
        tables: &DataTables,
        inspection: InspectionIndex,
        numbers: u32,
    ) -> Result<(), ProgramFault>
        requires { IsReady tables.now self.old (instructions.InspectMeasured inspection numbers) }
        ensures does { IsStepOf result (scratch_of self.new)
            (spec.inspected_measured tables.now inspection numbers (scratch_of self.old)) }
        ensures keeps { KeepsRoom self.old self.new }
    {
        let one = &tables.inspections.as_slice()[inspection.number as usize];
        self.inspect_by(tables, one, numbers as usize)
    }
}

/// What an inspection finds before it stores: how often each entry of TALLYING fits, and the replaced text.
#[derive(Clone, Copy)]
struct InspectionResult<'a> {
    counts: &'a [u64],
    text: &'a [u8],
}

/// How often so many entries fit together, from one on.
fn fits_together(counts: &[u64], from: usize, entries: u32) -> u128
    requires { from + entries ≤ length counts.now }
    ensures value { result ≡ layout.fits_together (slice_index counts.now) from entries }
    ensures small { result < 2 ^ 96 }
{
    let mut fits: u128 = 0;
    for number in 0..entries {
        fits += u128::from(counts[from + number as usize]);
    }
    fits
}

/// Adds to a counter that stands at an offset, cut to its size. Fault 90 where it holds no number.
fn add_fits(
    areas: &mut Areas,
    one: &DataItem,
    offset: usize,
    counts: &[u64],
    from: usize,
    entries: u32,
) -> Result<(), ProgramFault>
    requires stands { IsAtOffset one.now areas.old offset }
    requires counts { from + entries ≤ length counts.now }
    ensures adds { IsAddedStorage result areas.new (meaning.add_fits (item_place one.now offset)
        (layout.fits_together (slice_index counts.now) from entries) areas.old) }
    ensures lengths { map length areas.new ≡ map length areas.old }
{
    let old = number_in(one.item.kind, areas.bytes(one, offset)).ok_or(ProgramFault::Data)?;
    let fits = Dec::new(fits_together(counts, from, entries) as i128, 0);
    let new = operate(Operator::Add, Some(old), Some(fits));
    let _ = areas.store(one, offset, new, false, false)?;
    Ok(())
}

/// The same to the counter at a place.
fn add_at(
    areas: &mut Areas,
    tables: &DataTables,
    place: Place,
    counts: &[u64],
    from: usize,
    entries: u32,
) -> Result<(), ProgramFault>
    requires stands { IsItemAt tables.now areas.old place }
    requires counts { from + entries ≤ length counts.now }
    ensures adds { IsAddedStorage result areas.new (meaning.add_fits (there tables.now place)
        (layout.fits_together (slice_index counts.now) from entries) areas.old) }
    ensures lengths { map length areas.new ≡ map length areas.old }
{
    let one = item_of(tables, place.item);
    let part = part_of(one, place.length);
    add_fits(areas, seen(one, &part), place.offset, counts, from, entries)
}

/// Adds to each counter in turn: so many entries are the first one's, and so on.
fn add_each(
    areas: &mut Areas,
    tables: &DataTables,
    places: &[Place],
    counters: &[u32],
    counts: &[u64],
) -> Result<(), ProgramFault>
    requires stand { StandEach tables.now areas.old places.now }
    requires counters { length places.now ≡ length counters.now }
    requires counts { total_length counters.now ≤ length counts.now }
    ensures adds { IsAddedStorage result areas.new (meaning.add_each (map (there tables.now)
        places.now) (layout.counted_fits (slice_index counts.now) 0 counters.now) areas.old) }
    ensures lengths { map length areas.new ≡ map length areas.old }
{
    let mut from = 0;
    for number in 0..places.len() {
        let entries = counters[number];
        match add_at(areas, tables, places[number], counts, from, entries) {
            Ok(()) => from += entries as usize,
            Err(fault) => return Err(fault),
        }
    }
    Ok(())
}

/// Stores a text of an item's size there, where there are entries of REPLACING.
fn store_text(areas: &mut Areas, one: &DataItem, offset: usize, replacing: &[Entry], text: &[u8])
    requires stands { IsAtOffset one.now areas.old offset }
    requires size { length text.now ≡ one.now.item.length }
    ensures stores { areas.new
        ≡ stored_by replacing.now (item_place one.now offset) text.now areas.old }
    ensures lengths { map length areas.new ≡ map length areas.old }
{
    match replacing {
        [] => {}
        _ => areas.pad(one, offset, text),
    }
}

/// Adds to the counters, and then stores the text.
fn add_and_store(
    areas: &mut Areas,
    tables: &DataTables,
    one: &Inspection,
    places: &[Place],
    to: &DataItem,
    offset: usize,
    inspected: InspectionResult<'_>,
) -> Result<(), ProgramFault>
    requires stand { StandEach tables.now areas.old places.now }
    requires counters { length places.now ≡ length one.now.counters }
    requires counts { total_length one.now.counters ≤ length inspected.counts.now }
    requires stands { IsAtOffset to.now areas.old offset }
    requires size { length inspected.text.now ≡ to.now.item.length }
    ensures adds { IsAddedStorage result areas.new (added_and_stored (map (there tables.now)
        places.now)
        (layout.counted_fits (slice_index inspected.entry.counts.now) 0 one.now.counters)
        one.now.replacing (item_place to.now offset) inspected.entry.text.now areas.old) }
    ensures lengths { map length areas.new ≡ map length areas.old }
{
    match add_each(
        areas,
        tables,
        places,
        one.counters.as_slice(),
        inspected.counts,
    ) {
        Ok(()) => {
            store_text(areas, to, offset, one.replacing.as_slice(), inspected.text);
            Ok(())
        }
        Err(fault) => Err(fault),
    }
}
