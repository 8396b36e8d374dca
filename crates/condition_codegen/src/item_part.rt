//! The code of parts of items (ISO 1989:1985, Nucleus, "Reference modification").

ghost use Rattle.std.specs.Prelude.{◌≡◌, ◌≤◌, [], None, Some, slice_get, IfOk, OnOk};
ghost use Rattle.source_tree.specs.NameRules.{length_rules, part_rules};
ghost use Rattle.source_tree.specs.Parts as parts;
ghost use Rattle.data_instructions.specs.PartForms as forms;
ghost use Rattle.declarations.specs.Named.{items_in};
ghost use Rattle.condition_codegen.specs.Fragments.{append, sequence};
ghost use Rattle.condition_codegen.specs.DataCode as spec;
ghost use Rattle.condition_codegen.specs.ItemParts as entries;

use crate::emitter::{Emitter, entry_number};
use crate::references::emit_work;
use code_image::Code;
use data_entries::number_within;
use data_instructions::{DataInstruction, DataItem, ItemIndex};
use declarations::{item_seen, known_length};
use layout::PlacedItem;
use source_tree::{BoxedPart, Part, Reference, Subscript};
use std::alloc::AllocError;

impl<'a> Emitter<'a> {
    /// The place of the item that a reference names, which has that number, or of its part.
    pub(crate) fn emit_place(
        &self,
        code: &mut Code,
        number: usize,
        one: &Reference,
    ) -> Result<(), AllocError>
        requires number { number
            ≡ spec.item_number (items_in self.now.declarations.now) one.now.item }
        ensures { OnOk result (code.new ≡ append code.old
            (spec.place_fragment (items_in self.now.declarations.now)
            (slice_get (items_in self.now.declarations.now)
            (spec.item_number (items_in self.now.declarations.now) one.now.item)) one.now
            one.now.part code.old)) }
    {
        if one.part.is_none() {
            let number = entry_number(number)?;
            let item = ItemIndex { number };
            return emit_work(code, DataInstruction::Place { item });
        }
        match self.declarations.layout.items.get(number) {
            Some(found) => emit_part_place(code, found, &one.part),
            None => Ok(()),
        }
    }

    /// The part that replaces the newest place, whose item has so many bytes.
    pub(crate) fn emit_making(
        &self,
        code: &mut Code,
        size: u32,
        part: &Option<BoxedPart>,
    ) -> Result<(), AllocError>
        requires rules { part_rules (items_in self.now.declarations.now) part.now ≡ [] }
        ensures { OnOk result (code.new ≡ append code.old
            (spec.making_fragment (items_in self.now.declarations.now) size
            (forms.part_form size part.now) code.old)) }
    {
        match part {
            None => Ok(()),
            Some(boxed) => self.emit_given_part(code, size, boxed.part()),
        }
    }

    /// A part: nothing if the table of items has an entry for it.
    fn emit_given_part(&self, code: &mut Code, size: u32, one: &Part) -> Result<(), AllocError>
        requires rules { part_rules (items_in self.now.declarations.now) (Some one.now) ≡ [] }
        ensures { OnOk result (code.new ≡ append code.old
            (spec.making_fragment (items_in self.now.declarations.now) size
            (forms.part_form size (Some one.now)) code.old)) }
    {
        if known_begin(size, one).is_some() {
            return Ok(());
        }
        self.emit_made(code, size, one)
    }

    /// A part that is made in the run.
    fn emit_made(&self, code: &mut Code, size: u32, one: &Part) -> Result<(), AllocError>
        requires rules { part_rules (items_in self.now.declarations.now) (Some one.now) ≡ [] }
        ensures { OnOk result (code.new ≡ append code.old
            (spec.making_fragment (items_in self.now.declarations.now) size
            (forms.form_by one.now.first one.now.length
            (parts.known_length size one.now.first one.now.length) None) code.old)) }
    {
        self.emit_subscript(code, &one.first)?;
        match known_length(size, one) {
            Some(_) => emit_part(code, data_instructions::Part::Fixed { size }),
            None => self.emit_unknown(code, &one.length),
        }
    }

    /// A part of unknown length, after the number of its first place.
    fn emit_unknown(&self, code: &mut Code, length: &Option<Subscript>) -> Result<(), AllocError>
        requires rules { length_rules (items_in self.now.declarations.now) length.now ≡ [] }
        ensures { OnOk result (code.new ≡ append code.old
            (spec.unknown_fragment (items_in self.now.declarations.now) length.now code.old)) }
    {
        let Some(one) = length else {
            return emit_part(code, data_instructions::Part::Rest);
        };
        self.emit_subscript(code, one)?;
        emit_part(code, data_instructions::Part::Counted)
    }

    /// The length of what a reference shows, as far as it is known before a run.
    pub fn length_shown(&self, one: &Reference) -> u32
        ensures { result ≡ entries.length_shown one.now
            (slice_get (items_in self.now.declarations.now)
            (spec.item_number (items_in self.now.declarations.now) one.now.item)) }
    {
        match self
            .declarations
            .layout
            .items
            .get(self.item_number(&one.item))
        {
            Some(found) => item_seen(&one.part, found.item).length,
            None => 0,
        }
    }

    /// The length of what a reference shows is found in the run.
    pub fn is_measured(&self, one: &Reference) -> bool
        ensures { result ≡ entries.is_measured one.now
            (slice_get (items_in self.now.declarations.now)
            (spec.item_number (items_in self.now.declarations.now) one.now.item)) }
    {
        match self
            .declarations
            .layout
            .items
            .get(self.item_number(&one.item))
        {
            Some(found) => has_room(found.item.length, &one.part),
            None => false,
        }
    }
}

/// No literals say the length of a part of an item of that size.
fn has_room(size: u32, part: &Option<BoxedPart>) -> bool
    ensures { result ≡ entries.has_room size part.now }
{
    match part {
        Some(boxed) => known_length(size, boxed.part()).is_none(),
        None => false,
    }
}

/// A part in the place of the newest one.
fn emit_part(code: &mut Code, one: data_instructions::Part) -> Result<(), AllocError>
    ensures { OnOk result (code.new ≡ append code.old (spec.part_fragment one code.old)) }
{
    emit_work(code, DataInstruction::Part(one))
}

/// The place of a part, for which the table of items has an entry.
fn emit_part_place(
    code: &mut Code,
    one: &PlacedItem,
    part: &Option<BoxedPart>,
) -> Result<(), AllocError>
    ensures { OnOk result (code.new ≡ append code.old
        (spec.entry_fragment (entries.entry_in one.now part.now) code.old)) }
{
    let number = entry_number(code.tables.items.len())?;
    code.tables.items.push(part_entry(one, part)?)?;
    emit_work(
        code,
        DataInstruction::Place {
            item: ItemIndex { number },
        },
    )
}

/// What the table of items has of a part.
fn part_entry(one: &PlacedItem, part: &Option<BoxedPart>) -> Result<DataItem, AllocError>
    ensures { IfOk result (λ entry. entry ≡ entries.entry_in one.now part.now) }
{
    let before = bytes_before(one.item.length, part);
    let offset = entry_number(one.offset as usize + before as usize)?;
    Ok(DataItem {
        item: item_seen(part, one.item),
        editing: None,
        area: one.area,
        offset,
    })
}

/// The bytes of the item before its part, as far as they are known before a run.
fn bytes_before(size: u32, part: &Option<BoxedPart>) -> u32
    ensures { result ≡ forms.begin_of (forms.part_form size part.now) }
{
    match part {
        Some(one) => known_begin(size, one.part()).unwrap_or(0),
        None => 0,
    }
}

/// The bytes before a part, if both numbers are literals within so many bytes.
fn known_begin(size: u32, part: &Part) -> Option<u32>
    ensures { result ≡ forms.known_begin size part.now.first
        (parts.known_length size part.now.first part.now.length) }
{
    match known_length(size, part) {
        Some(length) => literal_begin(size, length, &part.first),
        None => None,
    }
}

/// The same of a part of this length.
fn literal_begin(size: u32, length: u32, first: &Subscript) -> Option<u32>
    requires { 1 ≤ length }
    ensures { result ≡ forms.literal_begin size length first.now }
{
    let Subscript::Literal(integer) = first else {
        return None;
    };
    let most = size.checked_sub(length - 1)?;
    number_within(integer, most)?.checked_sub(1)
}
