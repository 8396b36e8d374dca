//! Areas of bytes.

ghost use Rattle.std.specs.Prelude.{◌≡◌, ◌<◌, ◌%◌, ◌^◌, true, length, map, slice_set, slice_index_or, [], Some, IfOk};
ghost use Rattle.items.specs.Items.{HasLengthOf};
ghost use Rattle.items.specs.declared.taken.Taken.TheVariants as senders;
ghost use Rattle.items.specs.Texts.{padded_text};
ghost use Rattle.source_tree.specs.References.{part_of, storage_with};
ghost use Rattle.source_tree.specs.Initializing.{overlaid_storage};
ghost use Rattle.text_ops.specs.Strings.{string_of_senders};
ghost use Rattle.text_ops.specs.Entries.{AreWithin};
ghost use Rattle.text_ops.specs.Convert.{converted_subject};
ghost use Rattle.data_instructions.specs.Table.{pattern_of};
ghost use Rattle.source_tree.specs.Moving.{move_to};
ghost use Rattle.source_tree.specs.Arithmetic as arithmetic;
ghost use Rattle.source_tree.specs.ProgramFiles.{digits_in};
ghost use Rattle.source_tree.specs.FileRules.{is_unsigned_integer};
ghost use Rattle.source_tree.specs.FileStatements.{relative_number, number_stored};
ghost use Rattle.data_instructions.specs.Tables.{item_place};
ghost use Rattle.data_machine.specs.Finds.{IsAtOffset, Receives};
ghost use Rattle.data_machine.specs.Writing.{Stores};
ghost use Rattle.data_machine.specs.KeptNumbers.{StoresNumber};
ghost use Rattle.data_machine.specs.KeptAtScale.{FitsDigits, bytes_at_scale};

use crate::converting::convert_part;
use crate::fitting::store_part;
use crate::overlaying::overlay_part;
use crate::receiving::{move_item_part, move_part, pad_part};
use crate::relative_keys::{number_held, put_number_part};
use crate::short_fitting::put_short_part;
use crate::string_statement::string_part;
use data_instructions::DataItem;
use decimal18::Dec;
use items::{DataFault, Item, Kind, Taken, part};
use sqlite_items::Items;
use std::alloc::{AllocError, Global};
use std::marker::Model;
use text_ops::Entry;

/// Areas of bytes. What instructions do leaves each its length.
#[derive(Drop)]
pub struct Areas {
    areas: Vec<Vec<u8>>,
}

impl Model for Areas {
    ghost use Rattle.std.specs.Prelude.{List, ℕ};
    ghost use Rattle.std.specs.Coded.{coded_list, coded_ℕ};
    ghost use Rattle.data_machine.specs.Areas.{storage_of};

    ghost Value = { List (List ℕ) };

    ghost coded = { coded_list (coded_list coded_ℕ) };

    ghost view = { λ it. storage_of it.areas.items };
}

impl Areas {
    /// Areas with these bytes.
    pub fn new(alloc: Global, start: &[Items<u8>]) -> Result<Areas, AllocError>
        ensures { IfOk result (λ areas. areas ≡ start.now) }
    {
        let mut areas = Vec::new(alloc);
        for area in start {
            areas.push(Vec::from_slice(alloc, area.as_slice())?)?;
        }
        Ok(Areas { areas })
    }

    /// The bytes of an item that stands at an offset.
    #[inline(always)]
    pub fn bytes(&self, one: &DataItem, offset: usize) -> &[u8]
        requires { IsAtOffset one.now self.now offset }
        ensures value { result.now ≡ part_of self.now (item_place one.now offset) }
        ensures of { HasLengthOf one.now.item result.now }
    {
        let area = self.areas[one.area as usize].as_slice();
        part(area, offset, one.item.length as usize)
    }

    /// Moves a sender to an item that stands at an offset. Where a number is wanted of bytes that hold none, nothing changes.
    #[inline(always)]
    pub fn receive(
        &mut self,
        one: &DataItem,
        offset: usize,
        taken: &Taken,
        from: &[u8],
    ) -> Result<(), DataFault>
        requires stands { IsAtOffset one.now self.old offset }
        requires sender { Receives one.now (record { taken = taken.now; bytes = from.now }) }
        ensures stores { Stores result self.old self.new (move_to
            (record { taken = taken.now; bytes = from.now }) (item_place one.now offset) self.old) }
        ensures lengths { map length self.new ≡ map length self.old }
    {
        let area = &mut self.areas[one.area as usize];
        move_part(one, area.as_mut_slice(), offset, taken, from)
    }

    /// The same of a sender that is an item, with its bytes.
    #[inline(always)]
    pub(crate) fn receive_from(
        &mut self,
        one: &DataItem,
        offset: usize,
        sender: &Item,
        from: &[u8],
    ) -> Result<(), DataFault>
        requires stands { IsAtOffset one.now self.old offset }
        requires sender { Receives one.now
            (record { taken = senders.Item sender.now; bytes = from.now }) }
        ensures stores { Stores result self.old self.new (move_to
            (record { taken = senders.Item sender.now; bytes = from.now })
            (item_place one.now offset) self.old) }
        ensures lengths { map length self.new ≡ map length self.old }
    {
        let area = &mut self.areas[one.area as usize];
        move_item_part(one, area.as_mut_slice(), offset, sender, from)
    }

    /// Stores a number in an item that stands at an offset, and answers whether a size error arose. Where the item receives no
    /// numbers, nothing changes.
    #[inline]
    pub fn store(
        &mut self,
        one: &DataItem,
        offset: usize,
        number: Option<Dec>,
        rounded: bool,
        keep: bool,
    ) -> Result<bool, DataFault>
        requires { IsAtOffset one.now self.old offset }
        ensures stores { StoresNumber result self.old self.new
            (arithmetic.store keep rounded (item_place one.now offset) number) }
        ensures lengths { map length self.new ≡ map length self.old }
    {
        let area = &mut self.areas[one.area as usize];
        store_part(one, area.as_mut_slice(), offset, number, rounded, keep)
    }

    /// Stores a coefficient in a numeric item that stands at an offset, at its scale; without S the absolute value.
    #[inline(always)]
    pub(crate) fn store_short(&mut self, one: &DataItem, offset: usize, coefficient: i64)
        requires stands { IsAtOffset one.now self.old offset }
        requires digits { FitsDigits one.now.item.kind coefficient }
        ensures stores { self.new ≡ storage_with (item_place one.now offset)
            (bytes_at_scale one.now.item.kind coefficient) self.old }
        ensures lengths { map length self.new ≡ map length self.old }
    {
        let area = &mut self.areas[one.area as usize];
        put_short_part(one, area.as_mut_slice(), offset, coefficient);
    }

    /// Stores characters in an item that stands at an offset, cut or padded with spaces.
    pub fn pad(&mut self, one: &DataItem, offset: usize, text: &[u8])
        requires { IsAtOffset one.now self.old offset }
        ensures stores { self.new ≡ storage_with (item_place one.now offset)
            (padded_text one.now.item.length text.now) self.old }
        ensures lengths { map length self.new ≡ map length self.old }
    {
        let area = &mut self.areas[one.area as usize];
        pad_part(one, area.as_mut_slice(), offset, text);
    }

    /// Lays bytes over those of an item that stands at an offset, where their marks aren't 0.
    pub fn overlay(&mut self, one: &DataItem, offset: usize, bytes: &[u8], marks: &[u8])
        requires { IsAtOffset one.now self.old offset }
        ensures stores { self.new ≡ overlaid_storage (pattern_of bytes.now marks.now)
            (item_place one.now offset) self.old }
        ensures lengths { map length self.new ≡ map length self.old }
    {
        let area = &mut self.areas[one.area as usize];
        overlay_part(one, area.as_mut_slice(), offset, bytes, marks);
    }

    /// Converts the characters of an item that stands at an offset, by the first entry. The entries' texts are spans of `texts`.
    pub fn convert(&mut self, one: &DataItem, offset: usize, texts: &[u8], entries: &[Entry])
        requires stands { IsAtOffset one.now self.old offset }
        requires entries { AreWithin entries.now (length texts.now) }
        ensures stores { self.new ≡ storage_with (item_place one.now offset)
            (converted_subject texts.now entries.now
            (part_of self.old (item_place one.now offset))) self.old }
        ensures lengths { map length self.new ≡ map length self.old }
    {
        let area = &mut self.areas[one.area as usize];
        convert_part(one, area.as_mut_slice(), offset, texts, entries);
    }

    /// Puts a text into an item that stands at an offset, from a position on, which counts from 1. Answers the position after
    /// it, and whether there was an overflow.
    pub fn string_into(
        &mut self,
        one: &DataItem,
        offset: usize,
        text: &[u8],
        at: usize,
    ) -> (usize, bool)
        requires { IsAtOffset one.now self.old offset }
        ensures stores { self.new ≡ storage_with (item_place one.now offset) (string_of_senders at
            text.now (part_of self.old (item_place one.now offset))).receiver self.old }
        ensures next { result.0 ≡ (string_of_senders at text.now
            (part_of self.old (item_place one.now offset))).pointer }
        ensures overflow { result.1 ≡ (string_of_senders at text.now
            (part_of self.old (item_place one.now offset))).overflow }
        ensures lengths { map length self.new ≡ map length self.old }
    {
        let area = &mut self.areas[one.area as usize];
        string_part(one, area.as_mut_slice(), offset, text, at)
    }

    /// The integer in an item that stands at an offset, 0 where its bytes are none or one below 0.
    pub fn number(&self, one: &DataItem, offset: usize) -> u64
        requires { IsAtOffset one.now self.now offset }
        ensures { result ≡ relative_number (Some (item_place one.now offset)) self.now }
    {
        number_held(one.item.kind, self.bytes(one, offset))
    }

    /// Stores the low digits of a number in an unsigned integer item that stands at an offset.
    pub fn put_number(&mut self, one: &DataItem, offset: usize, number: u64)
        requires stands { IsAtOffset one.now self.old offset }
        requires kind { is_unsigned_integer one.now.item.kind ≡ true }
        ensures stores { self.new ≡ number_stored one.now.item.kind (item_place one.now offset)
            (number % 10 ^ digits_in one.now.item.kind) self.old }
        ensures lengths { map length self.new ≡ map length self.old }
    {
        if let Kind::Numeric(item) = one.item.kind {
            let area = &mut self.areas[one.area as usize];
            put_number_part(item, area.as_mut_slice(), offset, number);
        }
    }

    /// Exchanges the bytes of an area with others.
    pub fn exchange(&mut self, area: usize, bytes: &mut Vec<u8>)
        requires { area < length self.old }
        ensures area { self.new ≡ slice_set self.old area bytes.old.items }
        ensures bytes { bytes.new.items ≡ slice_index_or self.old area [] }
    {
        std::mem::swap(&mut self.areas[area], bytes);
    }
}
