//! What INITIALIZE and SET put into items (COBOL-85, Nucleus, "The INITIALIZE statement", "The SET statement").

ghost use Rattle.std.specs.Prelude.{◌≡◌, [], length, map, replicate, slice_get, IfOk};
ghost use Rattle.items.specs.Texts.{space};
ghost use Rattle.source_tree.specs.EntryRules.{entry_rules};
ghost use Rattle.source_tree.specs.Initializing.{first_value};
ghost use Rattle.source_tree.specs.LookUp.{all_conditions};
ghost use Rattle.source_tree.specs.NameRules.{reference_rules, any_item};
ghost use Rattle.source_tree.specs.SettingRules.{set_one};
ghost use Rattle.data_instructions.specs.TextCodes.{new_byte, new_mark};
ghost use Rattle.declarations.specs.Named.{items_in};
ghost use Rattle.initial_storage.specs.Conditions.{HasFirst};
ghost use Rattle.initial_storage.specs.Fits.{HasKind};
ghost use Rattle.condition_codegen.specs.DataCode.{item_number};
ghost use Rattle.condition_codegen.specs.ConditionCode.{condition_number};
ghost use Rattle.condition_codegen.specs.PatternCode as spec;

use crate::emitter::Emitter;
use initial_storage::{NewBytes, condition_values_suit, initialized_item, set_value};
use items::Item;
use source_tree::{Reference, ValueRange};
use sqlite_items::Items;
use std::alloc::{AllocError, Global};

/// New bytes of an item, and what marks them.
#[derive(Drop)]
pub struct Overlay {
    pub bytes: Items<u8>,
    pub marks: Items<u8>,
}

/// No new bytes.
fn no_bytes(alloc: Global) -> Overlay
    ensures bytes { result.bytes ≡ [] }
    ensures marks { result.marks ≡ [] }
{
    Overlay {
        bytes: Items::new(alloc),
        marks: Items::new(alloc),
    }
}

/// What marks so many bytes, of which each is new.
fn all_marked(alloc: Global, count: usize) -> Result<Items<u8>, AllocError>
    ensures { IfOk result (λ marks. marks ≡ replicate count 1) }
{
    Ok(Items::from_vec(vec![in alloc; 1; count]?))
}

/// Bytes of which each is new.
fn marked_bytes(alloc: Global, bytes: Items<u8>) -> Result<Overlay, AllocError>
    ensures bytes { IfOk result (λ made. made.bytes ≡ bytes) }
    ensures marks { IfOk result (λ made. made.marks ≡ replicate (length bytes) 1) }
{
    let marks = all_marked(alloc, bytes.len())?;
    Ok(Overlay { bytes, marks })
}

/// So many spaces.
fn spaces(alloc: Global, count: u32) -> Result<Overlay, AllocError>
    ensures bytes { IfOk result (λ made. made.bytes ≡ replicate count space) }
    ensures marks { IfOk result (λ made. made.marks ≡ replicate count 1) }
{
    let bytes = Items::from_vec(vec![in alloc; b' '; count as usize]?);
    marked_bytes(alloc, bytes)
}

/// What an item holds by the first of these values, each byte of it.
fn first_overlay(alloc: Global, item: Item, values: &[ValueRange]) -> Result<Overlay, AllocError>
    requires kind { HasKind item }
    requires value { HasFirst item values.now }
    ensures bytes { IfOk result (λ made. made.bytes ≡ map new_byte (first_value item values.now)) }
    ensures marks { IfOk result (λ made. made.marks ≡ map new_mark (first_value item values.now)) }
{
    match values.first() {
        None => Ok(no_bytes(alloc)),
        Some(one) => marked_bytes(alloc, set_value(alloc, item, &one.first)?),
    }
}

impl<'a> Emitter<'a> {
    /// What INITIALIZE puts into the item of a reference, or into its part.
    pub fn initial_overlay(&self, one: &Reference) -> Result<Overlay, AllocError>
        requires entries { entry_rules self.now.declarations.now.storage.now ≡ [] }
        requires rules { reference_rules (items_in self.now.declarations.now) any_item one.now
            ≡ [] }
        ensures bytes { IfOk result (λ made. made.bytes
            ≡ map new_byte (spec.pattern_of one.now (slice_get (items_in self.now.declarations.now)
            (item_number (items_in self.now.declarations.now) one.now.item)))) }
        ensures marks { IfOk result (λ made. made.marks
            ≡ map new_mark (spec.pattern_of one.now (slice_get (items_in self.now.declarations.now)
            (item_number (items_in self.now.declarations.now) one.now.item)))) }
    {
        if one.part.is_some() {
            return spaces(self.alloc, self.length_shown(one));
        }
        let number = self.item_number(&one.item);
        let NewBytes { bytes, marks } = initialized_item(
            self.alloc,
            self.declarations.storage,
            self.declarations.descriptions,
            number,
        )?;
        Ok(Overlay { bytes, marks })
    }

    /// What SET puts into the item of a condition name.
    pub fn set_overlay(&self, one: &Reference) -> Result<Overlay, AllocError>
        requires entries { entry_rules self.now.declarations.now.storage.now ≡ [] }
        requires rules { set_one (items_in self.now.declarations.now) one.now ≡ [] }
        ensures bytes { IfOk result (λ made. made.bytes ≡ map
            new_byte (spec.set_of (slice_get (all_conditions (items_in self.now.declarations.now))
            (condition_number (items_in self.now.declarations.now) one.now.item)))) }
        ensures marks { IfOk result (λ made. made.marks ≡ map
            new_mark (spec.set_of (slice_get (all_conditions (items_in self.now.declarations.now))
            (condition_number (items_in self.now.declarations.now) one.now.item)))) }
    {
        condition_values_suit();
        let index = self.condition_item(&one.item)?;
        let values = self.values_named(&one.item);
        match self.declarations.layout.items.get(index.number as usize) {
            None => Ok(no_bytes(self.alloc)),
            Some(placed) => first_overlay(self.alloc, placed.item, values),
        }
    }
}
