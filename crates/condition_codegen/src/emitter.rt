//! What the code of references is made with: the items of a program, by their names.

ghost use Rattle.std.specs.Prelude.{◌≡◌, IfOk, slice_get};
ghost use Rattle.declarations.specs.Named.{items_in};
ghost use Rattle.source_tree.specs.Arithmetic.{receiver_of};
ghost use Rattle.source_tree.specs.InspectLayout.{found_size};
ghost use Rattle.condition_codegen.specs.DataCode as spec;
ghost use Rattle.condition_codegen.specs.ArithmeticCode as arithmetic;

use data_instructions::ItemIndex;
use declarations::Declarations;
use items::Kind;
use layout::PlacedItem;
use name_table::LookUp;
use source_tree::{Dimension, QualifiedName};
use std::alloc::{AllocError, Global};

/// What is declared in a program, and where the memory of its code comes from.
#[derive(Clone, Copy)]
pub struct Emitter<'a> {
    pub alloc: Global,
    pub declarations: &'a Declarations<'a>,
}

/// The number of an entry that has so many before it. Its table is refused where 32 bits don't hold the number.
pub fn entry_number(before: usize) -> Result<u32, AllocError>
    ensures { IfOk result (λ number. number ≡ before) }
{
    let Ok(number) = u32::try_from(before) else {
        return Err(AllocError);
    };
    Ok(number)
}

/// The decimals that an item keeps of a number: none of one that takes no number.
fn scale_kept(one: &PlacedItem) -> u8
    ensures { result ≡ arithmetic.receiver_scale (receiver_of one.now.item.kind one.now.editing) }
{
    match (one.item.kind, &one.editing) {
        (Kind::Numeric(numeric), _) => numeric.scale,
        (Kind::NumericEdited { .. }, Some(picture)) => picture.scale(),
        _ => 0,
    }
}

impl<'a> Emitter<'a> {
    /// The number of the item that a name names.
    pub fn item_number(&self, name: &QualifiedName) -> usize
        ensures { result ≡ spec.item_number (items_in self.now.declarations.now) name.now }
    {
        match self.declarations.names.look_up(name) {
            LookUp::One(number) => number,
            LookUp::Unknown | LookUp::Several => 0,
        }
    }

    /// The item that a name names.
    pub(crate) fn item_index(&self, name: &QualifiedName) -> Result<ItemIndex, AllocError>
        ensures { IfOk result
            (λ index. index ≡ spec.item_index (items_in self.now.declarations.now) name.now) }
    {
        let number = entry_number(self.item_number(name))?;
        Ok(ItemIndex { number })
    }

    /// The length of the item of that number.
    pub(crate) fn length_at(&self, number: usize) -> u32
        ensures { result ≡ found_size (slice_get (items_in self.now.declarations.now) number) }
    {
        match self.declarations.layout.items.get(number) {
            Some(found) => found.item.length,
            None => 0,
        }
    }

    /// The dimensions of an item.
    pub fn dimensions_at(&self, number: usize) -> &[Dimension]
        ensures { result.now
            ≡ spec.dimensions_of (slice_get (items_in self.now.declarations.now) number) }
    {
        match self.declarations.layout.items.get(number) {
            Some(found) => found.dimensions.as_slice(),
            None => &[],
        }
    }

    /// The decimals that the item that a name names keeps of a number.
    pub fn scale_kept(&self, name: &QualifiedName) -> u8
        ensures { result ≡ arithmetic.scale_of_item (slice_get (items_in self.now.declarations.now)
            (spec.item_number (items_in self.now.declarations.now) name.now)) }
    {
        match self.declarations.layout.items.get(self.item_number(name)) {
            Some(found) => scale_kept(found),
            None => 0,
        }
    }
}
