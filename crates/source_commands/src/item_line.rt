//! The line of an item.

ghost use Rattle.std.specs.Prelude.{◌≡◌, ◌<◌, ◌^◌, ◌++◌, OnOk};
ghost use Rattle.std.specs.List.{flat_map};
ghost use Rattle.source_commands.specs.Layout as spec;

use crate::report::{push_number, push_spaces};
use items::{Item, Kind, Usage};
use itoa::Buffer;
use layout::PlacedItem;
use source_tree::{Dimension, ItemEntry, Name, PictureText};
use std::alloc::AllocError;

/// The widths of columns.
const LEVEL: usize = 6;

const NAME: usize = 30;

const NUMBER: usize = 8;

const USAGE: usize = 9;

/// Adds the line of an item, with its entry.
pub fn push_item(out: &mut Vec<u8>, item: &PlacedItem, entry: &ItemEntry) -> Result<(), AllocError>
    ensures { OnOk result (out.new.items ≡ out.old.items ++ spec.item_line item.now entry.now) }
{
    push_left(out, LEVEL, entry.level.digits.as_slice())?;
    push_left(out, NAME, name_of(&entry.name))?;
    push_right(out, item.offset)?;
    push_right(out, item.item.length)?;
    out.extend_from_slice(b"  ")?;
    push_form(out, usage_of(item.item), &entry.picture)?;
    push_dimensions(out, item.dimensions.as_slice())?;
    push_redefined(out, &entry.redefines)?;
    Ok(out.push(b'\n')?)
}

/// The name of an item.
fn name_of(name: &Option<Name>) -> &[u8]
    ensures { result.now ≡ spec.name_text name.now }
{
    match name {
        Some(name) => name.characters.as_slice(),
        None => b"FILLER",
    }
}

/// The usage of an item.
fn usage_of(item: Item) -> &'static [u8]
    ensures { result.now ≡ spec.kind_text item.kind }
{
    match item.kind {
        Kind::Group => b"group",
        Kind::Numeric(numeric) => match numeric.usage {
            Usage::Display(_) => b"display",
            Usage::Binary { .. } => b"comp",
            Usage::Packed { .. } => b"comp-3",
        },
        _ => b"display",
    }
}

/// Adds the usage of an item, and its picture if it has one.
fn push_form(
    out: &mut Vec<u8>,
    usage: &[u8],
    picture: &Option<PictureText>,
) -> Result<(), AllocError>
    ensures { OnOk result
        (out.new.items ≡ out.old.items ++ spec.form_text usage.now picture.now) }
{
    match picture {
        Some(picture) => {
            push_left(out, USAGE, usage)?;
            out.extend_from_slice(picture.characters.as_slice())
        }
        None => out.extend_from_slice(usage),
    }
}

/// Adds the number of elements and their distance in bytes, the outermost table first.
fn push_dimensions(out: &mut Vec<u8>, dimensions: &[Dimension]) -> Result<(), AllocError>
    ensures { OnOk result
        (out.new.items ≡ out.old.items ++ flat_map spec.dimension_text dimensions.now) }
{
    for one in dimensions {
        push_dimension(out, one)?;
    }
    Ok(())
}

fn push_dimension(out: &mut Vec<u8>, one: &Dimension) -> Result<(), AllocError>
    ensures { OnOk result (out.new.items ≡ out.old.items ++ spec.dimension_text one.now) }
{
    out.extend_from_slice(b" occurs ")?;
    push_number(out, one.count)?;
    out.extend_from_slice(b" stride ")?;
    push_number(out, one.stride)
}

fn push_redefined(out: &mut Vec<u8>, redefined: &Option<Name>) -> Result<(), AllocError>
    ensures { OnOk result (out.new.items ≡ out.old.items ++ spec.redefined_text redefined.now) }
{
    let Some(name) = redefined else {
        return Ok(());
    };
    out.extend_from_slice(b" redefines ")?;
    out.extend_from_slice(name.characters.as_slice())
}

/// Adds a word, and spaces up to a width.
fn push_left(out: &mut Vec<u8>, width: usize, word: &[u8]) -> Result<(), AllocError>
    requires { width < 2 ^ 32 }
    ensures { OnOk result (out.new.items ≡ out.old.items ++ spec.at_left width word.now) }
{
    out.extend_from_slice(word)?;
    push_spaces(out, width.saturating_sub(word.len()) as u32)
}

/// Adds a number at the right of its column.
fn push_right(out: &mut Vec<u8>, number: u32) -> Result<(), AllocError>
    ensures { OnOk result (out.new.items ≡ out.old.items ++ spec.at_right 8 number) }
{
    let mut digits = Buffer::new();
    let digits = digits.format(number).as_bytes();
    push_spaces(out, NUMBER.saturating_sub(digits.len()) as u32)?;
    out.extend_from_slice(digits)
}
