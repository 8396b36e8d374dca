//! The report about one place of a source text.

ghost use Rattle.std.specs.Prelude.{◌≡◌, ◌++◌, ◌-◌, decimal, map, replicate, OnOk};
ghost use Rattle.source_advice.specs.Lines.{shown_byte as shown};
ghost use Rattle.source_commands.specs.Report as spec;

use itoa::Buffer;
use lexical::Place;
use source_advice::{Advice, shown_byte, shown_line};
use std::alloc::{AllocError, Global};

/// A source text and its name.
#[derive(Clone, Copy)]
pub struct Source<'a> {
    pub name: &'a [u8],
    pub text: &'a [u8],
}

/// Adds what is said of a place: the place and the message, with the number of a fault if there is one, the line with a caret below the
/// column, and what to do.
pub fn push_report(
    alloc: Global,
    out: &mut Vec<u8>,
    source: Source<'_>,
    place: Place,
    advice: &Advice,
    number: Option<u8>,
) -> Result<(), AllocError>
    ensures { OnOk result (out.new.items ≡ out.old.items ++ spec.report source.entry.name.now
        source.entry.text.now place number advice.now.message.items advice.now.cure.items) }
{
    push_place(out, source.name, place)?;
    push_kind(out, number)?;
    push_shown(out, advice.message.as_slice())?;
    push_fault(out, number)?;
    push_line(alloc, out, source.text, place)?;
    out.extend_from_slice(advice.cure.as_slice())
}

/// Adds `NAME:LINE:COLUMN: `.
fn push_place(out: &mut Vec<u8>, name: &[u8], place: Place) -> Result<(), AllocError>
    ensures { OnOk result (out.new.items ≡ out.old.items ++ spec.place_text name.now place) }
{
    out.extend_from_slice(name)?;
    out.push(b':')?;
    push_number(out, place.line)?;
    out.push(b':')?;
    push_number(out, u32::from(place.column))?;
    out.extend_from_slice(b": ")
}

/// Adds what kind of report it is.
fn push_kind(out: &mut Vec<u8>, number: Option<u8>) -> Result<(), AllocError>
    ensures { OnOk result (out.new.items ≡ out.old.items ++ spec.kind_text number) }
{
    match number {
        Some(_) => out.extend_from_slice(b"error: "),
        None => out.extend_from_slice(b"warning: "),
    }
}

/// Adds a text, with `?` for bytes that aren't printable ASCII.
fn push_shown(out: &mut Vec<u8>, text: &[u8]) -> Result<(), AllocError>
    ensures { OnOk result (out.new.items ≡ out.old.items ++ map shown text.now) }
{
    for byte in text {
        out.push(shown_byte(*byte))?;
    }
    Ok(())
}

/// Adds ` [fault N]` if there is a fault, and ends the line.
fn push_fault(out: &mut Vec<u8>, number: Option<u8>) -> Result<(), AllocError>
    ensures { OnOk result (out.new.items ≡ out.old.items ++ spec.fault_text number) }
{
    if let Some(number) = number {
        out.extend_from_slice(b" [fault ")?;
        push_number(out, u32::from(number))?;
        out.push(b']')?;
    }
    Ok(out.push(b'\n')?)
}

/// Adds the line of a place, and a caret below its column.
fn push_line(alloc: Global, out: &mut Vec<u8>, text: &[u8], place: Place) -> Result<(), AllocError>
    ensures { OnOk result (out.new.items ≡ out.old.items ++ spec.line_text text.now place) }
{
    let line = shown_line(alloc, text, place.line)?;
    out.extend_from_slice(line.as_slice())?;
    out.push(b'\n')?;
    push_spaces(out, u32::from(place.column).saturating_sub(1))?;
    out.extend_from_slice(b"^\n")
}

/// Adds spaces.
pub(crate) fn push_spaces(out: &mut Vec<u8>, count: u32) -> Result<(), AllocError>
    ensures { OnOk result (out.new.items ≡ out.old.items ++ replicate count 32) }
{
    for _ in 0..count {
        out.push(b' ')?;
    }
    Ok(())
}

/// Adds a number.
pub(crate) fn push_number(out: &mut Vec<u8>, number: u32) -> Result<(), AllocError>
    ensures { OnOk result (out.new.items ≡ out.old.items ++ decimal number) }
{
    let mut digits = Buffer::new();
    out.extend_from_slice(digits.format(number).as_bytes())
}
