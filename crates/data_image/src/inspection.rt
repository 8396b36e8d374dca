//! What INSPECT does, in an image.

ghost use Rattle.std.specs.Prelude.{◌≡◌, ◌==◌, ◌++◌, ◌∷◌, OnOk, if◌then◌else◌};
ghost use Rattle.answers.specs.Answer.{Gives};
ghost use Rattle.data_image.specs.Faults.{fault_of};
ghost use Rattle.data_image.specs.Inspections.{span_bytes, fit_bytes, text_bytes, entry_bytes, inspection_bytes, IsSpanSpelled, IsFitSpelled, IfSpanSpelled, IsEntrySpelled, IsInspectionSpelled, span_at, fit_at, text_at, entry_at, inspection_at};

use crate::byte::{put_byte, read_byte};
use crate::fault::{ImageError, ImageFault};
use crate::number::{put_short, read_short};
use crate::table::{TableEntry, put_table, read_table};
use data_instructions::Inspection;
use std::alloc::{AllocError, Global};
use text_ops::{Entry, Fit, Span};

// The first byte of what an entry fits.
const CHARACTERS: u8 = 1;

const ALL: u8 = 2;

const LEADING: u8 = 3;

const FIRST: u8 = 4;

// The first byte of a text of an entry, or of none.
const NO_TEXT: u8 = 0;

const TEXT: u8 = 1;

impl TableEntry for Entry {
    ghost spelled = { entry_bytes };

    ghost read_from = { entry_at };

    ghost fits = { IsEntrySpelled };

    fn put(&self, out: &mut Vec<u8>) -> Result<(), AllocError> {
        put_fit(out, self.fit)?;
        put_text(out, self.before)?;
        put_text(out, self.after)?;
        put_text(out, self.by)
    }

    #[tactic(auto, unfolding(crate::specs::Inspections::entry_at))]
    fn read(_alloc: Global, bytes: &[u8]) -> Result<(Entry, &[u8]), ImageError> {
        let (fit, rest) = read_fit(bytes)?;
        let (before, rest) = read_text(rest)?;
        let (after, rest) = read_text(rest)?;
        let (by, rest) = read_text(rest)?;
        let one = Entry {
            fit,
            before,
            after,
            by,
        };
        Ok((one, rest))
    }
}

impl TableEntry for Inspection {
    ghost spelled = { inspection_bytes };

    ghost read_from = { inspection_at };

    ghost fits = { IsInspectionSpelled };

    fn put(&self, out: &mut Vec<u8>) -> Result<(), AllocError> {
        put_short(out, self.size)?;
        put_table(out, self.counters.as_slice())?;
        put_table(out, self.tallying.as_slice())?;
        put_table(out, self.replacing.as_slice())
    }

    #[tactic(auto, unfolding(crate::specs::Inspections::inspection_at))]
    fn read(alloc: Global, bytes: &[u8]) -> Result<(Inspection, &[u8]), ImageError> {
        let (size, rest) = read_short(bytes)?;
        let (counters, rest) = read_table(alloc, rest)?;
        let (tallying, rest) = read_table(alloc, rest)?;
        let (replacing, rest) = read_table(alloc, rest)?;
        let one = Inspection {
            size,
            counters,
            tallying,
            replacing,
        };
        Ok((one, rest))
    }
}

fn put_span(out: &mut Vec<u8>, span: Span) -> Result<(), AllocError>
    ensures bytes { OnOk result (out.new.items ≡ out.old.items ++ span_bytes span) }
    ensures fits { IsSpanSpelled span }
{
    put_short(out, span.start)?;
    put_short(out, span.length)
}

#[tactic(auto, unfolding(crate::specs::Inspections::span_at))]
fn read_span(bytes: &[u8]) -> Result<(Span, &[u8]), ImageError>
    ensures { Gives (λ x. (x.0, x.1.now)) fault_of result (span_at bytes.now) }
{
    let (start, rest) = read_short(bytes)?;
    let (length, rest) = read_short(rest)?;
    Ok((Span { start, length }, rest))
}

fn put_fitting(out: &mut Vec<u8>, byte: u8, text: Span) -> Result<(), AllocError>
    ensures bytes { OnOk result (out.new.items ≡ out.old.items ++ (byte ∷ span_bytes text)) }
    ensures fits { IsSpanSpelled text }
{
    put_byte(out, byte)?;
    put_span(out, text)
}

fn put_fit(out: &mut Vec<u8>, fit: Fit) -> Result<(), AllocError>
    ensures bytes { OnOk result (out.new.items ≡ out.old.items ++ fit_bytes fit) }
    ensures fits { IsFitSpelled fit }
{
    match fit {
        Fit::Characters => put_byte(out, CHARACTERS),
        Fit::All(text) => put_fitting(out, ALL, text),
        Fit::Leading(text) => put_fitting(out, LEADING, text),
        Fit::First(text) => put_fitting(out, FIRST, text),
    }
}

/// The fit of a text whose first byte this is: the first one where it is no other.
fn text_fit(byte: u8, text: Span) -> Fit
    ensures { result ≡ if byte == 2 then Fit.All text else if byte == 3 then Fit.Leading text
        else Fit.First text }
{
    match byte {
        ALL => Fit::All(text),
        LEADING => Fit::Leading(text),
        _ => Fit::First(text),
    }
}

#[tactic(auto, unfolding(crate::specs::Inspections::fit_at))]
fn read_fit(bytes: &[u8]) -> Result<(Fit, &[u8]), ImageError>
    ensures { Gives (λ x. (x.0, x.1.now)) fault_of result (fit_at bytes.now) }
{
    let (byte, rest) = read_byte(bytes)?;
    match byte {
        CHARACTERS => Ok((Fit::Characters, rest)),
        ALL | LEADING | FIRST => {
            let (text, rest) = read_span(rest)?;
            Ok((text_fit(byte, text), rest))
        }
        _ => Err(ImageError::Refused(ImageFault::Value)),
    }
}

fn put_text(out: &mut Vec<u8>, text: Option<Span>) -> Result<(), AllocError>
    ensures bytes { OnOk result (out.new.items ≡ out.old.items ++ text_bytes text) }
    ensures fits { IfSpanSpelled text }
{
    match text {
        None => put_byte(out, NO_TEXT),
        Some(text) => put_fitting(out, TEXT, text),
    }
}

#[tactic(auto, unfolding(crate::specs::Inspections::text_at))]
fn read_text(bytes: &[u8]) -> Result<(Option<Span>, &[u8]), ImageError>
    ensures { Gives (λ x. (x.0, x.1.now)) fault_of result (text_at bytes.now) }
{
    let (byte, rest) = read_byte(bytes)?;
    match byte {
        NO_TEXT => Ok((None, rest)),
        TEXT => {
            let (text, rest) = read_span(rest)?;
            Ok((Some(text), rest))
        }
        _ => Err(ImageError::Refused(ImageFault::Value)),
    }
}
