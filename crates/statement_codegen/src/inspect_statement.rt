//! The code of INSPECT (COBOL-85, Nucleus, "The INSPECT statement").

ghost use Rattle.std.specs.Prelude.{◌≡◌, ◌+◌, ◌++◌, [], ◌∷◌, length, map, replicate, false, None, IfOk, OnOk};
ghost use Rattle.source_tree.specs.declared.inspect_statement.Replacing.TheVariants as replacing;
ghost use Rattle.source_tree.specs.declared.inspect_statement.Tallied.TheVariants as tallied;
ghost use Rattle.source_tree.specs.Broken.{each};
ghost use Rattle.source_tree.specs.Display.{figurative_byte};
ghost use Rattle.source_tree.specs.NameRules.{reference_rules};
ghost use Rattle.source_tree.specs.Converting.{convert_rules};
ghost use Rattle.source_tree.specs.InspectRules as rules;
ghost use Rattle.source_tree.specs.InspectLayout as layout;
ghost use Rattle.declarations.specs.Named.{items_in};
ghost use Rattle.condition_codegen.specs.Fragments.{append};
ghost use Rattle.condition_codegen.specs.DataCode.{text_fragment};
ghost use Rattle.data_instructions.specs.InspectCodes as codes;
ghost use Rattle.statement_codegen.specs.InspectCode as spec;

use crate::display_statement::emit_text;
use code_image::Code;
use condition_codegen::{Emitter, emit_work, entry_number, figurative, literal_text};
use data_instructions::{DataInstruction, Gather, Inspection, InspectionIndex};
use source_tree::{
    Converting, InspectStatement, Limits, LiteralValue, Occurrences, Operand, Reference,
    ReplacedText, Replacing, Tallied, TalliedText, Tallying,
};
use sqlite_items::Items;
use std::alloc::{AllocError, Global};
use text_ops::{Entry, Fit, Span};

/// INSPECT, after its `tick`.
pub fn emit_inspect(
    emitter: &Emitter<'_>,
    code: &mut Code,
    one: &InspectStatement,
) -> Result<(), AllocError>
    requires rules { rules.inspect_rules (items_in emitter.now.declarations.now) one.now ≡ [] }
    ensures { OnOk result (code.new ≡ append code.old
        (spec.inspect_fragment (items_in emitter.now.declarations.now) one.now code.old)) }
{
    emitter.emit_reference(code, &one.subject)?;
    let mut counters = Items::new(emitter.alloc);
    let mut tallying = Entries {
        line: NOTHING,
        entries: Items::new(emitter.alloc),
    };
    emit_counters(
        emitter,
        code,
        &mut tallying,
        &mut counters,
        one.tallying.as_slice(),
    )?;
    let mut replacing = Entries {
        line: tallying.line,
        entries: Items::new(emitter.alloc),
    };
    emit_all_replaced(emitter, code, &mut replacing, one.replacing.as_slice())?;
    let inspection = Inspection {
        size: replacing.line.size,
        counters,
        tallying: tallying.entries,
        replacing: replacing.entries,
    };
    emit_inspection(code, inspection, replacing.line.measured)
}

/// INSPECT CONVERTING, after its `tick`.
pub fn emit_convert(
    emitter: &Emitter<'_>,
    code: &mut Code,
    one: &Converting,
) -> Result<(), AllocError>
    requires rules { convert_rules (items_in emitter.now.declarations.now) one.now ≡ [] }
    ensures { OnOk result (code.new ≡ append code.old
        (spec.convert_fragment (items_in emitter.now.declarations.now) one.now code.old)) }
{
    emitter.emit_reference(code, &one.subject)?;
    let mut made = Entries {
        line: NOTHING,
        entries: Items::new(emitter.alloc),
    };
    emit_replaced_text(emitter, code, &mut made, Occurrences::All, &one.texts)?;
    let inspection = Inspection {
        size: made.line.size,
        counters: Items::new(emitter.alloc),
        tallying: Items::new(emitter.alloc),
        replacing: made.entries,
    };
    emit_conversion(code, inspection, made.line.measured)
}

/// An item's bytes.
fn emit_bytes(
    emitter: &Emitter<'_>,
    code: &mut Code,
    line: &mut TextLine,
    one: &Reference,
) -> Result<Span, AllocError>
    requires rules { reference_rules (items_in emitter.now.declarations.now) rules.inspected_item
        one.now ≡ [] }
    ensures { IfOk result (λ span. spec.TextMade (items_in emitter.now.declarations.now)
        (layout.Bytes one.now) code.old code.new line.old line.new span) }
{
    let measured = emitter.is_measured(one);
    emitter.emit_taking(code, DataInstruction::Gather(gather(measured)), one)?;
    line.with(emitter.length_shown(one), measured)
}

/// A text.
fn emit_source(
    emitter: &Emitter<'_>,
    code: &mut Code,
    line: &mut TextLine,
    one: &Operand,
) -> Result<Span, AllocError>
    requires rules { rules.inspected_rules (items_in emitter.now.declarations.now) one.now ≡ [] }
    ensures { IfOk result (λ span. spec.TextMade (items_in emitter.now.declarations.now)
        (layout.source one.now) code.old code.new line.old line.new span) }
{
    match one {
        Operand::Item(reference) => emit_bytes(emitter, code, line, reference),
        Operand::Literal(literal) => {
            emit_characters(code, line, literal_text(emitter.alloc, &literal.value)?)
        }
    }
}

/// What replaces a text of this size.
fn emit_by(
    emitter: &Emitter<'_>,
    code: &mut Code,
    line: &mut TextLine,
    size: u32,
    one: &Operand,
) -> Result<Span, AllocError>
    requires rules { rules.inspected_rules (items_in emitter.now.declarations.now) one.now ≡ [] }
    ensures { IfOk result (λ span. spec.TextMade (items_in emitter.now.declarations.now)
        (layout.replacing_text size one.now) code.old code.new line.old line.new span) }
{
    match one {
        Operand::Item(reference) => emit_bytes(emitter, code, line, reference),
        Operand::Literal(literal) => {
            emit_characters(
                code,
                line,
                replacing_literal(emitter.alloc, size, &literal.value)?,
            )
        }
    }
}

/// The text of BEFORE or AFTER, if it stands.
fn emit_limit(
    emitter: &Emitter<'_>,
    code: &mut Code,
    line: &mut TextLine,
    one: &Option<Operand>,
) -> Result<Option<Span>, AllocError>
    requires rules { rules.limit_rules (items_in emitter.now.declarations.now) one.now ≡ [] }
    ensures { IfOk result (λ span. spec.LimitMade (items_in emitter.now.declarations.now) one.now
        code.old code.new line.old line.new span) }
{
    match one {
        Some(operand) => Ok(Some(emit_source(emitter, code, line, operand)?)),
        None => Ok(None),
    }
}

/// The texts of BEFORE and AFTER, in the order in which they stand.
fn emit_limits(
    emitter: &Emitter<'_>,
    code: &mut Code,
    line: &mut TextLine,
    one: &Limits,
) -> Result<LimitSpans, AllocError>
    requires rules { rules.limits_rules (items_in emitter.now.declarations.now) one.now ≡ [] }
    ensures { IfOk result (λ made. spec.LimitsMade (items_in emitter.now.declarations.now) one.now
        code.old code.new line.old line.new made.before made.after) }
{
    if one.after_first {
        let after = emit_limit(emitter, code, line, &one.after)?;
        let before = emit_limit(emitter, code, line, &one.before)?;
        return Ok(LimitSpans { before, after });
    }
    let before = emit_limit(emitter, code, line, &one.before)?;
    let after = emit_limit(emitter, code, line, &one.after)?;
    Ok(LimitSpans { before, after })
}

/// A text that is counted.
fn emit_tallied_text(
    emitter: &Emitter<'_>,
    code: &mut Code,
    made: &mut Entries,
    how: Occurrences,
    one: &TalliedText,
) -> Result<(), AllocError>
    requires rules { rules.tallied_text_rules (items_in emitter.now.declarations.now) one.now
        ≡ [] }
    ensures { OnOk result
        (spec.Puts (items_in emitter.now.declarations.now) (layout.tallied_text how one.now ∷ [])
        code.old code.new made.old made.new) }
{
    let text = emit_source(emitter, code, &mut made.line, &one.text)?;
    let limits = emit_limits(emitter, code, &mut made.line, &one.limits)?;
    made.entries.push(Entry {
        fit: fit_of(how, text),
        before: limits.before,
        after: limits.after,
        by: None,
    })
}

/// Texts that are counted, in order.
fn emit_tallied_texts(
    emitter: &Emitter<'_>,
    code: &mut Code,
    made: &mut Entries,
    how: Occurrences,
    all: &[TalliedText],
) -> Result<(), AllocError>
    requires rules { each (rules.tallied_text_rules (items_in emitter.now.declarations.now))
        all.now ≡ [] }
    ensures { OnOk result (spec.Puts (items_in emitter.now.declarations.now)
        (layout.all_inspected (λ one. layout.tallied_text how one ∷ []) all.now) code.old
        code.new made.old made.new) }
{
    for one in all {
        emit_tallied_text(emitter, code, made, how, one)?;
    }
    Ok(())
}

/// Any character that is counted.
fn emit_any_tallied(
    emitter: &Emitter<'_>,
    code: &mut Code,
    made: &mut Entries,
    limits: &Limits,
) -> Result<(), AllocError>
    requires rules { rules.limits_rules (items_in emitter.now.declarations.now) limits.now ≡ [] }
    ensures { OnOk result (spec.Puts (items_in emitter.now.declarations.now)
        (layout.tallied_entries (tallied.Characters limits.now)) code.old code.new made.old
        made.new) }
{
    let limits = emit_limits(emitter, code, &mut made.line, limits)?;
    made.entries.push(Entry {
        fit: Fit::Characters,
        before: limits.before,
        after: limits.after,
        by: None,
    })
}

/// What is counted after one ALL, LEADING or CHARACTERS.
fn emit_tallied(
    emitter: &Emitter<'_>,
    code: &mut Code,
    made: &mut Entries,
    one: &Tallied,
) -> Result<(), AllocError>
    requires rules { rules.tallied_rules (items_in emitter.now.declarations.now) one.now ≡ [] }
    ensures { OnOk
        result (spec.Puts (items_in emitter.now.declarations.now) (layout.tallied_entries one.now)
        code.old code.new made.old made.new) }
{
    match one {
        Tallied::Characters { limits } => emit_any_tallied(emitter, code, made, limits),
        Tallied::Texts { occurrences, texts } => {
            emit_tallied_texts(emitter, code, made, *occurrences, texts.as_slice())
        }
    }
}

/// What one counter counts, in order.
fn emit_all_tallied(
    emitter: &Emitter<'_>,
    code: &mut Code,
    made: &mut Entries,
    all: &[Tallied],
) -> Result<(), AllocError>
    requires rules { each (rules.tallied_rules (items_in emitter.now.declarations.now)) all.now
        ≡ [] }
    ensures { OnOk result (spec.Puts (items_in emitter.now.declarations.now)
        (layout.all_inspected layout.tallied_entries all.now) code.old code.new made.old
        made.new) }
{
    for one in all {
        emit_tallied(emitter, code, made, one)?;
    }
    Ok(())
}

/// A counter, and what it counts.
fn emit_counter(
    emitter: &Emitter<'_>,
    code: &mut Code,
    made: &mut Entries,
    counters: &mut Items<u32>,
    one: &Tallying,
) -> Result<(), AllocError>
    requires rules { rules.tallying_rules (items_in emitter.now.declarations.now) one.now ≡ [] }
    ensures { OnOk result (spec.Counts (items_in emitter.now.declarations.now) (one.now ∷ [])
        code.old code.new made.old made.new counters.old counters.new) }
{
    emitter.emit_reference(code, &one.counter)?;
    let before = made.entries.len();
    emit_all_tallied(emitter, code, made, one.tallied.as_slice())?;
    counters.push(entry_number(made.entries.len() - before)?)
}

/// TALLYING, counter by counter.
fn emit_counters(
    emitter: &Emitter<'_>,
    code: &mut Code,
    made: &mut Entries,
    counters: &mut Items<u32>,
    all: &[Tallying],
) -> Result<(), AllocError>
    requires rules { each (rules.tallying_rules (items_in emitter.now.declarations.now)) all.now
        ≡ [] }
    ensures { OnOk result (spec.Counts (items_in emitter.now.declarations.now) all.now code.old
        code.new made.old made.new counters.old counters.new) }
{
    for one in all {
        emit_counter(emitter, code, made, counters, one)?;
    }
    Ok(())
}

/// A text that is replaced.
fn emit_replaced_text(
    emitter: &Emitter<'_>,
    code: &mut Code,
    made: &mut Entries,
    how: Occurrences,
    one: &ReplacedText,
) -> Result<(), AllocError>
    requires rules { rules.replaced_text_rules (items_in emitter.now.declarations.now) one.now
        ≡ [] }
    ensures { OnOk result (spec.Puts (items_in emitter.now.declarations.now)
        (layout.replaced_text (items_in emitter.now.declarations.now) how one.now ∷ []) code.old
        code.new made.old made.new) }
{
    let text = emit_source(emitter, code, &mut made.line, &one.text)?;
    let by = emit_by(emitter, code, &mut made.line, text.length, &one.by)?;
    let limits = emit_limits(emitter, code, &mut made.line, &one.limits)?;
    made.entries.push(Entry {
        fit: fit_of(how, text),
        before: limits.before,
        after: limits.after,
        by: Some(by),
    })
}

/// Texts that are replaced, in order.
fn emit_replaced_texts(
    emitter: &Emitter<'_>,
    code: &mut Code,
    made: &mut Entries,
    how: Occurrences,
    all: &[ReplacedText],
) -> Result<(), AllocError>
    requires rules { each (rules.replaced_text_rules (items_in emitter.now.declarations.now))
        all.now ≡ [] }
    ensures { OnOk result (spec.Puts (items_in emitter.now.declarations.now) (layout.all_inspected
        (λ one. layout.replaced_text (items_in emitter.now.declarations.now) how one ∷ []) all.now)
        code.old code.new made.old made.new) }
{
    for one in all {
        emit_replaced_text(emitter, code, made, how, one)?;
    }
    Ok(())
}

/// Any character that is replaced.
fn emit_any_replaced(
    emitter: &Emitter<'_>,
    code: &mut Code,
    made: &mut Entries,
    by: &Operand,
    limits: &Limits,
) -> Result<(), AllocError>
    requires by { rules.inspected_rules (items_in emitter.now.declarations.now) by.now ≡ [] }
    requires limits { rules.limits_rules (items_in emitter.now.declarations.now) limits.now ≡ [] }
    ensures { OnOk
        result (spec.Puts (items_in emitter.now.declarations.now) (layout.replacing_entries
        (items_in emitter.now.declarations.now) (replacing.Characters by.now limits.now)) code.old
        code.new made.old made.new) }
{
    let by = emit_by(emitter, code, &mut made.line, 1, by)?;
    let limits = emit_limits(emitter, code, &mut made.line, limits)?;
    made.entries.push(Entry {
        fit: Fit::Characters,
        before: limits.before,
        after: limits.after,
        by: Some(by),
    })
}

/// What is replaced after one ALL, LEADING, FIRST or CHARACTERS.
fn emit_replacing(
    emitter: &Emitter<'_>,
    code: &mut Code,
    made: &mut Entries,
    one: &Replacing,
) -> Result<(), AllocError>
    requires rules { rules.replacing_rules (items_in emitter.now.declarations.now) one.now ≡ [] }
    ensures { OnOk result (spec.Puts (items_in emitter.now.declarations.now)
        (layout.replacing_entries (items_in emitter.now.declarations.now) one.now) code.old
        code.new made.old made.new) }
{
    match one {
        Replacing::Characters { by, limits } => emit_any_replaced(emitter, code, made, by, limits),
        Replacing::Texts { occurrences, texts } => {
            emit_replaced_texts(emitter, code, made, *occurrences, texts.as_slice())
        }
    }
}

/// REPLACING, in order.
fn emit_all_replaced(
    emitter: &Emitter<'_>,
    code: &mut Code,
    made: &mut Entries,
    all: &[Replacing],
) -> Result<(), AllocError>
    requires rules { each (rules.replacing_rules (items_in emitter.now.declarations.now)) all.now
        ≡ [] }
    ensures { OnOk result (spec.Puts (items_in emitter.now.declarations.now) (layout.all_inspected
        (layout.replacing_entries (items_in emitter.now.declarations.now)) all.now) code.old
        code.new made.old made.new) }
{
    for one in all {
        emit_replacing(emitter, code, made, one)?;
    }
    Ok(())
}

/// The line with the texts of an inspection.
#[derive(Clone, Copy)]
struct TextLine {
    /// In bytes.
    size: u32,
    /// How many texts have lengths that are found in the run.
    measured: u32,
}

const NOTHING: TextLine = TextLine {
    size: 0,
    measured: 0,
};

/// Entries, and the line with all texts up to theirs.
#[derive(Drop)]
struct Entries {
    line: TextLine,
    entries: Items<Entry>,
}

/// The texts of BEFORE and AFTER, if they stand.
#[derive(Clone, Copy)]
struct LimitSpans {
    before: Option<Span>,
    after: Option<Span>,
}

impl TextLine {
    /// Adds a text of this length, or of this room if its length is found in the run. A size of more than 32 bits is refused.
    fn with(&mut self, length: u32, measured: bool) -> Result<Span, AllocError>
        ensures line { OnOk result (self.new ≡ spec.longer_line length measured self.old) }
        ensures span { IfOk result (λ span. span
            ≡ record { start = self.old.size; length = length }) }
    {
        let start = self.size;
        self.size = longer(start, length)?;
        self.measured = longer(self.measured, one_if(measured))?;
        Ok(Span { start, length })
    }
}

/// The sum of two numbers. It is refused where 32 bits don't hold it.
fn longer(size: u32, text: u32) -> Result<u32, AllocError>
    ensures { IfOk result (λ end. end ≡ size + text) }
{
    entry_number(size as usize + text as usize)
}

/// How many texts are measured where one is, or none.
fn one_if(measured: bool) -> u32
    ensures { result ≡ spec.one_if measured }
{
    if measured { 1 } else { 0 }
}

/// What adds a text to the line.
fn gather(measured: bool) -> Gather
    ensures { result ≡ spec.gather measured }
{
    if measured {
        Gather::Measured
    } else {
        Gather::Sized
    }
}

fn fit_of(how: Occurrences, text: Span) -> Fit
    ensures { result ≡ layout.fit_of how text }
{
    match how {
        Occurrences::All => Fit::All(text),
        Occurrences::Leading => Fit::Leading(text),
        Occurrences::First => Fit::First(text),
    }
}

/// A byte, so many times.
fn repeated(alloc: Global, byte: u8, size: u32) -> Result<Items<u8>, AllocError>
    ensures { IfOk result (λ bytes. bytes ≡ replicate size byte) }
{
    let mut bytes = Items::new(alloc);
    for _ in 0..size {
        bytes.push(byte)?;
    }
    Ok(bytes)
}

/// The characters of a literal that replaces a text of this size: a figurative constant is as long as that.
fn replacing_literal(alloc: Global, size: u32, one: &LiteralValue) -> Result<Items<u8>, AllocError>
    ensures { IfOk result
        (λ bytes. layout.Characters bytes ≡ layout.replacing_literal size one.now) }
{
    match one {
        LiteralValue::Figurative(constant) => repeated(alloc, figurative(*constant), size),
        value => literal_text(alloc, value),
    }
}

/// Characters that are known.
fn emit_characters(
    code: &mut Code,
    line: &mut TextLine,
    bytes: Items<u8>,
) -> Result<Span, AllocError>
    ensures code { OnOk result (code.new ≡ append code.old (text_fragment bytes code.old)) }
    ensures line { OnOk result (line.new ≡ spec.longer_line (length bytes) false line.old) }
    ensures span { IfOk result (λ span. span
        ≡ record { start = line.old.size; length = length bytes }) }
{
    let length = entry_number(bytes.len())?;
    emit_text(code, bytes)?;
    line.with(length, false)
}

/// An inspection, in the table of inspections. Answers its number there.
fn put_inspection(code: &mut Code, one: Inspection) -> Result<InspectionIndex, AllocError>
    ensures code { OnOk result (code.new ≡ record code.old {
      tables = record code.old.tables { inspections = code.old.tables.inspections ++ one ∷ [] };
    }) }
    ensures index { IfOk result
        (λ index. index ≡ record { number = length code.old.tables.inspections }) }
{
    let number = entry_number(code.tables.inspections.len())?;
    code.tables.inspections.push(one)?;
    Ok(InspectionIndex { number })
}

/// The INSPECT of an inspection, after so many texts were measured.
fn emit_inspection(code: &mut Code, one: Inspection, measured: u32) -> Result<(), AllocError>
    ensures { OnOk result (code.new
        ≡ append code.old (spec.inspection_fragment one (measured + measured) code.old)) }
{
    let inspection = put_inspection(code, one)?;
    emit_work(code, inspect_by(inspection, longer(measured, measured)?))
}

/// The INSPECT CONVERTING of an inspection, after so many texts were measured.
fn emit_conversion(code: &mut Code, one: Inspection, measured: u32) -> Result<(), AllocError>
    ensures { OnOk result (code.new
        ≡ append code.old (spec.conversion_fragment one (measured + measured) code.old)) }
{
    let inspection = put_inspection(code, one)?;
    emit_work(code, convert_by(inspection, longer(measured, measured)?))
}

/// The instruction that inspects, with so many numbers.
fn inspect_by(inspection: InspectionIndex, numbers: u32) -> DataInstruction
    ensures { result ≡ codes.inspect_by inspection numbers }
{
    if numbers == 0 {
        DataInstruction::Inspect { inspection }
    } else {
        DataInstruction::InspectMeasured {
            inspection,
            numbers,
        }
    }
}

/// The instruction that converts, with so many numbers.
fn convert_by(inspection: InspectionIndex, numbers: u32) -> DataInstruction
    ensures { result ≡ codes.convert_by inspection numbers }
{
    if numbers == 0 {
        DataInstruction::Convert { inspection }
    } else {
        DataInstruction::ConvertMeasured {
            inspection,
            numbers,
        }
    }
}
