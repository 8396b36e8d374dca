//! Instructions on data, in an image.

ghost use Rattle.std.specs.Prelude.{◌≡◌, ◌==◌, ◌++◌, ◌∷◌, List, [], OnOk, if◌then◌else◌};
ghost use Rattle.answers.specs.Answer.{Gives};
ghost use Rattle.data_image.specs.Faults.{fault_of};
ghost use Rattle.data_image.specs.Spelling.{short_bytes, IsByte, FitsFourBytes};
ghost use Rattle.data_image.specs.Instructions as spec;
ghost use Rattle.data_image.specs.Instructions.{calculation_bytes, data_instruction_bytes, data_instruction_at, index_at, truncate_at, inspect_measured, convert_measured, measured_from, text_from, test_from, instruction_from, HasNumber, HasShorts};
ghost use Rattle.data_image.specs.Gathers.{overlay, up_to_text, text_up_to_place, inspect, convert};
ghost use Rattle.data_image.specs.Parts.{part_fixed};
ghost use Rattle.data_image.specs.Tests.{compare, compare_numbers, or_equal, or_within, compare_literal_at};

use crate::byte::{found, put_byte, read_byte};
use crate::fault::ImageError;
use crate::gather::{
    GATHER_BYTES, MEASURED, SIZED, STRING, STRING_POINTER, TEXT_UP_TO_PLACE, UP_TO_PLACE,
    UP_TO_TEXT, put_gather, string_byte,
};
use crate::number::{put_naming, put_short, read_short};
use crate::part::{PART_COUNTED, PART_FIXED, PART_REST, put_part};
use crate::table::TableEntry;
use crate::test::{
    CLASS, COMPARE, COMPARE_LITERAL, COMPARE_NUMBERS, INVERT, OR_EQUAL, OR_WITHIN, put_test,
    read_class, read_relation,
};
use data_instructions::{
    Calculation, DataInstruction, Gather, InspectionIndex, ItemIndex, NumberIndex, Part,
    SenderIndex, Test, TextIndex,
};
use source_tree::Relation;
use std::alloc::{AllocError, Global};

// The first byte of each instruction in an image.
const PLACE: u8 = 16;

const INDEX: u8 = 17;

const PUSH: u8 = 18;

const LITERAL: u8 = 19;

const TAKE: u8 = 20;

const TAKE_LITERAL: u8 = 21;

const MOVE: u8 = 22;

const APPEND: u8 = 23;

const APPEND_LITERAL: u8 = 24;

const CLEAR_TRUTH: u8 = 25;

const VOID_IF_TRUE: u8 = 26;

const STORE: u8 = 28;

const STORE_ROUNDED: u8 = 29;

const STORE_KEEP: u8 = 30;

const STORE_ROUNDED_KEEP: u8 = 31;

const ADD: u8 = 32;

const SUBTRACT: u8 = 33;

const MULTIPLY: u8 = 34;

const DIVIDE: u8 = 35;

const NEGATE: u8 = 36;

const TRUNCATE: u8 = 37;

const DUPLICATE: u8 = 38;

const DISCARD: u8 = 39;

const OVERLAY: u8 = 60;

const DROP_PLACE: u8 = 61;

const INSPECT: u8 = 69;

const CONVERT: u8 = 73;

const INSPECT_MEASURED: u8 = 75;

const CONVERT_MEASURED: u8 = 76;

impl TableEntry for DataInstruction {
    ghost spelled = { data_instruction_bytes };

    ghost read_from = { data_instruction_at };

    ghost fits = { HasShorts };

    fn put(&self, out: &mut Vec<u8>) -> Result<(), AllocError> {
        match *self {
            DataInstruction::Place { item } => put_naming(out, PLACE, item.number),
            DataInstruction::Index { stride, count } => put_index(out, stride, count),
            DataInstruction::Push => put_byte(out, PUSH),
            DataInstruction::Literal { number } => put_naming(out, LITERAL, number.number),
            DataInstruction::Calculate(one) => put_calculation(out, one),
            DataInstruction::Test(one) => put_test(out, one),
            DataInstruction::Store { rounded, keep } => put_byte(out, store_byte(rounded, keep)),
            DataInstruction::ClearTruth => put_byte(out, CLEAR_TRUTH),
            DataInstruction::VoidIfTrue => put_byte(out, VOID_IF_TRUE),
            DataInstruction::Take => put_byte(out, TAKE),
            DataInstruction::TakeLiteral { literal } => {
                put_naming(out, TAKE_LITERAL, literal.number)
            }
            DataInstruction::Move => put_byte(out, MOVE),
            DataInstruction::Append => put_byte(out, APPEND),
            DataInstruction::AppendLiteral { text } => put_naming(out, APPEND_LITERAL, text.number),
            DataInstruction::Overlay { text } => put_naming(out, OVERLAY, text.number),
            DataInstruction::DropPlace => put_byte(out, DROP_PLACE),
            DataInstruction::Gather(one) => put_gather(out, one),
            DataInstruction::Part(one) => put_part(out, one),
            DataInstruction::String { pointer } => put_byte(out, string_byte(pointer)),
            DataInstruction::Inspect { inspection } => put_naming(out, INSPECT, inspection.number),
            DataInstruction::Convert { inspection } => put_naming(out, CONVERT, inspection.number),
            DataInstruction::InspectMeasured {
                inspection,
                numbers,
            } => put_measured(out, INSPECT_MEASURED, inspection, numbers),
            DataInstruction::ConvertMeasured {
                inspection,
                numbers,
            } => put_measured(out, CONVERT_MEASURED, inspection, numbers),
        }
    }

    #[tactic(auto, unfolding(crate::specs::Instructions::data_instruction_at))]
    fn read(_alloc: Global, bytes: &[u8]) -> Result<(DataInstruction, &[u8]), ImageError> {
        let (byte, rest) = read_byte(bytes)?;
        read_from(byte, rest)
    }
}

fn put_index(out: &mut Vec<u8>, stride: u32, count: u32) -> Result<(), AllocError>
    ensures bytes { OnOk result
        (out.new.items ≡ out.old.items ++ (17 ∷ (short_bytes stride ++ short_bytes count))) }
    ensures fits { FitsFourBytes stride × FitsFourBytes count }
{
    put_byte(out, INDEX)?;
    put_short(out, stride)?;
    put_short(out, count)
}

/// An inspection, and how many numbers are taken.
fn put_measured(
    out: &mut Vec<u8>,
    first: u8,
    inspection: InspectionIndex,
    numbers: u32,
) -> Result<(), AllocError>
    ensures bytes { OnOk result (out.new.items ≡ out.old.items
        ++ (first ∷ (short_bytes inspection.number ++ short_bytes numbers))) }
    ensures fits { FitsFourBytes inspection.number × FitsFourBytes numbers }
{
    put_naming(out, first, inspection.number)?;
    put_short(out, numbers)
}

fn put_truncate(out: &mut Vec<u8>, scale: u8) -> Result<(), AllocError>
    ensures bytes { OnOk result (out.new.items ≡ out.old.items ++ (37 ∷ scale ∷ [])) }
    ensures fits { IsByte scale }
{
    put_byte(out, TRUNCATE)?;
    put_byte(out, scale)
}

fn put_calculation(out: &mut Vec<u8>, one: Calculation) -> Result<(), AllocError>
    ensures bytes { OnOk result (out.new.items ≡ out.old.items ++ calculation_bytes one) }
    ensures fits { HasNumber one }
{
    match one {
        Calculation::Add => put_byte(out, ADD),
        Calculation::Subtract => put_byte(out, SUBTRACT),
        Calculation::Multiply => put_byte(out, MULTIPLY),
        Calculation::Divide => put_byte(out, DIVIDE),
        Calculation::Negate => put_byte(out, NEGATE),
        Calculation::Truncate { scale } => put_truncate(out, scale),
        Calculation::Duplicate { depth } => put_naming(out, DUPLICATE, depth),
        Calculation::Discard => put_byte(out, DISCARD),
    }
}

/// The first byte of a store.
fn store_byte(rounded: bool, keep: bool) -> u8
    ensures { result ≡ spec.store_byte rounded keep }
{
    match (rounded, keep) {
        (false, false) => STORE,
        (true, false) => STORE_ROUNDED,
        (false, true) => STORE_KEEP,
        (true, true) => STORE_ROUNDED_KEEP,
    }
}

fn store(rounded: bool, keep: bool) -> DataInstruction
    ensures { result ≡ spec.store rounded keep }
{
    DataInstruction::Store { rounded, keep }
}

/// An instruction of one byte.
#[tactic(auto, unfolding(crate::specs::Instructions::plain_instruction_of))]
fn plain_instruction_of(byte: u8) -> Option<DataInstruction>
    ensures { result ≡ spec.plain_instruction_of byte }
{
    match byte {
        PUSH => Some(DataInstruction::Push),
        TAKE => Some(DataInstruction::Take),
        MOVE => Some(DataInstruction::Move),
        APPEND => Some(DataInstruction::Append),
        CLEAR_TRUTH => Some(DataInstruction::ClearTruth),
        VOID_IF_TRUE => Some(DataInstruction::VoidIfTrue),
        STORE => Some(store(false, false)),
        STORE_ROUNDED => Some(store(true, false)),
        STORE_KEEP => Some(store(false, true)),
        STORE_ROUNDED_KEEP => Some(store(true, true)),
        ADD => Some(DataInstruction::Calculate(Calculation::Add)),
        SUBTRACT => Some(DataInstruction::Calculate(Calculation::Subtract)),
        MULTIPLY => Some(DataInstruction::Calculate(Calculation::Multiply)),
        DIVIDE => Some(DataInstruction::Calculate(Calculation::Divide)),
        NEGATE => Some(DataInstruction::Calculate(Calculation::Negate)),
        DISCARD => Some(DataInstruction::Calculate(Calculation::Discard)),
        INVERT => Some(DataInstruction::Test(Test::Invert)),
        DROP_PLACE => Some(DataInstruction::DropPlace),
        GATHER_BYTES => Some(DataInstruction::Gather(Gather::Bytes)),
        UP_TO_PLACE => Some(DataInstruction::Gather(Gather::UpToPlace)),
        STRING => Some(DataInstruction::String { pointer: false }),
        STRING_POINTER => Some(DataInstruction::String { pointer: true }),
        SIZED => Some(DataInstruction::Gather(Gather::Sized)),
        PART_COUNTED => Some(DataInstruction::Part(Part::Counted)),
        PART_REST => Some(DataInstruction::Part(Part::Rest)),
        MEASURED => Some(DataInstruction::Gather(Gather::Measured)),
        _ => None,
    }
}

fn read_index(bytes: &[u8]) -> Result<(DataInstruction, &[u8]), ImageError>
    ensures { Gives (λ x. (x.0, x.1.now)) fault_of result (index_at bytes.now) }
{
    let (stride, rest) = read_short(bytes)?;
    let (count, rest) = read_short(rest)?;
    Ok((DataInstruction::Index { stride, count }, rest))
}

/// The instruction with texts that were measured whose first byte this is: `convert measured` where it is not the other one.
fn measured_instruction(byte: u8, inspection: InspectionIndex, numbers: u32) -> DataInstruction
    ensures { result ≡ if byte == 75 then inspect_measured inspection numbers
        else convert_measured inspection numbers }
{
    if byte == INSPECT_MEASURED {
        DataInstruction::InspectMeasured {
            inspection,
            numbers,
        }
    } else {
        DataInstruction::ConvertMeasured {
            inspection,
            numbers,
        }
    }
}

fn read_truncate(bytes: &[u8]) -> Result<(DataInstruction, &[u8]), ImageError>
    ensures { Gives (λ x. (x.0, x.1.now)) fault_of result (truncate_at bytes.now) }
{
    let (scale, rest) = read_byte(bytes)?;
    let one = Calculation::Truncate { scale };
    Ok((DataInstruction::Calculate(one), rest))
}

fn read_compare_literal(bytes: &[u8]) -> Result<(DataInstruction, &[u8]), ImageError>
    ensures { Gives (λ x. (x.0, x.1.now)) fault_of result (compare_literal_at bytes.now) }
{
    let (number, rest) = read_short(bytes)?;
    let (relation, rest) = read_relation(rest)?;
    let literal = SenderIndex { number };
    let one = Test::CompareLiteral { relation, literal };
    Ok((DataInstruction::Test(one), rest))
}

/// The instruction with texts that were measured whose first byte this is, or what a byte is alone.
fn read_measured(byte: u8, bytes: &[u8]) -> Result<(DataInstruction, &[u8]), ImageError>
    ensures { Gives (λ x. (x.0, x.1.now)) fault_of result (measured_from byte bytes.now) }
{
    match byte {
        INSPECT_MEASURED | CONVERT_MEASURED => {
            let (number, rest) = read_short(bytes)?;
            let (numbers, rest) = read_short(rest)?;
            let inspection = InspectionIndex { number };
            Ok((measured_instruction(byte, inspection, numbers), rest))
        }
        _ => Ok((found(plain_instruction_of(byte))?, bytes)),
    }
}

/// The instruction on texts with a number whose first byte this is: one of a part where it is no other.
fn text_instruction(byte: u8, number: u32) -> DataInstruction
    ensures { result ≡ if byte == 60 then overlay number
        else if byte == 64 then up_to_text number
        else if byte == 65 then text_up_to_place number
        else if byte == 69 then inspect number
        else if byte == 73 then convert number
        else part_fixed number }
{
    match byte {
        OVERLAY => DataInstruction::Overlay {
            text: TextIndex { number },
        },
        UP_TO_TEXT => DataInstruction::Gather(Gather::UpToText {
            delimiter: TextIndex { number },
        }),
        TEXT_UP_TO_PLACE => DataInstruction::Gather(Gather::TextUpToPlace {
            text: TextIndex { number },
        }),
        INSPECT => DataInstruction::Inspect {
            inspection: InspectionIndex { number },
        },
        CONVERT => DataInstruction::Convert {
            inspection: InspectionIndex { number },
        },
        _ => DataInstruction::Part(Part::Fixed { size: number }),
    }
}

/// The instruction on texts with a number whose first byte this is, or one with texts that were measured.
fn read_text(byte: u8, bytes: &[u8]) -> Result<(DataInstruction, &[u8]), ImageError>
    ensures { Gives (λ x. (x.0, x.1.now)) fault_of result (text_from byte bytes.now) }
{
    match byte {
        OVERLAY | UP_TO_TEXT | TEXT_UP_TO_PLACE | INSPECT | CONVERT | PART_FIXED => {
            let (number, rest) = read_short(bytes)?;
            Ok((text_instruction(byte, number), rest))
        }
        _ => read_measured(byte, bytes),
    }
}

/// The test of a relation whose first byte this is: `compare numbers` where it is not the other one.
fn relation_test(byte: u8, relation: Relation) -> DataInstruction
    ensures { result ≡ if byte == 40 then compare relation else compare_numbers relation }
{
    if byte == COMPARE {
        DataInstruction::Test(Test::Compare { relation })
    } else {
        DataInstruction::Test(Test::CompareNumbers { relation })
    }
}

/// The test that goes on with a literal whose first byte this is: `or within` where it is not the other one.
fn further_test(byte: u8, number: u32) -> DataInstruction
    ensures { result ≡ if byte == 44 then or_equal number else or_within number }
{
    let literal = SenderIndex { number };
    if byte == OR_EQUAL {
        DataInstruction::Test(Test::OrEqual { literal })
    } else {
        DataInstruction::Test(Test::OrWithin { first: literal })
    }
}

/// The test whose first byte this is, or another instruction.
fn read_test(byte: u8, bytes: &[u8]) -> Result<(DataInstruction, &[u8]), ImageError>
    ensures { Gives (λ x. (x.0, x.1.now)) fault_of result (test_from byte bytes.now) }
{
    match byte {
        COMPARE | COMPARE_NUMBERS => {
            let (relation, rest) = read_relation(bytes)?;
            Ok((relation_test(byte, relation), rest))
        }
        COMPARE_LITERAL => read_compare_literal(bytes),
        CLASS => {
            let (class, rest) = read_class(bytes)?;
            Ok((DataInstruction::Test(Test::Class { class }), rest))
        }
        OR_EQUAL | OR_WITHIN => {
            let (number, rest) = read_short(bytes)?;
            Ok((further_test(byte, number), rest))
        }
        _ => read_text(byte, bytes),
    }
}

/// The instruction with a number whose first byte this is: `duplicate` where it is no other.
fn naming_instruction(byte: u8, number: u32) -> DataInstruction
    ensures { result ≡ if byte == 16 then spec.place_instruction number
        else if byte == 19 then spec.literal number
        else if byte == 21 then spec.take_literal number
        else if byte == 24 then spec.append_literal number
        else spec.duplicate number }
{
    match byte {
        PLACE => DataInstruction::Place {
            item: ItemIndex { number },
        },
        LITERAL => DataInstruction::Literal {
            number: NumberIndex { number },
        },
        TAKE_LITERAL => DataInstruction::TakeLiteral {
            literal: SenderIndex { number },
        },
        APPEND_LITERAL => DataInstruction::AppendLiteral {
            text: TextIndex { number },
        },
        _ => DataInstruction::Calculate(Calculation::Duplicate { depth: number }),
    }
}

/// The instruction whose first byte this is.
fn read_from(byte: u8, bytes: &[u8]) -> Result<(DataInstruction, &[u8]), ImageError>
    ensures { Gives (λ x. (x.0, x.1.now)) fault_of result (instruction_from byte bytes.now) }
{
    match byte {
        PLACE | LITERAL | TAKE_LITERAL | APPEND_LITERAL | DUPLICATE => {
            let (number, rest) = read_short(bytes)?;
            Ok((naming_instruction(byte, number), rest))
        }
        INDEX => read_index(bytes),
        TRUNCATE => read_truncate(bytes),
        _ => read_test(byte, bytes),
    }
}
