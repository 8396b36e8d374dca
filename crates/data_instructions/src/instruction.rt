//! The instructions on data.

use crate::calculation::Calculation;
use crate::gather::Gather;
use crate::index::{InspectionIndex, ItemIndex, NumberIndex, SenderIndex, TextIndex};
use crate::part::Part;
use crate::test::Test;
use std::mem::size_of;

/// An instruction that uses none of the budget, and after which the next one comes, unless it ends in a fault.
#[derive(Clone, Copy)]
pub enum DataInstruction {
    /// Puts the place of an item, its first occurrence, on the stack of places.
    Place {
        item: ItemIndex,
    },
    /// Takes a subscript off the stack of numbers, and moves the newest place to the occurrence that it names. Fault 91
    /// where it is out of its range, and 90 where it is no integer. The stride is in bytes.
    Index {
        stride: u32,
        count: u32,
    },
    /// Takes a place, and puts the number there on the stack of numbers. Fault 90 where there is none.
    Push,
    /// Puts a numeric literal on the stack of numbers.
    Literal {
        number: NumberIndex,
    },
    /// Computes with numbers of the stack.
    Calculate(Calculation),
    /// Takes the newest number and a place, and stores the number there as arithmetic statements do (COBOL-85, Nucleus, "The
    /// ROUNDED phrase", "The ON SIZE ERROR phrase"); an edited item is edited by its picture. Fault 90 where the item is neither
    /// numeric nor numeric edited. After a size error the truth is true: then nothing is stored where an item is kept or there
    /// is no number, and else the low digits.
    Store {
        rounded: bool,
        keep: bool,
    },
    /// The truth becomes false.
    ClearTruth,
    /// Sets the truth by what is asked.
    Test(Test),
    /// Where the truth is true, the newest number becomes none.
    VoidIfTrue,
    /// Takes a place, and keeps its bytes as the sender.
    Take,
    /// Keeps a literal as the sender.
    TakeLiteral {
        literal: SenderIndex,
    },
    /// Takes a place, and moves the sender there; an edited item is edited by its picture. Fault 90 where a number is wanted
    /// of bytes that hold none.
    Move,
    /// Takes a place, and adds what DISPLAY shows of it to the line. Fault 90 where a numeric item holds no number.
    Append,
    /// Adds a text to the line.
    AppendLiteral {
        text: TextIndex,
    },
    /// Takes a place, and puts bytes of a text there. The next text of the table marks them: where it has a 0 the byte there
    /// stays.
    Overlay {
        text: TextIndex,
    },
    /// Takes a place away.
    DropPlace,
    /// Adds part of a text to the line.
    Gather(Gather),
    /// Makes a part of the newest place.
    Part(Part),
    /// Takes the pointer's place, if there is one, and the receiver's, and puts the line into the receiver as STRING does
    /// (COBOL-85, Nucleus, "The STRING statement"). The truth is whether there was an overflow, and the line is empty then.
    /// Fault 90 where the pointer holds no integer.
    String {
        pointer: bool,
    },
    /// Takes the places of an inspection's counters, the last one's first, and its subject's, and does what INSPECT does (COBOL-85,
    /// Nucleus, "The INSPECT statement") with the texts in the line, cut or padded with spaces to their size. The line is empty then.
    /// Fault 90 where a counter holds no number.
    Inspect {
        inspection: InspectionIndex,
    },
    /// Takes the place of an inspection's subject, and does what INSPECT CONVERTING does there by the first entry of REPLACING, with
    /// the texts in the line, cut or padded with spaces to their size. The line is empty then.
    Convert {
        inspection: InspectionIndex,
    },
    /// The same as `Inspect`, after so many numbers are taken: of each text that was measured, its length and, below it, where it
    /// begins. Spans that begin there become as short, and what replaces such a text, too.
    InspectMeasured {
        inspection: InspectionIndex,
        numbers: u32,
    },
    /// The same as `Convert`, after so many numbers are taken.
    ConvertMeasured {
        inspection: InspectionIndex,
        numbers: u32,
    },
}

// Code is read in order, so an instruction has few bytes.
const _: () = prove!(size_of::<DataInstruction>() <= 12);
