//! The machine's instructions.

ghost use Rattle.std.specs.Prelude.{◌≡◌, ◌==◌, ◌↔◌, ◌++◌, ◌∷◌, [], IsTrue, OnOk, if◌then◌else◌};
ghost use Rattle.answers.specs.Answer.{Gives};
ghost use Rattle.data_image.specs.Faults.{fault_of};
ghost use Rattle.data_image.specs.Spelling.{count_bytes, short_bytes, IsByte, IsCount, FitsFourBytes};
ghost use Rattle.code_image.specs.Demands.{NamesData, NamesCounter, NamesParagraph, NamesFile};
ghost use Rattle.file_image.specs.Spelling.{class_byte, verb_bytes, IsVerbSpelled};
ghost use Rattle.code_image.specs.Spelling.{instruction_bytes, needs_second, HasNumbers};
ghost use Rattle.code_image.specs.Reading.{tick_at, perform_at, file_instruction_at, test_status_at, instruction_at};

use crate::counter::CounterIndex;
use crate::paragraph::ParagraphIndex;
use data_image::{
    ImageError, ImageFault, TableEntry, put_byte, put_count, put_short, read_byte, read_count,
    read_short,
};
use data_instructions::{DataInstruction, DataTables, Gather};
use file_image::{FileIndex, StatusClass, put_class, put_verb, read_class, read_verb};
use records::Verb;
use std::alloc::{AllocError, Global};

/// One instruction.
#[derive(Clone, Copy)]
pub enum Instruction {
    /// Uses one of the budget, or ends the run as Budget where none is left. The statement begins in this line of the
    /// source, counted from 1.
    Tick {
        line: u32,
    },
    /// Shows the line that was made up, which is empty then.
    Show,
    /// Ends the run as Stopped.
    Stop,
    /// Sets a counter to this.
    Count {
        counter: CounterIndex,
        turns: u64,
    },
    /// Takes a number, which has to be an integer. Where it is above 0, sets a counter to one less, at most to 2^64 - 2, and the truth to
    /// true; else the truth to false.
    CountNumber {
        counter: CounterIndex,
    },
    /// Where a counter is above 0, lowers it by one and goes to the address; else goes on.
    Turn {
        counter: CounterIndex,
        to: usize,
    },
    /// Takes a place, and stores the console's next line there, cut or padded with spaces; past the end of input, spaces.
    Accept,
    /// Takes a place, and moves the day there.
    Date,
    /// Where the truth is false, goes to the address after a `join` that comes later, or back to a `tick` or `perform`; else goes on.
    Branch {
        to: usize,
    },
    /// Goes to the address after a `join` that comes later, or back to a `tick` or `perform`.
    Jump {
        to: usize,
    },
    /// Does nothing: ways meet after it.
    Join,
    /// Uses one of the budget, as `tick` does, and performs code paragraphs, from one to the `back` of another: the run comes back to
    /// the next address.
    Perform {
        line: u32,
        first: ParagraphIndex,
        last: ParagraphIndex,
    },
    /// Ends a code paragraph: where the newest `perform` that has not come back performs up to this one, goes back after it; else
    /// goes on.
    Back {
        paragraph: ParagraphIndex,
    },
    /// Does a file statement on a file of the table: stores what it leaves and its status, which is received then.
    File {
        file: FileIndex,
        verb: Verb,
    },
    /// Sets the truth to whether the last status is of this class.
    TestStatus {
        class: StatusClass,
    },
    /// Ends the run by a fault: nothing in the program takes the last status.
    Unheard,
    /// Works on data. A fault ends the run.
    Data(DataInstruction),
}

impl Instruction {
    /// Images of the first version don't have it.
    pub(crate) fn needs_second(self) -> bool
        ensures { result ≡ needs_second self }
    {
        matches!(
            self,
            Instruction::Data(
                DataInstruction::Part(_)
                    | DataInstruction::Convert { .. }
                    | DataInstruction::Gather(Gather::Measured)
                    | DataInstruction::InspectMeasured { .. }
                    | DataInstruction::ConvertMeasured { .. }
            )
        )
    }

    /// Each entry of the tables of data that it names is there.
    pub(crate) fn names_data(self, tables: &DataTables) -> bool
        ensures { IsTrue result ↔ NamesData tables.now self }
    {
        match self {
            Instruction::Data(one) => one.names_entries(tables),
            Instruction::Tick { .. }
            | Instruction::Show
            | Instruction::Stop
            | Instruction::Count { .. }
            | Instruction::CountNumber { .. }
            | Instruction::Turn { .. }
            | Instruction::Accept
            | Instruction::Date
            | Instruction::Branch { .. }
            | Instruction::Jump { .. }
            | Instruction::Join
            | Instruction::Perform { .. }
            | Instruction::Back { .. }
            | Instruction::File { .. }
            | Instruction::TestStatus { .. }
            | Instruction::Unheard => true,
        }
    }

    /// A counter that it names is one of so many.
    pub(crate) fn names_counter(self, count: usize) -> bool
        ensures { IsTrue result ↔ NamesCounter count self }
    {
        match self {
            Instruction::Count { counter, .. }
            | Instruction::CountNumber { counter }
            | Instruction::Turn { counter, .. } => counter.number < count,
            Instruction::Tick { .. }
            | Instruction::Show
            | Instruction::Stop
            | Instruction::Accept
            | Instruction::Date
            | Instruction::Branch { .. }
            | Instruction::Jump { .. }
            | Instruction::Join
            | Instruction::Perform { .. }
            | Instruction::Back { .. }
            | Instruction::File { .. }
            | Instruction::TestStatus { .. }
            | Instruction::Unheard
            | Instruction::Data(_) => true,
        }
    }

    /// A code paragraph that it names is one of so many.
    pub(crate) fn names_paragraph(self, count: usize) -> bool
        ensures { IsTrue result ↔ NamesParagraph count self }
    {
        match self {
            Instruction::Perform { first, last, .. } => first.number < count && last.number < count,
            Instruction::Back { paragraph } => paragraph.number < count,
            Instruction::Tick { .. }
            | Instruction::Show
            | Instruction::Stop
            | Instruction::Count { .. }
            | Instruction::CountNumber { .. }
            | Instruction::Turn { .. }
            | Instruction::Accept
            | Instruction::Date
            | Instruction::Branch { .. }
            | Instruction::Jump { .. }
            | Instruction::Join
            | Instruction::File { .. }
            | Instruction::TestStatus { .. }
            | Instruction::Unheard
            | Instruction::Data(_) => true,
        }
    }

    /// A file that it names is one of so many.
    pub(crate) fn names_file(self, count: usize) -> bool
        ensures { IsTrue result ↔ NamesFile count self }
    {
        match self {
            Instruction::File { file, .. } => (file.number as usize) < count,
            _ => true,
        }
    }
}

// The first byte of each instruction in an image. Those of instructions on data are others.
const TICK: u8 = 1;

const SHOW: u8 = 2;

const STOP: u8 = 3;

const COUNT: u8 = 4;

const TURN: u8 = 5;

const ACCEPT: u8 = 6;

const DATE: u8 = 7;

const BRANCH: u8 = 8;

const JUMP: u8 = 9;

const JOIN: u8 = 10;

const PERFORM: u8 = 11;

const BACK: u8 = 12;

const COUNT_NUMBER: u8 = 13;

const FILE: u8 = 14;

const TEST_STATUS: u8 = 15;

const UNHEARD: u8 = 47;

fn put_tick(out: &mut Vec<u8>, line: u32) -> Result<(), AllocError>
    ensures bytes { OnOk result (out.new.items ≡ out.old.items ++ (1 ∷ short_bytes line)) }
    ensures fits { FitsFourBytes line }
{
    out.push(TICK)?;
    put_short(out, line)
}

/// An instruction that names a counter, and the number after it.
fn put_counting(
    out: &mut Vec<u8>,
    first: u8,
    counter: CounterIndex,
    number: usize,
) -> Result<(), AllocError>
    ensures bytes { OnOk result (out.new.items
        ≡ out.old.items ++ (first ∷ (count_bytes counter.number ++ count_bytes number))) }
    ensures fits { IsCount counter.number × IsCount number }
{
    out.push(first)?;
    put_count(out, counter.number)?;
    put_count(out, number)
}

/// An instruction that names an address, a code paragraph or a counter, and nothing else.
fn put_leading(out: &mut Vec<u8>, first: u8, to: usize) -> Result<(), AllocError>
    ensures bytes { OnOk result (out.new.items ≡ out.old.items ++ (first ∷ count_bytes to)) }
    ensures fits { IsCount to }
{
    out.push(first)?;
    put_count(out, to)
}

fn put_perform(
    out: &mut Vec<u8>,
    line: u32,
    first: ParagraphIndex,
    last: ParagraphIndex,
) -> Result<(), AllocError>
    ensures bytes { OnOk result (out.new.items ≡ out.old.items
        ++ (11 ∷ (short_bytes line ++ count_bytes first.number ++ count_bytes last.number))) }
    ensures fits { FitsFourBytes line × IsCount first.number × IsCount last.number }
{
    out.push(PERFORM)?;
    put_short(out, line)?;
    put_count(out, first.number)?;
    put_count(out, last.number)
}

fn put_file(out: &mut Vec<u8>, file: FileIndex, verb: Verb) -> Result<(), AllocError>
    ensures bytes { OnOk result
        (out.new.items ≡ out.old.items ++ (14 ∷ file.number ∷ verb_bytes verb)) }
    ensures fits { IsByte file.number × IsVerbSpelled verb }
{
    out.push(FILE)?;
    out.push(file.number)?;
    put_verb(out, verb)
}

fn put_test_status(out: &mut Vec<u8>, class: StatusClass) -> Result<(), AllocError>
    ensures { OnOk result (out.new.items ≡ out.old.items ++ (15 ∷ class_byte class ∷ [])) }
{
    out.push(TEST_STATUS)?;
    put_class(out, class)
}

fn read_tick(bytes: &[u8]) -> Result<(Instruction, &[u8]), ImageError>
    ensures { Gives (λ x. (x.0, x.1.now)) fault_of result (tick_at bytes.now) }
{
    let (line, rest) = read_short(bytes)?;
    Ok((Instruction::Tick { line }, rest))
}

fn read_perform(bytes: &[u8]) -> Result<(Instruction, &[u8]), ImageError>
    ensures { Gives (λ x. (x.0, x.1.now)) fault_of result (perform_at bytes.now) }
{
    let (line, rest) = read_short(bytes)?;
    let (first, rest) = read_count(rest)?;
    let (last, rest) = read_count(rest)?;
    let first = ParagraphIndex { number: first };
    let last = ParagraphIndex { number: last };
    Ok((Instruction::Perform { line, first, last }, rest))
}

fn read_file(bytes: &[u8]) -> Result<(Instruction, &[u8]), ImageError>
    ensures { Gives (λ x. (x.0, x.1.now)) fault_of result (file_instruction_at bytes.now) }
{
    let (number, rest) = read_byte(bytes)?;
    let (verb, rest) = read_verb(rest)?;
    let file = FileIndex { number };
    Ok((Instruction::File { file, verb }, rest))
}

fn read_test_status(bytes: &[u8]) -> Result<(Instruction, &[u8]), ImageError>
    ensures { Gives (λ x. (x.0, x.1.now)) fault_of result (test_status_at bytes.now) }
{
    let (class, rest) = read_class(bytes)?;
    Ok((Instruction::TestStatus { class }, rest))
}

/// The instruction with a counter and a number whose first byte this is: `turn` where it is not the other one.
fn counting_instruction(byte: u8, counter: CounterIndex, number: usize) -> Instruction
    ensures { result ≡ if byte == 4 then Instruction.Count counter number
        else Instruction.Turn counter number }
{
    if byte == COUNT {
        Instruction::Count {
            counter,
            turns: number as u64,
        }
    } else {
        Instruction::Turn {
            counter,
            to: number,
        }
    }
}

/// The instruction with an address, a code paragraph or a counter whose first byte this is: `count number` where it is no other.
fn leading_instruction(byte: u8, number: usize) -> Instruction
    ensures { result ≡ if byte == 8 then Instruction.Branch number
        else if byte == 9 then Instruction.Jump number
        else if byte == 12 then Instruction.Back (record { number = number })
        else Instruction.CountNumber (record { number = number }) }
{
    match byte {
        BRANCH => Instruction::Branch { to: number },
        JUMP => Instruction::Jump { to: number },
        BACK => Instruction::Back {
            paragraph: ParagraphIndex { number },
        },
        _ => Instruction::CountNumber {
            counter: CounterIndex { number },
        },
    }
}

/// The instruction whose first byte this is, with the bytes after it, and those from it on.
#[tactic(auto, unfolding(crate::specs::Reading::instruction_at))]
fn read_from<'a>(
    alloc: Global,
    byte: u8,
    rest: &'a [u8],
    bytes: &'a [u8],
) -> Result<(Instruction, &'a [u8]), ImageError>
    requires { bytes.now ≡ byte ∷ rest.now }
    ensures { Gives (λ x. (x.0, x.1.now)) fault_of result (instruction_at (byte ∷ rest.now)) }
{
    match byte {
        TICK => read_tick(rest),
        SHOW => Ok((Instruction::Show, rest)),
        STOP => Ok((Instruction::Stop, rest)),
        COUNT | TURN => {
            let (number, rest) = read_count(rest)?;
            let counter = CounterIndex { number };
            let (number, rest) = read_count(rest)?;
            Ok((counting_instruction(byte, counter, number), rest))
        }
        ACCEPT => Ok((Instruction::Accept, rest)),
        DATE => Ok((Instruction::Date, rest)),
        BRANCH | JUMP | BACK | COUNT_NUMBER => {
            let (number, rest) = read_count(rest)?;
            Ok((leading_instruction(byte, number), rest))
        }
        JOIN => Ok((Instruction::Join, rest)),
        PERFORM => read_perform(rest),
        FILE => read_file(rest),
        TEST_STATUS => read_test_status(rest),
        UNHEARD => Ok((Instruction::Unheard, rest)),
        _ => {
            let (one, rest) = DataInstruction::read(alloc, bytes)?;
            Ok((Instruction::Data(one), rest))
        }
    }
}

impl TableEntry for Instruction {
    ghost spelled = { instruction_bytes };

    ghost read_from = { instruction_at };

    ghost fits = { HasNumbers };

    fn put(&self, out: &mut Vec<u8>) -> Result<(), AllocError> {
        match *self {
            Instruction::Tick { line } => put_tick(out, line),
            Instruction::Show => put_byte(out, SHOW),
            Instruction::Stop => put_byte(out, STOP),
            Instruction::Count { counter, turns } => {
                put_counting(out, COUNT, counter, turns as usize)
            }
            Instruction::Turn { counter, to } => put_counting(out, TURN, counter, to),
            Instruction::Accept => put_byte(out, ACCEPT),
            Instruction::Date => put_byte(out, DATE),
            Instruction::Branch { to } => put_leading(out, BRANCH, to),
            Instruction::Jump { to } => put_leading(out, JUMP, to),
            Instruction::Join => put_byte(out, JOIN),
            Instruction::Perform { line, first, last } => put_perform(out, line, first, last),
            Instruction::Back { paragraph } => put_leading(out, BACK, paragraph.number),
            Instruction::CountNumber { counter } => put_leading(out, COUNT_NUMBER, counter.number),
            Instruction::File { file, verb } => put_file(out, file, verb),
            Instruction::TestStatus { class } => put_test_status(out, class),
            Instruction::Unheard => put_byte(out, UNHEARD),
            Instruction::Data(one) => one.put(out),
        }
    }

    #[tactic(auto, unfolding(crate::specs::Reading::instruction_at))]
    fn read(alloc: Global, bytes: &[u8]) -> Result<(Instruction, &[u8]), ImageError> {
        match bytes {
            [] => Err(ImageError::Refused(ImageFault::Length)),
            [byte, rest @ ..] => read_from(alloc, *byte, rest, bytes),
        }
    }
}
