//! Code paragraphs: where they start, and which perform which.

ghost use Rattle.std.specs.Prelude.{◌≡◌, ◌<◌, ◌↔◌, IsTrue, All, IfOk, length, slice_get};
ghost use Rattle.perform_graph.specs.Order.{IsRange};
ghost use Rattle.code_image.specs.Demands.{back_count, performed_by_code, IsBack, IsFront, StartsAt, AllStart, HasOrder};
ghost use Rattle.code_image.specs.Paragraphs.{ListsParagraphs, HasRanks};

use crate::code::Code;
use crate::instruction::Instruction;
use perform_graph::{Order, PerformedRange, order_of};
use std::alloc::{AllocError, Global};

/// A code paragraph, by its number. It runs from its start to its `back`.
#[derive(Clone, Copy)]
pub struct ParagraphIndex {
    /// Its index in the table of starts.
    pub number: usize,
}

/// How many code paragraphs end with an instruction.
fn ended_by(instruction: &Instruction) -> usize
    ensures { result ≡ back_count instruction.now }
{
    match instruction {
        Instruction::Back { .. } => 1,
        _ => 0,
    }
}

/// The number of the code paragraph of each address, and of the one after the last.
pub(crate) fn paragraphs_of(
    alloc: Global,
    instructions: &[Instruction],
) -> Result<Vec<usize>, AllocError>
    ensures { IfOk result (λ paragraphs. ListsParagraphs instructions.now paragraphs.items) }
{
    let mut number = 0;
    let mut paragraphs = Vec::new(alloc);
    paragraphs.push(number)?;
    for instruction in instructions {
        number += ended_by(instruction);
        paragraphs.push(number)?;
    }
    Ok(paragraphs)
}

#[tactic(auto, using(crate::proofs::InstructionKinds::other_back))]
fn is_back(instructions: &[Instruction], address: usize) -> bool
    ensures { IsTrue result ↔ IsBack (slice_get instructions.now address) }
{
    matches!(instructions.get(address), Some(Instruction::Back { .. }))
}

/// At the first instruction, or after a `back`.
fn is_front(instructions: &[Instruction], address: usize) -> bool
    ensures { IsTrue result ↔ IsFront instructions.now address }
{
    address == 0 || is_back(instructions, address - 1)
}

/// The code paragraph of a number starts at an address.
#[tactic(auto, using(crate::proofs::InstructionKinds::front_within))]
fn starts_at(
    instructions: &[Instruction],
    paragraphs: &[usize],
    number: usize,
    address: usize,
) -> bool
    requires { ListsParagraphs instructions.now paragraphs.now }
    ensures { IsTrue result ↔ StartsAt instructions.now number address }
{
    is_front(instructions, address) && paragraphs[address] == number
}

/// Each code paragraph starts where its start says.
pub(crate) fn all_start(code: &Code, paragraphs: &[usize]) -> bool
    requires { ListsParagraphs code.now.instructions paragraphs.now }
    ensures { IsTrue result ↔ AllStart code.now }
{
    let instructions = code.instructions.as_slice();
    for (number, start) in code.starts.as_slice().iter().enumerate() {
        if !starts_at(instructions, paragraphs, number, *start) {
            return false;
        }
    }
    true
}

/// What instructions perform, in order.
fn performed_by(
    alloc: Global,
    instructions: &[Instruction],
    paragraphs: &[usize],
) -> Result<Vec<PerformedRange>, AllocError>
    requires { ListsParagraphs instructions.now paragraphs.now }
    ensures { IfOk result (λ ranges. ranges.items ≡ performed_by_code instructions.now) }
{
    let mut ranges = Vec::new(alloc);
    for (address, instruction) in instructions.iter().enumerate() {
        if let Instruction::Perform { first, last, .. } = instruction {
            ranges.push(PerformedRange {
                performer: paragraphs[address],
                first: first.number,
                last: last.number,
            })?;
        }
    }
    Ok(ranges)
}

fn is_range(count: usize, one: PerformedRange) -> bool
    ensures { IsTrue result ↔ IsRange count one }
{
    one.performer < count && one.first <= one.last && one.last < count
}

fn are_ranges(count: usize, ranges: &[PerformedRange]) -> bool
    ensures { IsTrue result ↔ All (IsRange count) ranges.now }
{
    for one in ranges {
        if !is_range(count, *one) {
            return false;
        }
    }
    true
}

/// There are ranks.
fn has_ranks(order: &Order) -> bool
    ensures { IsTrue result ↔ HasRanks order.now }
{
    match order {
        Order::Ranks(_) => true,
        Order::Recursive(_) => false,
    }
}

/// Code paragraphs perform others that stand in order, and none of them itself, by way of others neither.
pub(crate) fn has_order(
    alloc: Global,
    code: &Code,
    paragraphs: &[usize],
) -> Result<bool, AllocError>
    requires { ListsParagraphs code.now.instructions paragraphs.now }
    ensures { IfOk result (λ has. IsTrue has ↔ HasOrder code.now) }
{
    let count = code.starts.as_slice().len();
    let ranges = performed_by(alloc, code.instructions.as_slice(), paragraphs)?;
    if !are_ranges(count, &ranges) {
        return Ok(false);
    }
    let found = order_of(alloc, count, &ranges);
    drop(ranges);
    let order = found?;
    Ok(has_ranks(&order))
}
