//! What is known of the stacks and of the line along code, so that each instruction finds what it needs.

ghost use Rattle.std.specs.Prelude.{◌≡◌, ◌↔◌, IfOk, IsTrue};
ghost use Rattle.code_image.specs.Known as spec;
ghost use Rattle.code_image.specs.Known.{FindsOperands};

use crate::code::Code;
use crate::instruction::Instruction;
use data_instructions::{DataTables, Shape, Stacks, accepting, dating, effect, showing};
use std::alloc::{AllocError, Global};

/// Each instruction finds what it needs.
pub(crate) fn find_operands(alloc: Global, code: &Code) -> Result<bool, AllocError>
    ensures { IfOk result (λ found. IsTrue found ↔ FindsOperands code.now) }
{
    let mut shape = Shape::empty(alloc);
    for instruction in code.instructions.as_slice() {
        match instruction.known_after(alloc, &code.tables, shape)? {
            Some(after) => shape = after,
            None => return Ok(false),
        }
    }
    Ok(true)
}

/// What is known where a statement begins, if nothing is on the stacks or in the line.
fn at_rest(alloc: Global, shape: &Shape) -> Option<Shape>
    ensures { result ≡ spec.at_rest shape.now }
{
    if shape.stacks.numbers == 0 && shape.stacks.places.len() == 0 && shape.line == 0 {
        Some(Shape::empty(alloc))
    } else {
        None
    }
}

/// What is known after `count number`, which takes a number.
fn taking_number(shape: Shape) -> Option<Shape>
    ensures { result ≡ spec.taking_number shape }
{
    let Shape {
        stacks,
        line,
        sender,
    } = shape;
    let Stacks { numbers, places } = stacks;
    if numbers == 0 {
        return None;
    }
    let stacks = Stacks {
        numbers: numbers - 1,
        places,
    };
    Some(Shape {
        stacks,
        line,
        sender,
    })
}

impl Instruction {
    /// What is known after an instruction, where it goes on after it; none: it doesn't find what it needs.
    pub fn known_after(
        self,
        alloc: Global,
        tables: &DataTables,
        shape: Shape,
    ) -> Result<Option<Shape>, AllocError>
        ensures { IfOk result (λ after. after ≡ spec.known_after tables.now self shape) }
    {
        match self {
            Instruction::Tick { .. }
            | Instruction::Perform { .. }
            | Instruction::Back { .. }
            | Instruction::Turn { .. }
            | Instruction::Branch { .. }
            | Instruction::Jump { .. }
            | Instruction::Join
            | Instruction::File { .. }
            | Instruction::TestStatus { .. }
            | Instruction::Unheard => Ok(at_rest(alloc, &shape)),
            Instruction::Show => Ok(Some(showing(shape))),
            Instruction::Stop => Ok(Some(Shape::empty(alloc))),
            Instruction::Count { .. } => Ok(Some(shape)),
            Instruction::CountNumber { .. } => Ok(taking_number(shape)),
            Instruction::Accept => Ok(accepting(shape)),
            Instruction::Date => Ok(dating(tables, shape)),
            Instruction::Data(one) => effect(tables, one, shape),
        }
    }
}
