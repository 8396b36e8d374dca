//! Calculations on the stack of numbers.

ghost use Rattle.std.specs.Prelude.{◌≡◌, ◌+◌, ◌<◌, ◌≤◌, [], ◌∷◌, length, Some, IfSome};
ghost use Rattle.source_tree.specs.Computed as computed;
ghost use Rattle.source_tree.specs.Arithmetic as arithmetic;
ghost use Rattle.data_instructions.specs.Scratch.{step_at};
ghost use Rattle.data_instructions.specs.Table as spec;
ghost use Rattle.data_instructions.specs.Shapes.{taken_by, put_by};
ghost use Rattle.data_machine.specs.Data.{scratch_of};
ghost use Rattle.data_machine.specs.Comes.{IsStepOf, KeepsRoom};

use crate::data::Data;
use crate::short::Short;
use crate::short_arithmetic::short_result;
use crate::stack::Stack;
use data_instructions::{Calculation, ProgramFault};
use decimal18::Dec;
use source_tree::Operator;

/// What an operator makes of two numbers, if both are numbers and there is no size error.
#[inline(always)]
pub fn operate(operator: Operator, left: Option<Dec>, right: Option<Dec>) -> Option<Dec>
    ensures { result ≡ computed.operate operator left right }
{
    let left = left?;
    let right = right?;
    match short_operated(operator, left, right) {
        Some(result) => Some(result),
        None => long_operated(operator, left, right),
    }
}

/// What an operator makes of two numbers, where 64 bits are enough.
#[inline(always)]
fn short_operated(operator: Operator, left: Dec, right: Dec) -> Option<Dec>
    ensures { IfSome result (λ x. computed.operate operator (Some left) (Some right) ≡ Some x) }
{
    let one = Short::of(left)?;
    let other = Short::of(right)?;
    let result = short_result(operator, one, other)?;
    Some(result.decimal())
}

/// What an operator makes of two numbers, if there is no size error.
#[cold]
#[inline(never)]
fn long_operated(operator: Operator, left: Dec, right: Dec) -> Option<Dec>
    ensures { result ≡ computed.operate operator (Some left) (Some right) }
{
    let result = match operator {
        Operator::Add => left.add(right),
        Operator::Subtract => left.sub(right),
        Operator::Multiply => left.mul(right),
        Operator::Divide => left.div(right),
    };
    result.ok()
}

/// A number with the other sign.
fn negate(number: Option<Dec>) -> Option<Dec>
    ensures { result ≡ computed.negate number }
{
    Some(-number?)
}

/// A number cut towards zero at a scale.
fn cut(number: Option<Dec>, scale: u8) -> Option<Dec>
    ensures { result ≡ arithmetic.truncated_value scale number }
{
    Some(number?.truncated(scale))
}

/// Two numbers become what an operator makes of them; the newest is its right operand.
#[inline]
fn combine(numbers: &mut Stack<Option<Dec>>, operator: Operator)
    requires operands { 2 ≤ length numbers.old.newest_first }
    requires room { length numbers.old.newest_first ≤ numbers.old.room + 1 }
    ensures numbers { spec.by_two operator numbers.old.newest_first
        ≡ Some numbers.new.newest_first }
    ensures room { numbers.new.room ≡ numbers.old.room }
{
    let right = numbers.pop();
    let left = numbers.pop();
    numbers.push(operate(operator, left, right));
}

/// A calculation on a stack with the numbers that it takes, and room for those that it puts there.
fn calculate(numbers: &mut Stack<Option<Dec>>, one: Calculation)
    requires operands { taken_by one ≤ length numbers.old.newest_first }
    requires room { length numbers.old.newest_first + put_by one ≤ numbers.old.room + taken_by one }
    ensures numbers { spec.calculated_numbers one numbers.old.newest_first
        ≡ Some numbers.new.newest_first }
    ensures room { numbers.new.room ≡ numbers.old.room }
{
    match one {
        Calculation::Add => combine(numbers, Operator::Add),
        Calculation::Subtract => combine(numbers, Operator::Subtract),
        Calculation::Multiply => combine(numbers, Operator::Multiply),
        Calculation::Divide => combine(numbers, Operator::Divide),
        Calculation::Negate => {
            let number = numbers.pop();
            numbers.push(negate(number));
        }
        Calculation::Truncate { scale } => {
            let number = numbers.pop();
            numbers.push(cut(number, scale));
        }
        Calculation::Duplicate { depth } => {
            let number = numbers.below(depth as usize);
            numbers.push(number);
        }
        Calculation::Discard => {
            let _ = numbers.pop();
        }
    }
}

impl Data {
    /// Computes with numbers of the stack.
    #[inline(never)]
    pub fn calculate(&mut self, one: Calculation) -> Result<(), ProgramFault>
        requires operands { taken_by one ≤ length self.old.numbers.newest_first }
        requires room { length self.old.numbers.newest_first + put_by one
            ≤ self.old.numbers.room + taken_by one }
        ensures does { IsStepOf result (scratch_of self.new) (step_at (spec.calculated_numbers one
            self.old.numbers.newest_first) (spec.with_numbers (scratch_of self.old))) }
        ensures keeps { KeepsRoom self.old self.new }
    {
        calculate(&mut self.numbers, one);
        Ok(())
    }
}
