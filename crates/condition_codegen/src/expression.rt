//! The code of operands that are numbers, and of arithmetic expressions (COBOL-85, Nucleus, "Arithmetic expressions").

ghost use Rattle.std.specs.Prelude.{◌≡◌, [], ◌∷◌, pos, OnOk};
ghost use Rattle.source_tree.specs.declared.expression.Operator.{Operator};
ghost use Rattle.source_tree.specs.declared.expression.Expression.{Expression};
ghost use Rattle.source_tree.specs.Broken.{each};
ghost use Rattle.source_tree.specs.ArithmeticRules.{number_rules, expression_rules};
ghost use Rattle.data_instructions.specs.ArithmeticCodes as codes;
ghost use Rattle.declarations.specs.Named.{items_in};
ghost use Rattle.condition_codegen.specs.Fragments.{append, in_order};
ghost use Rattle.condition_codegen.specs.ArithmeticCode as spec;

use crate::emitter::Emitter;
use crate::number::number_of_literal;
use crate::references::{emit_number, emit_work};
use code_image::Code;
use data_instructions::{Calculation, DataInstruction};
use decimal18::Dec;
use source_tree::{Expression, Operand, Operator};
use std::alloc::AllocError;

/// What is computed by an operator.
pub fn operator_code(one: Operator) -> DataInstruction
    ensures { result ≡ codes.operator_code one }
{
    DataInstruction::Calculate(match one {
        Operator::Add => Calculation::Add,
        Operator::Subtract => Calculation::Subtract,
        Operator::Multiply => Calculation::Multiply,
        Operator::Divide => Calculation::Divide,
    })
}

impl<'a> Emitter<'a> {
    /// The number of an operand, on the stack of numbers.
    pub fn emit_value(&self, code: &mut Code, one: &Operand) -> Result<(), AllocError>
        requires rules { number_rules (items_in self.now.declarations.now) one.now ≡ [] }
        ensures { OnOk result (code.new ≡ append code.old
            (spec.value_fragment (items_in self.now.declarations.now) one.now code.old)) }
    {
        match one {
            Operand::Item(reference) => self.emit_taking(code, DataInstruction::Push, reference),
            Operand::Literal(literal) => emit_number(code, number_of_literal(&literal.value)),
        }
    }

    /// The numbers of operands, added to the newest in turn.
    fn emit_all_added(&self, code: &mut Code, all: &[Operand]) -> Result<(), AllocError>
        requires rules { each (number_rules (items_in self.now.declarations.now)) all.now ≡ [] }
        ensures { OnOk result (code.new ≡ append code.old (in_order
            (spec.added_fragment (items_in self.now.declarations.now)) all.now code.old)) }
    {
        for one in all {
            self.emit_value(code, one)?;
            emit_work(code, operator_code(Operator::Add))?;
        }
        Ok(())
    }

    /// The total of operands.
    pub fn emit_total(&self, code: &mut Code, all: &[Operand]) -> Result<(), AllocError>
        requires rules { each (number_rules (items_in self.now.declarations.now)) all.now ≡ [] }
        ensures { OnOk result (code.new ≡ append code.old
            (spec.total_fragment (items_in self.now.declarations.now) all.now code.old)) }
    {
        let Some((first, more)) = all.split_first() else {
            return emit_number(code, Dec::short(0, 0));
        };
        self.emit_value(code, first)?;
        self.emit_all_added(code, more)
    }

    /// The value of an expression.
    #[cycle(expression)]
    pub fn emit_expression(&self, code: &mut Code, one: &Expression) -> Result<(), AllocError>
        requires rules { expression_rules (items_in self.now.declarations.now) one.now ≡ [] }
        ensures { OnOk result (code.new ≡ append code.old
            (spec.expression_fragment (items_in self.now.declarations.now) one.now code.old)) }
    {
        match one {
            Expression::Operand(operand) => self.emit_value(code, operand),
            Expression::Negated(inner) => {
                self.emit_expression(code, inner.get())?;
                emit_work(code, DataInstruction::Calculate(Calculation::Negate))
            }
            Expression::Chain { first, more } => {
                self.emit_expression(code, first.get())?;
                self.emit_chain(code, more.as_slice())
            }
        }
    }

    /// What follows the first operand of a chain: each further one, and its operator.
    #[cycle(expression)]
    fn emit_chain(&self, code: &mut Code, all: &[(Operator, Expression)]) -> Result<(), AllocError>
        requires rules { each (λ (one : Operator × Expression).
            expression_rules (items_in self.now.declarations.now) one.1) all.now ≡ [] }
        ensures { OnOk result (code.new ≡ append code.old (in_order (λ (one : Operator
            × Expression). spec.chain_fragment (items_in self.now.declarations.now)
            (one.0, spec.expression_fragment (items_in self.now.declarations.now) one.1)) all.now
            code.old)) }
    {
        for (operator, value) in all {
            self.emit_expression(code, value)?;
            emit_work(code, operator_code(*operator))?;
        }
        Ok(())
    }
}
