//! The rules of arithmetic statements: 51 besides those of references and literals (COBOL-85, Nucleus, "Arithmetic statements").

ghost use Rattle.std.specs.Prelude.{◌≡◌, ◌++◌};
ghost use Rattle.entry_rules.specs.Checks.{IsFirstBreach};
ghost use Rattle.source_tree.specs.Broken.{each};
ghost use Rattle.source_tree.specs.ArithmeticRules as spec;
ghost use Rattle.declarations.specs.Named.{items_in};
ghost use Rattle.check_rules.specs.Operations.{receiver_rules, operands_rules, receivers_rules};

use crate::asked::Asked;
use crate::checker::Checker;
use entry_rules::BrokenRule;
use source_tree::{Operand, Operation, Receiver};

impl<'a> Checker<'a> {
    /// Receivers, of which the same is asked, in order.
    fn results_rules(&self, asked: Asked, all: &[Receiver]) -> Result<(), BrokenRule>
        ensures { IsFirstBreach result
            (each (receiver_rules (items_in self.now.declarations.now) asked) all.now) }
    {
        for one in all {
            self.item_rules(asked, &one.item)?;
        }
        Ok(())
    }

    /// Receivers whose own number has a part in the result.
    fn updated_rules(&self, receivers: &[Receiver]) -> Result<(), BrokenRule>
        ensures { IsFirstBreach result
            (spec.updated_rules (items_in self.now.declarations.now) receivers.now) }
    {
        self.results_rules(Asked::Numeric, receivers)
    }

    /// Receivers after GIVING and COMPUTE.
    fn given_rules(&self, receivers: &[Receiver]) -> Result<(), BrokenRule>
        ensures { IsFirstBreach result
            (spec.given_rules (items_in self.now.declarations.now) receivers.now) }
    {
        self.results_rules(Asked::StoresNumber, receivers)
    }

    /// Two operands that are numbers.
    fn pair_rules(&self, first: &Operand, second: &Operand) -> Result<(), BrokenRule>
        ensures { IsFirstBreach result (spec.number_rules (items_in self.now.declarations.now)
            first.now ++ spec.number_rules (items_in self.now.declarations.now) second.now) }
    {
        self.number_rules(first)?;
        self.number_rules(second)
    }

    /// The operands in front of the receivers; those of COMPUTE follow them.
    fn operands_rules(&self, one: &Operation) -> Result<(), BrokenRule>
        ensures { IsFirstBreach result
            (operands_rules (items_in self.now.declarations.now) one.now) }
    {
        match one {
            Operation::Add { operands, .. } => self.numbers_rules(operands.as_slice()),
            Operation::AddGiving { operands, .. } => self.numbers_rules(operands.as_slice()),
            Operation::Subtract { operands, .. } => self.numbers_rules(operands.as_slice()),
            Operation::SubtractGiving {
                operands,
                minuend,
                ..
            } => {
                self.numbers_rules(operands.as_slice())?;
                self.number_rules(minuend)
            }
            Operation::Multiply { factor, .. } => self.number_rules(factor),
            Operation::MultiplyGiving { factor, by, .. } => self.pair_rules(factor, by),
            Operation::Divide { divisor, .. } => self.number_rules(divisor),
            Operation::DivideGiving { first, second, .. } => self.pair_rules(first, second),
            Operation::DivideRemainder { first, second, .. } => self.pair_rules(first, second),
            Operation::Compute { .. } => Ok(()),
        }
    }

    /// The receivers, and of COMPUTE the expression after them.
    fn receivers_of_rules(&self, one: &Operation) -> Result<(), BrokenRule>
        ensures { IsFirstBreach result
            (receivers_rules (items_in self.now.declarations.now) one.now) }
    {
        match one {
            Operation::Add { receivers, .. } => self.updated_rules(receivers.as_slice()),
            Operation::AddGiving { receivers, .. } => self.given_rules(receivers.as_slice()),
            Operation::Subtract { receivers, .. } => self.updated_rules(receivers.as_slice()),
            Operation::SubtractGiving { receivers, .. } => self.given_rules(receivers.as_slice()),
            Operation::Multiply { receivers, .. } => self.updated_rules(receivers.as_slice()),
            Operation::MultiplyGiving { receivers, .. } => self.given_rules(receivers.as_slice()),
            Operation::Divide { receivers, .. } => self.updated_rules(receivers.as_slice()),
            Operation::DivideGiving { receivers, .. } => self.given_rules(receivers.as_slice()),
            Operation::DivideRemainder {
                quotient,
                remainder,
                ..
            } => {
                self.item_rules(Asked::StoresNumber, &quotient.item)?;
                self.item_rules(Asked::StoresNumber, remainder)
            }
            Operation::Compute { receivers, value } => {
                self.given_rules(receivers.as_slice())?;
                self.expression_rules(value)
            }
        }
    }

    /// What an arithmetic statement computes, in the order of writing.
    #[tactic(auto, using(crate::proofs::Operations::operation_parts))]
    pub fn operation_rules(&self, one: &Operation) -> Result<(), BrokenRule>
        ensures { IsFirstBreach result
            (spec.operation_rules (items_in self.now.declarations.now) one.now) }
    {
        self.operands_rules(one)?;
        self.receivers_of_rules(one)
    }
}
