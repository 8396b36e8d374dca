//! The code of conditions, which sets the truth (COBOL-85, Nucleus, "Conditional expressions").

ghost use Rattle.std.specs.Prelude.{◌≡◌, ◌==◌, ◌&&◌, not, is_some, length, [], map, true, OnOk};
ghost use Rattle.std.specs.Option.{option_map};
ghost use Rattle.source_tree.specs.declared.condition.Condition.{Condition};
ghost use Rattle.source_tree.specs.declared.expression.Operand.TheVariants as operand;
ghost use Rattle.source_tree.specs.declared.condition.Relation.TheVariants as relation;
ghost use Rattle.source_tree.specs.Broken.{each};
ghost use Rattle.source_tree.specs.Conditions as meaning;
ghost use Rattle.source_tree.specs.EntryRules.{entry_rules};
ghost use Rattle.source_tree.specs.NameRules.{any_item, reference_rules, operand_rules};
ghost use Rattle.source_tree.specs.ArithmeticRules.{is_numeric_kind, expression_rules};
ghost use Rattle.source_tree.specs.ConditionRules.{side_rules, relation_rules, condition_rules};
ghost use Rattle.source_tree.specs.ValueRules.{has_form};
ghost use Rattle.data_instructions.specs.ConditionCodes.{negation};
ghost use Rattle.data_instructions.specs.declared.test.Test.TheVariants as t;
ghost use Rattle.data_instructions.specs.declared.instruction.DataInstruction.TheVariants as i;
ghost use Rattle.declarations.specs.Named.{items_in};
ghost use Rattle.condition_codegen.specs.Fragments.{append, sequence, in_order};
ghost use Rattle.condition_codegen.specs.DataCode.{sender_fragment, work_fragment, works_fragment, number_fragment, take_fragment};
ghost use Rattle.condition_codegen.specs.ArithmeticCode.{zero_number, value_fragment, expression_fragment};
ghost use Rattle.condition_codegen.specs.ConditionCode as spec;
ghost use Rattle.condition_codegen.specs.EvaluateCode.{constant_fragment};
ghost use Rattle.condition_codegen.specs.Sides.{operand_of};

use crate::branches::{emit_branch, emit_jump, emit_meeting, emit_way_end};
use crate::emitter::Emitter;
use crate::number::number_of_literal;
use crate::references::{emit_number, emit_work, emit_works};
use crate::senders::{emit_literal, put_sender};
use code_image::Code;
use data_instructions::{DataInstruction, Test};
use decimal18::Dec;
use items::Kind;
use source_tree::{
    BoxedPart, Class, Condition, Dimension, Expression, Figurative, Literal, LiteralValue, Operand,
    Place, Reference, Relation, Side, SignTest,
};
use std::alloc::AllocError;

/// An operand that is a side of a relation by itself.
#[derive(Clone, Copy)]
pub enum Alone<'a> {
    Item(&'a Reference),
    Literal(&'a Literal),
}

/// The operand that a side is.
pub fn alone_side<'a>(side: &'a Side) -> Option<Alone<'a>>
    ensures { option_map operand_of result ≡ meaning.alone_side side.now }
{
    match side {
        Side::Literal(literal) => Some(Alone::Literal(literal)),
        Side::Expression(Expression::Operand(Operand::Item(reference))) => {
            Some(Alone::Item(reference))
        }
        Side::Expression(Expression::Operand(Operand::Literal(literal))) => {
            Some(Alone::Literal(literal))
        }
        Side::Expression(Expression::Negated(_) | Expression::Chain { .. }) => None,
    }
}

/// The relation to zero that a sign is; NOT gives the opposite one.
fn sign_relation(one: SignTest, negated: bool) -> Relation
    ensures { result ≡ meaning.sign_relation one negated }
{
    match (one, negated) {
        (SignTest::Positive, false) => Relation::Greater,
        (SignTest::Positive, true) => Relation::LessOrEqual,
        (SignTest::Negative, false) => Relation::Less,
        (SignTest::Negative, true) => Relation::GreaterOrEqual,
        (SignTest::Zero, false) => Relation::Equal,
        (SignTest::Zero, true) => Relation::NotEqual,
    }
}

/// ZERO, with which each value may be compared.
pub fn zero_literal() -> Literal
    ensures { result ≡ spec.zero_literal }
{
    Literal {
        value: LiteralValue::Figurative(Figurative::Zero),
        place: Place { line: 0, column: 0 },
    }
}

/// NOT after a test.
pub(crate) fn emit_negation(code: &mut Code, negated: bool) -> Result<(), AllocError>
    ensures { OnOk result
        (code.new ≡ append code.old (works_fragment (negation negated) code.old)) }
{
    if !negated {
        return Ok(());
    }
    emit_work(code, DataInstruction::Test(Test::Invert))
}

/// What is always true, or always false.
pub(crate) fn emit_constant(code: &mut Code, truth: bool) -> Result<(), AllocError>
    ensures { OnOk result (code.new ≡ append code.old (constant_fragment truth code.old)) }
{
    if !truth {
        return emit_works(code, &[DataInstruction::ClearTruth]);
    }
    emit_works(
        code,
        &[
            DataInstruction::ClearTruth,
            DataInstruction::Test(Test::Invert),
        ],
    )
}

impl<'a> Emitter<'a> {
    /// The sender compared with a literal.
    fn emit_compared_literal(
        &self,
        code: &mut Code,
        relation: Relation,
        one: &Literal,
    ) -> Result<(), AllocError>
        requires { has_form one.now.value ≡ true }
        ensures { OnOk result (code.new ≡ append code.old (spec.compared_fragment
            (items_in self.now.declarations.now) relation (operand.Literal one.now) code.old)) }
    {
        let literal = put_sender(self.alloc, code, &one.value)?;
        emit_work(
            code,
            DataInstruction::Test(Test::CompareLiteral { relation, literal }),
        )
    }

    /// An operand alone, taken as the sender.
    fn emit_taken(&self, code: &mut Code, one: Alone<'_>) -> Result<(), AllocError>
        requires rules { operand_rules (items_in self.now.declarations.now) (operand_of one) ≡ [] }
        ensures { OnOk result (code.new ≡ append code.old (sender_fragment
            (items_in self.now.declarations.now) (operand_of one.entry) code.old)) }
    {
        match one {
            Alone::Item(reference) => self.emit_taking(code, DataInstruction::Take, reference),
            Alone::Literal(literal) => emit_literal(self.alloc, code, &literal.value),
        }
    }

    /// The sender compared with an operand alone.
    fn emit_compared(
        &self,
        code: &mut Code,
        relation: Relation,
        one: Alone<'_>,
    ) -> Result<(), AllocError>
        requires rules { operand_rules (items_in self.now.declarations.now) (operand_of one) ≡ [] }
        ensures { OnOk result (code.new ≡ append code.old (spec.compared_fragment
            (items_in self.now.declarations.now) relation (operand_of one.entry) code.old)) }
    {
        match one {
            Alone::Item(reference) => {
                let test = DataInstruction::Test(Test::Compare { relation });
                self.emit_taking(code, test, reference)
            }
            Alone::Literal(literal) => self.emit_compared_literal(code, relation, literal),
        }
    }

    /// The number of an operand alone.
    fn emit_number_alone(&self, code: &mut Code, one: Alone<'_>) -> Result<(), AllocError>
        requires rules { operand_rules (items_in self.now.declarations.now) (operand_of one) ≡ [] }
        ensures { OnOk result (code.new ≡ append code.old
            (value_fragment (items_in self.now.declarations.now) (operand_of one.entry) code.old)) }
    {
        match one {
            Alone::Item(reference) => self.emit_taking(code, DataInstruction::Push, reference),
            Alone::Literal(literal) => emit_number(code, number_of_literal(&literal.value)),
        }
    }

    /// A side as a number.
    fn emit_side(&self, code: &mut Code, side: &Side) -> Result<(), AllocError>
        requires rules { side_rules (items_in self.now.declarations.now) side.now ≡ [] }
        ensures { OnOk result (code.new ≡ append code.old
            (spec.side_fragment (items_in self.now.declarations.now) side.now code.old)) }
    {
        if let Some(one) = alone_side(side) {
            return self.emit_number_alone(code, one);
        }
        match side {
            Side::Expression(one) => self.emit_expression(code, one),
            Side::Literal(one) => emit_number(code, number_of_literal(&one.value)),
        }
    }

    /// Two sides compared as numbers.
    fn emit_numbers_compared(
        &self,
        code: &mut Code,
        left: &Side,
        relation: Relation,
        right: &Side,
    ) -> Result<(), AllocError>
        requires left { side_rules (items_in self.now.declarations.now) left.now ≡ [] }
        requires right { side_rules (items_in self.now.declarations.now) right.now ≡ [] }
        ensures { OnOk result (code.new ≡ append code.old (spec.numbers_fragment
            (items_in self.now.declarations.now) left.now relation right.now code.old)) }
    {
        self.emit_side(code, left)?;
        self.emit_side(code, right)?;
        emit_work(
            code,
            DataInstruction::Test(Test::CompareNumbers { relation }),
        )
    }

    /// Two operands alone, compared as what they are.
    fn emit_pair_compared(
        &self,
        code: &mut Code,
        one: Alone<'_>,
        relation: Relation,
        other: Alone<'_>,
    ) -> Result<(), AllocError>
        requires left { operand_rules (items_in self.now.declarations.now) (operand_of one) ≡ [] }
        requires right { operand_rules (items_in self.now.declarations.now) (operand_of other)
            ≡ [] }
        ensures { OnOk result
            (code.new ≡ append code.old (spec.pair_fragment (items_in self.now.declarations.now)
            (operand_of one.entry) relation (operand_of other.entry) code.old)) }
    {
        self.emit_taken(code, one)?;
        self.emit_compared(code, relation, other)
    }

    /// An operand alone is taken, for the sake of its fault: it is compared with ZERO.
    fn emit_look(&self, code: &mut Code, one: Alone<'_>) -> Result<(), AllocError>
        requires rules { operand_rules (items_in self.now.declarations.now) (operand_of one) ≡ [] }
        ensures { OnOk result
            (code.new ≡ append code.old (spec.pair_fragment (items_in self.now.declarations.now)
            (operand_of one.entry) relation.Equal (operand.Literal spec.zero_literal) code.old)) }
    {
        let zero = zero_literal();
        self.emit_pair_compared(code, one, Relation::Equal, Alone::Literal(&zero))
    }

    /// An operand alone is a numeric item, and no part of one.
    pub fn is_numeric_operand(&self, one: Alone<'_>) -> bool
        ensures { result
            ≡ spec.is_numeric_operand (items_in self.now.declarations.now) (operand_of one.entry) }
    {
        let Alone::Item(reference) = one else {
            return false;
        };
        match self
            .declarations
            .layout
            .items
            .get(self.item_number(&reference.item))
        {
            Some(found) => is_number(found.item.kind, &reference.part),
            None => false,
        }
    }

    /// An operand alone is a literal, or an item without subscripts and part.
    pub fn is_operand_at_hand(&self, one: Alone<'_>) -> bool
        ensures { result
            ≡ spec.is_operand_at_hand (items_in self.now.declarations.now) (operand_of one.entry) }
    {
        let Alone::Item(reference) = one else {
            return true;
        };
        match self
            .declarations
            .layout
            .items
            .get(self.item_number(&reference.item))
        {
            Some(found) => is_single(found.dimensions.as_slice(), &reference.part),
            None => false,
        }
    }

    /// Of two operands alone the left one is taken before the subscripts of the right one: it is a numeric item, and the
    /// right one is not at hand.
    fn takes_first(&self, one: Alone<'_>, other: Alone<'_>) -> bool
        ensures { result
            ≡ (spec.is_numeric_operand (items_in self.now.declarations.now) (operand_of one.entry)
            && not (spec.is_operand_at_hand (items_in self.now.declarations.now)
            (operand_of other.entry))) }
    {
        self.is_numeric_operand(one) && !self.is_operand_at_hand(other)
    }

    /// A relation: two operands alone are compared as what they are, others as numbers. A numeric item is taken before the
    /// subscripts of the right operand.
    pub fn emit_relation(
        &self,
        code: &mut Code,
        left: &Side,
        relation: Relation,
        right: &Side,
    ) -> Result<(), AllocError>
        requires rules { relation_rules (items_in self.now.declarations.now) left.now right.now
            ≡ [] }
        ensures { OnOk result (code.new ≡ append code.old (spec.relation_fragment
            (items_in self.now.declarations.now) left.now relation right.now code.old)) }
    {
        let Some(one) = alone_side(left) else {
            return self.emit_numbers_compared(code, left, relation, right);
        };
        let Some(other) = alone_side(right) else {
            return self.emit_numbers_compared(code, left, relation, right);
        };
        if self.takes_first(one, other) {
            if self.is_numeric_operand(other) {
                return self.emit_numbers_compared(code, left, relation, right);
            }
            self.emit_look(code, one)?;
        }
        self.emit_pair_compared(code, one, relation, other)
    }

    /// A sign condition.
    fn emit_sign(
        &self,
        code: &mut Code,
        value: &Expression,
        negated: bool,
        sign: SignTest,
    ) -> Result<(), AllocError>
        requires rules { expression_rules (items_in self.now.declarations.now) value.now ≡ [] }
        ensures { OnOk result (code.new ≡ append
            code.old (sequence (expression_fragment (items_in self.now.declarations.now) value.now)
            (sequence (number_fragment zero_number) (work_fragment
            (i.Test (t.CompareNumbers (meaning.sign_relation sign negated))))) code.old)) }
    {
        self.emit_expression(code, value)?;
        emit_number(code, Dec::short(0, 0))?;
        let relation = sign_relation(sign, negated);
        emit_work(
            code,
            DataInstruction::Test(Test::CompareNumbers { relation }),
        )
    }

    /// A class condition.
    fn emit_class(
        &self,
        code: &mut Code,
        item: &Reference,
        negated: bool,
        class: Class,
    ) -> Result<(), AllocError>
        requires rules { reference_rules (items_in self.now.declarations.now) any_item item.now
            ≡ [] }
        ensures { OnOk result (code.new
            ≡ append code.old (sequence (take_fragment (items_in self.now.declarations.now)
            (i.Test (t.Class class)) item.now) (works_fragment (negation negated)) code.old)) }
    {
        self.emit_taking(code, DataInstruction::Test(Test::Class { class }), item)?;
        emit_negation(code, negated)
    }

    /// A condition, with those in it.
    #[cycle(condition)]
    pub fn emit_condition(&self, code: &mut Code, one: &Condition) -> Result<(), AllocError>
        requires entries { entry_rules self.now.declarations.now.storage.now ≡ [] }
        requires rules { condition_rules (items_in self.now.declarations.now) one.now ≡ [] }
        ensures { OnOk result (code.new ≡ append code.old
            (spec.condition_fragment (items_in self.now.declarations.now) one.now code.old)) }
    {
        match one {
            Condition::Name(reference) => self.emit_condition_name(code, reference),
            Condition::Relation {
                left,
                relation,
                right,
            } => self.emit_relation(code, left, *relation, right),
            Condition::Sign {
                value,
                negated,
                sign,
            } => self.emit_sign(code, value, *negated, *sign),
            Condition::Class {
                item,
                negated,
                class,
            } => self.emit_class(code, item, *negated, *class),
            Condition::Not(inner) => {
                self.emit_condition(code, inner.get())?;
                emit_work(code, DataInstruction::Test(Test::Invert))
            }
            Condition::All(parts) => self.emit_all(code, parts.as_slice()),
            Condition::Any(parts) => self.emit_any(code, parts.as_slice()),
        }
    }

    /// Conditions with AND between.
    #[cycle(condition)]
    fn emit_all(&self, code: &mut Code, parts: &[Condition]) -> Result<(), AllocError>
        requires entries { entry_rules self.now.declarations.now.storage.now ≡ [] }
        requires rules { each (condition_rules (items_in self.now.declarations.now)) parts.now
            ≡ [] }
        ensures { OnOk result (code.new ≡ append code.old (spec.all_fragment (map
            (spec.condition_fragment (items_in self.now.declarations.now)) parts.now) code.old)) }
    {
        let Some((first, more)) = parts.split_first() else {
            return emit_constant(code, true);
        };
        self.emit_condition(code, first)?;
        self.emit_each_and(code, more)
    }

    /// Conditions with OR between.
    #[cycle(condition)]
    fn emit_any(&self, code: &mut Code, parts: &[Condition]) -> Result<(), AllocError>
        requires entries { entry_rules self.now.declarations.now.storage.now ≡ [] }
        requires rules { each (condition_rules (items_in self.now.declarations.now)) parts.now
            ≡ [] }
        ensures { OnOk result (code.new ≡ append code.old (spec.any_fragment (map
            (spec.condition_fragment (items_in self.now.declarations.now)) parts.now) code.old)) }
    {
        let Some((first, more)) = parts.split_first() else {
            return emit_constant(code, false);
        };
        self.emit_condition(code, first)?;
        self.emit_each_or(code, more)
    }

    /// The further conditions after AND.
    #[cycle(condition)]
    fn emit_each_and(&self, code: &mut Code, more: &[Condition]) -> Result<(), AllocError>
        requires entries { entry_rules self.now.declarations.now.storage.now ≡ [] }
        requires rules { each (condition_rules (items_in self.now.declarations.now)) more.now ≡ [] }
        ensures { OnOk result (code.new ≡ append code.old (in_order (λ (one : Condition).
            spec.and_fragment (spec.condition_fragment (items_in self.now.declarations.now) one))
            more.now code.old)) }
    {
        for one in more {
            self.emit_and(code, one)?;
        }
        Ok(())
    }

    /// The further conditions after OR.
    #[cycle(condition)]
    fn emit_each_or(&self, code: &mut Code, more: &[Condition]) -> Result<(), AllocError>
        requires entries { entry_rules self.now.declarations.now.storage.now ≡ [] }
        requires rules { each (condition_rules (items_in self.now.declarations.now)) more.now ≡ [] }
        ensures { OnOk result (code.new ≡ append code.old (in_order (λ (one : Condition).
            spec.or_fragment (spec.condition_fragment (items_in self.now.declarations.now) one))
            more.now code.old)) }
    {
        for one in more {
            self.emit_or(code, one)?;
        }
        Ok(())
    }

    /// A condition after AND: it is asked where the truth is true so far.
    #[cycle(condition)]
    fn emit_and(&self, code: &mut Code, one: &Condition) -> Result<(), AllocError>
        requires entries { entry_rules self.now.declarations.now.storage.now ≡ [] }
        requires rules { condition_rules (items_in self.now.declarations.now) one.now ≡ [] }
        ensures { OnOk result (code.new ≡ append code.old (spec.and_fragment
            (spec.condition_fragment (items_in self.now.declarations.now) one.now) code.old)) }
    {
        let branch = emit_branch(code)?;
        self.emit_condition(code, one)?;
        emit_way_end(code, branch)
    }

    /// A condition after OR: it is asked where the truth is false so far.
    #[cycle(condition)]
    fn emit_or(&self, code: &mut Code, one: &Condition) -> Result<(), AllocError>
        requires entries { entry_rules self.now.declarations.now.storage.now ≡ [] }
        requires rules { condition_rules (items_in self.now.declarations.now) one.now ≡ [] }
        ensures { OnOk result (code.new ≡ append code.old (spec.or_fragment
            (spec.condition_fragment (items_in self.now.declarations.now) one.now) code.old)) }
    {
        let branch = emit_branch(code)?;
        let other = emit_jump(code)?;
        self.emit_condition(code, one)?;
        emit_meeting(code, branch, other)
    }
}

/// An item of that kind, seen through that part, is a number. A part is none.
fn is_number(kind: Kind, part: &Option<BoxedPart>) -> bool
    ensures { result ≡ (not (is_some part.now) && is_numeric_kind kind) }
{
    part.is_none() && matches!(kind, Kind::Numeric(_))
}

/// A reference to an item of those dimensions has neither subscripts nor that part.
fn is_single(dimensions: &[Dimension], part: &Option<BoxedPart>) -> bool
    ensures { result ≡ (not (is_some part.now) && length dimensions.now == 0) }
{
    part.is_none() && dimensions.is_empty()
}
