//! The code of what the objects of EVALUATE ask of its subjects (COBOL-85, Nucleus, "The EVALUATE statement").

ghost use Rattle.std.specs.Prelude.{◌≡◌, not, List, [], ◌∷◌, OnOk};
ghost use Rattle.source_tree.specs.declared.condition.Condition.{Condition};
ghost use Rattle.source_tree.specs.declared.condition.Condition.TheVariants.{All, Any};
ghost use Rattle.source_tree.specs.declared.condition.Relation.TheVariants as relation;
ghost use Rattle.source_tree.specs.declared.evaluate_statement.When.{When};
ghost use Rattle.source_tree.specs.Broken.{each};
ghost use Rattle.source_tree.specs.EntryRules.{entry_rules};
ghost use Rattle.source_tree.specs.ConditionRules.{relation_rules, condition_rules};
ghost use Rattle.source_tree.specs.Evaluate as meaning;
ghost use Rattle.source_tree.specs.Places.{LocatedItem};
ghost use Rattle.declarations.specs.Named.{items_in};
ghost use Rattle.declarations.specs.Resolved.{condition_meant, values_meant, question_meant};
ghost use Rattle.condition_codegen.specs.Fragments.{append, sequence, in_order};
ghost use Rattle.condition_codegen.specs.ConditionCode as spec;

use crate::branches::{emit_branch, emit_jump, emit_meeting, emit_way_end};
use crate::condition::{emit_constant, emit_negation};
use crate::emitter::Emitter;
use code_image::Code;
use declarations::{AskedCondition, ObjectRange, Question};
use source_tree::{Choice, Object, Relation, Side, Subject, When};
use std::alloc::AllocError;

impl<'a> Emitter<'a> {
    /// A condition that is asked.
    pub fn emit_asked_condition(
        &self,
        code: &mut Code,
        one: AskedCondition<'_>,
    ) -> Result<(), AllocError>
        requires entries { entry_rules self.now.declarations.now.storage.now ≡ [] }
        requires rules { condition_rules (items_in self.now.declarations.now) (condition_meant one)
            ≡ [] }
        ensures { OnOk result (code.new ≡ append code.old (spec.condition_fragment
            (items_in self.now.declarations.now) (condition_meant one.entry) code.old)) }
    {
        match one {
            AskedCondition::Name { negated, reference } => {
                self.emit_condition_name(code, reference)?;
                emit_negation(code, negated)
            }
            AskedCondition::Other(condition) => self.emit_condition(code, condition),
        }
    }

    /// Whether a value lies from one to another.
    fn emit_between(
        &self,
        code: &mut Code,
        value: &Side,
        first: &Side,
        last: &Side,
    ) -> Result<(), AllocError>
        requires first { relation_rules (items_in self.now.declarations.now) value.now first.now
            ≡ [] }
        requires last { relation_rules (items_in self.now.declarations.now) value.now last.now
            ≡ [] }
        ensures { OnOk result (code.new ≡ append code.old (sequence (spec.relation_fragment
            (items_in self.now.declarations.now) value.now relation.GreaterOrEqual first.now)
            (spec.and_fragment (spec.relation_fragment (items_in self.now.declarations.now)
            value.now relation.LessOrEqual last.now)) code.old)) }
    {
        self.emit_relation(code, value, Relation::GreaterOrEqual, first)?;
        let branch = emit_branch(code)?;
        self.emit_relation(code, value, Relation::LessOrEqual, last)?;
        emit_way_end(code, branch)
    }

    /// Whether a value equals another, or lies from it to the last one.
    fn emit_within(
        &self,
        code: &mut Code,
        value: &Side,
        first: &Side,
        last: &Option<Side>,
    ) -> Result<(), AllocError>
        requires rules { condition_rules (items_in self.now.declarations.now)
            (meaning.value_within value.now first.now last.now) ≡ [] }
        ensures { OnOk result (code.new
            ≡ append code.old (spec.condition_fragment (items_in self.now.declarations.now)
            (meaning.value_within value.now first.now last.now) code.old)) }
    {
        match last {
            None => self.emit_relation(code, value, Relation::Equal, first),
            Some(last) => self.emit_between(code, value, first, last),
        }
    }

    /// Whether a value is one of those that an object names, with NOT or without.
    fn emit_wanted(
        &self,
        code: &mut Code,
        value: &Side,
        wanted: ObjectRange<'_>,
    ) -> Result<(), AllocError>
        requires rules { condition_rules (items_in self.now.declarations.now)
            (meaning.value_condition value.now (values_meant wanted)) ≡ [] }
        ensures { OnOk result (code.new
            ≡ append code.old (spec.condition_fragment (items_in self.now.declarations.now)
            (meaning.value_condition value.now (values_meant wanted.entry)) code.old)) }
    {
        self.emit_within(code, value, wanted.first, wanted.last)?;
        emit_negation(code, wanted.negated)
    }

    /// A condition, or its opposite.
    fn emit_told(
        &self,
        code: &mut Code,
        truth: bool,
        one: AskedCondition<'_>,
    ) -> Result<(), AllocError>
        requires entries { entry_rules self.now.declarations.now.storage.now ≡ [] }
        requires rules { condition_rules (items_in self.now.declarations.now) (condition_meant one)
            ≡ [] }
        ensures { OnOk result (code.new
            ≡ append code.old (spec.condition_fragment (items_in self.now.declarations.now)
            (meaning.condition_or_opposite truth (condition_meant one.entry)) code.old)) }
    {
        self.emit_asked_condition(code, one)?;
        emit_negation(code, !truth)
    }

    /// Two conditions with AND between, or their opposites.
    fn emit_both_told(
        &self,
        code: &mut Code,
        truth: bool,
        one: AskedCondition<'_>,
        other: AskedCondition<'_>,
    ) -> Result<(), AllocError>
        requires entries { entry_rules self.now.declarations.now.storage.now ≡ [] }
        requires one { condition_rules (items_in self.now.declarations.now) (condition_meant one)
            ≡ [] }
        requires other { condition_rules (items_in self.now.declarations.now)
            (condition_meant other) ≡ [] }
        ensures { OnOk result (code.new
            ≡ append code.old (spec.condition_fragment (items_in self.now.declarations.now)
            (All (meaning.condition_or_opposite truth (condition_meant one.entry)
            ∷ meaning.condition_or_opposite truth (condition_meant other.entry) ∷ [])) code.old)) }
    {
        self.emit_told(code, truth, one)?;
        let branch = emit_branch(code)?;
        self.emit_told(code, truth, other)?;
        emit_way_end(code, branch)
    }

    /// Whether two conditions are both true, or neither.
    fn emit_alike(
        &self,
        code: &mut Code,
        one: AskedCondition<'_>,
        other: AskedCondition<'_>,
    ) -> Result<(), AllocError>
        requires entries { entry_rules self.now.declarations.now.storage.now ≡ [] }
        requires one { condition_rules (items_in self.now.declarations.now) (condition_meant one)
            ≡ [] }
        requires other { condition_rules (items_in self.now.declarations.now)
            (condition_meant other) ≡ [] }
        ensures { OnOk result (code.new
            ≡ append code.old (spec.condition_fragment (items_in self.now.declarations.now)
            (meaning.alike (condition_meant one.entry) (condition_meant other.entry)) code.old)) }
    {
        self.emit_both_told(code, true, one, other)?;
        let branch = emit_branch(code)?;
        let second = emit_jump(code)?;
        self.emit_both_told(code, false, one, other)?;
        emit_meeting(code, branch, second)
    }

    /// What an object asks of its subject, once both are looked up.
    fn emit_question(&self, code: &mut Code, one: Question<'_>) -> Result<(), AllocError>
        requires entries { entry_rules self.now.declarations.now.storage.now ≡ [] }
        requires rules { condition_rules (items_in self.now.declarations.now) (question_meant one)
            ≡ [] }
        ensures { OnOk result (code.new ≡ append code.old (spec.condition_fragment
            (items_in self.now.declarations.now) (question_meant one.entry) code.old)) }
    {
        match one {
            Question::Nothing => emit_constant(code, true),
            Question::Within { value, wanted } => self.emit_wanted(code, value, wanted),
            Question::Truths(one, other) => emit_truths(code, one, other),
            Question::Told(truth, one) => self.emit_told(code, truth, one),
            Question::Alike(one, other) => self.emit_alike(code, one, other),
            Question::Unfit => emit_constant(code, false),
        }
    }

    /// What an object asks of its subject.
    fn emit_asked(
        &self,
        code: &mut Code,
        subject: &Subject,
        choice: &Choice,
    ) -> Result<(), AllocError>
        requires entries { entry_rules self.now.declarations.now.storage.now ≡ [] }
        requires rules { condition_rules (items_in self.now.declarations.now)
            (meaning.selection_condition (items_in self.now.declarations.now) subject.now
            choice.now) ≡ [] }
        ensures { OnOk result (code.new ≡ append code.old (spec.condition_fragment
            (items_in self.now.declarations.now) (meaning.selection_condition
            (items_in self.now.declarations.now) subject.now choice.now) code.old)) }
    {
        let question = self.declarations.question(subject, choice);
        self.emit_question(code, question)
    }

    /// What a further object asks of its subject, where the earlier ones are met.
    fn emit_and_asked(
        &self,
        code: &mut Code,
        subject: &Subject,
        choice: &Choice,
    ) -> Result<(), AllocError>
        requires entries { entry_rules self.now.declarations.now.storage.now ≡ [] }
        requires rules { condition_rules (items_in self.now.declarations.now)
            (meaning.selection_condition (items_in self.now.declarations.now) subject.now
            choice.now) ≡ [] }
        ensures { OnOk result
            (code.new ≡ append code.old (spec.and_fragment (spec.condition_fragment
            (items_in self.now.declarations.now) (meaning.selection_condition
            (items_in self.now.declarations.now) subject.now choice.now)) code.old)) }
    {
        let branch = emit_branch(code)?;
        self.emit_asked(code, subject, choice)?;
        emit_way_end(code, branch)
    }

    /// What the further objects of a WHEN ask, subject by subject.
    fn emit_each_asked(
        &self,
        code: &mut Code,
        subjects: &[Subject],
        objects: &[Object],
    ) -> Result<(), AllocError>
        requires entries { entry_rules self.now.declarations.now.storage.now ≡ [] }
        requires rules { each (condition_rules (items_in self.now.declarations.now))
            (meaning.object_conditions (items_in self.now.declarations.now) subjects.now
            objects.now) ≡ [] }
        ensures { OnOk result (code.new ≡ append code.old (in_order (λ (one : Condition).
            spec.and_fragment (spec.condition_fragment (items_in self.now.declarations.now) one))
            (meaning.object_conditions (items_in self.now.declarations.now) subjects.now
            objects.now) code.old)) }
    {
        let mut asking = subjects;
        let mut rest = objects;
        'pairs: while let Some((subject, more)) = asking.split_first() {
            let Some((object, others)) = rest.split_first() else {
                return Ok(());
            };
            self.emit_and_asked(code, subject, &object.choice)?;
            asking = more;
            rest = others;
        }
        Ok(())
    }

    /// Whether all objects of a WHEN are met.
    fn emit_when(
        &self,
        code: &mut Code,
        subjects: &[Subject],
        objects: &[Object],
    ) -> Result<(), AllocError>
        requires entries { entry_rules self.now.declarations.now.storage.now ≡ [] }
        requires rules { each (condition_rules (items_in self.now.declarations.now))
            (meaning.object_conditions (items_in self.now.declarations.now) subjects.now
            objects.now) ≡ [] }
        ensures { OnOk result (code.new ≡ append code.old (spec.condition_fragment
            (items_in self.now.declarations.now) (All (meaning.object_conditions
            (items_in self.now.declarations.now) subjects.now objects.now)) code.old)) }
    {
        let Some((subject, subjects)) = subjects.split_first() else {
            return emit_constant(code, true);
        };
        let Some((object, objects)) = objects.split_first() else {
            return emit_constant(code, true);
        };
        self.emit_asked(code, subject, &object.choice)?;
        self.emit_each_asked(code, subjects, objects)
    }

    /// Whether a further WHEN is met, where no earlier one is.
    fn emit_or_when(
        &self,
        code: &mut Code,
        subjects: &[Subject],
        one: &When,
    ) -> Result<(), AllocError>
        requires entries { entry_rules self.now.declarations.now.storage.now ≡ [] }
        requires rules { each (condition_rules (items_in self.now.declarations.now))
            (meaning.object_conditions (items_in self.now.declarations.now) subjects.now
            one.now.objects) ≡ [] }
        ensures { OnOk result (code.new ≡ append code.old (spec.or_fragment
            (spec.condition_fragment (items_in self.now.declarations.now) (meaning.when_condition
            (items_in self.now.declarations.now) subjects.now one.now)) code.old)) }
    {
        let branch = emit_branch(code)?;
        let other = emit_jump(code)?;
        self.emit_when(code, subjects, one.objects.as_slice())?;
        emit_meeting(code, branch, other)
    }

    /// Whether one of the further WHENs is met.
    fn emit_each_when(
        &self,
        code: &mut Code,
        subjects: &[Subject],
        more: &[When],
    ) -> Result<(), AllocError>
        requires entries { entry_rules self.now.declarations.now.storage.now ≡ [] }
        requires rules { each (λ (one : When).
            each (condition_rules (items_in self.now.declarations.now)) (meaning.object_conditions
            (items_in self.now.declarations.now) subjects.now one.objects)) more.now ≡ [] }
        ensures { OnOk result
            (code.new ≡ append code.old (in_order (λ (one : When). spec.or_fragment
            (spec.condition_fragment (items_in self.now.declarations.now) (meaning.when_condition
            (items_in self.now.declarations.now) subjects.now one))) more.now code.old)) }
    {
        for one in more {
            self.emit_or_when(code, subjects, one)?;
        }
        Ok(())
    }

    /// Whether one of some WHENs is met.
    pub fn emit_whens(
        &self,
        code: &mut Code,
        subjects: &[Subject],
        whens: &[When],
    ) -> Result<(), AllocError>
        requires entries { entry_rules self.now.declarations.now.storage.now ≡ [] }
        requires rules { each (λ (one : When).
            each (condition_rules (items_in self.now.declarations.now)) (meaning.object_conditions
            (items_in self.now.declarations.now) subjects.now one.objects)) whens.now ≡ [] }
        ensures { OnOk result (code.new ≡ append code.old (spec.condition_fragment
            (items_in self.now.declarations.now) (Any (meaning.when_conditions
            (items_in self.now.declarations.now) subjects.now whens.now)) code.old)) }
    {
        let Some((first, more)) = whens.split_first() else {
            return emit_constant(code, false);
        };
        self.emit_when(code, subjects, first.objects.as_slice())?;
        self.emit_each_when(code, subjects, more)
    }
}

/// Whether two truths are the same.
fn emit_truths(code: &mut Code, one: bool, other: bool) -> Result<(), AllocError>
    ensures { (items : List LocatedItem) → OnOk result (code.new
        ≡ append code.old (spec.condition_fragment items
        (meaning.condition_or_opposite one (meaning.constant other)) code.old)) }
{
    emit_constant(code, other)?;
    emit_negation(code, !one)
}
