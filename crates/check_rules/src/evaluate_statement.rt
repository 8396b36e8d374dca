//! The rules of EVALUATE: 53 of objects that don't match the subjects, besides those of subjects and of what objects ask of them
//! (COBOL-85, Nucleus, "The EVALUATE statement").

ghost use Rattle.std.specs.Prelude.{◌≡◌, not};
ghost use Rattle.std.specs.Option.{option_map};
ghost use Rattle.entry_rules.specs.Checks.{IsFirstBreach};
ghost use Rattle.source_tree.specs.Broken.{each};
ghost use Rattle.source_tree.specs.ConditionRules.{condition_rules};
ghost use Rattle.source_tree.specs.Evaluate.{value_within};
ghost use Rattle.source_tree.specs.EvaluateRules as spec;
ghost use Rattle.declarations.specs.Named.{items_in};
ghost use Rattle.declarations.specs.Resolved.{condition_meant, question_meant, is_fit, broken_in};

use crate::checker::Checker;
use declarations::{AskedCondition, Question, ResolvedSubject};
use entry_rules::{BrokenRule, Rule};
use source_tree::{Object, Place, Side, Subject, When};

impl<'a> Checker<'a> {
    /// A condition that is asked.
    #[tactic(auto, using(crate::proofs::QuestionLayers::name_told_is))]
    fn asked_condition_rules(&self, one: AskedCondition<'_>) -> Result<(), BrokenRule>
        ensures { IsFirstBreach result
            (condition_rules (items_in self.now.declarations.now) (condition_meant one.entry)) }
    {
        match one {
            AskedCondition::Name { reference, .. } => self.condition_name_rules(reference),
            AskedCondition::Other(condition) => self.condition_rules(condition),
        }
    }

    /// Whether a value equals another, or lies from it to the last one.
    #[tactic(auto, using(crate::proofs::QuestionLayers::one_is, crate::proofs::QuestionLayers::range_is))]
    fn within_rules(
        &self,
        value: &Side,
        first: &Side,
        last: &Option<Side>,
    ) -> Result<(), BrokenRule>
        ensures { IsFirstBreach result (condition_rules (items_in self.now.declarations.now)
            (value_within value.now first.now last.now)) }
    {
        self.relation_rules(value, first)?;
        match last {
            None => Ok(()),
            Some(last) => self.relation_rules(value, last),
        }
    }

    /// What an object asks of its subject.
    #[tactic(auto, using(crate::proofs::QuestionLayers::forms))]
    fn question_rules(&self, one: Question<'_>) -> Result<(), BrokenRule>
        ensures { IsFirstBreach result
            (condition_rules (items_in self.now.declarations.now) (question_meant one.entry)) }
    {
        match one {
            Question::Within { value, wanted } => {
                self.within_rules(value, wanted.first, wanted.last)
            }
            Question::Told(_, one) => self.asked_condition_rules(one),
            Question::Alike(one, other) => {
                self.asked_condition_rules(one)?;
                self.asked_condition_rules(other)
            }
            Question::Nothing => Ok(()),
            Question::Truths(_, _) => Ok(()),
            Question::Unfit => Ok(()),
        }
    }

    /// An object and its subject.
    fn object_rules(&self, subject: &Subject, object: &Object) -> Result<(), BrokenRule>
        ensures { IsFirstBreach result
            (spec.object_rules (items_in self.now.declarations.now) subject.now object.now) }
    {
        let question = self.declarations.question(subject, &object.choice);
        Rule::Object.broken_if(is_unfit(question), object.place)?;
        told_at(object.place, self.question_rules(question))
    }

    /// Objects, subject by subject.
    #[tactic(auto, using(crate::proofs::QuestionLayers::none_left))]
    fn objects_rules(&self, subjects: &[Subject], objects: &[Object]) -> Result<(), BrokenRule>
        ensures { IsFirstBreach result
            (spec.objects_rules (items_in self.now.declarations.now) subjects.now objects.now) }
    {
        let mut asking = subjects;
        let mut rest = objects;
        'pairs: while let [subject, subjects @ ..] = asking {
            let [object, objects @ ..] = rest else {
                return Ok(());
            };
            self.object_rules(subject, object)?;
            asking = subjects;
            rest = objects;
        }
        Ok(())
    }

    /// A WHEN: it has as many objects as there are subjects.
    fn when_rules(&self, subjects: &[Subject], one: &When) -> Result<(), BrokenRule>
        ensures { IsFirstBreach result
            (spec.when_rules (items_in self.now.declarations.now) subjects.now one.now) }
    {
        let objects = one.objects.as_slice();
        Rule::Object.broken_if(objects.len() != subjects.len(), one.place)?;
        self.objects_rules(subjects, objects)
    }

    /// WHENs, in order.
    pub(crate) fn whens_rules(&self, subjects: &[Subject], all: &[When]) -> Result<(), BrokenRule>
        ensures { IsFirstBreach result
            (each (spec.when_rules (items_in self.now.declarations.now) subjects.now) all.now) }
    {
        for one in all {
            self.when_rules(subjects, one)?;
        }
        Ok(())
    }

    /// A subject: a value by itself, or a condition.
    fn subject_rules(&self, one: &Subject) -> Result<(), BrokenRule>
        ensures { IsFirstBreach result
            (spec.subject_rules (items_in self.now.declarations.now) one.now) }
    {
        match self.declarations.resolved_subject(one) {
            ResolvedSubject::Value(side) => self.side_rules(side),
            ResolvedSubject::Truth(_) => Ok(()),
            ResolvedSubject::Condition(condition) => self.asked_condition_rules(condition),
        }
    }

    /// Subjects, in order.
    pub(crate) fn subjects_rules(&self, all: &[Subject]) -> Result<(), BrokenRule>
        ensures { IsFirstBreach result
            (each (spec.subject_rules (items_in self.now.declarations.now)) all.now) }
    {
        for one in all {
            self.subject_rules(one)?;
        }
        Ok(())
    }
}

/// A comparison that isn't permitted is told where the object begins.
fn told_at(place: Place, found: Result<(), BrokenRule>) -> Result<(), BrokenRule>
    ensures { broken_in result ≡ option_map (spec.at_object place) (broken_in found) }
{
    match found {
        Err(
            BrokenRule {
                rule: Rule::Comparison,
                ..
            },
        ) => Err(BrokenRule {
            rule: Rule::Comparison,
            place,
        }),
        other => other,
    }
}

/// The object doesn't fit its subject.
fn is_unfit(one: Question<'_>) -> bool
    ensures { result ≡ not (is_fit one.entry) }
{
    matches!(one, Question::Unfit)
}
