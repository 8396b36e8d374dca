//! What the subjects and objects of EVALUATE are once their names are looked up, and what an object asks of its subject (COBOL-85,
//! Nucleus, "The EVALUATE statement").

ghost use Rattle.std.specs.Prelude.{◌≡◌};
ghost use Rattle.std.specs.Option.{option_copied};
ghost use Rattle.source_tree.specs.Conditions as conditions;
ghost use Rattle.source_tree.specs.Evaluate as tree;
ghost use Rattle.source_tree.specs.LookUp.{conditions_named};
ghost use Rattle.declarations.specs.Named.{items_in};
ghost use Rattle.declarations.specs.Resolved as spec;

use crate::alone::operand_alone;
use crate::declarations::Declarations;
use name_table::LookUp;
use source_tree::{Choice, Condition, Operand, QualifiedName, Reference, Side, Subject};

/// A condition that a subject or an object is.
#[derive(Clone, Copy)]
pub enum AskedCondition<'a> {
    /// A condition name, with NOT or without.
    Name {
        negated: bool,
        reference: &'a Reference,
    },
    /// Another one.
    Other(&'a Condition),
}

/// The values that an object names.
#[derive(Clone, Copy)]
pub struct ObjectRange<'a> {
    pub negated: bool,
    pub first: &'a Side,
    pub last: &'a Option<Side>,
}

/// A selection subject.
#[derive(Clone, Copy)]
pub enum ResolvedSubject<'a> {
    Value(&'a Side),
    Truth(bool),
    Condition(AskedCondition<'a>),
}

/// What a selection object names.
#[derive(Clone, Copy)]
pub enum ResolvedObject<'a> {
    Any,
    Value(ObjectRange<'a>),
    Truth(bool),
    Condition(AskedCondition<'a>),
}

/// What an object asks of its subject.
#[derive(Clone, Copy)]
pub enum Question<'a> {
    /// Nothing: it is ANY.
    Nothing,
    /// That a value is one of those.
    Within {
        value: &'a Side,
        wanted: ObjectRange<'a>,
    },
    /// That two truths are the same.
    Truths(bool, bool),
    /// That a condition has a truth.
    Told(bool, AskedCondition<'a>),
    /// That two conditions are both true, or neither.
    Alike(AskedCondition<'a>, AskedCondition<'a>),
    /// A value of what is none, or the other way round.
    Unfit,
}

/// The reference that a side is, if it is one alone.
fn item_alone(one: &Side) -> Option<&Reference>
    ensures { option_copied result ≡ spec.item_of (conditions.alone_side one.now) }
{
    match one {
        Side::Expression(expression) => match operand_alone(expression) {
            Some(Operand::Item(reference)) => Some(reference),
            _ => None,
        },
        Side::Literal(_) => None,
    }
}

/// What an object asks of its subject, when both are looked up.
fn question_of<'a>(subject: ResolvedSubject<'a>, object: ResolvedObject<'a>) -> Question<'a>
    ensures asked { spec.question_meant result ≡ spec.optional_condition
        (spec.subject_meant subject.entry) (spec.object_meant object.entry) }
    ensures fit { spec.is_fit result
        ≡ spec.fits_optional (spec.subject_meant subject.entry) (spec.object_meant object.entry) }
{
    match (subject, object) {
        (_, ResolvedObject::Any) => Question::Nothing,
        (ResolvedSubject::Value(value), ResolvedObject::Value(wanted)) => {
            Question::Within { value, wanted }
        }
        (ResolvedSubject::Truth(one), ResolvedObject::Truth(other)) => Question::Truths(one, other),
        (ResolvedSubject::Truth(truth), ResolvedObject::Condition(one)) => Question::Told(
            truth, one,
        ),
        (ResolvedSubject::Condition(one), ResolvedObject::Truth(truth)) => Question::Told(
            truth, one,
        ),
        (ResolvedSubject::Condition(one), ResolvedObject::Condition(other)) => {
            Question::Alike(one, other)
        }
        _ => Question::Unfit,
    }
}

impl<'a> Declarations<'a> {
    /// Some condition is called so.
    fn is_condition(&self, name: &QualifiedName) -> bool
        ensures { result ≡ spec.are_some (conditions_named (items_in self.now) name.now) }
    {
        name_table::conditions_named();
        match self.conditions.names.look_up(name) {
            LookUp::Unknown => false,
            LookUp::One(_) => true,
            LookUp::Several => true,
        }
    }

    /// The condition name that a side is, if it is one alone.
    fn condition_alone<'b>(&self, one: &'b Side) -> Option<&'b Reference>
        ensures { option_copied result
            ≡ spec.condition_alone (items_in self.now) (conditions.alone_side one.now) }
    {
        match item_alone(one) {
            Some(reference) if self.is_condition(&reference.item) => Some(reference),
            _ => None,
        }
    }

    /// What a subject is.
    #[tactic(auto, using(crate::proofs::Looking::operand_is))]
    pub fn resolved_subject<'b>(&self, one: &'b Subject) -> ResolvedSubject<'b>
        ensures { spec.subject_meant result ≡ tree.resolved_subject (items_in self.now) one.now }
    {
        match one {
            Subject::Value(side) => match self.condition_alone(side) {
                Some(reference) => ResolvedSubject::Condition(AskedCondition::Name {
                    negated: false,
                    reference,
                }),
                None => ResolvedSubject::Value(side),
            },
            Subject::Condition(condition) => {
                ResolvedSubject::Condition(AskedCondition::Other(condition))
            }
            Subject::Truth(truth) => ResolvedSubject::Truth(*truth),
        }
    }

    /// What an object's value is; with THRU it names values alone.
    #[tactic(auto, using(crate::proofs::Looking::operand_is))]
    fn resolved_values<'b>(&self, one: ObjectRange<'b>) -> ResolvedObject<'b>
        ensures { spec.object_meant result
            ≡ spec.optional_values (items_in self.now) (spec.values_meant one.entry) }
    {
        match (one.last, self.condition_alone(one.first)) {
            (None, Some(reference)) => ResolvedObject::Condition(AskedCondition::Name {
                negated: one.negated,
                reference,
            }),
            _ => ResolvedObject::Value(one),
        }
    }

    /// What an object names.
    pub fn resolved_object<'b>(&self, one: &'b Choice) -> ResolvedObject<'b>
        ensures { spec.object_meant result ≡ spec.optional_choice (items_in self.now) one.now }
    {
        match one {
            Choice::Any => ResolvedObject::Any,
            Choice::Value {
                negated,
                first,
                last,
            } => self.resolved_values(ObjectRange {
                negated: *negated,
                first,
                last,
            }),
            Choice::Condition(condition) => {
                ResolvedObject::Condition(AskedCondition::Other(condition))
            }
            Choice::Truth(truth) => ResolvedObject::Truth(*truth),
        }
    }

    /// What an object asks of its subject.
    #[tactic(auto, using(crate::proofs::Looking::asked_is, crate::proofs::Looking::fits_is))]
    pub fn question<'b>(&self, subject: &'b Subject, choice: &'b Choice) -> Question<'b>
        ensures asked { spec.question_meant result
            ≡ tree.selection_condition (items_in self.now) subject.now choice.now }
        ensures fit { spec.is_fit result ≡ tree.fits (items_in self.now) subject.now choice.now }
    {
        question_of(self.resolved_subject(subject), self.resolved_object(choice))
    }
}
