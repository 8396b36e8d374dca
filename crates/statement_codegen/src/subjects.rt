//! The code that takes the subjects of EVALUATE, for the sake of their faults (COBOL-85, Nucleus, "The EVALUATE statement").

ghost use Rattle.std.specs.Prelude.{◌≡◌, [], OnOk};
ghost use Rattle.std.specs.Option.{option_copied};
ghost use Rattle.source_tree.specs.Broken.{each};
ghost use Rattle.source_tree.specs.Conditions as conditions;
ghost use Rattle.source_tree.specs.ConditionRules.{side_rules};
ghost use Rattle.source_tree.specs.EntryRules.{entry_rules};
ghost use Rattle.source_tree.specs.Evaluate as tree;
ghost use Rattle.source_tree.specs.EvaluateRules.{subject_rules};
ghost use Rattle.declarations.specs.Named.{items_in};
ghost use Rattle.declarations.specs.Resolved.{optional_choice};
ghost use Rattle.condition_codegen.specs.Fragments.{append};
ghost use Rattle.statement_codegen.specs.SubjectCode as spec;

use code_image::Code;
use condition_codegen::{Emitter, alone_side, zero_literal};
use declarations::{ResolvedObject, ResolvedSubject};
use source_tree::{Choice, Evaluate, Object, Relation, Selected, Side, Statement, Subject};
use std::alloc::AllocError;

/// The subjects of EVALUATE are taken, where that isn't done by the first WHEN.
pub fn emit_subjects(
    emitter: &Emitter<'_>,
    code: &mut Code,
    one: &Evaluate<Statement>,
) -> Result<(), AllocError>
    requires entries { entry_rules emitter.now.declarations.now.storage.now ≡ [] }
    requires rules { each (subject_rules (items_in emitter.now.declarations.now)) one.now.subjects
        ≡ [] }
    ensures { OnOk result
        (code.new ≡ append code.old (spec.subjects_fragment (items_in emitter.now.declarations.now)
        one.now.subjects (spec.first_object one.now.selected) code.old)) }
{
    let subjects = one.subjects.as_slice();
    if is_asked_first(emitter, subjects, first_object(one.selected.as_slice())) {
        return Ok(());
    }
    emit_each_subject(emitter, code, subjects)
}

/// A value is a literal, or an item without subscripts.
fn is_at_hand(emitter: &Emitter<'_>, value: &Side) -> bool
    ensures { result ≡ spec.is_at_hand (items_in emitter.now.declarations.now)
        (conditions.alone_side value.now) }
{
    match alone_side(value) {
        Some(one) => emitter.is_operand_at_hand(one),
        None => false,
    }
}

/// A value has no fault: it is a literal, or an item that has no subscripts and isn't numeric.
fn is_faultless(emitter: &Emitter<'_>, value: &Side) -> bool
    ensures { result ≡ spec.is_faultless (items_in emitter.now.declarations.now)
        (conditions.alone_side value.now) }
{
    match alone_side(value) {
        Some(one) => emitter.is_operand_at_hand(one) && !emitter.is_numeric_operand(one),
        None => false,
    }
}

/// An object asks for its subject before it can have a fault of its own that is another one.
fn asks_at_once(emitter: &Emitter<'_>, subject: &Subject, choice: &Choice) -> bool
    ensures { result ≡ spec.asks_at_once (items_in emitter.now.declarations.now)
        (tree.resolved_subject (items_in emitter.now.declarations.now) subject.now)
        (optional_choice (items_in emitter.now.declarations.now) choice.now) }
{
    match (
        emitter.declarations.resolved_subject(subject),
        emitter.declarations.resolved_object(choice),
    ) {
        (ResolvedSubject::Value(_), ResolvedObject::Value(wanted)) => is_at_hand(
            emitter,
            wanted.first,
        ),
        (ResolvedSubject::Condition(_), ResolvedObject::Truth(_) | ResolvedObject::Condition(_)) =>
            { true }
        _ => false,
    }
}

/// The only subject is asked for at once.
fn is_asked_first(emitter: &Emitter<'_>, subjects: &[Subject], object: Option<&Object>) -> bool
    ensures { result ≡ spec.is_asked_first (items_in emitter.now.declarations.now) subjects.now
        (option_copied object.entry) }
{
    match (subjects, object) {
        ([subject], Some(object)) => asks_at_once(emitter, subject, &object.choice),
        _ => false,
    }
}

/// A value is compared with ZERO, if it can have a fault.
fn emit_value_look(emitter: &Emitter<'_>, code: &mut Code, value: &Side) -> Result<(), AllocError>
    requires rules { side_rules (items_in emitter.now.declarations.now) value.now ≡ [] }
    ensures { OnOk result
        (code.new ≡ append code.old (spec.look_fragment (items_in emitter.now.declarations.now)
        (spec.value_look (items_in emitter.now.declarations.now) value.now) code.old)) }
{
    if is_faultless(emitter, value) {
        return Ok(());
    }
    let zero = zero_side();
    let looked = emitter.emit_relation(code, value, Relation::Equal, &zero);
    drop(zero);
    looked
}

/// A subject is taken.
fn emit_subject(emitter: &Emitter<'_>, code: &mut Code, one: &Subject) -> Result<(), AllocError>
    requires entries { entry_rules emitter.now.declarations.now.storage.now ≡ [] }
    requires rules { subject_rules (items_in emitter.now.declarations.now) one.now ≡ [] }
    ensures { OnOk result (code.new ≡ append code.old
        (spec.subject_fragment (items_in emitter.now.declarations.now) one.now code.old)) }
{
    match emitter.declarations.resolved_subject(one) {
        ResolvedSubject::Value(value) => emit_value_look(emitter, code, value),
        ResolvedSubject::Truth(_) => Ok(()),
        ResolvedSubject::Condition(condition) => emitter.emit_asked_condition(code, condition),
    }
}

/// Subjects are taken, in order.
fn emit_each_subject(
    emitter: &Emitter<'_>,
    code: &mut Code,
    all: &[Subject],
) -> Result<(), AllocError>
    requires entries { entry_rules emitter.now.declarations.now.storage.now ≡ [] }
    requires rules { each (subject_rules (items_in emitter.now.declarations.now)) all.now ≡ [] }
    ensures { OnOk result (code.new ≡ append code.old
        (spec.each_subject_fragment (items_in emitter.now.declarations.now) all.now code.old)) }
{
    for one in all {
        emit_subject(emitter, code, one)?;
    }
    Ok(())
}

/// ZERO, with which each value may be compared.
fn zero_side() -> Side
    ensures { result ≡ spec.zero_side }
{
    Side::Literal(zero_literal())
}

/// The first object of the first WHEN.
fn first_object(selected: &[Selected<Statement>]) -> Option<&Object>
    ensures { option_copied result ≡ spec.first_object selected.now }
{
    let group = selected.first()?;
    let when = group.whens.as_slice().first()?;
    when.objects.as_slice().first()
}
