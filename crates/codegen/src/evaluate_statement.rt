//! The code of EVALUATE (COBOL-85, Nucleus, "The EVALUATE statement").

ghost use Rattle.std.specs.Prelude.{◌≡◌, [], IfOk, OnOk};
ghost use Rattle.source_tree.specs.Broken.{each};
ghost use Rattle.source_tree.specs.EntryRules.{entry_rules};
ghost use Rattle.source_tree.specs.Evaluate.{selected_condition};
ghost use Rattle.source_tree.specs.EvaluateRules.{selected_rules};
ghost use Rattle.source_tree.specs.Rules as rules;
ghost use Rattle.source_tree.specs.Rules.{all_permitted};
ghost use Rattle.declarations.specs.Named.{items_in, scope_in};
ghost use Rattle.condition_codegen.specs.Fragments.{append, in_order};
ghost use Rattle.condition_codegen.specs.ConditionCode.{condition_fragment};
ghost use Rattle.codegen.specs.Layout.{evaluate_fragment, statement_fragment};
ghost use Rattle.codegen.specs.Phrases.{Opens};
ghost use Rattle.codegen.specs.EvaluateCode.{OpensAll};

use crate::emit::{emit_phrase, emit_statements};
use crate::phrases::{Way, emit_meetings};
use code_image::Code;
use condition_codegen::{Emitter, emit_branch, emit_jump};
use source_tree::{Evaluate, Selected, Statement, Subject};
use statement_codegen::emit_subjects;
use std::alloc::AllocError;

/// The subjects, the groups of WHENs, and OTHER; all ways meet after it.
#[cycle(statement)]
pub(crate) fn emit_evaluate(
    emitter: &Emitter<'_>,
    code: &mut Code,
    one: &Evaluate<Statement>,
) -> Result<(), AllocError>
    requires entries { entry_rules emitter.now.declarations.now.storage.now ≡ [] }
    requires rules { rules.evaluate_rules (items_in emitter.now.declarations.now)
        (rules.statement_rules (scope_in emitter.now.declarations.now) all_permitted) one.now
        ≡ [] }
    ensures { OnOk result
        (code.new ≡ append code.old (evaluate_fragment (scope_in emitter.now.declarations.now)
        (statement_fragment (scope_in emitter.now.declarations.now)) one.now code.old)) }
{
    emit_subjects(emitter, code, one)?;
    let ways = emit_groups(
        emitter,
        code,
        one.subjects.as_slice(),
        one.selected.as_slice(),
    )?;
    emit_phrase(emitter, code, &one.other)?;
    emit_meetings(code, ways)
}

/// The condition of a group of WHENs, and its statements. Answers where the way that skips them isn't known yet.
#[cycle(statement)]
fn emit_selected(
    emitter: &Emitter<'_>,
    code: &mut Code,
    subjects: &[Subject],
    one: &Selected<Statement>,
) -> Result<Way, AllocError>
    requires entries { entry_rules emitter.now.declarations.now.storage.now ≡ [] }
    requires rules { selected_rules (items_in emitter.now.declarations.now) (rules.statement_rules
        (scope_in emitter.now.declarations.now) all_permitted) subjects.now one.now ≡ [] }
    ensures { IfOk result (λ way. Opens (condition_fragment (items_in emitter.now.declarations.now)
        (selected_condition (items_in emitter.now.declarations.now) subjects.now one.now))
        (in_order (statement_fragment (scope_in emitter.now.declarations.now)) one.now.statements)
        code.old code.new way) }
{
    emitter.emit_whens(code, subjects, one.whens.as_slice())?;
    let branch = emit_branch(code)?;
    emit_statements(emitter, code, one.statements.as_slice())?;
    let other = emit_jump(code)?;
    Ok(Way { branch, other })
}

/// Each group of WHENs in turn. Answers where the ways that skip their statements aren't known yet.
#[cycle(statement)]
fn emit_groups(
    emitter: &Emitter<'_>,
    code: &mut Code,
    subjects: &[Subject],
    selected: &[Selected<Statement>],
) -> Result<Vec<Way>, AllocError>
    requires entries { entry_rules emitter.now.declarations.now.storage.now ≡ [] }
    requires rules { each (selected_rules (items_in emitter.now.declarations.now)
        (rules.statement_rules (scope_in emitter.now.declarations.now) all_permitted) subjects.now)
        selected.now ≡ [] }
    ensures { IfOk result (λ ways. OpensAll (scope_in emitter.now.declarations.now)
        (statement_fragment (scope_in emitter.now.declarations.now)) subjects.now selected.now
        code.old code.new ways.items) }
{
    let mut ways = Vec::new(emitter.alloc);
    for one in selected {
        let way = emit_selected(emitter, code, subjects, one)?;
        ways.push(way)?;
    }
    Ok(ways)
}
